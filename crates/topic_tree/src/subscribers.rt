//! The subscribers of each topic, in ascending order.

ghost use Rattle.std.specs.Prelude.{◌≡◌, ◌≤◌, ◌&&◌, ◌||◌, ℕ, List, false, not, nat_eq, length, OnOk, OnErr, IfSome, IfNone};
ghost use Rattle.std.specs.Str.{bytes_eq};
ghost use Rattle.topic_tree.specs.Topics.{IsNext, IsLast};
ghost use Rattle.topic_tree.specs.Subscribers.{has_subscriber, subscriber};

use crate::topic_list::is_named;
use std::alloc::{AllocError, Global};
use std::collections::BTreeSet;
use std::ops::Bound;
use ws_kinds::{Conn, Name};

/// A subscriber of a topic. They are ordered by their topics, and those of one topic by their numbers.
#[derive(PartialEq, Eq, PartialOrd, Ord, Drop)]
pub struct Subscriber {
    topic: Name,
    conn: u64,
}

/// The subscribers of each topic.
#[derive(Drop)]
pub struct Subscribers {
    all: BTreeSet<Subscriber>,
}

impl Subscribers {
    /// No subscribers.
    pub fn new(alloc: Global) -> Subscribers
        ensures { (topic : List ℕ) (conn : ℕ) → has_subscriber result topic conn ≡ false }
    {
        Subscribers {
            all: BTreeSet::new(alloc),
        }
    }

    /// Adds a subscriber of a topic of at most 64 octets. An error says that there was too little memory, and leaves all as it
    /// was.
    pub fn add(&mut self, topic: &[u8], conn: Conn) -> Result<(), AllocError>
        requires { length topic.now ≤ 64 }
        ensures added { OnOk result ((t : List ℕ) (c : ℕ) → has_subscriber self.new t c ≡ (nat_eq conn.0 c && bytes_eq topic.now t || has_subscriber self.old t c)) }
        ensures refused { OnErr result ((t : List ℕ) (c : ℕ) → has_subscriber self.new t c ≡ has_subscriber self.old t c) }
    {
        match self.all.insert(subscriber_of(topic, conn)) {
            Ok(_) => Ok(()),
            Err(_) => Err(AllocError),
        }
    }

    /// Takes a subscriber of a topic of at most 64 octets away, where it is there.
    pub fn remove(&mut self, topic: &[u8], conn: Conn)
        requires { length topic.now ≤ 64 }
        ensures { (t : List ℕ) (c : ℕ) → has_subscriber self.new t c ≡ (not (nat_eq conn.0 c && bytes_eq topic.now t) && has_subscriber self.old t c) }
    {
        self.all.remove(&subscriber_of(topic, conn));
    }

    /// The least subscriber of a topic of at most 64 octets that is greater than `after`.
    pub fn next(&self, topic: &[u8], after: Conn) -> Option<Conn>
        requires { length topic.now ≤ 64 }
        ensures some { IfSome result (λ conn. IsNext (has_subscriber self.now topic.now) after.0 conn.0) }
        ensures none { IfNone result (IsLast (has_subscriber self.now topic.now) after.0) }
    {
        let above = Bound::Excluded(subscriber_of(topic, after));
        let Some(following) = self.all.range((above, Bound::Unbounded)).next() else {
            return None;
        };
        if !is_named(&following.topic, topic) {
            return None;
        }
        Some(Conn(following.conn))
    }
}

/// A connection as a subscriber of a topic of at most 64 octets.
fn subscriber_of(topic: &[u8], conn: Conn) -> Subscriber
    requires { length topic.now ≤ 64 }
    ensures { result ≡ subscriber topic.now conn.0 }
{
    match Name::try_from(topic) {
        Ok(topic) => Subscriber {
            topic,
            conn: conn.0,
        },
        Err(_) => unreachable!(),
    }
}
