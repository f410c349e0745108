//! Who subscribed to which topics.

ghost use Rattle.std.specs.Prelude.{◌≡◌, ◌≤◌, ◌<◌, [], ◌↔◌, ◌⊎◌, ◌&&◌, ℕ, List, Ok, Err, true, false, not, nat_eq, length, IfOk, IfErr, OnOk, OnErr, IfSome, IfNone};
ghost use Rattle.topic_tree.specs.Topics.{ChangesTopics, IsNext, IsLast};
ghost use Rattle.ws_kinds.specs.Topics.{topics_of, has_topic, is_pair, with_topic, without_topic};
ghost use Rattle.topic_tree.specs.Pairs.{AreTopics};
ghost use Rattle.topic_tree.specs.Subscribers.{has_subscriber};

use crate::subscribers::Subscribers;
use crate::subscriptions::Subscriptions;
use crate::topic_list::TopicList;
use std::alloc::Global;
use std::marker::Model;
use ws_kinds::{Conn, Why};

/// How many topics one connection can have.
const MAX_TOPICS: usize = 64;

/// How many octets a topic can have.
const MAX_OCTETS: usize = 64;

/// Who subscribed to which topics: pairs of a connection and a topic, at most 64 for a connection. Contracts see it as the list
/// of the pairs, in which each connection's topics stand in the order of its subscribing.
///
/// Each call costs the logarithm of how many pairs there are, and `drop_conn` that much for each pair of the connection. Only
/// `subscribe` takes memory.
#[derive(Drop)]
pub struct Topics {
    subscriptions: Subscriptions,
    subscribers: Subscribers,
}

impl Model for Topics {
    ghost use Rattle.std.specs.Prelude.{ℕ, List};
    ghost use Rattle.topic_tree.specs.Pairs.{AreThePairs};

    ghost Value = { List (ℕ × List ℕ) };

    ghost view = { λ topics. topics.subscriptions };

    ghost invariant = { λ topics. AreThePairs topics.subscriptions topics.subscribers };
}

impl Topics {
    /// Nobody subscribed to anything.
    pub fn new(alloc: Global) -> Topics
        ensures { result ≡ [] }
    {
        Topics {
            subscriptions: Subscriptions::new(alloc),
            subscribers: Subscribers::new(alloc),
        }
    }

    /// Subscribes a connection to a topic, which comes behind the connection's other topics. The answer is whether the pair is
    /// new; where it was there, nothing changes.
    ///
    /// It is refused, and nothing changes, as `TooMany` exactly where the pair is not there and the connection has 64 topics,
    /// and as `Memory` where the pair is not there and there was too little for it.
    pub fn subscribe(&mut self, conn: Conn, topic: &[u8]) -> Result<bool, Why>
        requires { (1 ≤ length topic.now) × (length topic.now ≤ 64) }
        ensures is_new { IfOk result (λ is_new. is_new ≡ not (is_pair self.old topic.now conn.0)) }
        ensures topics { OnOk result (ChangesTopics conn.0 (with_topic topic.now) self.old self.new) }
        ensures there { result ≡ Ok false → self.new ≡ self.old }
        ensures refused { OnErr result (self.new ≡ self.old) }
        ensures reasons { IfErr result (λ why. (why ≡ Why.TooMany) ⊎ (why ≡ Why.Memory)) }
        ensures memory { result ≡ Err Why.Memory → is_pair self.old topic.now conn.0 ≡ false }
        ensures too_many { (result ≡ Err Why.TooMany) ↔ ((is_pair self.old topic.now conn.0 ≡ false) × (64 ≤ length (topics_of self.old conn.0))) }
    {
        if self.subscriptions.has(conn, topic) {
            return Ok(false);
        }
        if self.subscriptions.count(conn) >= MAX_TOPICS {
            return Err(Why::TooMany);
        }
        if self.subscribers.add(topic, conn).is_err() {
            return Err(Why::Memory);
        }
        if self.subscriptions.add(conn, topic).is_err() {
            self.subscribers.remove(topic, conn);
            return Err(Why::Memory);
        }
        Ok(true)
    }

    /// Ends the subscription of a connection to a topic. The answer is whether the pair was there.
    pub fn unsubscribe(&mut self, conn: Conn, topic: &[u8]) -> bool
        ensures there { result ≡ is_pair self.old topic.now conn.0 }
        ensures topics { ChangesTopics conn.0 (without_topic topic.now) self.old self.new }
    {
        if !self.subscriptions.has(conn, topic) {
            return false;
        }
        self.subscribers.remove(topic, conn);
        self.subscriptions.remove(conn, topic);
        true
    }

    /// Ends all subscriptions of a connection.
    pub fn drop_conn(&mut self, conn: Conn)
        ensures { ChangesTopics conn.0 (λ _. []) self.old self.new }
    {
        let topics = self.subscriptions.take(conn);
        remove_each(&mut self.subscribers, &topics, conn);
    }

    /// The least connection above `after` that subscribed to the topic. None exactly where there is none.
    pub fn next(&self, topic: &[u8], after: Conn) -> Option<Conn>
        ensures some { IfSome result (λ conn. IsNext (is_pair self.now topic.now) after.0 conn.0) }
        ensures none { IfNone result (IsLast (is_pair self.now topic.now) after.0) }
    {
        let _ = &self.subscriptions;
        if topic.len() > MAX_OCTETS {
            return None;
        }
        self.subscribers.next(topic, after)
    }

    /// How many topics the connection subscribed to: at most 64, each of them once.
    pub fn count(&self, conn: Conn) -> usize
        ensures count { result ≡ length (topics_of self.now conn.0) }
        ensures topics { AreTopics (topics_of self.now conn.0) }
    {
        self.subscriptions.count(conn)
    }
}

/// Takes a connection away from the subscribers of each of these topics.
fn remove_each(subscribers: &mut Subscribers, topics: &TopicList, conn: Conn)
    ensures { (t : List ℕ) (c : ℕ) → has_subscriber subscribers.new t c ≡ (not (nat_eq conn.0 c && has_topic t topics.now) && has_subscriber subscribers.old t c) }
{
    'walk: for place in 0..topics.count() {
        subscribers.remove(topics.at(place), conn);
    }
}
