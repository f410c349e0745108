//! The topics of each connection.

ghost use Rattle.std.specs.Prelude.{◌≡◌, ◌≤◌, ◌++◌, [], ◌∷◌, length, OnOk, OnErr};
ghost use Rattle.topic_tree.specs.Topics.{ChangesTopics};
ghost use Rattle.ws_kinds.specs.Topics.{topics_of, has_topic, without_topic};

use crate::topic_list::TopicList;
use std::alloc::{AllocError, Global};
use std::collections::BTreeMap;
use std::marker::Model;
use ws_kinds::Conn;

/// The topics of each connection, in the order of its subscribing.
#[derive(Drop)]
pub struct Subscriptions {
    alloc: Global,
    lists: BTreeMap<u64, TopicList>,
}

impl Model for Subscriptions {
    ghost use Rattle.std.specs.Prelude.{ℕ, List};
    ghost use Rattle.std.specs.Ordering.{nat_cmp};
    ghost use Rattle.std.specs.BTreeMap.{IsOrdered};
    ghost use Rattle.topic_tree.specs.Subscriptions.{pairs_of};

    ghost Value = { List (ℕ × List ℕ) };

    ghost view = { λ subscriptions. pairs_of subscriptions.lists.entries };

    ghost invariant = { λ subscriptions. IsOrdered nat_cmp subscriptions.lists };
}

impl Subscriptions {
    /// No subscriptions.
    pub fn new(alloc: Global) -> Subscriptions
        ensures { result ≡ [] }
    {
        Subscriptions {
            alloc,
            lists: BTreeMap::new(alloc),
        }
    }

    /// How many topics a connection has.
    pub fn count(&self, conn: Conn) -> usize
        ensures { result ≡ length (topics_of self.now conn.0) }
    {
        match self.lists.get(&conn.0) {
            Some(list) => list.count(),
            None => 0,
        }
    }

    /// Whether a connection has the topic.
    pub fn has(&self, conn: Conn, topic: &[u8]) -> bool
        ensures { result ≡ has_topic topic.now (topics_of self.now conn.0) }
    {
        match self.lists.get(&conn.0) {
            Some(list) => list.has(topic),
            None => false,
        }
    }

    /// A topic more for a connection, of at most 64 octets, behind its others. An error says that there was too little memory,
    /// and leaves all as it was.
    pub fn add(&mut self, conn: Conn, topic: &[u8]) -> Result<(), AllocError>
        requires { length topic.now ≤ 64 }
        ensures added { OnOk result (ChangesTopics conn.0 (λ topics. topics ++ topic.now ∷ []) self.old self.new) }
        ensures refused { OnErr result (self.new ≡ self.old) }
    {
        match self.lists.get_mut(&conn.0) {
            Some(list) => list.push(topic),
            None => self.begin(conn, topic),
        }
    }

    /// The first topic of a connection, of at most 64 octets. An error says that there was too little memory, and leaves all as
    /// it was.
    fn begin(&mut self, conn: Conn, topic: &[u8]) -> Result<(), AllocError>
        requires none { topics_of self.old conn.0 ≡ [] }
        requires short { length topic.now ≤ 64 }
        ensures added { OnOk result (ChangesTopics conn.0 (λ topics. topics ++ topic.now ∷ []) self.old self.new) }
        ensures refused { OnErr result (self.new ≡ self.old) }
    {
        let mut list = TopicList::new(self.alloc);
        list.push(topic)?;
        match self.lists.insert(conn.0, list) {
            Ok(_) => Ok(()),
            Err(_) => Err(AllocError),
        }
    }

    /// A connection has the topic no more.
    pub fn remove(&mut self, conn: Conn, topic: &[u8])
        ensures { ChangesTopics conn.0 (without_topic topic.now) self.old self.new }
    {
        let Some(list) = self.lists.get_mut(&conn.0) else {
            return;
        };
        list.remove(topic);
    }

    /// The topics of a connection, which has none from now on.
    pub fn take(&mut self, conn: Conn) -> TopicList
        ensures value { result ≡ topics_of self.old conn.0 }
        ensures others { ChangesTopics conn.0 (λ _. []) self.old self.new }
    {
        if let Some(list) = self.lists.remove(&conn.0) {
            return list;
        }
        TopicList::new(self.alloc)
    }
}
