//! The topics of one connection.

ghost use Rattle.std.specs.Prelude.{◌≡◌, ◌<◌, ◌≤◌, ◌++◌, [], ◌∷◌, Some, length, slice_get, OnOk, OnErr};
ghost use Rattle.std.specs.Str.{bytes_eq};
ghost use Rattle.std.specs.List.{list_any};
ghost use Rattle.ws_kinds.specs.Topics.{has_topic, without_topic};

use std::alloc::{AllocError, Global};
use std::marker::Model;
use ws_kinds::Name;

/// The topics of one connection, in the order of its subscribing.
#[derive(Drop)]
pub struct TopicList {
    topics: Vec<Name>,
}

impl Model for TopicList {
    ghost use Rattle.std.specs.Prelude.{ℕ, List, map};

    ghost Value = { List (List ℕ) };

    ghost view = { λ list. map (λ topic. topic.items) list.topics.items };
}

impl TopicList {
    /// No topics.
    pub fn new(alloc: Global) -> TopicList
        ensures { result ≡ [] }
    {
        TopicList {
            topics: Vec::new(alloc),
        }
    }

    /// How many topics there are.
    pub fn count(&self) -> usize
        ensures { result ≡ length self.now }
    {
        self.topics.len()
    }

    /// The topic at a place, counted from 0.
    pub fn at(&self, place: usize) -> &[u8]
        requires { place < length self.now }
        ensures topic { slice_get self.now place ≡ Some result.now }
        ensures short { length result.now ≤ 64 }
    {
        self.topics[place].as_slice()
    }

    /// Whether the topic is there.
    pub fn has(&self, topic: &[u8]) -> bool
        ensures { result ≡ has_topic topic.now self.now }
    {
        is_among(&self.topics, topic)
    }

    /// A topic more, of at most 64 octets, at the end. An error says that there was too little memory, and changes nothing.
    pub fn push(&mut self, topic: &[u8]) -> Result<(), AllocError>
        requires { length topic.now ≤ 64 }
        ensures pushed { OnOk result (self.new ≡ self.old ++ topic.now ∷ []) }
        ensures refused { OnErr result (self.new ≡ self.old) }
    {
        match Name::try_from(topic) {
            Ok(name) => push_name(&mut self.topics, name),
            Err(_) => unreachable!(),
        }
    }

    /// Takes the topic away, wherever it stands.
    pub fn remove(&mut self, topic: &[u8])
        ensures { self.new ≡ without_topic topic.now self.old }
    {
        self.topics.retain(|other| !is_named(other, topic));
    }
}

/// A name more, at the end. An error says that there was too little memory, and changes nothing.
fn push_name(names: &mut Vec<Name>, name: Name) -> Result<(), AllocError>
    ensures pushed { OnOk result (names.new.items ≡ names.old.items ++ name ∷ []) }
    ensures refused { OnErr result (names.new.items ≡ names.old.items) }
{
    names.push(name)?;
    Ok(())
}

/// Whether this is the topic's name.
pub fn is_named(name: &Name, topic: &[u8]) -> bool
    ensures { result ≡ bytes_eq topic.now name.now.items }
{
    topic == name.as_slice()
}

/// Whether the topic's name is among these.
fn is_among(names: &[Name], topic: &[u8]) -> bool
    ensures { result ≡ list_any (λ name. bytes_eq topic.now name.items) names.now }
{
    names.iter().any(|name| is_named(name, topic))
}
