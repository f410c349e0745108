//! Rules on topics.

ghost use Rattle.std.specs.Prelude.{◌≡◌};
ghost use Rattle.topic_guard.specs.Admits.{admits};

use ws_kinds::Name;

/// Which topics may be subscribed to.
#[derive(Drop)]
pub enum TopicRule {
    /// Every topic.
    All,
    /// Those that begin with the name.
    Only(Name),
    /// Those that do not begin with the name.
    Except(Name),
}

impl TopicRule {
    /// Whether the rule admits the topic. Every topic begins with an empty name, and none with a name that is longer.
    pub fn admits(&self, topic: &[u8]) -> bool
        ensures { result ≡ admits self.now topic.now }
    {
        match self {
            TopicRule::All => true,
            TopicRule::Only(name) => topic.starts_with(name.as_slice()),
            TopicRule::Except(name) => !topic.starts_with(name.as_slice()),
        }
    }
}
