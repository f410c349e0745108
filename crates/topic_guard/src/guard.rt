//! A guard that keeps a boxed test.

ghost use Rattle.std.specs.Prelude.{◌≡◌, ◌<◌, ◌≤◌, length};
ghost use Rattle.topic_guard.specs.Admits.{admits};

use crate::TopicRule;

/// A test of topics.
pub type Test = Box<dyn Fn(&[u8]) -> bool>;

/// A rule, with a test that answers by it on every topic of 1 to 64 octets.
///
/// That the test may be called there, and answers so, is kept beside it as facts.
#[derive(Drop)]
pub struct TopicGuard {
    rule: TopicRule,
    test: Test,
    ghost callable: { (topic : _) → 0 < length topic.now → length topic.now ≤ 64 → Test.pre test topic },
    ghost answers: { (topic : _) (answer : _) → 0 < length topic.now → length topic.now ≤ 64
        → Test.post test topic answer → answer ≡ admits rule topic.now },
}

impl TopicGuard {
    /// Keeps a rule and its test, which may be called on every topic of 1 to 64 octets and answers there whether the rule
    /// admits it.
    pub fn new(rule: TopicRule, test: Test) -> TopicGuard
        requires callable { (topic : _) → 0 < length topic.now → length topic.now ≤ 64 → Test.pre test topic }
        requires answers { (topic : _) (answer : _) → 0 < length topic.now → length topic.now ≤ 64
            → Test.post test topic answer → answer ≡ admits rule topic.now }
        ensures { result.rule ≡ rule }
    {
        TopicGuard { rule, test }
    }

    /// Whether the topic, of 1 to 64 octets, may be subscribed to, as the stored test answers.
    pub fn allows(&self, topic: &[u8]) -> bool
        requires some { 0 < length topic.now }
        requires short { length topic.now ≤ 64 }
        ensures { result ≡ admits self.now.rule topic.now }
    {
        (self.test)(topic)
    }
}
