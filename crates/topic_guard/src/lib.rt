//! Which topics may be subscribed to: a rule, and a guard whose stored test answers by that rule.
//!
//! No function takes memory.
#![tactic(auto)]

mod guard;
mod rule;

pub use guard::{Test, TopicGuard};
pub use rule::TopicRule;

#[cfg(test)]
mod tests;
