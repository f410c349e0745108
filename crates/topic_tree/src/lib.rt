//! Who subscribed to which topics: the set of pairs of a connection and a topic, each connection's topics in the order of its
//! subscribing, and each topic's subscribers in ascending order.
#![tactic(auto)]

mod subscribers;
mod subscriptions;
mod topic_list;
mod topics;

pub use topics::Topics;

#[cfg(test)]
mod tests;
