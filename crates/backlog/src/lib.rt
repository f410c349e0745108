//! The backlog of a connection: the octets that its link did not take yet, in a ring of a fixed capacity.
//!
//! Only `Ring::new` takes memory.
#![tactic(auto)]

mod ring;

pub use ring::Ring;

#[cfg(test)]
mod tests;
