//! How a hub's tick goes from one connection to the next, each counted fully before the next one, in ascending order.
//!
//! There is no code here but laws.
#![tactic(auto)]

pub mod walking;
