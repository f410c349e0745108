//! For how long a connection is quiet: when it is sent a ping, and when it is ended.
//!
//! No function takes memory.
#![tactic(auto)]

mod quiet;

pub use quiet::{Due, Quiet};

#[cfg(test)]
mod tests;
