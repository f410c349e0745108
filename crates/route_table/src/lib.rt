//! The routes of a server: a table of path patterns, each with a number and the name of its subprotocol.
//!
//! Which path a pattern matches is `matchit`'s matter, and the definitions of this crate cite that crate's own words.
#![tactic(auto)]

mod routes;

pub use routes::{RouteFault, Routes};

#[cfg(test)]
mod tests;
