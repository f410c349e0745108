//! What a server's handler is to be told of each connection: how many items of it were dropped, and whether its backlog drained.
//!
//! Only `Tellings::with_room` takes memory.
#![tactic(auto)]

mod row;
mod tellings;

pub use tellings::Tellings;

#[cfg(test)]
mod tests;
