//! The table of a hub's connections: each connection's socket, and its Closed event, where one is due.
#![tactic(auto)]

mod changes;
mod connection;
mod connection_map;
mod connections;
mod number_set;
mod parting;

pub use connections::Connections;
pub use parting::Parting;

#[cfg(test)]
mod tests;
