//! The built-in handler: an echo, rooms, and a bus on which a connection subscribes and publishes by its messages.
#![tactic(auto)]

mod bus;
mod command;

pub use bus::Bus;

#[cfg(test)]
mod tests;
