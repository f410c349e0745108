//! A hub: all connections of a server, what is put for each, and the events of which the handler is to be told.
#![tactic(auto)]

mod closing;
mod events;
mod hub;
mod offers;
mod orders;
mod publishing;
mod puts;
mod rows;
mod subscriptions;
mod ticking;
mod told;
mod turns;

pub use hub::Hub;
pub use hub_notes::Arrival;
pub use hub_table::Parting;
pub use told::Telling;

#[cfg(test)]
mod tests;
