//! One connection of a hub: its number, its phase, the items that are put for it, and the octets that its link did not take.
#![tactic(auto)]

mod item;
mod offering;
mod socket;

pub use item::{Item, items_are_sent};
pub use socket::{Kept, Socket};

#[cfg(test)]
mod tests;
