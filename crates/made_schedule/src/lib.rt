//! A schedule that is made from a seed: 64 connections in one room, and 500 rounds of sixteen messages.
#![tactic(auto)]

mod generator;
mod message;
mod schedule;
mod summary;

pub use schedule::made;
pub use summary::Summary;

#[cfg(test)]
mod tests;
