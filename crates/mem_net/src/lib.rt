//! A net of many connections in memory, and the schedules that it follows.
#![tactic(auto)]

mod mem_link;
mod mem_net;
mod schedule;

pub use mem_net::MemNet;
pub use schedule::Schedule;

#[cfg(test)]
mod tests;
