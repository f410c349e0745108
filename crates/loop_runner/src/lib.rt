//! The turn loop of a server: what the net tells is read, judged and given to the handler, and the handler's orders are
//! served.
#![tactic(auto)]

mod admitting;
mod arriving;
mod closing;
mod frames;
mod giving;
mod intakes;
mod reading;
mod starting;
mod telling;
mod turn;
mod turns;

pub use intakes::{Intake, Intakes};
pub use starting::{kept_at_first, lived_at_first};
pub use turn::{Turned, run_turn};
pub use turns::{Ran, run};

#[cfg(test)]
mod tests;
