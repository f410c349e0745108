//! That a server stays right, step by step, and that each of its notes is sound at its place. Each function says laws, and
//! does nothing.
#![tactic(auto)]

mod arriving;
mod giving;
mod links;
mod reading;
pub mod sounding;
mod throughout;
mod turning;

pub use arriving::arrived;
pub use giving::{closed_told, message_told, opened_told};
pub use links::live_are_there;
pub use reading::{
    all_told, close_told, failure_told, frame_passed, given_some, head_refused, read_failed,
};
pub use throughout::lived_through_turn;
pub use turning::{at_first, carried_right, offered, ticked, turn_ended, turn_settled};
