//! Judges the head of a WebSocket request (RFC 6455, section 4.2.1), and writes the replies (section 4.2.2).
//!
//! The definitions stand in `specs/`: where a head ends and what a whole head is (`Head`), its fields by their names
//! (`Field`) and the words in their values (`Word`), the key and the value that answers it (`Key`), the texts of the
//! replies (`Texts`), and what is decided by the octets that came so far (`Judged`). [`one_verdict`] and
//! [`verdict_stays`] do nothing: their contracts are laws of the definitions.
//!
//! No function takes memory.
#![tactic(auto)]

mod field;
mod judging;
mod key;
mod laws;
mod texts;
mod word;

pub use judging::{Head, judge};
pub use key::accept_of;
pub use laws::{one_verdict, verdict_stays};
pub use texts::{refusal, reply};

#[cfg(test)]
mod tests;
