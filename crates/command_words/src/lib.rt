//! The words of a command line, read with `clap`.
//!
//! A first word names the command: `echo`, `replay`, `serve` or `made`. Options follow in any order, each at most once, as two words
//! `--name VALUE` or as one word `--name=VALUE`; behind `made` one word follows in their place, the seed. A value is decimal digits
//! without a leading zero. Nothing else is a command line: no abbreviation, no word `--`, no words for help or a version.
//!
//! What words mean is the definition `meant` of `specs/Meaning.antt`, which knows nothing of clap. `read` answers it exactly.
//!
//! Where memory runs out while clap reads, clap tells no more than that: its contract leaves open whether it would have taken
//! the words. So [`read`] answers want of memory then, of words that are a command and of words that break a rule. What is seen
//! before clap is asked for memory is Usage always: a word that begins with a hyphen, and is not `--` with something behind it.
#![tactic(auto)]

mod command;
mod grammar;
mod laws;
mod reading;
mod settings;
mod values;

pub use command::Command;
pub use laws::{any_order, either_form, without_options};
pub use reading::read;

#[cfg(test)]
mod tests;
