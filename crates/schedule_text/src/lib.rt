//! Schedules as text, version 1, and the lines of a run's report.
//!
//! A schedule's text has the line `corked 1` and then one line for each act, each ended by a line feed:
//!
//! | Line | Act |
//! |---|---|
//! | `a C CREDIT` | a connection arrives; CREDIT is a number, or `*` for none |
//! | `r C HEX` | the peer sends 1 to 8,192 octets, two lower-case hexadecimal digits for each |
//! | `e C` | the peer ends its stream |
//! | `f C` | reads fail |
//! | `w C N` | the link takes N octets more |
//! | `b C` | writes fail |
//! | `t` | a tick |
//! | `.` | a turn |
//!
//! C is a number from 1 to 4,294,967,295, CREDIT is one from 0 and N one from 1 to the same. Numbers are decimal digits without a
//! leading zero.
//!
//! A text of more than 1,048,576 octets is not read. Printing has no such limit: what it writes can be read again where the
//! text has at most 1,048,576 octets. Then it spells these acts and no others.
#![tactic(auto)]

mod arrivals;
mod cursor;
mod fault;
mod output;
mod printing;
mod reading;
mod report;

pub use fault::{Fault, ReadFault};
pub use output::write_numbers;
pub use printing::print;
pub use reading::read;
pub use report::{one_report, report_link, report_note};

#[cfg(test)]
mod tests;
