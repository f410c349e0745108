//! Where octets come from and where they go: sources and sinks as traits that count their faults, in memory, and
//! over the readers and writers of std; and a net of many connections, as a trait.
#![tactic(auto)]

mod act;
mod mem_sink;
mod mem_source;
mod net;
mod plan;
mod sink;
mod source;
mod std_sink;
mod std_source;

pub use act::Act;
pub use mem_sink::MemSink;
pub use mem_source::MemSource;
pub use net::{Listening, Net, NetEvent, NetRead, NetWrote, Outside};
pub use sink::{Put, Sink, write_all};
pub use source::{Got, Source};
pub use std_sink::StdSink;
pub use std_source::StdSource;

#[cfg(test)]
mod tests;
