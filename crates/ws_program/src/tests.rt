//! The commands, over sources and sinks in memory.

mod bus;
mod echo;
mod leaving;
mod replay;
mod serve;
mod words;

use crate::status::Status;
use link_trait::{MemSink, MemSource};
use schedule_text::Fault;
use std::test::*;
use ws_kinds::Bytes;

/// The masked text `Hello` of RFC 6455, section 5.7.
const HELLO: &[u8] = b"\x81\x85\x37\xfa\x21\x3d\x7f\x9f\x4d\x51\x58";

/// What is sent back for it.
const HELLO_ECHO: &[u8] = b"\x81\x05Hello";

/// The most octets that a sink of a test takes in all.
const MOST_WRITTEN: usize = 200_000;

fn bytes(rt: &HostRuntime, octets: &[u8]) -> Result<Bytes, Fail> {
    Ok(Bytes::of(rt.alloc(), octets).ok().ok_or("memory")?)
}

/// A source of these octets, of which a read gives at most `piece`. Its calls fail that have a 1 in `fails`.
fn source(rt: &HostRuntime, octets: &[u8], piece: usize, fails: &[u8]) -> Result<MemSource, Fail> {
    Ok(MemSource::new(bytes(rt, octets)?, piece.max(1), bytes(rt, fails)?))
}

/// A sink of which a write takes at most `piece` octets. Its calls fail that have a 1 in `fails`.
fn sink(rt: &HostRuntime, piece: usize, fails: &[u8]) -> Result<MemSink, Fail> {
    let sink = MemSink::new(rt.alloc(), piece.max(1), bytes(rt, fails)?, MOST_WRITTEN);
    Ok(sink.ok().ok_or("memory")?)
}

#[test]
fn statuses_have_a_text_and_a_number(rt: HostRuntime) -> Result<(), Fail> {
    let refused = Status::Refused {
        line: 0,
        fault: Fault::TooLong,
    };
    let table = [
        (Status::Done, "done", 0),
        (Status::Usage, "usage", 2),
        (refused, "line 0: too long", 3),
        (Status::ReadFault, "read fault", 4),
        (Status::WriteFault, "write fault", 5),
        (Status::NetFault, "network fault", 6),
        (Status::OutOfMemory, "out of memory", 7),
    ];
    for (status, text, number) in table {
        assert_eq!(rt; format!(in rt.alloc(); "{status}")?.as_str(), text);
        assert_eq!(rt; status.exit_code(), number, "{text}");
    }
    Ok(())
}
