//! The command `echo`, from the frames of a client to the frames of an echo.

ghost use Rattle.std.specs.Prelude.{◌≤◌};

use super::{HELLO, HELLO_ECHO, sink, source};
use crate::echo::echo_run;
use crate::reads::MAX_READ;
use crate::status::Status;
use link_trait::{Got, MemSink, Source};
use std::test::*;
use wire_meaning::plain_echo;

/// Frames of a client, and what an echo answers. The limit is 16,384 octets a message.
const STREAMS: &[(&[u8], &[u8])] = &[
    (HELLO, HELLO_ECHO),
    (b"", b""),
    // an empty text
    (b"\x81\x80\0\0\0\0", b"\x81\0"),
    // fragments of a text, and a ping between the octets of a character
    (b"\x01\x83\0\0\0\0Hel\x80\x82\0\0\0\0lo", HELLO_ECHO),
    (
        b"\x01\x81\0\0\0\0\xe2\x89\x80\0\0\0\0\x80\x82\0\0\0\0\x82\xac",
        b"\x8a\0\x81\x03\xe2\x82\xac",
    ),
    // a ping, a pong that is passed over, and a binary message
    (
        b"\x89\x82\0\0\0\0hi\x8a\x81\0\0\0\0x\x82\x81\0\0\0\0\xff",
        b"\x8a\x02hi\x82\x01\xff",
    ),
    // a text that can no more become UTF-8
    (b"\x81\x85\0\0\0\0\xc0", b"\x88\x02\x03\xef"),
    // no mask, a reserved bit, a reserved opcode, a ping with FIN 0, nothing to continue, a text within an open message
    (b"\x81\x05", b"\x88\x02\x03\xea"),
    (b"\xc1", b"\x88\x02\x03\xea"),
    (b"\x83", b"\x88\x02\x03\xea"),
    (b"\x09", b"\x88\x02\x03\xea"),
    (b"\x80", b"\x88\x02\x03\xea"),
    (b"\x01\x80\0\0\0\0\x81", b"\x88\x02\x03\xea"),
    // a message over the limit, of which no payload was needed
    (b"\x82\xfe\x40\x01", b"\x88\x02\x03\xf1"),
    // closes: without a code, of one octet, and with the codes 1005, 2999, 4999 and a reason that is not UTF-8
    (b"\x88\x80\0\0\0\0", b"\x88\0"),
    (b"\x88\x81\0\0\0\0\x03", b"\x88\x02\x03\xea"),
    (b"\x88\x82\0\0\0\0\x03\xed", b"\x88\x02\x03\xea"),
    (b"\x88\x82\0\0\0\0\x0b\xb7", b"\x88\x02\x03\xea"),
    (b"\x88\x82\0\0\0\0\x13\x87", b"\x88\x02\x13\x87"),
    (b"\x88\x83\0\0\0\0\x03\xe8\xff", b"\x88\x02\x03\xef"),
    // a frame that is not whole
    (b"\x81\x85\x37\xfa\x21\x3d\x7f", b""),
];

/// The most octets that the source gives at a read.
const PIECES: &[usize] = &[1, 997, MAX_READ];

/// An echo without a fault: how it ends, and its sink. A message has at most `max` octets, and a read gives at most `piece`.
fn echo(rt: &HostRuntime, max: u32, octets: &[u8], piece: usize) -> Result<(Status, MemSink), Fail>
    requires least { 1 ≤ max }
    requires most { max ≤ 65536 }
{
    let mut source = source(rt, octets, piece, &[])?;
    let mut sink = sink(rt, MAX_READ, &[])?;
    let status = echo_run(rt.alloc(), max, &mut source, &mut sink);
    Ok((status, sink))
}

/// Whether an echo without a fault writes these octets, however many a read gives at most.
fn is_echoed(
    rt: &HostRuntime,
    max: u32,
    octets: &[u8],
    pieces: &[usize],
    answers: &[u8],
) -> Result<bool, Fail>
    requires least { 1 ≤ max }
    requires most { max ≤ 65536 }
{
    for piece in pieces {
        let (status, sink) = echo(rt, max, octets, *piece)?;
        if status != Status::Done || sink.octets() != answers {
            return Ok(false);
        }
    }
    Ok(true)
}

/// The place of the first row that is answered otherwise, by an echo or by the plain program.
fn first_stream(rt: &HostRuntime, rows: &[(&[u8], &[u8])]) -> Result<Option<usize>, Fail> {
    for (place, (octets, answers)) in rows.iter().enumerate() {
        let plain = plain_echo(rt.alloc(), 16384, octets)?;
        if plain.as_slice() != *answers || !is_echoed(rt, 16384, octets, PIECES, answers)? {
            return Ok(Some(place));
        }
    }
    Ok(None)
}

/// Messages under the greatest limit, of 125 to 65,536 octets: the header of what comes, how many octets it gives the
/// message, the most octets of a read, and the header of what is sent back. The last one has an octet too many, and is
/// refused before any of its payload is there.
const LONG_MESSAGES: &[(&[u8], usize, &[usize], &[u8])] = &[
    (b"\x82\xfd\0\0\0\0", 125, &[997, MAX_READ], b"\x82\x7d"),
    (
        b"\x82\xfe\0\x7e\0\0\0\0",
        126,
        &[997, MAX_READ],
        b"\x82\x7e\0\x7e",
    ),
    (
        b"\x82\xfe\0\x7f\0\0\0\0",
        127,
        &[997, MAX_READ],
        b"\x82\x7e\0\x7f",
    ),
    (
        b"\x82\xfe\xff\xff\0\0\0\0",
        65535,
        &[997, MAX_READ],
        b"\x82\x7e\xff\xff",
    ),
    (
        b"\x82\xff\0\0\0\0\0\x01\0\0\0\0\0\0",
        65536,
        &[997, MAX_READ],
        b"\x82\x7f\0\0\0\0\0\x01\0\0",
    ),
    (
        b"\x82\xff\0\0\0\0\0\x01\0\x01",
        0,
        &[1],
        b"\x88\x02\x03\xf1",
    ),
];

/// A header, and as many octets that are 0.
fn zeros(rt: &HostRuntime, header: &[u8], length: usize) -> Result<Vec<u8>, Fail> {
    let mut octets = header.to_vec(rt.alloc())?;
    for _ in 0..length {
        octets.push(0)?;
    }
    Ok(octets)
}

/// The place of the first message that is answered otherwise.
fn first_long(
    rt: &HostRuntime,
    rows: &[(&[u8], usize, &[usize], &[u8])],
) -> Result<Option<usize>, Fail> {
    for (place, (header, length, pieces, head)) in rows.iter().enumerate() {
        let octets = zeros(rt, header, *length)?;
        if !is_echoed(rt, 65536, &octets, pieces, &zeros(rt, head, *length)?)? {
            return Ok(Some(place));
        }
    }
    Ok(None)
}

/// Two texts.
const TWICE: &[u8] =
    b"\x81\x85\x37\xfa\x21\x3d\x7f\x9f\x4d\x51\x58\x81\x85\x37\xfa\x21\x3d\x7f\x9f\x4d\x51\x58";

/// A close, and an empty text behind it.
const CLOSED: &[u8] = b"\x88\x80\0\0\0\0\x81\x80\0\0\0\0";

/// The octets, of which a read gives one frame; the calls of the source and of the sink that fail, by a 1 each, where a write
/// takes 3 octets; how the run ends, what was written, and what the next two reads give.
const ENDS: &[(&[u8], &[u8], &[u8], Status, &[u8], Got, Got)] = &[
    (
        TWICE,
        &[],
        &[],
        Status::Done,
        b"\x81\x05Hello\x81\x05Hello",
        Got::End,
        Got::End,
    ),
    // the first read fails, and one in the middle
    (
        TWICE,
        &[1],
        &[],
        Status::ReadFault,
        b"",
        Got::Octets(11),
        Got::Octets(11),
    ),
    (
        TWICE,
        &[0, 1],
        &[],
        Status::ReadFault,
        HELLO_ECHO,
        Got::Octets(11),
        Got::End,
    ),
    // the first write fails, one in the middle of a frame, and the first of the second frame
    (
        TWICE,
        &[],
        &[1],
        Status::WriteFault,
        b"",
        Got::Octets(11),
        Got::End,
    ),
    (
        TWICE,
        &[],
        &[0, 1],
        Status::WriteFault,
        b"\x81\x05H",
        Got::Octets(11),
        Got::End,
    ),
    (
        TWICE,
        &[],
        &[0, 0, 0, 1],
        Status::WriteFault,
        HELLO_ECHO,
        Got::End,
        Got::End,
    ),
    // the answers to a read are written before the next one
    (
        TWICE,
        &[0, 1],
        &[1],
        Status::WriteFault,
        b"",
        Got::Failed,
        Got::Octets(11),
    ),
    // nothing is read after the close frame that was answered
    (
        CLOSED,
        &[0, 1],
        &[],
        Status::Done,
        b"\x88\0",
        Got::Failed,
        Got::Octets(6),
    ),
];

/// The place of the first row with another end.
fn first_end(
    rt: &HostRuntime,
    rows: &[(&[u8], &[u8], &[u8], Status, &[u8], Got, Got)],
) -> Result<Option<usize>, Fail> {
    for (place, (octets, read_fails, write_fails, wanted, written, next, last)) in rows
        .iter()
        .enumerate()
    {
        let mut source = source(rt, octets, octets.len() / 2, read_fails)?;
        let mut sink = sink(rt, 3, write_fails)?;
        let status = echo_run(rt.alloc(), 16384, &mut source, &mut sink);
        if status != *wanted || sink.octets() != *written {
            return Ok(Some(place));
        }
        if source.read(&mut [0; 16]) != *next || source.read(&mut [0; 16]) != *last {
            return Ok(Some(place));
        }
    }
    Ok(None)
}

#[test]
fn echoes_what_came_to_the_first_fault_or_close(rt: HostRuntime) -> Result<(), Fail> {
    assert_eq!(rt; first_stream(&rt, STREAMS)?, None);
    assert_eq!(rt; first_long(&rt, LONG_MESSAGES)?, None);
    assert_eq!(rt; first_end(&rt, ENDS)?, None);
    Ok(())
}
