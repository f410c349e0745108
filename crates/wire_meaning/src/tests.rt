use super::*;
use std::alloc::{AllocError, Global};
use std::test::*;
use ws_kinds::Kind;

// The greatest message, in octets, where a table names none.
const MAX: u32 = 16384;

// The close frames that answer a protocol error, text that is not UTF-8, and a message over the limit.
const PROTOCOL_ERROR: &[u8] = b"\x88\x02\x03\xea";

const NOT_UTF8: &[u8] = b"\x88\x02\x03\xef";

const TOO_BIG: &[u8] = b"\x88\x02\x03\xf1";

// What an echo writes for these octets, and under these limits. "Hello" and its key are those of RFC 6455, section 5.7.
const ECHOED: [(u32, &[u8], &[u8]); 23] = [
    // a masked text in one frame, and in two
    (
        MAX,
        b"\x81\x85\x37\xfa\x21\x3d\x7f\x9f\x4d\x51\x58",
        b"\x81\x05Hello",
    ),
    (
        MAX,
        b"\x01\x83\0\0\0\0Hel\x80\x82\0\0\0\0lo",
        b"\x81\x05Hello",
    ),
    // each fragment is masked from its key's first octet on
    (
        MAX,
        b"\x01\x83\x37\xfa\x21\x3d\x7f\x9f\x4d\x80\x82\x37\xfa\x21\x3d\x5b\x95",
        b"\x81\x05Hello",
    ),
    // a ping with this body, and the masked pong that answers it
    (
        MAX,
        b"\x89\x85\x37\xfa\x21\x3d\x7f\x9f\x4d\x51\x58",
        b"\x8a\x05Hello",
    ),
    (MAX, b"\x8a\x85\x37\xfa\x21\x3d\x7f\x9f\x4d\x51\x58", b""),
    // nothing, an empty text, and a binary message that is no text
    (MAX, b"", b""),
    (MAX, b"\x81\x80\0\0\0\0", b"\x81\x00"),
    (MAX, b"\x82\x81\x01\x02\x03\x04\xff", b"\x82\x01\xfe"),
    // lengths that are spelled longer than needed
    (MAX, b"\x82\xfe\x00\x01\0\0\0\0\xff", b"\x82\x01\xff"),
    (
        MAX,
        b"\x81\xff\0\0\0\0\0\0\0\x05\0\0\0\0Hello",
        b"\x81\x05Hello",
    ),
    // a ping between the fragments of a text, within a character
    (
        MAX,
        b"\x01\x81\0\0\0\0\xe2\x89\x80\0\0\0\0\x80\x82\0\0\0\0\x82\xac",
        b"\x8a\x00\x81\x03\xe2\x82\xac",
    ),
    // a header that has not all come, a payload that has not, and a message that has not
    (MAX, b"\x81\xfe\x01", b""),
    (MAX, b"\x81\x85\x37\xfa\x21\x3d\x7f", b""),
    (MAX, b"\x01\x83\0\0\0\0Hel\x00\x82\0\0\0\0lo", b""),
    // an empty first fragment counts as an open message
    (MAX, b"\x01\x80\0\0\0\0\x80\x81\0\0\0\0a", b"\x81\x01a"),
    // limits
    (0, b"\x82\x80\0\0\0\0", b"\x82\x00"),
    (0, b"\x82\x81", TOO_BIG),
    (5, b"\x81\x85\0\0\0\0Hello", b"\x81\x05Hello"),
    (5, b"\x81\x86", TOO_BIG),
    // the fragments that came count, and control frames do not
    (
        5,
        b"\x01\x83\0\0\0\0Hel\x80\x82\0\0\0\0lo",
        b"\x81\x05Hello",
    ),
    (5, b"\x01\x83\0\0\0\0Hel\x80\x83", TOO_BIG),
    (5, b"\x89\x86\0\0\0\0Hello!", b"\x8a\x06Hello!"),
    (65536, b"\x82\xff\0\0\0\0\x00\x01\x00\x01", TOO_BIG),
];

// What is answered at its last octet, and not before it: what is refused, and closes.
const LAST_OCTETS: [(&[u8], &[u8]); 59] = [
    // a reserved bit
    (b"\xc1", PROTOCOL_ERROR),
    (b"\xa1", PROTOCOL_ERROR),
    (b"\x91", PROTOCOL_ERROR),
    // a reserved opcode
    (b"\x83", PROTOCOL_ERROR),
    (b"\x84", PROTOCOL_ERROR),
    (b"\x85", PROTOCOL_ERROR),
    (b"\x86", PROTOCOL_ERROR),
    (b"\x87", PROTOCOL_ERROR),
    (b"\x8b", PROTOCOL_ERROR),
    (b"\x8c", PROTOCOL_ERROR),
    (b"\x8d", PROTOCOL_ERROR),
    (b"\x8e", PROTOCOL_ERROR),
    (b"\x8f", PROTOCOL_ERROR),
    (b"\x03", PROTOCOL_ERROR),
    // a control frame in fragments
    (b"\x08", PROTOCOL_ERROR),
    (b"\x09", PROTOCOL_ERROR),
    (b"\x0a", PROTOCOL_ERROR),
    // nothing to continue
    (b"\x80", PROTOCOL_ERROR),
    (b"\x00", PROTOCOL_ERROR),
    // a message within a message
    (b"\x01\x80\0\0\0\0\x81", PROTOCOL_ERROR),
    (b"\x01\x80\0\0\0\0\x02", PROTOCOL_ERROR),
    (b"\x02\x80\0\0\0\0\x01", PROTOCOL_ERROR),
    // no mask, as in the unmasked text of section 5.7
    (b"\x81\x05", PROTOCOL_ERROR),
    (b"\x88\x00", PROTOCOL_ERROR),
    (b"\x01\x80\0\0\0\0\x80\x00", PROTOCOL_ERROR),
    // a control frame of more than 125 octets
    (b"\x88\xfe", PROTOCOL_ERROR),
    (b"\x89\xfe", PROTOCOL_ERROR),
    (b"\x8a\xff", PROTOCOL_ERROR),
    // a length whose top bit is 1
    (b"\x82\xff\x80\0\0\0\0\0\0\0", PROTOCOL_ERROR),
    // a message over the limit, seen before its key
    (b"\x82\xfe\x40\x01", TOO_BIG),
    (b"\x82\xff\0\0\0\0\0\0\x40\x01", TOO_BIG),
    // text that no continuation makes UTF-8: no first octet, a surrogate, longer than needed, above the last character
    (b"\x81\x85\0\0\0\0\xc0", NOT_UTF8),
    (b"\x81\x85\0\0\0\0\xff", NOT_UTF8),
    (b"\x81\x85\0\0\0\0\xed\xa0", NOT_UTF8),
    (b"\x81\x85\0\0\0\0\xe0\x80", NOT_UTF8),
    (b"\x81\x85\0\0\0\0\xf4\x90", NOT_UTF8),
    // a character that goes wrong in the next fragment, with more of it to come
    (b"\x01\x82\0\0\0\0a\xe2\x00\x82\0\0\0\0(", NOT_UTF8),
    // text that ends within a character, in its first frame, in a later one, and in a later one that is empty
    (b"\x81\x81\0\0\0\0\xe2", NOT_UTF8),
    (b"\x01\x81\0\0\0\0\xe2\x80\x81\0\0\0\0\x82", NOT_UTF8),
    (b"\x01\x81\0\0\0\0\xe2\x80\x80\0\0\0\0", NOT_UTF8),
    // a ping between the fragments does not close the message
    (b"\x01\x80\0\0\0\0\x8a\x80\0\0\0\0\x81", PROTOCOL_ERROR),
    // close frames with no payload, and with one octet
    (b"\x88\x80\0\0\0\0", b"\x88\x00"),
    (b"\x88\x81\0\0\0\0\x03", PROTOCOL_ERROR),
    // codes that may not be sent: 999, 1004, 1005, 1006, 1015, 2999, 5000, whatever follows
    (b"\x88\x82\0\0\0\0\x03\xe7", PROTOCOL_ERROR),
    (b"\x88\x82\0\0\0\0\x03\xec", PROTOCOL_ERROR),
    (b"\x88\x82\0\0\0\0\x03\xed", PROTOCOL_ERROR),
    (b"\x88\x82\0\0\0\0\x03\xee", PROTOCOL_ERROR),
    (b"\x88\x82\0\0\0\0\x03\xf7", PROTOCOL_ERROR),
    (b"\x88\x82\0\0\0\0\x0b\xb7", PROTOCOL_ERROR),
    (b"\x88\x83\0\0\0\0\x13\x88\xff", PROTOCOL_ERROR),
    // a reason that is not UTF-8, and one that ends within a character
    (b"\x88\x83\0\0\0\0\x03\xe8\xff", NOT_UTF8),
    (b"\x88\x84\0\0\0\0\x03\xe8\xe2\x82", NOT_UTF8),
    // codes that may be sent, with a reason and without: 1000, 1003, 1007, 1014, 3000, 4999
    (b"\x88\x85\0\0\0\0\x03\xe8bye", b"\x88\x02\x03\xe8"),
    (b"\x88\x82\0\0\0\0\x03\xeb", b"\x88\x02\x03\xeb"),
    (b"\x88\x82\0\0\0\0\x03\xef", b"\x88\x02\x03\xef"),
    (b"\x88\x82\0\0\0\0\x03\xf6", b"\x88\x02\x03\xf6"),
    (b"\x88\x82\0\0\0\0\x0b\xb8", b"\x88\x02\x0b\xb8"),
    (b"\x88\x82\0\0\0\0\x13\x87", b"\x88\x02\x13\x87"),
    // within a message that is open
    (b"\x01\x81\0\0\0\0a\x88\x80\0\0\0\0", b"\x88\x00"),
];

/// An echo of these octets writes this.
fn echo_is(alloc: Global, max_message: u32, octets: &[u8], wanted: &[u8]) -> bool {
    match plain_echo(alloc, max_message, octets) {
        Ok(out) => out.as_slice() == wanted,
        Err(_) => false,
    }
}

/// The last octet is answered so, and nothing before it is answered.
fn last_is_answered(alloc: Global, octets: &[u8], wanted: &[u8]) -> bool {
    match octets.split_last() {
        Some((_, front)) => {
            echo_is(alloc, MAX, front, b"") && echo_is(alloc, MAX, octets, wanted)
        }
        None => false,
    }
}

#[test]
fn echoes(rt: HostRuntime) {
    for (max_message, octets, wanted) in ECHOED {
        assert!(rt;
            echo_is(rt.alloc(), max_message, octets, wanted),
            "{octets:?}"
        );
    }
    for (octets, wanted) in LAST_OCTETS {
        assert!(rt; last_is_answered(rt.alloc(), octets, wanted), "{octets:?}");
    }
}

/// The echo of a masked binary message of so many zeros begins so, and has all of them.
fn long_echo(alloc: Global, head: &[u8], size: usize, wanted: &[u8]) -> Result<bool, AllocError> {
    let mut octets = Vec::from_slice(alloc, head)?;
    octets.extend_from_slice(&[0, 0, 0, 0])?;
    for _ in 0..size {
        octets.push(0)?;
    }
    let out = plain_echo(alloc, 65536, &octets)?;
    Ok(out.len() == wanted.len().saturating_add(size) && out.starts_with(wanted))
}

// Headers of masked binary messages, their lengths, and the headers of the frames that a server sends.
const LENGTHS: [(&[u8], usize, &[u8]); 7] = [
    (b"\x82\x80", 0, b"\x82\x00"),
    (b"\x82\xfd", 125, b"\x82\x7d"),
    (b"\x82\xfe\x00\x7e", 126, b"\x82\x7e\x00\x7e"),
    (b"\x82\xfe\x00\x7f", 127, b"\x82\x7e\x00\x7f"),
    (b"\x82\xfe\x01\x00", 256, b"\x82\x7e\x01\x00"),
    (b"\x82\xfe\xff\xff", 65535, b"\x82\x7e\xff\xff"),
    (
        b"\x82\xff\0\0\0\0\x00\x01\x00\x00",
        65536,
        b"\x82\x7f\0\0\0\0\x00\x01\x00\x00",
    ),
];

#[test]
fn lengths(rt: HostRuntime) {
    for (head, size, wanted) in LENGTHS {
        let same = long_echo(rt.alloc(), head, size, wanted);
        assert!(rt; matches!(same, Ok(true)), "{size}");
    }
}

// A text, a binary message, a ping, a pong, a close with a reason, and what is not read behind it.
const ALL_EVENTS: &[u8] =
    b"\x81\x82\0\0\0\0hi\x82\x81\0\0\0\0\xff\x89\x81\0\0\0\0\x01\x8a\x80\0\0\0\0\x88\x85\0\0\0\0\x03\xe8bye\x81\x80\0\0\0\0";

/// The event says this: its octets, and the code of a close or a failure.
fn says(event: &OwnedEvent, kind: Option<Kind>, code: u16, octets: &[u8]) -> bool {
    match event {
        OwnedEvent::Message(told, body) => kind == Some(*told) && body.as_slice() == octets,
        OwnedEvent::Ping(body) | OwnedEvent::Pong(body) => body.as_slice() == octets,
        OwnedEvent::Close(told, reason) => *told == code && reason.as_slice() == octets,
        OwnedEvent::Failed(told) => *told == code && octets.is_empty(),
    }
}

// The last event of these octets, which is a close or a failure.
const LAST: [(&[u8], u16, bool); 4] = [
    (b"\x88\x80\0\0\0\0", 1005, false),
    (
        b"\x89\x80\0\0\0\0\x80\x80\0\0\0\0\x81\x80\0\0\0\0",
        1002,
        true,
    ),
    (b"\x81\x81\0\0\0\0\xff\x81\x80\0\0\0\0", 1007, true),
    (b"\x82\xfe\x40\x01\x81\x80\0\0\0\0", 1009, true),
];

#[test]
fn events(rt: HostRuntime) -> Result<(), Fail> {
    let events = plain_reading(rt.alloc(), MAX, ALL_EVENTS)
        .ok()
        .ok_or("memory")?;
    let [text, binary, ping, pong, close] = events.as_slice() else {
        return Err("five events".into());
    };
    assert!(rt; says(text, Some(Kind::Text), 0, b"hi"));
    assert!(rt; says(binary, Some(Kind::Binary), 0, b"\xff"));
    assert!(rt; matches!(ping, OwnedEvent::Ping(_)) && says(ping, None, 0, b"\x01"));
    assert!(rt; matches!(pong, OwnedEvent::Pong(_)) && says(pong, None, 0, b""));
    assert!(rt; matches!(close, OwnedEvent::Close(_, _)) && says(close, None, 1000, b"bye"));
    for (octets, code, is_failure) in LAST {
        let events = plain_reading(rt.alloc(), MAX, octets).ok().ok_or("memory")?;
        let last = events.last().ok_or("an event")?;
        assert!(rt; says(last, None, code, b""), "{octets:?}");
        assert_eq!(rt;
            matches!(last, OwnedEvent::Failed(_)),
            is_failure,
            "{octets:?}"
        );
    }
    Ok(())
}
