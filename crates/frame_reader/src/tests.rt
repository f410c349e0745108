ghost use Rattle.std.specs.Prelude.{◌≡◌, ◌<◌, ◌≤◌, ◌+◌, ◌++◌, ℕ, List, [], length, take, drop, true, false};
ghost use Rattle.wire_meaning.specs.Reading.{reading};
ghost use Rattle.frame_reader.specs.Reader.{raw_of, max_of, room_of, ahead, is_unread, has_ended};

use super::*;
use std::alloc::{AllocError, Global};
use std::test::*;
use wire_meaning::{OwnedEvent, plain_reading};
use ws_kinds::Kind;

// The greatest message, in octets, where a test names none.
const MAX: u32 = 16_384;

/// The step tells this event.
fn is_told(step: Step<'_>, event: &OwnedEvent) -> bool {
    match (step, event) {
        (Step::Message(kind, octets), OwnedEvent::Message(wanted, all)) => {
            kind == *wanted && octets == all.as_slice()
        }
        (Step::Ping(payload), OwnedEvent::Ping(all)) => payload == all.as_slice(),
        (Step::Pong(payload), OwnedEvent::Pong(all)) => payload == all.as_slice(),
        (Step::Close(code, reason), OwnedEvent::Close(wanted, all)) => {
            code == *wanted && reason == all.as_slice()
        }
        (Step::Failed(code), OwnedEvent::Failed(wanted)) => code == *wanted,
        _ => false,
    }
}

/// Takes this piece, and tells whether the events up to `More` are the next of these; `at` counts them.
fn tells_next(reader: &mut Reader, piece: &[u8], events: &[OwnedEvent], at: &mut usize) -> bool {
    if piece.len() > reader.room() {
        return false;
    }
    reader.feed(piece);
    for _ in 0..=events.len() {
        let step = reader.next();
        if matches!(step, Step::More) {
            return true;
        }
        match events.get(*at) {
            Some(event) if is_told(step, event) => *at = at.saturating_add(1),
            _ => return false,
        }
    }
    false
}

/// A reader of these pieces tells the events of the plain reading of them all.
fn reads_as_plain(alloc: Global, pieces: &[&[u8]]) -> Result<bool, AllocError> {
    let mut all = Vec::new(alloc);
    for piece in pieces {
        all.extend_from_slice(piece)?;
    }
    let events = plain_reading(alloc, MAX, &all)?;
    let mut reader = Reader::new(alloc, MAX)?;
    let mut at = 0;
    for piece in pieces {
        if !tells_next(&mut reader, piece, &events, &mut at) {
            return Ok(false);
        }
    }
    Ok(at == events.len())
}

/// A reader of these octets, one by one, tells the events of the plain reading of them.
fn reads_octet_by_octet(alloc: Global, octets: &[u8]) -> Result<bool, AllocError> {
    let events = plain_reading(alloc, MAX, octets)?;
    let mut reader = Reader::new(alloc, MAX)?;
    let mut at = 0;
    for octet in octets {
        if !tells_next(&mut reader, &[*octet], &events, &mut at) {
            return Ok(false);
        }
    }
    Ok(at == events.len())
}

// Messages, fragments and control frames that keep the rules.
const KEPT: [&[u8]; 9] = [
    b"",
    b"\x81\x85\x37\xfa\x21\x3d\x7f\x9f\x4d\x51\x58",
    b"\x81\x80\0\0\0\0\x82\x81\x01\x02\x03\x04\xff",
    b"\x01\x83\x01\x02\x03\x04Hel\x80\x82\x05\x06\x07\x08lo\x89\x80\0\0\0\0",
    // a character in three fragments, with a ping and a pong between them
    b"\x01\x81\0\0\0\0\xe2\x89\x81\0\0\0\0p\x00\x81\0\0\0\0\x82\x8a\x80\0\0\0\0\x80\x81\0\0\0\0\xac",
    // lengths that are spelled longer than needed
    b"\x82\xfe\x00\x03\x0a\x0b\x0c\x0dabc\x82\xff\0\0\0\0\0\0\0\x02\x01\x02\x03\x04de",
    // what has not all come
    b"\x81\x85\x37\xfa\x21\x3d\x7f",
    b"\x81\xfe\x01",
    b"\x01\x83\0\0\0\0\xf0\x9f\x8d",
];

const HEAD: &[u8] = b"GET / HTTP/1.1\r\n\r\n";

// What ends a reading. Nothing that follows is read.
const ENDED: [&[u8]; 20] = [
    b"\xc1\x80",
    b"\xa1\x80",
    b"\x91\x80",
    b"\x83\x80",
    b"\x8f\x80",
    b"\x09\x80",
    b"\x08\x80",
    b"\x80\x80",
    b"\x01\x80\0\0\0\0\x81\x80\0\0\0\0",
    b"\x02\x80\0\0\0\0\x01\x80\0\0\0\0",
    b"\x81\x05Hello",
    b"\x89\xfe\x00\x01",
    b"\x82\xff\x80\0\0\0\0\0\0\0\0\0\0\0",
    b"\x82\xfe\x40\x01\0\0\0\0",
    // text that no continuation makes UTF-8, and text that ends within a character
    b"\x81\x85\0\0\0\0\xed\xa0\x80xx",
    b"\x81\x82\0\0\0\0a\xe2\x81\x80\0\0\0\0",
    // closes
    b"\x88\x80\x01\x02\x03\x04\x81\x80\0\0\0\0",
    b"\x88\x85\0\0\0\0\x03\xe8bye\x81\x80\0\0\0\0",
    b"\x88\x82\0\0\0\0\x03\xed\x81\x80\0\0\0\0",
    b"\x01\x81\0\0\0\0a\x88\x83\0\0\0\0\x03\xe8\xff\x80",
];

/// Takes as many of the octets as there is room for, which is one at least.
fn feed_some(reader: &mut Reader, octets: &[u8]) -> usize
    requires few { length (raw_of reader.old) ≤ 8191 }
    requires unread { is_unread reader.old ≡ true }
    ensures some { 0 < length octets.now → 0 < result }
    ensures raw { raw_of reader.new ≡ raw_of reader.old ++ take result octets.now }
    ensures unread { is_unread reader.new ≡ true }
    ensures max { max_of reader.new ≡ max_of reader.old }
{
    let count = reader.room().min(octets.len());
    reader.feed(&octets[..count]);
    count
}

/// Takes three pieces, and skips the head, of so many octets, which they begin with. Says whether it is there.
fn skip_head(reader: &mut Reader, one: &[u8], two: &[u8], three: &[u8], head: usize) -> bool
    requires fits { length one.now + (length two.now + length three.now) ≤ room_of reader.old }
    requires unread { is_unread reader.old ≡ true }
    ensures ahead { result ≡ true → (more : List ℕ) → ahead reader.new more ≡ reading (max_of reader.old) (drop head (raw_of reader.old ++ one.now ++ two.now ++ three.now) ++ more) }
    ensures goes_on { has_ended reader.new ≡ has_ended reader.old }
{
    reader.feed(one);
    reader.feed(two);
    reader.feed(three);
    if reader.raw().len() < head {
        return false;
    }
    reader.skip(head);
    true
}

/// A reader behind a head that is cut here tells the events of the plain reading of the octets.
fn reads_behind_head(alloc: Global, octets: &[u8], cut: usize) -> Result<bool, AllocError> {
    let events = plain_reading(alloc, MAX, octets)?;
    let mut reader = Reader::new(alloc, MAX)?;
    let Some((one, two)) = HEAD.split_at_checked(cut) else {
        return Ok(false);
    };
    if octets.len() > MAX as usize || !skip_head(&mut reader, one, two, octets, HEAD.len()) {
        return Ok(false);
    }
    let mut at = 0;
    Ok(tells_next(&mut reader, b"", &events, &mut at) && at == events.len())
}

/// Readers of these octets in two pieces, wherever they are cut, tell the plain reading of them.
fn reads_each_cut(alloc: Global, octets: &[u8]) -> Result<bool, AllocError> {
    for cut in 0..=octets.len() {
        let (one, two) = octets.split_at(cut);
        if !reads_as_plain(alloc, &[one, b"", two])? {
            return Ok(false);
        }
    }
    Ok(true)
}

/// Readers behind a head, wherever it is cut, tell the plain reading of these octets.
fn reads_behind_each_cut(alloc: Global, octets: &[u8]) -> Result<bool, AllocError> {
    for cut in 0..=HEAD.len() {
        if !reads_behind_head(alloc, octets, cut)? {
            return Ok(false);
        }
    }
    Ok(true)
}

#[test]
fn the_plain_reading_is_told(rt: HostRuntime) {
    for octets in KEPT.iter().chain(ENDED.iter()) {
        let whole = reads_each_cut(rt.alloc(), octets);
        assert!(rt; matches!(whole, Ok(true)), "{octets:?}");
        let single = reads_octet_by_octet(rt.alloc(), octets);
        assert!(rt; matches!(single, Ok(true)), "{octets:?}");
        let behind = reads_behind_each_cut(rt.alloc(), octets);
        assert!(rt; matches!(behind, Ok(true)), "{octets:?}");
    }
}

/// The next step is `More`, after which there is room.
fn awaits_more(reader: &mut Reader) -> bool
    requires { has_ended reader.old ≡ false }
    ensures room { result ≡ true → max_of reader.old + 8318 ≤ room_of reader.new }
{
    match reader.next() {
        Step::More => true,
        _ => false,
    }
}

#[test]
fn a_head_in_three_pieces_is_seen_and_skipped(rt: HostRuntime) -> Result<(), Fail> {
    let mut reader = Reader::new(rt.alloc(), 5).ok().ok_or("memory")?;
    assert!(rt; reader.raw() == b"".as_slice());
    reader.feed(b"GET / HT");
    assert!(rt; reader.raw() == b"GET / HT".as_slice());
    assert_eq!(rt; feed_some(&mut reader, b"TP/1.1\r\n"), 8);
    assert!(rt; reader.raw() == b"GET / HTTP/1.1\r\n".as_slice());
    reader.feed(b"\r\n\x81\x85\0\0\0\0He");
    assert!(rt; reader.raw() == b"GET / HTTP/1.1\r\n\r\n\x81\x85\0\0\0\0He".as_slice());
    assert_eq!(rt; reader.room(), 8427);
    reader.skip(18);
    assert!(rt; reader.raw() == b"\x81\x85\0\0\0\0He".as_slice());
    assert_eq!(rt; reader.room(), 8445);
    assert!(rt; awaits_more(&mut reader));
    reader.feed(b"llo");
    assert!(rt; matches!(reader.next(), Step::Message(Kind::Text, b"Hello")));
    assert!(rt; matches!(reader.next(), Step::More));
    Ok(())
}
