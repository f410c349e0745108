//! The command `replay`, from the text of a schedule to the text of its report.

use super::{HELLO, sink, source};
use crate::reads::MAX_READ;
use crate::replay::replay_run;
use crate::reserved;
use crate::status::Status;
use link_trait::{Got, MemSink, MemSource, Source};
use std::test::*;
use topic_guard::{Test, TopicGuard, TopicRule};
use ws_kinds::Config;

/// The head of a request for an upgrade, with the key of RFC 6455, section 1.3.
const HEAD: &[u8] =
    b"GET /echo HTTP/1.1\r\nHost: a\r\nUpgrade: websocket\r\nConnection: Upgrade\r\nSec-WebSocket-Key: dGhlIHNhbXBsZSBub25jZQ==\r\nSec-WebSocket-Version: 13\r\n\r\n";

/// Its first 40 octets, and the others without its empty line.
const FIRST: &[u8] = b"GET /echo HTTP/1.1\r\nHost: a\r\nUpgrade: we";

const SECOND: &[u8] =
    b"bsocket\r\nConnection: Upgrade\r\nSec-WebSocket-Key: dGhlIHNhbXBsZSBub25jZQ==\r\nSec-WebSocket-Version: 13\r\n";

/// The reply to it.
pub(super) const REPLY: &[u8] =
    b"HTTP/1.1 101 Switching Protocols\r\nUpgrade: websocket\r\nConnection: Upgrade\r\nSec-WebSocket-Accept: s3pPLMBiTxaQ9kYGzzhZRbK+xOo=\r\n\r\n";

/// The same head with an older version of the protocol, and with a path that is no route.
const OLD_HEAD: &[u8] =
    b"GET /echo HTTP/1.1\r\nHost: a\r\nUpgrade: websocket\r\nConnection: Upgrade\r\nSec-WebSocket-Key: dGhlIHNhbXBsZSBub25jZQ==\r\nSec-WebSocket-Version: 8\r\n\r\n";

const NONE_HEAD: &[u8] =
    b"GET /none HTTP/1.1\r\nHost: a\r\nUpgrade: websocket\r\nConnection: Upgrade\r\nSec-WebSocket-Key: dGhlIHNhbXBsZSBub25jZQ==\r\nSec-WebSocket-Version: 13\r\n\r\n";

/// The head of a request for the room m.
const ROOM_HEAD: &[u8] =
    b"GET /room/m HTTP/1.1\r\nHost: a\r\nUpgrade: websocket\r\nConnection: Upgrade\r\nSec-WebSocket-Key: dGhlIHNhbXBsZSBub25jZQ==\r\nSec-WebSocket-Version: 13\r\n\r\n";

/// A masked binary message of two octets.
const TWO_OCTETS: &[u8] = b"\x82\x82\x01\x02\x03\x04\xfe\x02";

/// The most octets of a schedule's text.
const MOST_OCTETS: usize = 1_048_576;

/// The most octets of a head, and the most fields. HEAD itself has 5.
const MAX_HEAD: usize = 8192;

const MAX_FIELDS: usize = 64;

const FIELDS: usize = 5;

/// Which lines of a report are compared.
#[derive(Clone, Copy)]
pub(super) enum Lines<'a> {
    All,
    /// All but those of what a link took in one write.
    Whole,
    /// All of these but those of links.
    Notes,
    /// Those of orders that were not served, of connections that left, and of links.
    Orders,
    /// Those of what a link took in one write.
    Writes,
    /// Those of what was dropped, of what the handler was told of that, and of links.
    Backlog,
    /// Those of what was heard of the connection with these digits, and of its link.
    Heard(&'a [u8]),
}

fn is_among(word: &[u8], words: &[&[u8]]) -> bool {
    words.iter().any(|other| *other == word)
}

fn is_compared(lines: Lines<'_>, line: &[u8]) -> bool {
    let mut words = line.split(|octet| *octet == b' ');
    let Some(word) = words.next() else {
        return false;
    };
    match lines {
        Lines::All => true,
        Lines::Whole => !is_among(word, &[b"took"]),
        Lines::Notes => !is_among(word, &[b"took", b"link"]),
        Lines::Orders => is_among(word, &[b"unserved", b"closed", b"gone", b"link"]),
        Lines::Writes => is_among(word, &[b"took"]),
        Lines::Backlog => is_among(word, &[b"dropped", b"told", b"link"]),
        Lines::Heard(conn) => {
            words.next() == Some(conn) && !is_among(word, &[b"took", b"given", b"accept"])
        }
    }
}

/// The lines of a report that are compared, each with its line feed.
pub(super) fn compared(rt: &HostRuntime, lines: Lines<'_>, report: &[u8]) -> Result<String, Fail> {
    let mut kept = Vec::new(rt.alloc());
    for line in report.split(|octet| *octet == b'\n') {
        if is_compared(lines, line) && !line.is_empty() {
            kept.extend_from_slice(line)?;
            kept.push(b'\n')?;
        }
    }
    Ok(String::from_utf8(kept).ok().ok_or("not UTF-8")?)
}

fn hex_digit(value: u8) -> char {
    char::from_digit(value.into(), 16).unwrap_or('?')
}

/// Octets as a schedule and a report have them.
pub(super) fn hex_of(rt: &HostRuntime, octets: &[u8]) -> Result<String, Fail> {
    let mut digits = String::new(rt.alloc());
    for octet in octets {
        digits.push(hex_digit(octet >> 4))?;
        digits.push(hex_digit(octet & 15))?;
    }
    Ok(digits)
}

/// A request line, and a field without an end, so many octets in all.
fn endless_head(rt: &HostRuntime, length: usize) -> Result<Vec<u8>, Fail> {
    let mut octets = b"GET /echo HTTP/1.1\r\nX: ".to_vec(rt.alloc())?;
    for _ in octets.len()..length {
        octets.push(b'y')?;
    }
    Ok(octets)
}

/// The head with further fields before its empty line, so many in all.
fn head_of_fields(rt: &HostRuntime, count: usize) -> Result<Vec<u8>, Fail> {
    let mut octets = [FIRST, SECOND].concat(rt.alloc())?;
    for _ in FIELDS..count {
        octets.extend_from_slice(b"X: y\r\n")?;
    }
    octets.extend_from_slice(b"\r\n")?;
    Ok(octets)
}

/// A row's text, with the digits of the octets that its upper-case words stand for.
fn filled(rt: &HostRuntime, text: &str) -> Result<String, Fail> {
    let longest = endless_head(rt, MAX_HEAD)?;
    let shorter = endless_head(rt, MAX_HEAD - 1)?;
    let full = head_of_fields(rt, MAX_FIELDS)?;
    let excess = head_of_fields(rt, MAX_FIELDS + 1)?;
    let words: [(&str, &[u8]); 12] = [
        ("ROOM", ROOM_HEAD),
        ("MANY", &[0x41; 125]),
        ("HEAD", HEAD),
        ("REPLY", REPLY),
        ("OLD", OLD_HEAD),
        ("NONE", NONE_HEAD),
        ("FIRST", FIRST),
        ("SECOND", SECOND),
        ("LONGEST", &longest),
        ("SHORTER", &shorter),
        ("FULL", &full),
        ("EXCESS", &excess),
    ];
    let mut filled = String::from_str(rt.alloc(), text)?;
    for (word, octets) in words {
        filled = filled.replace(rt.alloc(), word, &hex_of(rt, octets)?)?;
    }
    Ok(filled)
}

/// A run of the command: how it ends, its source and its sink.
#[derive(Drop)]
struct Replay {
    status: Status,
    source: MemSource,
    sink: MemSink,
}

/// Runs the text of a schedule, where peers subscribe to all topics but those that begin with `$`. The calls of the source and of the sink fail that have a 1; a write takes at most `piece`.
fn run(
    rt: &HostRuntime,
    config: Config,
    text: &[u8],
    read_fails: &[u8],
    piece: usize,
    write_fails: &[u8],
) -> Result<Replay, Fail> {
    let mut source = source(rt, text, MAX_READ, read_fails)?;
    let mut sink = sink(rt, piece, write_fails)?;
    let test: Test = Box::new(rt.alloc(), |topic: &[u8]| !topic.starts_with(b"$"))?;
    let guard = TopicGuard::new(TopicRule::Except(reserved()), test);
    let status = replay_run(rt.alloc(), config, &guard, &mut source, &mut sink);
    Ok(Replay {
        status,
        source,
        sink,
    })
}

/// These lines of the report of a schedule, whose text stands here behind its header.
pub(super) fn report_of(
    rt: &HostRuntime,
    config: Config,
    lines: Lines<'_>,
    acts: &str,
) -> Result<String, Fail> {
    let text = format!(in rt.alloc(); "corked 1\n{acts}")?;
    let replay = run(rt, config, text.as_bytes(), &[], MAX_READ, &[])?;
    if replay.status != Status::Done {
        return Err(Fail::new("the schedule"));
    }
    compared(rt, lines, replay.sink.octets())
}

/// The acts of a schedule, and the lines of its report that are compared.
const REPORTS: &[(Lines<'static>, &str, &str)] = &[
    // without acts there is the one turn that the net's Stop ends
    (Lines::Whole, "", "turn\n"),
    (Lines::Whole, ".\n", "turn\nturn\n"),
    (
        Lines::Whole,
        "t\na 7 *\n",
        "tick\naccept 7\nturn\nlink 7 0 -\n",
    ),
    // a message is sent back
    (
        Lines::Whole,
        "a 1 *\nr 1 HEAD\nr 1 818537fa213d7f9f4d5158\n.\n",
        "accept 1\ngiven 1 144\nopened 1 0 -\ngiven 1 11\ntext 1 48656c6c6f\nturn\nturn\nlink 1 0 REPLY810548656c6c6f\n",
    ),
    // a head is refused by its status: its version is older, its path is no route
    (
        Lines::Notes,
        "a 1 *\nr 1 OLD\n.\n",
        "accept 1\ngiven 1 143\nhead 1 426\ngone 1 finished\nturn\nturn\n",
    ),
    (
        Lines::Notes,
        "a 1 *\nr 1 NONE\n.\n",
        "accept 1\ngiven 1 144\nhead 1 404\ngone 1 finished\nturn\nturn\n",
    ),
    // a head without an end is too long at 8,192 octets, and no sooner
    (
        Lines::Notes,
        "a 1 *\nr 1 LONGEST\n.\n",
        "accept 1\ngiven 1 8192\nhead 1 431\ngone 1 finished\nturn\nturn\n",
    ),
    (
        Lines::Notes,
        "a 1 *\nr 1 SHORTER\n.\n",
        "accept 1\ngiven 1 8191\nturn\nturn\n",
    ),
    // a head has at most 64 fields
    (
        Lines::Notes,
        "a 1 *\nr 1 FULL\n.\n",
        "accept 1\ngiven 1 498\nopened 1 0 -\nturn\nturn\n",
    ),
    (
        Lines::Notes,
        "a 1 *\nr 1 EXCESS\n.\n",
        "accept 1\ngiven 1 504\nhead 1 400\ngone 1 finished\nturn\nturn\n",
    ),
    // an end and a failed read end a connection. What would be taken by a link that is gone is not told as held for it
    (
        Lines::Whole,
        "a 1 *\nr 1 HEAD\ne 1\n.\n",
        "accept 1\ngiven 1 144\nopened 1 0 -\ngone 1 peerend\nclosed 1 1006 -\nturn\nturn\nlink 1 0 REPLY\n",
    ),
    (
        Lines::Whole,
        "a 1 *\nr 1 HEAD\nf 1\n.\n",
        "accept 1\ngiven 1 144\nopened 1 0 -\ngone 1 linkfailed\nclosed 1 1006 -\nturn\nturn\nlink 1 0 REPLY\n",
    ),
    // in the head they are not told as closed
    (
        Lines::Whole,
        "a 1 *\nr 1 FIRST\ne 1\n.\n",
        "accept 1\ngiven 1 40\ngone 1 peerend\nturn\nturn\nlink 1 0 -\n",
    ),
    (
        Lines::Whole,
        "a 1 *\nr 1 FIRST\nf 1\n.\n",
        "accept 1\ngiven 1 40\ngone 1 linkfailed\nturn\nturn\nlink 1 0 -\n",
    ),
    // a head in three pieces is heard as one, and the octets behind it come with its end
    (
        Lines::Whole,
        "a 1 *\nr 1 FIRST\nr 1 SECOND\n.\nr 1 0d0a818537fa213d7f9f4d5158\n.\n",
        "accept 1\ngiven 1 40\ngiven 1 102\nturn\ngiven 1 13\nopened 1 0 -\ntext 1 48656c6c6f\nturn\nturn\nlink 1 0 REPLY810548656c6c6f\n",
    ),
    (
        Lines::Heard(b"1"),
        "a 1 *\nr 1 FIRST\nr 1 SECOND\n.\nr 1 0d0a818537fa213d7f9f4d5158\n.\n",
        "opened 1 0 -\ntext 1 48656c6c6f\nlink 1 0 REPLY810548656c6c6f\n",
    ),
    (
        Lines::Heard(b"1"),
        "a 1 *\nr 1 FIRSTSECOND0d0a818537fa213d7f9f4d5158\n.\n",
        "opened 1 0 -\ntext 1 48656c6c6f\nlink 1 0 REPLY810548656c6c6f\n",
    ),
    // a close is answered with its code, and then the link is shut: what comes later is not read
    (
        Lines::Whole,
        "a 1 *\nr 1 HEAD\n.\nr 1 88850000000003e9627965\nr 1 818537fa213d7f9f4d5158\n.\n",
        "accept 1\ngiven 1 144\nopened 1 0 -\nturn\ngiven 1 11\npeerclose 1 1001 627965\nclosed 1 1001 627965\ngone 1 finished\nturn\nturn\nlink 1 0 REPLY880203e9\n",
    ),
    // within a message in fragments comes a frame without a mask, or one with a reserved bit
    (
        Lines::Whole,
        "a 1 *\nr 1 HEAD\nr 1 01810000000048\nr 1 8000\nr 1 818537fa213d7f9f4d5158\n.\n",
        "accept 1\ngiven 1 144\nopened 1 0 -\ngiven 1 7\ngiven 1 2\nfailed 1 1002\nclosed 1 1002 -\ngone 1 finished\nturn\nturn\nlink 1 0 REPLY880203ea\n",
    ),
    (
        Lines::Whole,
        "a 1 *\nr 1 HEAD\nr 1 01810000000048\nr 1 c080\nr 1 818537fa213d7f9f4d5158\n.\n",
        "accept 1\ngiven 1 144\nopened 1 0 -\ngiven 1 7\ngiven 1 2\nfailed 1 1002\nclosed 1 1002 -\ngone 1 finished\nturn\nturn\nlink 1 0 REPLY880203ea\n",
    ),
];

/// Where one connection may be there, a second one is turned away.
const BUSY: &[(Lines<'static>, &str, &str)] = &[(
    Lines::Whole,
    "a 1 *\na 2 *\n.\n",
    "accept 1\nbusy 2\nturn\nturn\nlink 1 0 -\n",
)];

/// The place of the first row whose report has other lines.
fn first_other(
    rt: &HostRuntime,
    config: Config,
    rows: &[(Lines<'_>, &str, &str)],
) -> Result<Option<usize>, Fail> {
    for (place, (lines, acts, report)) in rows.iter().enumerate() {
        let found = report_of(rt, config, *lines, &filled(rt, acts)?)?;
        if found != filled(rt, report)? {
            return Ok(Some(place));
        }
    }
    Ok(None)
}

#[test]
fn schedules_have_their_reports(rt: HostRuntime) -> Result<(), Fail> {
    assert_eq!(rt; first_other(&rt, Config::usual(), REPORTS)?, None);
    let config = Config::checked(16_384, 65_536, 30, 60, 10, 1).ok_or("a configuration")?;
    assert_eq!(rt; first_other(&rt, config, BUSY)?, None);
    Ok(())
}

/// With a backlog of at most 10 octets and messages of at most 125: the acts of a schedule with links that take less than they are
/// offered, or whose writes fail, and the lines of its report that are compared.
const BACKLOGS: &[(Lines<'static>, &str, &str)] = &[
    // what a link did not take is held, and goes out when it takes octets again; then the handler is told
    (
        Lines::All,
        "a 1 132\nr 1 HEAD\n.\nr 1 818537fa213d7f9f4d5158\n.\n",
        "accept 1\ngiven 1 144\nopened 1 0 -\ntook 1 129 129\nturn\ngiven 1 11\ntext 1 48656c6c6f\ntook 1 7 3\nturn\nturn\nlink 1 4 REPLY810548\n",
    ),
    (
        Lines::All,
        "a 1 132\nr 1 HEAD\n.\nr 1 818537fa213d7f9f4d5158\n.\nw 1 4\n.\n",
        "accept 1\ngiven 1 144\nopened 1 0 -\ntook 1 129 129\nturn\ngiven 1 11\ntext 1 48656c6c6f\ntook 1 7 3\nturn\ntook 1 4 4\nturn\ntold 1 0 yes\nturn\nlink 1 0 REPLY810548656c6c6f\n",
    ),
    // over the limit a publication is dropped: the second one was put behind 7 octets, the third one comes at 14; the handler is told
    (
        Lines::All,
        "a 1 *\nr 1 ROOM\na 2 129\nr 2 ROOM\n.\nr 1 81850000000048656c6c6f\nr 1 81850000000048656c6c6f\nr 1 81850000000048656c6c6f\n.\n",
        "accept 1\ngiven 1 146\nopened 1 1 6d\ntook 1 129 129\naccept 2\ngiven 2 146\nopened 2 1 6d\ntook 2 129 129\nturn\ngiven 1 11\ntext 1 48656c6c6f\ntook 2 7 0\ngiven 1 11\ntext 1 48656c6c6f\ngiven 1 11\ntext 1 48656c6c6f\ndropped 2 3 14\nturn\ntold 2 1 no\nturn\nlink 1 0 REPLY\nlink 2 14 REPLY\n",
    ),
    // of a drop the handler is told once, and then that what was held is taken
    (
        Lines::Backlog,
        "a 1 129\nr 1 HEAD\nr 1 82fd00000000MANY\nr 1 828100000000ff\n.\n.\nw 1 127\n.\n.\n.\n",
        "dropped 1 2 127\ntold 1 1 no\ntold 1 0 yes\nlink 1 0 REPLY827dMANY\n",
    ),
    // at the limit a frame is kept, and one octet over it it is dropped
    (
        Lines::Writes,
        "a 1 129\nr 1 HEAD\nr 1 8288000000004141414141414141\nr 1 828100000000ff\nr 1 828100000000ff\nw 1 13\nw 1 10\n",
        "took 1 129 129\ntook 1 10 0\ntook 1 13 13\n",
    ),
    (
        Lines::All,
        "a 1 129\nr 1 HEAD\nr 1 828900000000414141414141414141\nr 1 828100000000ff\n",
        "accept 1\ngiven 1 144\nopened 1 0 -\ntook 1 129 129\ngiven 1 15\nbinary 1 414141414141414141\ntook 1 11 0\ngiven 1 7\nbinary 1 ff\ndropped 1 2 11\nturn\nlink 1 11 REPLY\n",
    ),
    // a ring of 647 octets is cut after 12 octets: the first part is taken short, and then each part in a write of its own
    (
        Lines::Writes,
        "a 1 129\nr 1 HEAD\nr 1 82fd00000000MANY\nw 1 127\nr 1 82fd00000000MANY\nw 1 127\nr 1 82fd00000000MANY\nw 1 127\nr 1 82fd00000000MANY\nw 1 127\nr 1 82fd00000000MANY\nw 1 127\nr 1 82fd00000000MANY\nw 1 5\nw 1 200\n",
        "took 1 129 129\ntook 1 127 0\ntook 1 127 127\ntook 1 127 0\ntook 1 127 127\ntook 1 127 0\ntook 1 127 127\ntook 1 127 0\ntook 1 127 127\ntook 1 127 0\ntook 1 127 127\ntook 1 127 0\ntook 1 12 5\ntook 1 7 7\ntook 1 115 115\n",
    ),
    // a close frame is put behind a backlog over the limit, and the connection is finished once its link took all
    (
        Lines::All,
        "a 1 129\nr 1 HEAD\nr 1 82fd00000000MANY\nr 1 828100000000ff\n.\nr 1 88820000000003e8\n.\nw 1 131\n.\n",
        "accept 1\ngiven 1 144\nopened 1 0 -\ntook 1 129 129\ngiven 1 131\nbinary 1 MANY\ntook 1 127 0\ngiven 1 7\nbinary 1 ff\ndropped 1 2 127\nturn\ntold 1 1 no\ngiven 1 8\npeerclose 1 1000 -\nclosed 1 1000 -\nturn\ntook 1 131 131\ngone 1 finished\nturn\nturn\nlink 1 0 REPLY827dMANY880203e8\n",
    ),
    // a link fails while octets over the limit are held for it
    (
        Lines::All,
        "a 1 129\nr 1 HEAD\nr 1 82fd00000000MANY\n.\nb 1\n.\n",
        "accept 1\ngiven 1 144\nopened 1 0 -\ntook 1 129 129\ngiven 1 131\nbinary 1 MANY\ntook 1 127 0\nturn\ngone 1 linkfailed\nclosed 1 1006 -\nturn\nturn\nlink 1 0 REPLY\n",
    ),
    // one link fails in a publication, and the other receivers get it
    (
        Lines::Notes,
        "a 1 *\nr 1 ROOM\na 2 *\nr 2 ROOM\na 3 *\nr 3 ROOM\na 4 *\nr 4 ROOM\n.\nb 3\nr 1 81810000000041\n.\n",
        "accept 1\ngiven 1 146\nopened 1 1 6d\naccept 2\ngiven 2 146\nopened 2 1 6d\naccept 3\ngiven 3 146\nopened 3 1 6d\naccept 4\ngiven 4 146\nopened 4 1 6d\nturn\ngiven 1 7\ntext 1 41\ngone 3 linkfailed\nclosed 3 1006 -\nturn\nturn\n",
    ),
];

/// A room in which one link takes nothing behind the reply, over so many turns with a message of 5 octets each.
fn stalled_room(rt: &HostRuntime, turns: u64) -> Result<String, Fail> {
    let mut acts = String::from_str(rt.alloc(), "a 1 *\nr 1 ROOM\na 2 129\nr 2 ROOM\n.\n")?;
    for _ in 0..turns {
        acts.push_str("r 1 81850000000048656c6c6f\n.\n")?;
    }
    filled(rt, &acts)
}

/// What is told of drops in so many turns: from the third message on, each is dropped.
fn drops(rt: &HostRuntime, turns: u64) -> Result<String, Fail> {
    let mut report = String::new(rt.alloc());
    for index in 3..=turns {
        report.push_str(&format!(in rt.alloc(); "dropped 2 {index} 14\ntold 2 1 no\n")?)?;
    }
    report.push_str(&filled(rt, "link 1 0 REPLY\nlink 2 14 REPLY\n")?)?;
    Ok(report)
}

/// A backlog is held, drained and bounded.
#[test]
fn a_backlog_has_a_limit(rt: HostRuntime) -> Result<(), Fail> {
    let config = Config::checked(125, 10, 30, 60, 10, 4).ok_or("a configuration")?;
    assert_eq!(rt; first_other(&rt, config, BACKLOGS)?, None);
    let found = report_of(&rt, config, Lines::Backlog, &stalled_room(&rt, 200)?)?;
    assert_eq!(rt; found.as_str(), drops(&rt, 200)?.as_str());
    Ok(())
}

/// The octets that two connections send: a head, and a message of each.
fn two_peers(rt: &HostRuntime) -> Result<(Vec<u8>, Vec<u8>), Fail> {
    let one = [HEAD, HELLO].concat(rt.alloc())?;
    let two = [HEAD, TWO_OCTETS].concat(rt.alloc())?;
    Ok((one, two))
}

/// What is heard of the two connections, and what their links took: of 1, and then of 2.
fn heard_of_both(rt: &HostRuntime, acts: &str) -> Result<String, Fail> {
    let report = report_of(rt, Config::usual(), Lines::Whole, acts)?;
    let mut heard = compared(rt, Lines::Heard(b"1"), report.as_bytes())?;
    heard.push_str(&compared(rt, Lines::Heard(b"2"), report.as_bytes())?)?;
    Ok(heard)
}

/// The same as it has to be, however the octets come.
const HEARD_OF_BOTH: &str =
    "opened 1 0 -\ntext 1 48656c6c6f\nlink 1 0 REPLY810548656c6c6f\nopened 2 0 -\nbinary 2 ff00\nlink 2 0 REPLY8202ff00\n";

/// Octets in two pieces, cut at a place.
fn pieces(rt: &HostRuntime, octets: &[u8], place: usize) -> Result<(String, String), Fail> {
    let (front, behind) = octets.split_at(place.min(octets.len()));
    Ok((hex_of(rt, front)?, hex_of(rt, behind)?))
}

/// The octets of each connection in two pieces, cut at these places, one after another.
fn two_in_pieces(rt: &HostRuntime, first: usize, second: usize) -> Result<String, Fail> {
    let (one, two) = two_peers(rt)?;
    let (front, behind) = pieces(rt, &one, first)?;
    let (others, last) = pieces(rt, &two, second)?;
    Ok(format!(in rt.alloc();
        "a 1 *\na 2 *\nr 1 {front}\nr 2 {others}\nr 1 {behind}\nr 2 {last}\n.\n"
    )?)
}

/// An octet of the one connection, and then one of the other, with a turn now and then.
fn two_by_octets(rt: &HostRuntime) -> Result<String, Fail> {
    let (one, two) = two_peers(rt)?;
    let mut acts = format!(in rt.alloc(); "a 1 *\na 2 *\n")?;
    for place in 0..one.len().max(two.len()) {
        for (conn, octets) in [(1, &one), (2, &two)] {
            if let Some(octet) = octets.get(place) {
                let digits = hex_of(rt, &[*octet])?;
                acts.push_str(&format!(in rt.alloc(); "r {conn} {digits}\n")?)?;
            }
        }
        if place % 16 == 7 {
            acts.push_str(".\n")?;
        }
    }
    Ok(acts)
}

/// Whether the two connections are heard as they have to be, cut at these places.
fn is_heard(rt: &HostRuntime, wanted: &str, first: usize, second: usize) -> Result<bool, Fail> {
    let heard = heard_of_both(rt, &two_in_pieces(rt, first, second)?)?;
    Ok(heard.as_str() == wanted)
}

/// The first place at which one of the two is cut, and they are heard otherwise; the other is cut here.
fn first_cut(rt: &HostRuntime, wanted: &str, other: usize) -> Result<Option<usize>, Fail> {
    for place in 1..152 {
        if !is_heard(rt, wanted, place, other)? || !is_heard(rt, wanted, other, place)? {
            return Ok(Some(place));
        }
    }
    Ok(None)
}

/// One of two connections is cut at each place, and the other within its head, behind it, and within its message; and then
/// both at all places.
#[test]
fn two_connections_interleave_at_every_place(rt: HostRuntime) -> Result<(), Fail> {
    let wanted = filled(&rt, HEARD_OF_BOTH)?;
    assert_eq!(rt; first_cut(&rt, &wanted, 40)?, None);
    assert_eq!(rt; first_cut(&rt, &wanted, 144)?, None);
    assert_eq!(rt; first_cut(&rt, &wanted, 150)?, None);
    let heard = heard_of_both(&rt, &two_by_octets(&rt)?)?;
    assert_eq!(rt; heard.as_str(), wanted.as_str());
    Ok(())
}

/// The calls of the source and of the sink that fail, by a 1 each, where a write takes 5 octets; how the run of a short
/// schedule ends, and what was written.
const FAULTS: &[(&[u8], &[u8], Status, &[u8])] = &[
    (
        &[],
        &[],
        Status::Done,
        b"accept 1\nturn\nturn\nlink 1 0 -\n",
    ),
    // the first read, and the one that would find the end
    (&[1], &[], Status::ReadFault, b""),
    (&[0, 1], &[], Status::ReadFault, b""),
    // a write within a line, the first of the second line, and the last of all
    (&[], &[1], Status::WriteFault, b""),
    (&[], &[0, 1], Status::WriteFault, b"accep"),
    (&[], &[0, 0, 1], Status::WriteFault, b"accept 1\n"),
    (
        &[],
        &[0, 0, 0, 0, 0, 0, 1],
        Status::WriteFault,
        b"accept 1\nturn\nturn\nlink 1 0 -",
    ),
];

/// The place of the first row with another end.
fn first_fault(
    rt: &HostRuntime,
    rows: &[(&[u8], &[u8], Status, &[u8])],
) -> Result<Option<usize>, Fail> {
    let text = b"corked 1\na 1 *\n.\n";
    for (place, (read_fails, write_fails, status, written)) in rows.iter().enumerate() {
        let replay = run(rt, Config::usual(), text, read_fails, 5, write_fails)?;
        if replay.status != *status || replay.sink.octets() != *written {
            return Ok(Some(place));
        }
    }
    Ok(None)
}

/// Texts, and the first of their lines that breaks a rule.
const REFUSALS: &[(&[u8], &str)] = &[
    (b"corked 1\na 1 *\nr 1 8\n", "line 3: bad line"),
    (b"", "line 1: bad header"),
    (b"corked 2\n", "line 1: bad header"),
    (b"corked 1\na 1 *", "line 2: bad line"),
    (b"corked 1\na 2 *\na 2 *\n", "line 3: number not rising"),
    (b"corked 1\nr 1 00\n", "line 2: unknown connection"),
    (b"corked 1\na 1 *\ne 1\nr 1 00\n", "line 4: after end"),
    (HELLO, "line 1: bad header"),
];

/// The place of the first text that is refused otherwise, or of which something is written.
fn first_taken(rt: &HostRuntime, rows: &[(&[u8], &str)]) -> Result<Option<usize>, Fail> {
    for (place, (text, wanted)) in rows.iter().enumerate() {
        let replay = run(rt, Config::usual(), text, &[], MAX_READ, &[])?;
        let told = format!(in rt.alloc(); "{}", replay.status)?;
        if told.as_str() != *wanted || !replay.sink.octets().is_empty() {
            return Ok(Some(place));
        }
    }
    Ok(None)
}

#[test]
fn ends_at_the_first_fault_or_bad_line(rt: HostRuntime) -> Result<(), Fail> {
    assert_eq!(rt; first_fault(&rt, FAULTS)?, None);
    assert_eq!(rt; first_taken(&rt, REFUSALS)?, None);
    Ok(())
}

/// The text of a schedule with as many octets as one may have.
fn longest_text(rt: &HostRuntime) -> Result<Vec<u8>, Fail> {
    let mut text = b"corked 1\na 1 *\n".to_vec(rt.alloc())?;
    let line = format!(in rt.alloc(); "r 1 {}\n", hex_of(rt, &[0x41; 8192])?)?;
    for _ in 0..63 {
        text.extend_from_slice(line.as_bytes())?;
    }
    for _ in 0..8027 {
        text.extend_from_slice(b"t\n")?;
    }
    Ok(text)
}

/// What stands behind such a text, how the run ends, how its report begins, and what the next read gives: of a text that is too
/// long, one octet more than a text may have is read.
const BEHIND: &[(&[u8], &str, &[u8], Got)] = &[
    (
        b"",
        "done",
        b"accept 1\ngiven 1 8192\nhead 1 431\n",
        Got::End,
    ),
    (b".", "line 0: too long", b"", Got::End),
    (b".\n.\n", "line 0: too long", b"", Got::Octets(3)),
];

/// The place of the first row with another end.
fn first_behind(
    rt: &HostRuntime,
    rows: &[(&[u8], &str, &[u8], Got)],
) -> Result<Option<usize>, Fail> {
    let longest = longest_text(rt)?;
    for (place, (behind, wanted, begins, next)) in rows.iter().enumerate() {
        let text = [longest.as_slice(), *behind].concat(rt.alloc())?;
        let mut replay = run(rt, Config::usual(), &text, &[], MAX_READ, &[])?;
        let told = format!(in rt.alloc(); "{}", replay.status)?;
        let report = replay.sink.octets();
        let is_so = report.starts_with(begins) && report.is_empty() == begins.is_empty();
        if !is_so || told.as_str() != *wanted {
            return Ok(Some(place));
        }
        if replay.source.read(&mut [0; 8]) != *next || replay.source.read(&mut [0; 8]) != Got::End {
            return Ok(Some(place));
        }
    }
    Ok(None)
}

#[test]
fn a_text_of_1048576_octets_is_read_and_no_longer_one(rt: HostRuntime) -> Result<(), Fail> {
    assert_eq!(rt; longest_text(&rt)?.len(), MOST_OCTETS);
    assert_eq!(rt; first_behind(&rt, BEHIND)?, None);
    Ok(())
}
