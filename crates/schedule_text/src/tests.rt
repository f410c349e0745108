ghost use Rattle.std.specs.Prelude.{◌≡◌, ◌≤◌, [], true, length, IfSome};
ghost use Rattle.mem_net.specs.Schedule.{is_sound};
ghost use Rattle.schedule_text.specs.Spelling.{schedule_text};

use super::*;
use link_trait::{Act, MemSink};
use mem_net::Schedule;
use std::alloc::Global;
use std::test::*;
use ws_kinds::{Bytes, Conn, Kind, Left, Note, Why};

fn sink(alloc: Global, room: usize) -> Result<MemSink, Fail> {
    let none = Bytes::of(alloc, b"").ok().ok_or("memory")?;
    Ok(MemSink::new(alloc, 7, none, room).ok().ok_or("memory")?)
}

fn refused(line: u64, fault: Fault) -> Option<ReadFault> {
    Some(ReadFault::Refused { line, fault })
}

/// What `print` writes of a schedule `read` gives again, by the contracts of both.
fn read_back(alloc: Global, schedule: &Schedule, sink: &mut MemSink) -> Option<Schedule>
    requires { is_sound schedule.now ≡ true }
    ensures { length (schedule_text schedule.now) ≤ 1048576 → sink.old.written ≡ [] → IfSome result (λ again. again ≡ schedule.now) }
{
    if !print(schedule, sink) {
        return None;
    }
    read(alloc, sink.octets()).ok()
}

/// Texts that are read, and how many acts they have.
const TEXTS: &[(&[u8], usize)] = &[
    (b"corked 1\n", 0),
    (b"corked 1\nt\n.\n", 2),
    (b"corked 1\na 1 *\n", 1),
    (b"corked 1\na 4294967295 *\n", 1),
    (b"corked 1\na 9 *\na 10 *\na 100 *\n", 3),
    (b"corked 1\na 1 *\nr 1 00\nr 1 ff09a0\n.\n", 4),
    (b"corked 1\na 1 *\na 2 *\ne 1\nr 2 81\nf 2\n.\n", 6),
    (b"corked 1\na 7 *\nr 7 0123456789abcdef\n", 2),
    (b"corked 1\na 1 0\na 2 4294967295\na 3 *\n", 3),
    (b"corked 1\na 1 10\nw 1 1\nw 1 4294967295\nb 1\nw 1 9\n", 5),
    (
        b"corked 1\na 4294967295 *\nw 4294967295 1\nb 4294967295\n",
        3,
    ),
    (b"corked 1\na 1 5\ne 1\nw 1 1\nb 1\nb 1\n.\n", 6),
    (b"corked 1\na 1 *\nr 1 61\nt\n.\ne 1\na 2 *\nt\n.\n", 8),
];

// The functions below that go over a table answer the place of the first row that goes otherwise.

/// What `read` gives is printed as the text that was read.
fn other_text(alloc: Global, rows: &[(&[u8], usize)]) -> Result<Option<usize>, Fail> {
    for (place, (text, count)) in rows.iter().enumerate() {
        let mut sink = sink(alloc, 200)?;
        let schedule = read(alloc, text).ok().ok_or("refused")?;
        let again = read_back(alloc, &schedule, &mut sink).ok_or("refused")?;
        let counts = (schedule.acts().len(), again.acts().len());
        if counts != (*count, *count) || sink.octets() != *text {
            return Ok(Some(place));
        }
    }
    Ok(None)
}

#[test]
fn texts_are_read_and_printed(rt: HostRuntime) -> Result<(), Fail> {
    assert_eq!(rt; other_text(rt.alloc(), TEXTS)?, None);
    Ok(())
}

/// Each part of each line is wrong in turn. All stand as line 3.
const BAD_LINES: &[&[u8]] = &[
    b"\n",
    b"\r\n",
    b" t\n",
    b"t \n",
    b"t\r\n",
    b"T\n",
    b"tt\n",
    b"t 1\n",
    b"t",
    b".",
    b". \n",
    b"..\n",
    b"x\n",
    b"a\n",
    b"a \n",
    b"a 2\n",
    b"a 2 \n",
    b"a  2 *\n",
    b"a 2  *\n",
    b"a 2 * \n",
    b" a 2 *\n",
    b"A 2 *\n",
    b"a\t2 *\n",
    b"a 2 **\n",
    b"a 2 x\n",
    b"a 2 *\r\n",
    b"a 2 *",
    b"a 2 01\n",
    b"a 2 00\n",
    b"a 2 +1\n",
    b"a 2 -1\n",
    b"a 2 1x\n",
    b"a 2 1*\n",
    b"a 2 *1\n",
    b"a 2 1 \n",
    b"a 2  1\n",
    b"a 2 1",
    b"a 2 4294967296\n",
    b"a 2 18446744073709551616\n",
    b"a 02 *\n",
    b"a +2 *\n",
    b"a -2 *\n",
    b"a 2x *\n",
    b"a x *\n",
    b"r\n",
    b"r 1\n",
    b"r 1 \n",
    b"r 1 8\n",
    b"r 1 812\n",
    b"r 1 8G\n",
    b"r 1 8A\n",
    b"r 1 A8\n",
    b"r 1 81 82\n",
    b"r 1  81\n",
    b"r  1 81\n",
    b"r 1 81 \n",
    b"r 1 81\r\n",
    b"r 1 81",
    b"r 01 81\n",
    b"r 1 -\n",
    b"e\n",
    b"e 1 \n",
    b"e  1\n",
    b"e 01\n",
    b"e 1",
    b"f\n",
    b"f 1 1\n",
    b"w\n",
    b"w 1\n",
    b"w 1 \n",
    b"w 1 0\n",
    b"w 1 01\n",
    b"w 1 *\n",
    b"w 1 4294967296\n",
    b"w 1 1 \n",
    b"w 1  1\n",
    b"w  1 1\n",
    b"w 0 1\n",
    b"w 01 1\n",
    b"w 1 1 1\n",
    b"w 1 1\r\n",
    b"w 1 1",
    b"W 1 1\n",
    b"b\n",
    b"b \n",
    b"b 0\n",
    b"b 01\n",
    b"b 4294967296\n",
    b"b 1 \n",
    b"b 1 1\n",
    b"b 1\r\n",
    b"b 1",
    b"B 1\n",
];

fn other_bad_line(alloc: Global, lines: &[&[u8]]) -> Result<Option<usize>, Fail> {
    for (place, line) in lines.iter().enumerate() {
        let mut text = Vec::from_slice(alloc, b"corked 1\na 1 *\n")?;
        text.extend_from_slice(line)?;
        if read(alloc, &text).err() != refused(3, Fault::BadLine) {
            return Ok(Some(place));
        }
    }
    Ok(None)
}

/// The first rule that is broken, at the first line that breaks one.
const FAULTS: &[(&[u8], u64, Fault)] = &[
    (b"", 1, Fault::BadHeader),
    (b"\n", 1, Fault::BadHeader),
    (b"corked 1", 1, Fault::BadHeader),
    (b"corked 1 \n", 1, Fault::BadHeader),
    (b"corked 1\r\n", 1, Fault::BadHeader),
    (b"corked 2\nt\n", 1, Fault::BadHeader),
    (b"corked 01\n", 1, Fault::BadHeader),
    (b"corked  1\n", 1, Fault::BadHeader),
    (b"Corked 1\n", 1, Fault::BadHeader),
    (b" corked 1\n", 1, Fault::BadHeader),
    (b"t\n", 1, Fault::BadHeader),
    (b"corked 1\na 1 *\nr 1 8\n", 3, Fault::BadLine),
    (b"corked 1\nt\n.", 3, Fault::BadLine),
    (b"corked 1\na 1 *\na 1 *", 3, Fault::BadLine),
    (b"corked 1\na 0 *\n", 2, Fault::BadLine),
    (b"corked 1\na 4294967296 *\n", 2, Fault::BadLine),
    (b"corked 1\na 18446744073709551617 *\n", 2, Fault::BadLine),
    (
        b"corked 1\na 99999999999999999999999999 *\n",
        2,
        Fault::BadLine,
    ),
    (b"corked 1\ne 0\n", 2, Fault::BadLine),
    (b"corked 1\na 2 *\na 2 *\n", 3, Fault::NotRising),
    (b"corked 1\na 2 *\na 1 *\n", 3, Fault::NotRising),
    (b"corked 1\na 1 *\na 9 *\na 5 *\n", 4, Fault::NotRising),
    (b"corked 1\nr 1 00\n", 2, Fault::UnknownConn),
    (b"corked 1\ne 1\n", 2, Fault::UnknownConn),
    (b"corked 1\nf 4294967295\n", 2, Fault::UnknownConn),
    (b"corked 1\na 2 *\nr 1 00\n", 3, Fault::UnknownConn),
    (b"corked 1\na 2 *\ne 2\nf 3\n", 4, Fault::UnknownConn),
    (b"corked 1\nw 1 1\n", 2, Fault::UnknownConn),
    (b"corked 1\na 2 7\nw 1 1\n", 3, Fault::UnknownConn),
    (b"corked 1\na 2 7\nb 2\nb 3\n", 4, Fault::UnknownConn),
    (b"corked 1\na 2 7\na 2 8\n", 3, Fault::NotRising),
    (b"corked 1\na 1 *\ne 1\nr 1 00\n", 4, Fault::AfterEnd),
    (b"corked 1\na 1 *\nf 1\nr 1 00\n", 4, Fault::AfterEnd),
    (b"corked 1\na 1 *\ne 1\ne 1\n", 4, Fault::AfterEnd),
    (b"corked 1\na 1 *\ne 1\nf 1\n", 4, Fault::AfterEnd),
    (b"corked 1\na 1 *\nf 1\na 2 *\nt\nf 1\n", 6, Fault::AfterEnd),
    (b"corked 1\nr 1 8\ne 1\n", 2, Fault::BadLine),
    (b"corked 1\na 1 *\ne 1\ne 1\nx\n", 4, Fault::AfterEnd),
];

fn other_fault(alloc: Global, rows: &[(&[u8], u64, Fault)]) -> Option<usize> {
    for (place, (text, line, fault)) in rows.iter().enumerate() {
        if read(alloc, text).err() != refused(*line, *fault) {
            return Some(place);
        }
    }
    None
}

/// A front of a schedule is one, or is refused at the line of the cut.
fn other_front(alloc: Global, text: &[u8]) -> Option<usize> {
    let mut lines = 0_u64;
    for (place, octet) in text.iter().enumerate() {
        let mut wanted = refused(lines.saturating_add(1), Fault::BadLine);
        if *octet == b'\n' {
            lines = lines.saturating_add(1);
            wanted = None;
        } else if lines == 0 {
            wanted = refused(1, Fault::BadHeader);
        }
        if read(alloc, &text[..=place]).err() != wanted {
            return Some(place);
        }
    }
    None
}

/// A front, a part that follows it so many times, an end, and how the text is refused.
const SIZES: &[(&[u8], &[u8], usize, &[u8], Option<(u64, Fault)>)] = &[
    // an act has at most 8,192 octets
    (b"corked 1\na 1 *\nr 1 ", b"0a", 8_192, b"\n", None),
    (
        b"corked 1\na 1 *\nr 1 ",
        b"0a",
        8_193,
        b"\n",
        Some((3, Fault::BadLine)),
    ),
    // a text has at most 1,048,576 octets
    (
        b"corked 1\n",
        b"t\n",
        524_283,
        b".",
        Some((524_285, Fault::BadLine)),
    ),
    (
        b"corked 1\n",
        b"t\n",
        524_283,
        b".\n",
        Some((0, Fault::TooLong)),
    ),
];

fn refusal(
    alloc: Global,
    front: &[u8],
    part: &[u8],
    times: usize,
    end: &[u8],
) -> Result<Option<ReadFault>, Fail> {
    let middle = part.repeat(alloc, times)?;
    let mut text = Vec::from_slice(alloc, front)?;
    text.extend_from_slice(&middle)?;
    text.extend_from_slice(end)?;
    Ok(read(alloc, &text).err())
}

fn other_size(
    alloc: Global,
    rows: &[(&[u8], &[u8], usize, &[u8], Option<(u64, Fault)>)],
) -> Result<Option<usize>, Fail> {
    for (place, (front, part, times, end, wanted)) in rows.iter().enumerate() {
        let wanted = match *wanted {
            Some((line, fault)) => refused(line, fault),
            None => None,
        };
        if refusal(alloc, front, part, *times, end)? != wanted {
            return Ok(Some(place));
        }
    }
    Ok(None)
}

#[test]
fn texts_are_refused(rt: HostRuntime) -> Result<(), Fail> {
    assert_eq!(rt; other_bad_line(rt.alloc(), BAD_LINES)?, None);
    assert_eq!(rt; other_fault(rt.alloc(), FAULTS), None);
    let text = b"corked 1\na 1 10\nr 1 00ff61\n.\na 22 *\nt\nw 1 23\ne 1\nb 1\nf 22\n.\n";
    assert_eq!(rt; other_front(rt.alloc(), text), None);
    assert_eq!(rt; other_size(rt.alloc(), SIZES)?, None);
    Ok(())
}

/// Every act.
fn every_act(alloc: Global) -> Result<Schedule, Fail> {
    let octets = Bytes::of(alloc, b"\x00\x81").ok().ok_or("memory")?;
    let acts = [
        Act::Arrive {
            conn: Conn(1),
            credit: Some(0),
        },
        Act::Arrive {
            conn: Conn(2),
            credit: None,
        },
        Act::Octets {
            conn: Conn(1),
            octets,
        },
        Act::Room {
            conn: Conn(1),
            more: u32::MAX,
        },
        Act::WriteFails(Conn(2)),
        Act::End(Conn(1)),
        Act::ReadFails(Conn(2)),
        Act::Tick,
        Act::Turn,
    ];
    let mut schedule = Schedule::new(alloc);
    for act in acts {
        schedule.push(act)?;
    }
    Ok(schedule)
}

#[test]
fn acts_are_printed(rt: HostRuntime) -> Result<(), Fail> {
    let schedule = every_act(rt.alloc())?;
    assert!(rt; schedule.sound());
    let mut sink = sink(rt.alloc(), 100)?;
    assert!(rt; print(&schedule, &mut sink));
    let text = b"corked 1\na 1 0\na 2 *\nr 1 0081\nw 1 4294967295\nb 2\ne 1\nf 2\nt\n.\n";
    assert_eq!(rt; sink.octets(), text.as_slice());
    Ok(())
}

const CONN: Conn = Conn(7);

/// Every note, with numbers at the ends of their ranges.
const NOTES: &[(Note<'static>, &[u8])] = &[
    (Note::Turn, b"turn\n"),
    (Note::Tick, b"tick\n"),
    (Note::Accepted(Conn(0)), b"accept 0\n"),
    (
        Note::Accepted(Conn(u64::MAX)),
        b"accept 18446744073709551615\n",
    ),
    (Note::Busy(CONN), b"busy 7\n"),
    (Note::NoRoom(CONN), b"noroom 7\n"),
    (
        Note::Given {
            conn: CONN,
            count: 144,
        },
        b"given 7 144\n",
    ),
    (
        Note::Head {
            conn: CONN,
            status: 431,
        },
        b"head 7 431\n",
    ),
    (
        Note::Opened {
            conn: CONN,
            route: 255,
            param: b"",
        },
        b"opened 7 255 -\n",
    ),
    (
        Note::Opened {
            conn: CONN,
            route: 1,
            param: b"lobby",
        },
        b"opened 7 1 6c6f626279\n",
    ),
    (
        Note::Message {
            conn: CONN,
            kind: Kind::Text,
            body: b"Hello",
        },
        b"text 7 48656c6c6f\n",
    ),
    (
        Note::Message {
            conn: CONN,
            kind: Kind::Binary,
            body: b"\x00\x09\x0a\x0f\x10\x7f\x80\xa0\xff",
        },
        b"binary 7 00090a0f107f80a0ff\n",
    ),
    (
        Note::PingGot {
            conn: CONN,
            body: b"",
        },
        b"ping 7 -\n",
    ),
    (
        Note::PongGot {
            conn: CONN,
            body: b"x",
        },
        b"pong 7 78\n",
    ),
    (
        Note::PeerClose {
            conn: CONN,
            code: 1001,
            reason: b"",
        },
        b"peerclose 7 1001 -\n",
    ),
    (
        Note::Failed {
            conn: CONN,
            code: 65535,
        },
        b"failed 7 65535\n",
    ),
    (
        Note::Took {
            conn: CONN,
            offered: 14,
            took: 0,
        },
        b"took 7 14 0\n",
    ),
    (
        Note::Dropped {
            conn: CONN,
            index: 3,
            held: u64::MAX,
        },
        b"dropped 7 3 18446744073709551615\n",
    ),
    (
        Note::Unserved {
            conn: CONN,
            order: 0,
            why: Why::Forbidden,
        },
        b"unserved 7 0 forbidden\n",
    ),
    (Note::Pinged(CONN), b"pinged 7\n"),
    (
        Note::Told {
            conn: CONN,
            dropped: 1,
            drained: false,
        },
        b"told 7 1 no\n",
    ),
    (
        Note::Told {
            conn: CONN,
            dropped: 0,
            drained: true,
        },
        b"told 7 0 yes\n",
    ),
    (
        Note::Closed {
            conn: CONN,
            code: 1006,
            reason: b"bye",
        },
        b"closed 7 1006 627965\n",
    ),
    (
        Note::Gone {
            conn: CONN,
            left: Left::PeerEnd,
        },
        b"gone 7 peerend\n",
    ),
    (
        Note::Gone {
            conn: CONN,
            left: Left::LinkFailed,
        },
        b"gone 7 linkfailed\n",
    ),
    (
        Note::Gone {
            conn: CONN,
            left: Left::Idle,
        },
        b"gone 7 idle\n",
    ),
    (
        Note::Gone {
            conn: CONN,
            left: Left::Finished,
        },
        b"gone 7 finished\n",
    ),
];

fn other_note(alloc: Global, rows: &[(Note<'static>, &[u8])]) -> Result<Option<usize>, Fail> {
    for (place, (note, line)) in rows.iter().enumerate() {
        let mut sink = sink(alloc, 100)?;
        if !report_note(note, &mut sink) || sink.octets() != *line {
            return Ok(Some(place));
        }
    }
    Ok(None)
}

/// Links: the connection, the octets held, those taken, and the line.
const LINKS: &[(Conn, u64, &[u8], &[u8])] = &[
    (Conn(1), 0, b"", b"link 1 0 -\n"),
    (
        Conn(20),
        14,
        b"\x81\x05Hello",
        b"link 20 14 810548656c6c6f\n",
    ),
];

fn other_link(alloc: Global, rows: &[(Conn, u64, &[u8], &[u8])]) -> Result<Option<usize>, Fail> {
    for (place, (conn, held, octets, line)) in rows.iter().enumerate() {
        let mut sink = sink(alloc, 100)?;
        if !report_link(*conn, *held, octets, &mut sink) || sink.octets() != *line {
            return Ok(Some(place));
        }
    }
    Ok(None)
}

#[test]
fn notes_and_links_are_reported(rt: HostRuntime) -> Result<(), Fail> {
    assert_eq!(rt; other_note(rt.alloc(), NOTES)?, None);
    assert_eq!(rt; other_link(rt.alloc(), LINKS)?, None);
    Ok(())
}

/// A link with so many octets, in a sink with this room: whether all was taken, and what was.
fn long_link(alloc: Global, count: usize, room: usize) -> Result<(bool, MemSink), Fail> {
    let octets = b"\xab".repeat(alloc, count)?;
    let mut sink = sink(alloc, room)?;
    let all = report_link(Conn(1), 0, &octets, &mut sink);
    Ok((all, sink))
}

/// Octets of more than one buffer, and a sink that is full before their end.
#[test]
fn long_lines_are_written_in_parts(rt: HostRuntime) -> Result<(), Fail> {
    let (is_whole, all) = long_link(rt.alloc(), 3_000, 7_000)?;
    assert!(rt; is_whole);
    assert_eq!(rt; all.octets().len(), 6_010);
    assert!(rt; all.octets().starts_with(b"link 1 0 abab"));
    assert!(rt; all.octets().ends_with(b"abab\n"));
    let (is_whole, few) = long_link(rt.alloc(), 3_000, 2_000)?;
    assert!(rt; !is_whole);
    assert!(rt; all.octets().starts_with(few.octets()));
    Ok(())
}

/// The texts of faults.
const NAMES: &[(Fault, &str)] = &[
    (Fault::TooLong, "too long"),
    (Fault::BadHeader, "bad header"),
    (Fault::BadLine, "bad line"),
    (Fault::NotRising, "number not rising"),
    (Fault::UnknownConn, "unknown connection"),
    (Fault::AfterEnd, "after end"),
];

fn other_name(alloc: Global, rows: &[(Fault, &str)]) -> Result<Option<usize>, Fail> {
    for (place, (fault, text)) in rows.iter().enumerate() {
        let shown = format!(in alloc; "{fault}")?;
        if shown.as_str() != *text {
            return Ok(Some(place));
        }
    }
    Ok(None)
}

#[test]
fn faults_have_texts(rt: HostRuntime) -> Result<(), Fail> {
    assert_eq!(rt; other_name(rt.alloc(), NAMES)?, None);
    Ok(())
}
