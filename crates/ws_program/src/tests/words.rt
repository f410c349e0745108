//! Words of the command line, with an input behind them: each option is used, and all that is no command of the program is Usage.

use super::bus::filled;
use super::replay::{Lines, compared};
use super::serve::{EIGHT, net_of};
use super::{HELLO, HELLO_ECHO, sink, source};
use crate::commands::ws_run;
use crate::reads::MAX_READ;
use crate::reserved;
use crate::status::Status;
use link_trait::{Got, MemSink, MemSource, Outside, Source};
use std::test::*;
use topic_guard::{Test, TopicGuard, TopicRule};
use ws_kinds::{Counter, Tally};

/// A run by words: how it ends, its source and its sink.
#[derive(Drop)]
struct Run {
    status: Status,
    source: MemSource,
    sink: MemSink,
}

/// The words of a line, which stand between single blanks; none of an empty line.
fn words_of(rt: &HostRuntime, line: &str) -> Result<Vec<String>, Fail> {
    let mut words = Vec::new(rt.alloc());
    if line.is_empty() {
        return Ok(words);
    }
    for word in line.split(' ') {
        words.push(String::from_str(rt.alloc(), word)?)?;
    }
    Ok(words)
}

/// Runs the words of a line over an input, and over a net on which eight turns end and then nothing comes.
fn run_line(rt: &HostRuntime, line: &str, input: &[u8]) -> Result<Run, Fail> {
    let words = words_of(rt, line)?;
    let mut source = source(rt, input, MAX_READ, &[])?;
    let mut sink = sink(rt, MAX_READ, &[])?;
    let mut out = Outside {
        net: net_of(rt, EIGHT)?,
        watch: Counter::new(),
        tally: Tally::new(),
    };
    let test: Test = Box::new(rt.alloc(), |topic: &[u8]| !topic.starts_with(b"$"))?;
    let guard = TopicGuard::new(TopicRule::Except(reserved()), test);
    let status = ws_run(rt.alloc(), &words, &mut source, &mut sink, &mut out, guard);
    Ok(Run {
        status,
        source,
        sink,
    })
}

/// Words, the octets of a client, and what is written. With ample memory the words of a command run it, so a body that gives up
/// for want of memory each time fails here.
const ECHOES: &[(&str, &[u8], &[u8])] = &[
    ("echo", HELLO, HELLO_ECHO),
    // a message of 16,384 octets is waited for, and one of an octet more refused
    ("echo", b"\x82\xfe\x40\x00", b""),
    ("echo", b"\x82\xfe\x40\x01", b"\x88\x02\x03\xf1"),
    ("echo --max-message 16385", b"\x82\xfe\x40\x01", b""),
    (
        "echo --max-message 1",
        b"\x81\x81\0\0\0\0x\x81\x82",
        b"\x81\x01x\x88\x02\x03\xf1",
    ),
    (
        "echo --max-message=65536",
        b"\x82\xff\0\0\0\0\0\x01\0\0",
        b"",
    ),
    (
        "echo --max-message 65536",
        b"\x82\xff\0\0\0\0\0\x01\0\x01",
        b"\x88\x02\x03\xf1",
    ),
];

/// The place of the first row with another end.
fn first_echo(rt: &HostRuntime, rows: &[(&str, &[u8], &[u8])]) -> Result<Option<usize>, Fail> {
    for (place, (line, input, written)) in rows.iter().enumerate() {
        let run = run_line(rt, line, input)?;
        if run.status != Status::Done || run.sink.octets() != *written {
            return Ok(Some(place));
        }
    }
    Ok(None)
}

/// A room in which the link of one of two takes no more than the reply, and three messages are sent to it.
const SLOW: &str =
    "a 1 *\nr 1 ROOM\na 2 129\nr 2 ROOM\n.\nr 1 818500000000'hello'\nr 1 818500000000'hello'\nr 1 818500000000'hello'\n.\n";

/// A connection from which nothing comes for three ticks.
const QUIET: &str = "a 1 *\nr 1 ECHO\nt\nt\nt\n";

/// A connection that the server closes, and whose peer does not answer.
const CLOSED: &str = "a 1 *\nr 1 BUS\nr 1 818500000000'x1000'\nt\nt\n";

/// Words, the acts of a schedule, and the lines of its report that are compared. A text in quotes is a message.
const REPLAYS: &[(&str, Lines<'static>, &str, &str)] = &[
    (
        "replay",
        Lines::Whole,
        "a 1 *\n",
        "accept 1\nturn\nlink 1 0 -\n",
    ),
    // messages over the limit are refused
    (
        "replay --max-message 1",
        Lines::Orders,
        "a 1 *\nr 1 ECHO\nr 1 818100000000'x'\nr 1 8182\n",
        "closed 1 1009 -\ngone 1 finished\nlink 1 0 REPLY8101'x'880203f1\n",
    ),
    (
        "replay --max-message=65536",
        Lines::Orders,
        "a 1 *\nr 1 ECHO\nr 1 82ff0000000000010000\n",
        "link 1 0 REPLY\n",
    ),
    (
        "replay --max-message 65536",
        Lines::Orders,
        "a 1 *\nr 1 ECHO\nr 1 82ff0000000000010001\n",
        "closed 1 1009 -\ngone 1 finished\nlink 1 0 REPLY880203f1\n",
    ),
    // a frame is dropped while more than the limit is held
    (
        "replay --limit 1",
        Lines::Backlog,
        SLOW,
        "dropped 2 2 7\ndropped 2 3 7\ntold 2 2 no\nlink 1 0 REPLY\nlink 2 7 REPLY\n",
    ),
    (
        "replay --limit 10",
        Lines::Backlog,
        SLOW,
        "dropped 2 3 14\ntold 2 1 no\nlink 1 0 REPLY\nlink 2 14 REPLY\n",
    ),
    (
        "replay --limit=1048576",
        Lines::Backlog,
        SLOW,
        "link 1 0 REPLY\nlink 2 21 REPLY\n",
    ),
    // a quiet connection is pinged and ended
    (
        "replay --ping-after 1 --idle=2",
        Lines::Notes,
        QUIET,
        "accept 1\ngiven 1 144\nopened 1 0 -\ntick\npinged 1\ntick\ngone 1 idle\nclosed 1 1006 -\ntick\nturn\n",
    ),
    (
        "replay --ping-after 2 --idle 3",
        Lines::Notes,
        QUIET,
        "accept 1\ngiven 1 144\nopened 1 0 -\ntick\ntick\npinged 1\ntick\ngone 1 idle\nclosed 1 1006 -\nturn\n",
    ),
    (
        "replay --idle 1000000 --ping-after=999999",
        Lines::Orders,
        QUIET,
        "link 1 0 REPLY\n",
    ),
    // a closing connection is ended
    (
        "replay --leave 1",
        Lines::Notes,
        CLOSED,
        "accept 1\ngiven 1 143\nopened 1 2 -\ngiven 1 11\ntext 1 'x1000'\nclosed 1 1000 -\ntick\ngone 1 idle\ntick\nturn\n",
    ),
    (
        "replay --leave=1000000",
        Lines::Orders,
        CLOSED,
        "closed 1 1000 -\nlink 1 0 REPLY880203e8\n",
    ),
    // topics that begin with `$` are not for peers
    (
        "replay",
        Lines::Orders,
        "a 1 *\nr 1 BUS\nr 1 818200000000'+$'\nr 1 818600000000'+$/SYS'\nr 1 818500000000'+priv'\nr 1 818200000000'-$'\n",
        "unserved 1 0 forbidden\nunserved 1 0 forbidden\nlink 1 0 REPLY\n",
    ),
    // a connection too many is turned away
    (
        "replay --max-conns 1",
        Lines::Whole,
        "a 1 *\na 2 *\n",
        "accept 1\nbusy 2\nturn\nlink 1 0 -\n",
    ),
    (
        "replay --max-conns=1024",
        Lines::Whole,
        "a 1 *\na 2 *\n",
        "accept 1\naccept 2\nturn\nlink 1 0 -\nlink 2 0 -\n",
    ),
];

/// The place of the first row with another end.
fn first_replay(
    rt: &HostRuntime,
    rows: &[(&str, Lines<'_>, &str, &str)],
) -> Result<Option<usize>, Fail> {
    for (place, (line, lines, acts, report)) in rows.iter().enumerate() {
        let text = format!(in rt.alloc(); "corked 1\n{}", filled(rt, acts)?)?;
        let run = run_line(rt, line, text.as_bytes())?;
        if run.status != Status::Done {
            return Ok(Some(place));
        }
        if compared(rt, *lines, run.sink.octets())? != filled(rt, report)? {
            return Ok(Some(place));
        }
    }
    Ok(None)
}

/// Words, and what is written.
const SERVES: &[(&str, &str)] = &[
    ("serve --port 9001 --turns 8", "served 8\n"),
    ("serve --turns=1 --limit 5 --port=1", "served 1\n"),
    ("serve --port 65535", "served 9\n"),
];

/// The place of the first row with another end.
fn first_line(rt: &HostRuntime, rows: &[(&str, &str)]) -> Result<Option<usize>, Fail> {
    for (place, (line, written)) in rows.iter().enumerate() {
        let run = run_line(rt, line, HELLO)?;
        if run.status != Status::Done || run.sink.octets() != written.as_bytes() {
            return Ok(Some(place));
        }
    }
    Ok(None)
}

/// Words, and what is written. A second run writes the same.
const MADES: &[(&str, &str)] = &[
    (
        "made 7",
        "made 7: turns 502 connections 64 messages 8000 items 504064 octets 9080256 dropped 0 sum 639688460\n",
    ),
    (
        "made 7",
        "made 7: turns 502 connections 64 messages 8000 items 504064 octets 9080256 dropped 0 sum 639688460\n",
    ),
    (
        "made 18446744073709551615",
        "made 18446744073709551615: turns 502 connections 64 messages 8000 items 504064 octets 9080256 dropped 0 sum 639654629\n",
    ),
];

/// Words that are no command of the program.
const NO_COMMANDS: &[&str] = &[
    "",
    "frob",
    "Echo",
    "Replay",
    "echo echo",
    "echo ",
    "replay x",
    "replay echo",
    "replay ",
    // a number below the least or above the greatest
    "echo --max-message 0",
    "echo --max-message 65537",
    "replay --max-message 0",
    "replay --max-message 65537",
    "replay --limit 0",
    "replay --limit 1048577",
    "replay --ping-after 0",
    "replay --ping-after 1000000 --idle 1000001",
    "replay --ping-after 1 --idle 1",
    "replay --idle 1000001",
    "replay --leave 0",
    "replay --leave 1000001",
    "replay --max-conns 0",
    "replay --max-conns 1025",
    // `idle` is 60, and not above it
    "replay --ping-after 60",
    // options twice, without a value, of the other command, abbreviated, in front of the command
    "replay --limit 1 --limit 2",
    "replay --limit=",
    "replay --limit",
    "echo --limit 5",
    "replay --lim 5",
    "--limit 5 replay",
    // values that are no numbers
    "replay --limit 00000000000000000005",
    "replay --limit 18446744073709551621",
    "replay --limit 05",
    // hyphens, help and a version
    "--",
    "echo --",
    "-h",
    "--help",
    "help",
    "replay --help",
    "--version",
    // no port, and ports and turns that are out of range
    "serve",
    "serve --turns 8",
    "serve --port 0",
    "serve --port 65536",
    "serve --port 9001 --turns 0",
    // no seed, two of them, one that is out of range or no number, and an option
    "made",
    "made 7 8",
    "made 18446744073709551616",
    "made 07",
    "made seven",
    "made --seed 7",
];

/// Whether the words of a line are Usage, and nothing is read or written.
fn is_usage(rt: &HostRuntime, line: &str) -> Result<bool, Fail> {
    let mut run = run_line(rt, line, HELLO)?;
    let left = run.source.read(&mut [0; 16]);
    Ok(
        run.status == Status::Usage
            && run.sink.octets().is_empty()
            && left == Got::Octets(HELLO.len()),
    )
}

/// The place of the first line that is not Usage.
fn first_run(rt: &HostRuntime, lines: &[&str]) -> Result<Option<usize>, Fail> {
    for (place, line) in lines.iter().enumerate() {
        if !is_usage(rt, line)? {
            return Ok(Some(place));
        }
    }
    Ok(None)
}

#[test]
fn words_are_a_command_with_its_options(rt: HostRuntime) -> Result<(), Fail> {
    assert_eq!(rt; first_echo(&rt, ECHOES)?, None);
    assert_eq!(rt; first_replay(&rt, REPLAYS)?, None);
    assert_eq!(rt; first_line(&rt, SERVES)?, None);
    assert_eq!(rt; first_line(&rt, MADES)?, None);
    assert_eq!(rt; first_run(&rt, NO_COMMANDS)?, None);
    Ok(())
}
