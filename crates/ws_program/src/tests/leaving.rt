//! Quiet connections, and those that the server closes, from the text of a schedule to the text of its report.

use super::bus::{filled, first_other};
use super::replay::{Lines, report_of};
use std::test::*;
use ws_kinds::Config;

/// A ping is due after two quiet ticks, an end after three, and after two ticks of leaving: the acts of a schedule, and the lines of
/// its report that are compared. A text in quotes is a message, or the body of a frame: a client's has the key 0 in front.
const ROWS: &[(Lines<'static>, &str, &str)] = &[
    // who answers no ping is ended, and the handler is told with 1006
    (
        Lines::Whole,
        "a 1 *\nr 1 ECHO\n.\nt\nt\nt\n.\n",
        "accept 1\ngiven 1 144\nopened 1 0 -\nturn\ntick\ntick\npinged 1\ntick\ngone 1 idle\nclosed 1 1006 -\nturn\nturn\nlink 1 0 REPLY8900\n",
    ),
    // what comes begins the count again
    (
        Lines::Whole,
        "a 1 *\nr 1 ECHO\n.\nt\nt\n.\nr 1 8a8000000000\nt\nt\n.\n",
        "accept 1\ngiven 1 144\nopened 1 0 -\nturn\ntick\ntick\npinged 1\nturn\ngiven 1 6\npong 1 -\ntick\ntick\npinged 1\nturn\nturn\nlink 1 0 REPLY89008900\n",
    ),
    // half a frame is something, and then nothing more comes
    (
        Lines::Whole,
        "a 1 *\nr 1 ECHO\n.\nt\nt\nr 1 8185\nt\nt\nt\n",
        "accept 1\ngiven 1 144\nopened 1 0 -\nturn\ntick\ntick\npinged 1\ngiven 1 2\ntick\ntick\npinged 1\ntick\ngone 1 idle\nclosed 1 1006 -\nturn\nlink 1 0 REPLY89008900\n",
    ),
    // in its head a connection is not pinged, and the handler is not told of its end
    (
        Lines::Whole,
        "a 1 *\nt\nt\nt\nt\n",
        "accept 1\ntick\ntick\ntick\ngone 1 idle\ntick\nturn\nlink 1 0 -\n",
    ),
    // each is counted by itself, in the order of their numbers
    (
        Lines::Whole,
        "a 1 *\nr 1 ECHO\na 2 *\nr 2 ECHO\nt\na 3 *\nr 3 ECHO\nt\nr 2 818000000000\nt\nt\n",
        "accept 1\ngiven 1 144\nopened 1 0 -\naccept 2\ngiven 2 144\nopened 2 0 -\ntick\naccept 3\ngiven 3 144\nopened 3 0 -\ntick\npinged 1\npinged 2\ngiven 2 6\ntext 2 -\ntick\ngone 1 idle\npinged 3\nclosed 1 1006 -\ntick\npinged 2\ngone 3 idle\nclosed 3 1006 -\nturn\nlink 1 0 REPLY8900\nlink 2 0 REPLY890081008900\nlink 3 0 REPLY8900\n",
    ),
    // the server closes, the peer answers, and the connection is finished
    (
        Lines::All,
        "a 1 *\nr 1 BUS\n.\nr 1 818500000000'x1001'\n.\nr 1 88820000000003e9\n.\n",
        "accept 1\ngiven 1 143\nopened 1 2 -\ntook 1 129 129\nturn\ngiven 1 11\ntext 1 'x1001'\ntook 1 4 4\nclosed 1 1001 -\nturn\ngiven 1 8\npeerclose 1 1001 -\ngone 1 finished\nturn\nturn\nlink 1 0 REPLY880203e9\n",
    ),
    // what comes after the close is read, but not given or answered, and begins no count again; the peer's close is not answered
    (
        Lines::Whole,
        "a 1 *\nr 1 BUS\n.\nr 1 818500000000'x1000'818100000000'z'\nr 1 818100000000'z'898000000000\nt\nr 1 8a8000000000\n.\nr 1 88820000000003e9\n.\n",
        "accept 1\ngiven 1 143\nopened 1 2 -\nturn\ngiven 1 18\ntext 1 'x1000'\nclosed 1 1000 -\ngiven 1 13\ntick\ngiven 1 6\nturn\ngiven 1 8\npeerclose 1 1001 -\ngone 1 finished\nturn\nturn\nlink 1 0 REPLY880203e8\n",
    ),
    // where the peer does not answer, the connection is ended two ticks later, whatever comes
    (
        Lines::Whole,
        "a 1 *\nr 1 BUS\n.\nt\nr 1 818500000000'x4999'\nt\nr 1 818100000000'z'\nt\nr 1 818100000000'z'\nt\n",
        "accept 1\ngiven 1 143\nopened 1 2 -\nturn\ntick\ngiven 1 11\ntext 1 'x4999'\nclosed 1 4999 -\ntick\ngiven 1 7\ntick\ngone 1 idle\ntick\nturn\nlink 1 0 REPLY88021387\n",
    ),
    // a breach and the end of the octets count then too; no further frame is sent, and the handler was told
    (
        Lines::Whole,
        "a 1 *\nr 1 BUS\na 2 *\nr 2 BUS\na 3 *\nr 3 BUS\n.\nr 1 818500000000'x3000'\nr 2 818500000000'x3001'\nr 3 818500000000'x3002'\nr 1 80\ne 2\nf 3\n",
        "accept 1\ngiven 1 143\nopened 1 2 -\naccept 2\ngiven 2 143\nopened 2 2 -\naccept 3\ngiven 3 143\nopened 3 2 -\nturn\ngiven 1 11\ntext 1 'x3000'\nclosed 1 3000 -\ngiven 2 11\ntext 2 'x3001'\nclosed 2 3001 -\ngiven 3 11\ntext 3 'x3002'\nclosed 3 3002 -\ngiven 1 1\nfailed 1 1002\ngone 2 peerend\ngone 3 linkfailed\ngone 1 finished\nturn\nlink 1 0 REPLY88020bb8\nlink 2 0 REPLY88020bb9\nlink 3 0 REPLY88020bba\n",
    ),
    // the link fails as the close frame is put: the handler is told of the order's code
    (
        Lines::Whole,
        "a 1 *\nr 1 BUS\n.\nb 1\nr 1 818500000000'x1000'\n",
        "accept 1\ngiven 1 143\nopened 1 2 -\nturn\ngiven 1 11\ntext 1 'x1000'\ngone 1 linkfailed\nclosed 1 1000 -\nturn\nlink 1 0 REPLY\n",
    ),
    // a close frame is put behind what is held; once the link took all, the connection is still leaving
    (
        Lines::Whole,
        "a 1 129\nr 1 BUS\n.\nr 1 818500000000'hello'818500000000'x1000'\nw 1 11\n.\nt\nt\n",
        "accept 1\ngiven 1 143\nopened 1 2 -\nturn\ngiven 1 22\ntext 1 'hello'\ntext 1 'x1000'\nclosed 1 1000 -\nturn\ntick\ntick\ngone 1 idle\nturn\nlink 1 0 REPLY8105'hello'880203e8\n",
    ),
    // codes that may not be sent are refused, and messages that are no such command are sent back
    (
        Lines::Orders,
        "a 1 *\nr 1 BUS\n.\nr 1 818500000000'x1005'818500000000'x0000'818500000000'x2999'818500000000'x5000'818500000000'x1004'818600000000'x10000'818400000000'x100'818500000000'x10a0'\n",
        "unserved 1 0 badcode\nunserved 1 0 badcode\nunserved 1 0 badcode\nunserved 1 0 badcode\nunserved 1 0 badcode\nlink 1 0 REPLY8106'x10000'8104'x100'8105'x10a0'\n",
    ),
    // who is leaving gets no more of what is published
    (
        Lines::Orders,
        "a 1 *\nr 1 BUS\na 2 *\nr 2 BUS\n.\nr 2 818200000000'+t'\nr 1 818400000000'=t a'\nr 2 828500000000'x1000'\nr 1 818400000000'=t b'\n",
        "closed 2 1000 -\nlink 1 0 REPLY\nlink 2 0 REPLY8101'a'880203e8\n",
    ),
];

/// With a backlog of at most 10 octets: a close frame is put behind a backlog over the limit, and goes out with it.
const BEHIND_A_BACKLOG: &[(Lines<'static>, &str, &str)] = &[(
    Lines::Whole,
    "a 1 129\nr 1 BUS\n.\nr 1 81c000000000LONG\nr 1 818100000000'z'\nr 1 818500000000'x1000'\n.\nw 1 70\nt\nt\n",
    "accept 1\ngiven 1 143\nopened 1 2 -\nturn\ngiven 1 70\ntext 1 LONG\ngiven 1 7\ntext 1 'z'\ndropped 1 2 66\ngiven 1 11\ntext 1 'x1000'\nclosed 1 1000 -\nturn\ntick\ntick\ngone 1 idle\nturn\nlink 1 0 REPLY8140LONG880203e8\n",
)];

/// A peer that answers each ping, for so many of them.
fn answered(rt: &HostRuntime, pings: u64) -> Result<(String, String), Fail> {
    let mut acts = String::from_str(rt.alloc(), "a 1 *\nr 1 ECHO\n.\n")?;
    let mut report = String::from_str(rt.alloc(), "accept 1\ngiven 1 144\nopened 1 0 -\nturn\n")?;
    for _ in 0..pings {
        acts.push_str("t\nt\nr 1 8a8000000000\n")?;
        report.push_str("tick\ntick\npinged 1\ngiven 1 6\npong 1 -\n")?;
    }
    report.push_str("turn\n")?;
    Ok((filled(rt, &acts)?, report))
}

#[test]
fn quiet_and_closed_connections_leave(rt: HostRuntime) -> Result<(), Fail> {
    let config = Config::checked(16_384, 65_536, 2, 3, 2, 4).ok_or("a configuration")?;
    assert_eq!(rt; first_other(&rt, config, ROWS)?, None);
    let small = Config::checked(125, 10, 2, 3, 2, 4).ok_or("a configuration")?;
    assert_eq!(rt; first_other(&rt, small, BEHIND_A_BACKLOG)?, None);
    let (acts, report) = answered(&rt, 50)?;
    let found = report_of(&rt, config, Lines::Notes, &acts)?;
    assert_eq!(rt; found.as_str(), report.as_str());
    Ok(())
}
