//! Rooms and the bus, from the text of a schedule to the text of its report.

use super::replay::{Lines, REPLY, compared, hex_of, report_of};
use super::{sink, source};
use crate::made::made_run;
use crate::reads::MAX_READ;
use crate::replay::replay_run;
use std::test::*;
use topic_guard::{Test, TopicGuard, TopicRule};
use ws_kinds::{Config, Name};

/// The head that a browser sends, and the reply to it, with the subprotocol of the rooms.
const BROWSER: &[u8] =
    b"GET /room/lobby?from=app HTTP/1.1\r\nHost: localhost:9001\r\nConnection: keep-alive, Upgrade\r\nPragma: no-cache\r\nCache-Control: no-cache\r\nUser-Agent: Mozilla/5.0 (X11; Linux x86_64)\r\nUpgrade: websocket\r\nOrigin: http://localhost:9001\r\nSec-WebSocket-Version: 13\r\nAccept-Encoding: gzip, deflate, br\r\nAccept-Language: en-US,en;q=0.9\r\nCookie: theme=dark; sid=31d4d96e407aad42\r\nSec-WebSocket-Key: dGhlIHNhbXBsZSBub25jZQ==\r\nSec-WebSocket-Extensions: permessage-deflate; client_max_window_bits\r\nSec-WebSocket-Protocol: room.v1, chat\r\n\r\n";

const NAMED: &[u8] =
    b"HTTP/1.1 101 Switching Protocols\r\nUpgrade: websocket\r\nConnection: Upgrade\r\nSec-WebSocket-Accept: s3pPLMBiTxaQ9kYGzzhZRbK+xOo=\r\nSec-WebSocket-Protocol: room.v1\r\n\r\n";

/// The digits of a request for an upgrade on this path, with the key of RFC 6455, section 1.3.
fn head(rt: &HostRuntime, path: &str) -> Result<String, Fail> {
    let text = format!(in rt.alloc();
        "GET {path} HTTP/1.1\r\nHost: a\r\nUpgrade: websocket\r\nConnection: Upgrade\r\nSec-WebSocket-Key: dGhlIHNhbXBsZSBub25jZQ==\r\nSec-WebSocket-Version: 13\r\n\r\n"
    )?;
    hex_of(rt, text.as_bytes())
}

/// Acts by which connection 1 subscribes to 64 topics, from `t00` to `t63`.
fn subscriptions(rt: &HostRuntime) -> Result<String, Fail> {
    let mut acts = String::new(rt.alloc());
    for number in 0..64 {
        let topic = format!(in rt.alloc(); "+t{}{}", number / 10, number % 10)?;
        let digits = hex_of(rt, topic.as_bytes())?;
        acts.push_str(&format!(in rt.alloc(); "r 1 818400000000{digits}\n")?)?;
    }
    Ok(acts)
}

/// A row's text with the digits of the texts that it has in quotes.
fn unquoted(rt: &HostRuntime, text: &str) -> Result<String, Fail> {
    let mut octets = Vec::new(rt.alloc());
    for (place, part) in text.as_bytes().split(|octet| *octet == b'\'').enumerate() {
        if place % 2 == 0 {
            octets.extend_from_slice(part)?;
        } else {
            octets.extend_from_slice(hex_of(rt, part)?.as_bytes())?;
        }
    }
    Ok(String::from_utf8(octets).ok().ok_or("not UTF-8")?)
}

/// A row's text with what its upper-case words stand for.
pub(super) fn filled(rt: &HostRuntime, text: &str) -> Result<String, Fail> {
    let words = [
        ("ECHO", head(rt, "/echo")?),
        ("ROOM", head(rt, "/room/m")?),
        ("OTHER", head(rt, "/room/n")?),
        ("BUS", head(rt, "/bus")?),
        ("BROWSER", hex_of(rt, BROWSER)?),
        ("NAMED", hex_of(rt, NAMED)?),
        ("REPLY", hex_of(rt, REPLY)?),
        ("SUBSCRIPTIONS", subscriptions(rt)?),
        ("LONG", hex_of(rt, &[b'a'; 64])?),
    ];
    let mut filled = unquoted(rt, text)?;
    for (word, digits) in words {
        filled = filled.replace(rt.alloc(), word, &digits)?;
    }
    Ok(filled)
}

/// The place of the first row whose report has other lines.
pub(super) fn first_other(
    rt: &HostRuntime,
    config: Config,
    rows: &[(Lines<'_>, &str, &str)],
) -> Result<Option<usize>, Fail> {
    for (place, (lines, acts, report)) in rows.iter().enumerate() {
        let found = report_of(rt, config, *lines, &filled(rt, acts)?)?;
        if found != filled(rt, report)? {
            return Ok(Some(place));
        }
    }
    Ok(None)
}

/// The acts of a schedule, and the lines of its report that are compared. A text in quotes is a message, or the body of a frame: a
/// client's has the key 0 in front.
const ROWS: &[(Lines<'static>, &str, &str)] = &[
    // a browser comes into a room, and is answered with its subprotocol
    (
        Lines::Whole,
        "a 1 *\nr 1 BROWSER\n.\n",
        "accept 1\ngiven 1 523\nopened 1 1 'lobby'\nturn\nturn\nlink 1 0 NAMED\n",
    ),
    // what is sent in a room goes to all that are there at that moment, but not to who sends it
    (
        Lines::Whole,
        "a 1 *\nr 1 ROOM\na 2 *\nr 2 ROOM\n.\nr 1 818100000000'A'\na 3 *\nr 3 ROOM\nr 1 818100000000'B'\n.\n",
        "accept 1\ngiven 1 146\nopened 1 1 'm'\naccept 2\ngiven 2 146\nopened 2 1 'm'\nturn\ngiven 1 7\ntext 1 'A'\naccept 3\ngiven 3 146\nopened 3 1 'm'\ngiven 1 7\ntext 1 'B'\nturn\nturn\nlink 1 0 REPLY\nlink 2 0 REPLY8101'A'8101'B'\nlink 3 0 REPLY8101'B'\n",
    ),
    // on the bus it goes to those that subscribed
    (
        Lines::Whole,
        "a 1 *\nr 1 BUS\na 2 *\nr 2 BUS\n.\nr 1 818200000000'+t'\nr 2 818200000000'+t'\nr 2 818400000000'=t a'\nr 1 818200000000'-t'\nr 2 818400000000'=t b'\nr 1 818100000000'z'\n.\n",
        "accept 1\ngiven 1 143\nopened 1 2 -\naccept 2\ngiven 2 143\nopened 2 2 -\nturn\ngiven 1 8\ntext 1 '+t'\ngiven 2 8\ntext 2 '+t'\ngiven 2 10\ntext 2 '=t a'\ngiven 1 8\ntext 1 '-t'\ngiven 2 10\ntext 2 '=t b'\ngiven 1 7\ntext 1 'z'\nturn\nturn\nlink 1 0 REPLY8101'a'8101'z'\nlink 2 0 REPLY\n",
    ),
    // a message is published before, within and after a subscription, with and without turns between
    (
        Lines::Orders,
        "a 1 *\nr 1 BUS\na 2 *\nr 2 BUS\n.\nr 2 818400000000'=t a'\nr 1 818200000000'+t'\nr 2 818400000000'=t b'\nr 1 818200000000'-t'\nr 2 818400000000'=t c'\n.\nr 2 818400000000'=t d'\n.\nr 1 818200000000'+t'\n.\nr 2 818400000000'=t e'\n.\nr 1 818200000000'-t'\n.\nr 2 818400000000'=t f'\n.\n",
        "link 1 0 REPLY8101'b'8101'e'\nlink 2 0 REPLY\n",
    ),
    // what comes in one piece is answered in its order
    (
        Lines::Orders,
        "a 1 *\nr 1 BUS\na 2 *\nr 2 BUS\n.\nr 2 818400000000'=t a'818400000000'=t b'\nr 1 818200000000'+t'818200000000'-t'\nr 2 818400000000'=t c'\nr 1 818200000000'-t'818200000000'+t'818100000000'x'\nr 2 818400000000'=t d'818200000000'+t'818400000000'=t e'\nr 1 818400000000'=t f'818200000000'-t'\nr 2 818400000000'=t g'\n.\n",
        "link 1 0 REPLY8101'x'8101'd'8101'e'\nlink 2 0 REPLY8101'f'\n",
    ),
    // who subscribes twice gets it once, and ends it once; what is not there may be ended
    (
        Lines::Orders,
        "a 1 *\nr 1 BUS\na 2 *\nr 2 BUS\n.\nr 1 818200000000'+t'818200000000'+t'\nr 2 818400000000'=t a'\nr 1 818200000000'-t'\nr 2 818400000000'=t b'\nr 1 818200000000'-t'\n.\n",
        "link 1 0 REPLY8101'a'\nlink 2 0 REPLY\n",
    ),
    // all subscribers but who publishes get it, each topic apart
    (
        Lines::Orders,
        "a 1 *\nr 1 BUS\na 2 *\nr 2 BUS\na 3 *\nr 3 BUS\n.\nr 1 818200000000'+t'\nr 2 818200000000'+t'\nr 3 818200000000'+t'818200000000'+u'\nr 1 818400000000'=t a'\nr 3 818400000000'=u b'\nr 2 818400000000'=u c'818500000000'=tu d'\n.\n",
        "link 1 0 REPLY\nlink 2 0 REPLY8101'a'\nlink 3 0 REPLY8101'a'8101'c'\n",
    ),
    // they get it in the order of their numbers, not of their subscriptions
    (
        Lines::Writes,
        "a 1 *\nr 1 BUS\na 2 *\nr 2 BUS\na 3 *\nr 3 BUS\na 4 *\nr 4 BUS\n.\nr 3 818200000000'+t'\nr 1 818200000000'+t'\nr 2 818200000000'+t'\nr 4 818400000000'=t a'\n.\n",
        "took 1 129 129\ntook 2 129 129\ntook 3 129 129\ntook 4 129 129\ntook 1 3 3\ntook 2 3 3\ntook 3 3 3\n",
    ),
    // rooms are topics; a binary message is published as one; on /echo nothing is an order
    (
        Lines::Orders,
        "a 1 *\nr 1 ROOM\na 2 *\nr 2 OTHER\na 3 *\nr 3 BUS\na 4 *\nr 4 ECHO\n.\nr 3 818200000000'+m'\nr 4 818200000000'+m'\nr 1 818100000000'A'\nr 2 818100000000'B'\nr 3 818400000000'=m b'818400000000'=n c'\nr 1 828100000000'C'\n.\n",
        "link 1 0 REPLY8101'b'\nlink 2 0 REPLY8101'c'\nlink 3 0 REPLY8101'A'8201'C'\nlink 4 0 REPLY8102'+m'\n",
    ),
    // other messages of the bus are sent back
    (
        Lines::Orders,
        "a 1 *\nr 1 BUS\n.\nr 1 818000000000\nr 1 818100000000'='818200000000'=t'818500000000'hello'818300000000' +t'\nr 1 828100000000'x'\n.\n",
        "link 1 0 REPLY81008101'='8102'=t'8105'hello'8103' +t'8201'x'\n",
    ),
    // a topic has 1 to 64 octets
    (
        Lines::Orders,
        "a 1 *\nr 1 BUS\na 2 *\nr 2 BUS\n.\nr 1 818100000000'+'818100000000'-'818300000000'= a'\nr 1 81c100000000'+'LONG\nr 2 81c300000000'='LONG' a'\nr 1 81c200000000'+a'LONG\nr 1 81c200000000'-a'LONG\nr 2 81c400000000'=a'LONG' a'\nr 1 81c100000000'-'LONG\nr 2 81c300000000'='LONG' b'\n.\n",
        "unserved 1 0 badtopic\nunserved 1 0 badtopic\nunserved 1 0 badtopic\nunserved 1 0 badtopic\nunserved 1 0 badtopic\nunserved 2 0 badtopic\nlink 1 0 REPLY8101'a'\nlink 2 0 REPLY\n",
    ),
    // a connection has at most 64 topics; one of them may be asked for again, and there is room once one is ended
    (
        Lines::Orders,
        "a 1 *\nr 1 BUS\na 2 *\nr 2 BUS\n.\nSUBSCRIPTIONSr 1 818400000000'+t64'\nr 1 818400000000'+t00'\nr 2 818600000000'=t00 a'818600000000'=t63 b'818600000000'=t64 c'\nr 1 818400000000'-t07'818400000000'+t64'818400000000'+t07'\nr 2 818600000000'=t64 d'818600000000'=t07 e'818400000000'+t64'\nr 1 818600000000'=t64 f'\n.\n",
        "unserved 1 0 toomany\nunserved 1 0 toomany\nlink 1 0 REPLY8101'a'8101'b'8101'd'\nlink 2 0 REPLY8101'f'\n",
    ),
    // who left gets no more: by a close, by a breach, by the end of its octets
    (
        Lines::Orders,
        "a 1 *\nr 1 ROOM\na 2 *\nr 2 ROOM\na 3 *\nr 3 ROOM\na 4 *\nr 4 ROOM\na 5 *\nr 5 ROOM\n.\nr 1 818100000000'A'\n.\nr 2 88820000000003e8\nr 1 818100000000'B'\n.\nr 3 80\nr 1 818100000000'C'\n.\ne 4\nr 1 818100000000'D'\n.\n",
        "closed 2 1000 -\ngone 2 finished\nclosed 3 1002 -\ngone 3 finished\ngone 4 peerend\nclosed 4 1006 -\nlink 1 0 REPLY\nlink 2 0 REPLY8101'A'880203e8\nlink 3 0 REPLY8101'A'8101'B'880203ea\nlink 4 0 REPLY8101'A'8101'B'8101'C'\nlink 5 0 REPLY8101'A'8101'B'8101'C'8101'D'\n",
    ),
    // who has not been opened yet gets none
    (
        Lines::Orders,
        "a 1 *\nr 1 ROOM\na 2 *\nr 2 'GET /room/m HTTP/1.1'\n.\nr 1 818100000000'A'\nr 2 0d0a\n.\n",
        "link 1 0 REPLY\nlink 2 0 -\n",
    ),
];

/// Subscriptions to topics that begin with `pub/`, and to others.
const PUBLIC: &str =
    "a 1 *\nr 1 BUS\nr 1 818600000000'+pub/a'\nr 1 818500000000'+priv'\nr 1 818500000000'+pub/'\nr 1 818400000000'+pub'\nr 1 818100000000'+'\n";

/// What was not served of these, where a guard allows the topics that begin with `pub/` alone.
fn public_report(rt: &HostRuntime, guard: &TopicGuard) -> Result<String, Fail> {
    let text = format!(in rt.alloc(); "corked 1\n{}", filled(rt, PUBLIC)?)?;
    let mut source = source(rt, text.as_bytes(), MAX_READ, &[])?;
    let mut sink = sink(rt, MAX_READ, &[])?;
    replay_run(rt.alloc(), Config::usual(), guard, &mut source, &mut sink);
    compared(rt, Lines::Orders, sink.octets())
}

/// The line of the schedule that 7 makes, where the guard does not allow its room: nobody is sent more than the reply.
fn closed_room(rt: &HostRuntime, guard: &TopicGuard) -> Result<String, Fail> {
    let mut sink = sink(rt, MAX_READ, &[])?;
    made_run(rt.alloc(), 7, guard, &mut sink);
    let mut line = Vec::new(rt.alloc());
    line.extend_from_slice(sink.octets())?;
    Ok(String::from_utf8(line).ok().ok_or("not UTF-8")?)
}

#[test]
fn rooms_and_the_bus(rt: HostRuntime) -> Result<(), Fail> {
    assert_eq!(rt; first_other(&rt, Config::usual(), ROWS)?, None);
    let refused =
        "unserved 1 0 forbidden\nunserved 1 0 forbidden\nunserved 1 0 badtopic\nlink 1 0 REPLY\n";
    let mut name = Name::new();
    name.try_extend_from_slice(b"pub/").unwrap();
    let test: Test = Box::new(rt.alloc(), |topic: &[u8]| topic.starts_with(b"pub/"))?;
    let guard = TopicGuard::new(TopicRule::Only(name), test);
    assert_eq!(rt;
        public_report(&rt, &guard)?.as_str(),
        filled(&rt, refused)?.as_str()
    );
    let closed =
        "made 7: turns 502 connections 64 messages 8000 items 64 octets 8256 dropped 0 sum 693824\n";
    assert_eq!(rt; closed_room(&rt, &guard)?.as_str(), closed);
    Ok(())
}
