use super::*;
use memchr::memmem;
use route_table::Routes;
use std::alloc::Global;
use std::test::*;

/// A head of 144 octets that meets all rules. The key and its answer are those of RFC 6455, section 1.3.
const SAMPLE: &[u8] =
    b"GET /echo HTTP/1.1\r\nHost: a\r\nUpgrade: websocket\r\nConnection: Upgrade\r\nSec-WebSocket-Key: dGhlIHNhbXBsZSBub25jZQ==\r\nSec-WebSocket-Version: 13\r\n\r\n";

const SAMPLE_ACCEPT: &[u8; 28] = b"s3pPLMBiTxaQ9kYGzzhZRbK+xOo=";

/// The sample, and a first frame that came with it.
const SAMPLE_AND_FRAME: &[u8] =
    b"GET /echo HTTP/1.1\r\nHost: a\r\nUpgrade: websocket\r\nConnection: Upgrade\r\nSec-WebSocket-Key: dGhlIHNhbXBsZSBub25jZQ==\r\nSec-WebSocket-Version: 13\r\n\r\n\x81\x80\0\0\0\0\r\n\r\n";

/// A head as browsers write it.
const BROWSER: &[u8] =
    b"GET /room/lobby?from=app HTTP/1.1\r\nHost: localhost:9001\r\nConnection: keep-alive, Upgrade\r\nPragma: no-cache\r\nCache-Control: no-cache\r\nUser-Agent: Mozilla/5.0 (X11; Linux x86_64)\r\nUpgrade: websocket\r\nOrigin: http://localhost:9001\r\nSec-WebSocket-Version: 13\r\nAccept-Encoding: gzip, deflate, br\r\nAccept-Language: en-US,en;q=0.9\r\nCookie: theme=dark; sid=31d4d96e407aad42\r\nSec-WebSocket-Key: dGhlIHNhbXBsZSBub25jZQ==\r\nSec-WebSocket-Extensions: permessage-deflate; client_max_window_bits\r\nSec-WebSocket-Protocol: room.v1, chat\r\n\r\n";

/// Keys, and the values that answer them.
const ACCEPTS: &[(&[u8; 24], &[u8; 28])] = &[
    (b"dGhlIHNhbXBsZSBub25jZQ==", SAMPLE_ACCEPT),
    (b"x3JJHMbDL1EzLkh9GBhXDw==", b"HSmrc0sMlYUkAGmm5OPpG2HaGWk="),
];

/// Subprotocols, how many octets the replies to the sample have, and how these end.
const REPLIES: &[(&[u8], usize, &[u8])] = &[
    (
        b"",
        129,
        b"HTTP/1.1 101 Switching Protocols\r\nUpgrade: websocket\r\nConnection: Upgrade\r\nSec-WebSocket-Accept: s3pPLMBiTxaQ9kYGzzhZRbK+xOo=\r\n\r\n",
    ),
    (
        b"room.v1",
        162,
        b"xOo=\r\nSec-WebSocket-Protocol: room.v1\r\n\r\n",
    ),
    (
        b"pppppppppppppppppppppppppppppppppppppppppppppppppppppppppppppppp",
        219,
        b"\r\n\r\n",
    ),
];

/// What is made of the sample: one part replaced by another, and then one more.
type Edits = (&'static [u8], &'static [u8], &'static [u8], &'static [u8]);

/// Edits, and the status of the answer: 101 for a head that is admitted.
const STATUSES: &[(Edits, u16)] = &[
    ((b"", b"", b"", b""), 101),
    // no request head: alone, and with a rule that follows
    ((b"Host: a", b"Host a", b"", b""), 400),
    ((b"Host: a", b"Host a", b"/echo", b"/none"), 400),
    ((b"Host: a", b"Host : a", b"", b""), 400),
    ((b"Host: a\r\n", b"Host: a\r\n b\r\n", b"", b""), 400),
    ((b" HTTP/1.1", b"", b"", b""), 400),
    ((b"/echo", b"/ec ho", b"", b""), 400),
    ((b"/echo", b"/room/\xff", b"", b""), 400),
    // a line may end in a line feed alone, but an empty line that does ends what is read too early
    ((b"Host: a\r\n", b"Host: a\n", b"", b""), 101),
    ((b"Host: a\r\n", b"Host: a\n\n", b"", b""), 400),
    ((b"GET", b"\r\nGET", b"", b""), 101),
    ((b"GET", b"\r\n\r\nGET", b"", b""), 400),
    // not GET, or not HTTP/1.1
    ((b"GET", b"POST", b"", b""), 400),
    ((b"GET", b"get", b"", b""), 400),
    ((b"HTTP/1.1", b"HTTP/1.0", b"", b""), 400),
    ((b"HTTP/1.1", b"HTTP/1.2", b"", b""), 400),
    ((b"GET", b"HEAD", b": 13", b": 8"), 400),
    // no field of the host
    ((b"Host: a\r\n", b"", b"", b""), 400),
    ((b"Host: a\r\n", b"", b"/echo", b"/none"), 400),
    ((b"Host: a\r\n", b"hOsT:\r\n", b"", b""), 101),
    // no upgrade to the protocol
    ((b"Upgrade: websocket\r\n", b"", b"", b""), 400),
    ((b"Upgrade: websocket\r\n", b"", b": 13", b": 8"), 400),
    ((b"websocket", b"websocket/13", b"", b""), 400),
    ((b"websocket", b"web socket", b"", b""), 400),
    (
        (b"Upgrade: websocket", b"Upgrade: foo, WebSocket", b"", b""),
        101,
    ),
    (
        (b"Upgrade: websocket", b"uPGRADE:WEBSOCKET\t", b"", b""),
        101,
    ),
    (
        (
            b"Upgrade: websocket",
            b"Upgrade: foo\r\nUpgrade: ,websocket",
            b"",
            b"",
        ),
        101,
    ),
    // no upgrade of the connection
    ((b"Connection: Upgrade\r\n", b"", b"", b""), 400),
    ((b"Connection: Upgrade\r\n", b"", b"/echo", b"/none"), 400),
    (
        (
            b"Connection: Upgrade",
            b"Connection: keep-alive; Upgrade",
            b"",
            b"",
        ),
        400,
    ),
    (
        (
            b"Connection: Upgrade",
            b"connection:keep-alive ,\tUPGRADE",
            b"",
            b"",
        ),
        101,
    ),
    // no key, or more than one, even where both are equal
    (
        (
            b"Sec-WebSocket-Key: dGhlIHNhbXBsZSBub25jZQ==\r\n",
            b"",
            b"",
            b"",
        ),
        400,
    ),
    (
        (
            b"Sec-WebSocket-Key: dGhlIHNhbXBsZSBub25jZQ==\r\n",
            b"",
            b": 13",
            b": 8",
        ),
        400,
    ),
    (
        (
            b"Host: a\r\n",
            b"Host: a\r\nsec-websocket-key: dGhlIHNhbXBsZSBub25jZQ==\r\n",
            b"",
            b"",
        ),
        400,
    ),
    (
        (
            b"Host: a\r\n",
            b"Host: a\r\nsec-websocket-key:\r\n",
            b"/echo",
            b"/none",
        ),
        400,
    ),
    // a key that is too short, too long, of another alphabet, or padded otherwise
    ((b"dGhl", b"dGh", b"", b""), 400),
    ((b"dGhl", b"dGhlA", b"", b""), 400),
    ((b"dGhlIHNhbXBsZSBub25jZQ==", b"", b"", b""), 400),
    ((b"dGhl", b"dG-l", b"", b""), 400),
    ((b"dGhl", b"dG=l", b"", b""), 400),
    ((b"dGhl", b"dG l", b"", b""), 400),
    ((b"ZQ==", b"ZQA=", b"", b""), 400),
    ((b"ZQ==", b"ZQAA", b"", b""), 400),
    ((b"ZQ==", b"ZQ=A", b"", b""), 400),
    ((b"ZQ==", b"ZQ", b": 13", b": 8"), 400),
    // any 22 characters of the alphabet, whatever the unused bits of the last
    ((b"dGhl", b"+/09", b"ZQ==", b"ZR=="), 101),
    ((b"Sec-WebSocket-Key", b"SEC-WEBSOCKET-KEY", b"", b""), 101),
    // another version, or none
    ((b": 13", b": 8", b"", b""), 426),
    ((b": 13", b": 8", b"/echo", b"/none"), 426),
    ((b": 13", b": 13, 8", b"", b""), 426),
    ((b": 13", b": 013", b"", b""), 426),
    ((b"Sec-WebSocket-Version: 13\r\n", b"", b"", b""), 426),
    (
        (b": 13", b": 8\r\nsec-websocket-version:13 ", b"", b""),
        101,
    ),
    // no route
    ((b"/echo", b"/none", b"", b""), 404),
    ((b"/echo", b"/Echo", b"", b""), 404),
    ((b"/echo", b"/room/", b"", b""), 404),
    ((b"/echo", b"?/echo", b"", b""), 404),
    ((b"/echo", b"/%65cho", b"", b""), 404),
    ((b"/echo", b"http://a/echo", b"", b""), 404),
    (
        (
            b"/echo",
            b"/room/a123456789b123456789c123456789d123456789e123456789f123456789abcd",
            b"",
            b"",
        ),
        101,
    ),
    (
        (
            b"/echo",
            b"/room/a123456789b123456789c123456789d123456789e123456789f123456789abcde",
            b"",
            b"",
        ),
        404,
    ),
];

/// Edits of a head that is admitted, the route's number and parameter, and whether the route's subprotocol is answered.
const ADMITTED: &[(Edits, u8, &[u8], bool)] = &[
    ((b"", b"", b"", b""), 0, b"", false),
    ((b"/echo", b"/echo?", b"", b""), 0, b"", false),
    ((b"/echo", b"/echo?/room/m", b"", b""), 0, b"", false),
    ((b"/echo", b"/room/m?a=1?b=2", b"", b""), 1, b"m", false),
    (
        (b"/echo", b"/room/%C3%A4%3F", b"", b""),
        1,
        b"%C3%A4%3F",
        false,
    ),
    (
        (b"/echo", b"/room/K\xc3\xa4se", b"", b""),
        1,
        b"K\xc3\xa4se",
        false,
    ),
    (
        (b"/echo", b"/room/\xf0\x9d\x84\x9e?\xc3\xa4", b"", b""),
        1,
        b"\xf0\x9d\x84\x9e",
        false,
    ),
    ((b"/echo", b"/room/a:b@c", b"", b""), 1, b"a:b@c", false),
    // what a client of a room offers
    (
        (
            b"/echo",
            b"/room/m",
            b"Sec-",
            b"Sec-WebSocket-Protocol: room.v1\r\nSec-",
        ),
        1,
        b"m",
        true,
    ),
    (
        (
            b"/echo",
            b"/room/m",
            b"Sec-",
            b"sec-websocket-protocol:chat ,\troom.v1 , x\r\nSec-",
        ),
        1,
        b"m",
        true,
    ),
    (
        (
            b"/echo",
            b"/room/m",
            b"Sec-",
            b"Sec-WebSocket-Protocol: chat\r\nSec-WebSocket-Protocol: room.v1\r\nSec-",
        ),
        1,
        b"m",
        true,
    ),
    (
        (
            b"/echo",
            b"/room/m",
            b"Sec-",
            b"Sec-WebSocket-Protocol: Room.v1\r\nSec-",
        ),
        1,
        b"m",
        false,
    ),
    (
        (
            b"/echo",
            b"/room/m",
            b"Sec-",
            b"Sec-WebSocket-Protocol: room.v11\r\nSec-",
        ),
        1,
        b"m",
        false,
    ),
    (
        (
            b"/echo",
            b"/room/m",
            b"Sec-",
            b"Sec-WebSocket-Protocol: room. v1\r\nSec-",
        ),
        1,
        b"m",
        false,
    ),
    (
        (
            b"/echo",
            b"/room/m",
            b"Sec-",
            b"Sec-WebSocket-Protocol: ,\r\nSec-",
        ),
        1,
        b"m",
        false,
    ),
];

/// The host of the sample replaced by a part, so many times over; how many octets of that came, and the status of the
/// answer: 100 where more octets are needed.
const LIMITS: &[(&[u8], usize, usize, u16)] = &[
    // 64 fields, and 65
    (b"\r\nX: y", 59, 497, 101),
    (b"\r\nX: y", 60, 503, 400),
    // a head of 8,192 octets, and one of 8,193
    (b"a", 8049, 8191, 100),
    (b"a", 8049, 8192, 101),
    (b"a", 8050, 8191, 100),
    (b"a", 8050, 8192, 431),
    (b"a", 8050, 8193, 431),
];

/// Statuses with the texts of their replies and how many octets these have.
const REFUSALS: &[(u16, usize, &[u8])] = &[
    (
        400,
        66,
        b"HTTP/1.1 400 Bad Request\r\nConnection: close\r\nContent-Length: 0\r\n\r\n",
    ),
    (
        404,
        64,
        b"HTTP/1.1 404 Not Found\r\nConnection: close\r\nContent-Length: 0\r\n\r\n",
    ),
    (
        426,
        127,
        b"HTTP/1.1 426 Upgrade Required\r\nUpgrade: websocket\r\nConnection: Upgrade, close\r\nSec-WebSocket-Version: 13\r\nContent-Length: 0\r\n\r\n",
    ),
    (
        431,
        86,
        b"HTTP/1.1 431 Request Header Fields Too Large\r\nConnection: close\r\nContent-Length: 0\r\n\r\n",
    ),
];

fn example(alloc: Global) -> Result<Routes, Fail> {
    let mut routes = Routes::new(alloc);
    routes.add("/echo", b"").ok().ok_or("not added")?;
    routes
        .add("/room/{name}", b"room.v1")
        .ok()
        .ok_or("not added")?;
    Ok(routes)
}

/// The octets with the first `old` in them replaced by `new`.
fn replaced(alloc: Global, octets: &[u8], old: &[u8], new: &[u8]) -> Result<Vec<u8>, Fail> {
    let place = memmem::find(octets, old).ok_or("not there")?;
    let mut edited = Vec::from_slice(alloc, &octets[..place])?;
    edited.extend_from_slice(new)?;
    edited.extend_from_slice(&octets[place + old.len()..])?;
    Ok(edited)
}

fn edited(alloc: Global, edits: &Edits) -> Result<Vec<u8>, Fail> {
    let (old, new, next, other) = edits;
    let once = replaced(alloc, SAMPLE, old, new)?;
    replaced(alloc, once.as_slice(), next, other)
}

fn status(head: Head<'_>) -> u16 {
    match head {
        Head::More => 100,
        Head::Admit { .. } => 101,
        Head::Refuse(status) => status,
    }
}

fn is_admitted(
    routes: &Routes,
    octets: &[u8],
    end: usize,
    route: u8,
    param: &[u8],
    protocol: bool,
) -> bool {
    let wanted = Head::Admit {
        end,
        route,
        param,
        accept: *SAMPLE_ACCEPT,
        protocol,
    };
    judge(octets, routes) == wanted
}

// The functions below go over a table, and answer the place of the first row that is answered otherwise.

fn other_status(alloc: Global, rows: &[(Edits, u16)]) -> Result<Option<usize>, Fail> {
    let routes = example(alloc)?;
    for (place, (edits, wanted)) in rows.iter().enumerate() {
        let octets = edited(alloc, edits)?;
        if status(judge(octets.as_slice(), &routes)) != *wanted {
            return Ok(Some(place));
        }
    }
    Ok(None)
}

fn other_answer(alloc: Global, rows: &[(Edits, u8, &[u8], bool)]) -> Result<Option<usize>, Fail> {
    let routes = example(alloc)?;
    for (place, (edits, route, param, protocol)) in rows.iter().enumerate() {
        let octets = edited(alloc, edits)?;
        if !is_admitted(
            &routes,
            octets.as_slice(),
            octets.len(),
            *route,
            param,
            *protocol,
        ) {
            return Ok(Some(place));
        }
    }
    Ok(None)
}

fn other_limit(alloc: Global, rows: &[(&[u8], usize, usize, u16)]) -> Result<Option<usize>, Fail> {
    let routes = example(alloc)?;
    for (place, (part, times, count, wanted)) in rows.iter().enumerate() {
        let host = part.repeat(alloc, *times)?;
        let octets = replaced(alloc, SAMPLE, b"a", host.as_slice())?;
        let came = octets.get(..*count).ok_or("fewer octets")?;
        if status(judge(came, &routes)) != *wanted {
            return Ok(Some(place));
        }
    }
    Ok(None)
}

fn other_accept(rows: &[(&[u8; 24], &[u8; 28])]) -> Option<usize> {
    for (place, (key, wanted)) in rows.iter().enumerate() {
        if accept_of(key) != **wanted {
            return Some(place);
        }
    }
    None
}

fn other_reply(rows: &[(&[u8], usize, &[u8])]) -> Option<usize> {
    for (place, (protocol, size, end)) in rows.iter().enumerate() {
        if protocol.len() > 64 {
            return Some(place);
        }
        let octets = reply(SAMPLE_ACCEPT, protocol);
        if octets.len() != *size || !octets.as_slice().ends_with(end) {
            return Some(place);
        }
    }
    None
}

fn other_refusal(rows: &[(u16, usize, &[u8])]) -> Option<usize> {
    for (place, (status, size, text)) in rows.iter().enumerate() {
        if !matches!(*status, 400 | 404 | 426 | 431) {
            return Some(place);
        }
        let octets = refusal(*status);
        if octets.len() != *size || octets.as_slice() != *text {
            return Some(place);
        }
    }
    None
}

/// How many octets of a head have come once it is decided.
fn decided_at(routes: &Routes, octets: &[u8]) -> usize {
    for count in 0..octets.len() {
        if judge(&octets[..count], routes) != Head::More {
            return count;
        }
    }
    octets.len()
}

#[test]
fn rules_in_order(rt: HostRuntime) -> Result<(), Fail> {
    assert_eq!(rt; other_status(rt.alloc(), STATUSES)?, None);
    Ok(())
}

#[test]
fn paths_and_subprotocols(rt: HostRuntime) -> Result<(), Fail> {
    assert_eq!(rt; other_answer(rt.alloc(), ADMITTED)?, None);
    Ok(())
}

#[test]
fn at_most_64_fields_and_8192_octets(rt: HostRuntime) -> Result<(), Fail> {
    assert_eq!(rt; other_limit(rt.alloc(), LIMITS)?, None);
    Ok(())
}

#[test]
fn heads_of_clients(rt: HostRuntime) -> Result<(), Fail> {
    let routes = example(rt.alloc())?;
    assert_eq!(rt; decided_at(&routes, SAMPLE), 144);
    assert!(rt; is_admitted(&routes, SAMPLE, 144, 0, b"", false));
    assert!(rt; is_admitted(&routes, SAMPLE_AND_FRAME, 144, 0, b"", false));
    assert!(rt; is_admitted(&routes, BROWSER, BROWSER.len(), 1, b"lobby", true));
    Ok(())
}

#[test]
fn replies(rt: HostRuntime) {
    assert_eq!(rt; other_accept(ACCEPTS), None);
    assert_eq!(rt; other_reply(REPLIES), None);
    assert_eq!(rt; other_refusal(REFUSALS), None);
}
