//! Judging a request head (RFC 6455, section 4.2.1).

ghost use Rattle.std.specs.Prelude.{◌≡◌, ◌<◌, ◌≤◌, ◌==◌, IfSome, IfNone, length, take, position, option_map};
ghost use Rattle.httparse.specs.Grammar.{RequestHead};
ghost use Rattle.httparse.specs.Spans.{IsRequestWithin, IsRequestAt};
ghost use Rattle.upgrade_head.specs.Head.{head_end, IsHead, IsWholeHead};
ghost use Rattle.upgrade_head.specs.Judged.{path_of, route_of, is_offered, asks_to_upgrade, by_parts, by_key, JudgedHead, Judged, IsDecided, IsInRange};
ghost use Rattle.upgrade_head.specs.Key.{key_of};
ghost use Rattle.upgrade_head.specs.View.{fields_seen, verdict_of};

use crate::field::Fields;
use crate::key::{accept_of, key_of};
use crate::word::Letters;
use httparse::Status;
use httparse::spans::{EMPTY_HEADER_SPAN, HeaderSpan, RequestSpans, parse_request};
use memchr::memmem;
use route_table::Routes;
use std::str;

/// The most octets of a head.
const MOST_OCTETS: usize = 8_192;

/// The most fields of a head.
const MOST_FIELDS: usize = 64;

/// What is decided of a connection that is not open yet.
#[derive(Clone, Copy, Debug, PartialEq, Eq)]
pub enum Head<'a> {
    /// The head has not all come, and may have up to 8,192 octets.
    More,
    /// The connection is open.
    Admit {
        /// How many octets the head has. What follows it are frames.
        end: usize,
        /// The route's number.
        route: u8,
        /// What the route's first parameter took of the path, at most 64 octets; empty where the route has none.
        param: &'a [u8],
        /// The value of the field `Sec-WebSocket-Accept` of the reply.
        accept: [u8; 28],
        /// The client offers the route's subprotocol, so that the reply names it.
        protocol: bool,
    },
    /// The connection is refused with this status: 400, 404, 426 or 431.
    Refuse(u16),
}

/// The first 8,192 octets, in which a head has to end.
fn bounded(octets: &[u8]) -> &[u8]
    ensures value { result.now ≡ take 8192 octets.now }
    ensures shorter { length result.now ≤ length octets.now }
    ensures short { length result.now ≤ 8192 }
{
    if octets.len() < MOST_OCTETS {
        return octets;
    }
    &octets[..MOST_OCTETS]
}

/// How many octets the head has, where it ends within the first 8,192.
fn head_end(octets: &[u8]) -> Option<usize>
    ensures value { result ≡ head_end octets.now }
    ensures within { IfSome result (λ end. end ≤ length octets.now) }
    ensures bounded { IfSome result (λ end. end ≤ 8192) }
{
    match memmem::find(bounded(octets), b"\r\n\r\n") {
        Some(place) => Some(place + 4),
        None => None,
    }
}

/// Where the parts of a whole head stand, if the octets are one.
fn spans_of(head: &[u8], headers: &mut [HeaderSpan]) -> Option<RequestSpans>
    requires { length headers.old ≡ 64 }
    ensures none { IfNone result (¬ (IsWholeHead head.now)) }
    ensures whole { IfSome result (λ _. IsWholeHead head.now) }
    ensures within { IfSome result (IsRequestWithin head.now headers.new) }
    ensures parts { IfSome result (λ spans. (h : RequestHead) → IsHead head.now h → IsRequestAt head.now headers.new spans h) }
{
    match parse_request(head, headers) {
        Ok(Status::Complete(spans)) if spans.len == head.len() => Some(spans),
        _ => None,
    }
}

fn question_mark(target: &[u8]) -> Option<usize>
    ensures place { result ≡ position (λ octet. octet == 63) target.now }
    ensures within { IfSome result (λ place. place ≤ length target.now) }
{
    target.iter().position(|octet| *octet == b'?')
}

/// The target up to its first question mark.
fn path_of(target: &[u8]) -> &[u8]
    ensures { result.now ≡ path_of target.now }
{
    match question_mark(target) {
        Some(place) => &target[..place],
        None => target,
    }
}

fn asks_to_upgrade(fields: Fields<'_>) -> bool
    ensures { result ≡ asks_to_upgrade (fields_seen fields.entry) }
{
    fields.has_field(b"Host")
        && fields.has_element(Letters::AnyCase, b"Upgrade", b"websocket")
        && fields.has_element(Letters::AnyCase, b"Connection", b"upgrade")
}

/// Whether the client offers this subprotocol, which is not empty.
fn is_offered(protocol: &[u8], fields: Fields<'_>) -> bool
    ensures { result ≡ is_offered protocol.now (fields_seen fields.entry) }
{
    !protocol.is_empty()
        && fields.has_element(Letters::AsWritten, b"Sec-WebSocket-Protocol", protocol)
}

/// The route of a path, and its first parameter.
#[tactic(auto, using(ws_kinds::proofs::TextLemmas::utf8_tests))]
fn route_of<'a>(path: &'a [u8], routes: &Routes) -> Option<(u8, &'a [u8])>
    ensures value { option_map (λ route. (route.0, route.1.now)) result ≡ route_of routes.now path.now }
    ensures in_table { IfSome result (λ route. route.0 < length routes.now.protocols) }
    ensures short { IfSome result (λ route. length route.1.now ≤ 64) }
{
    match str::from_utf8(path) {
        Ok(text) => routes.find(text),
        Err(_) => None,
    }
}

/// What is decided of a head that asks to upgrade.
fn judge_key<'a>(head: &'a [u8], target: &'a [u8], fields: Fields<'_>, routes: &Routes) -> Head<'a>
    ensures value { verdict_of result ≡ by_key routes.now (fields_seen fields.entry) target.now (length head.now) (key_of (fields_seen fields.entry)) }
    ensures decided { IsDecided routes.now (length head.now) (verdict_of result) }
{
    let Some(key) = key_of(fields) else {
        return Head::Refuse(400);
    };
    if !fields.has_value(b"Sec-WebSocket-Version", b"13") {
        return Head::Refuse(426);
    }
    let Some((route, param)) = route_of(path_of(target), routes) else {
        return Head::Refuse(404);
    };
    Head::Admit {
        end: head.len(),
        route,
        param,
        accept: accept_of(key),
        protocol: is_offered(routes.protocol(route), fields),
    }
}

/// What is decided of a head whose parts stand there.
fn judge_parts<'a>(
    head: &'a [u8],
    spans: RequestSpans,
    headers: &[HeaderSpan],
    routes: &Routes,
) -> Head<'a>
    requires { IsRequestWithin head.now headers.now spans }
    ensures value { (h : RequestHead) → IsRequestAt head.now headers.now spans h → verdict_of result ≡ by_parts routes.now (length head.now) h }
    ensures decided { IsDecided routes.now (length head.now) (verdict_of result) }
{
    if spans.method.of(head) != b"GET".as_slice() || spans.version != 1 {
        return Head::Refuse(400);
    }
    let fields = Fields {
        head,
        spans: &headers[..spans.headers],
    };
    if !asks_to_upgrade(fields) {
        return Head::Refuse(400);
    }
    judge_key(head, spans.path.of(head), fields, routes)
}

/// What is decided of the octets up to the end of the head.
fn judge_head<'a>(head: &'a [u8], routes: &Routes) -> Head<'a>
    ensures judged { JudgedHead routes.now head.now (verdict_of result) }
    ensures decided { IsDecided routes.now (length head.now) (verdict_of result) }
{
    let mut headers = [EMPTY_HEADER_SPAN; MOST_FIELDS];
    match spans_of(head, &mut headers) {
        Some(spans) => judge_parts(head, spans, &headers, routes),
        None => Head::Refuse(400),
    }
}

/// What is decided of a connection by all octets that came of it so far, from its first one on (RFC 6455, section
/// 4.2.1).
///
/// The head is all octets up to and including the first CR LF CR LF. The rules are tested in this order:
///
/// 1. No head ends within the first 8,192 octets: `More` where there are at most 8,191, and `Refuse(431)` otherwise.
/// 2. `Refuse(400)` where the head is not exactly one request head, as `httparse` reads it, with at most 64 fields. That
///    reading also takes a bare LF as the end of a line, and empty lines in front; it takes no target that is not UTF-8.
/// 3. `Refuse(400)` where the method is not `GET` or the version is not HTTP/1.1.
/// 4. `Refuse(400)` where no field is named `Host`.
/// 5. `Refuse(400)` where no field `Upgrade` has the element `websocket`.
/// 6. `Refuse(400)` where no field `Connection` has the element `upgrade`.
/// 7. `Refuse(400)` unless there is exactly one field `Sec-WebSocket-Key`, and its value is 22 characters of the base64
///    alphabet followed by `==`.
/// 8. `Refuse(426)` where no field `Sec-WebSocket-Version` has the value `13`.
/// 9. `Refuse(404)` where the routes find nothing for the path, which is the target up to its first `?`, as it is
///    written.
/// 10. `Admit` otherwise. `protocol` is true exactly where the route's subprotocol is not empty and some field
///     `Sec-WebSocket-Protocol` has it as an element, with equal case.
///
/// In names of fields letters have no case, nor in the elements of the rules 5 and 6. Elements stand between commas, and
/// spaces and tabs at their ends are no part of them. Fields that no rule names are passed over.
///
/// An answer other than `More` stays the same whatever octets follow: see [`verdict_stays`](crate::verdict_stays). While
/// the head has not all come, a call costs one search for its end. After that the head is read once, and its fields are
/// gone through once for each field that the rules name. No memory is taken.
pub fn judge<'a>(octets: &'a [u8], routes: &Routes) -> Head<'a>
    ensures judged { Judged routes.now octets.now (verdict_of result) }
    ensures ranges { IsInRange routes.now (length octets.now) (verdict_of result) }
{
    match head_end(octets) {
        Some(end) => judge_head(&octets[..end], routes),
        None if octets.len() < MOST_OCTETS => Head::More,
        None => Head::Refuse(431),
    }
}
