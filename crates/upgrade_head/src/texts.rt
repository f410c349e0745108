//! The replies to a request head (RFC 6455, sections 4.2.2 and 4.4).

ghost use Rattle.std.specs.Prelude.{◌≡◌, ◌<◌, ◌≤◌, ◌+◌, ◌++◌, length, IsTrue};
ghost use Rattle.upgrade_head.specs.Texts.{protocol_line, reply_text, is_refusal, refusal_text};

use arrayvec::ArrayVec;

/// Appends a part, for which there is room.
fn put(text: &mut ArrayVec<u8, 256>, part: &[u8])
    requires { length text.old.items + length part.now ≤ 256 }
    ensures { text.new.items ≡ text.old.items ++ part.now }
{
    text.try_extend_from_slice(part).unwrap();
}

/// Appends the line that answers a subprotocol, if there is one.
fn put_protocol(text: &mut ArrayVec<u8, 256>, protocol: &[u8])
    requires { length text.old.items + length protocol.now + 26 ≤ 256 }
    ensures line { text.new.items ≡ text.old.items ++ protocol_line protocol.now }
    ensures room { length text.new.items ≤ length text.old.items + length protocol.now + 26 }
{
    if !protocol.is_empty() {
        put(text, b"Sec-WebSocket-Protocol: ");
        put(text, protocol);
        put(text, b"\r\n");
    }
}

/// The reply to a head that is admitted: status 101, with this accept value and this subprotocol (RFC 6455, section
/// 4.2.2).
///
/// `protocol` has at most 64 octets. Where it has none the reply has no line for it, and 129 octets.
pub fn reply(accept: &[u8; 28], protocol: &[u8]) -> ArrayVec<u8, 256>
    requires { length protocol.now ≤ 64 }
    ensures text { result.items ≡ reply_text accept.now protocol.now }
    ensures not_empty { 0 < length result.items }
{
    let mut text = ArrayVec::new();
    put(
        &mut text,
        b"HTTP/1.1 101 Switching Protocols\r\nUpgrade: websocket\r\nConnection: Upgrade\r\nSec-WebSocket-Accept: ",
    );
    put(&mut text, accept);
    put(&mut text, b"\r\n");
    put_protocol(&mut text, protocol);
    put(&mut text, b"\r\n");
    text
}

/// The text of a refusal.
fn refusal_lines(status: u16) -> &'static [u8]
    requires { IsTrue (is_refusal status) }
    ensures text { result.now ≡ refusal_text status }
    ensures short { length result.now ≤ 256 }
    ensures not_empty { 0 < length result.now }
{
    match status {
        400 => b"HTTP/1.1 400 Bad Request\r\nConnection: close\r\nContent-Length: 0\r\n\r\n",
        404 => b"HTTP/1.1 404 Not Found\r\nConnection: close\r\nContent-Length: 0\r\n\r\n",
        426 => {
            b"HTTP/1.1 426 Upgrade Required\r\nUpgrade: websocket\r\nConnection: Upgrade, close\r\nSec-WebSocket-Version: 13\r\nContent-Length: 0\r\n\r\n"
        }
        _ => {
            b"HTTP/1.1 431 Request Header Fields Too Large\r\nConnection: close\r\nContent-Length: 0\r\n\r\n"
        }
    }
}

/// The reply to a head that is refused with this status: 400, 404, 426 or 431.
///
/// It says that the connection is closed and that no content follows. The reply to 426 names the version that the
/// server speaks (RFC 6455, section 4.4).
pub fn refusal(status: u16) -> ArrayVec<u8, 256>
    requires { IsTrue (is_refusal status) }
    ensures text { result.items ≡ refusal_text status }
    ensures not_empty { 0 < length result.items }
{
    let mut text = ArrayVec::new();
    put(&mut text, refusal_lines(status));
    text
}
