//! What a reader tells.

use ws_kinds::Kind;

/// The next event of a connection's octets. The octets are lent from the reader.
#[derive(Clone, Copy, Debug)]
pub enum Step<'b> {
    /// The octets that came give no further event, or a `Close` or `Failed` was told before.
    More,
    /// A whole message, unmasked and put together. Text is UTF-8.
    Message(Kind, &'b [u8]),
    /// A ping with its payload of at most 125 octets, unmasked.
    Ping(&'b [u8]),
    /// A pong with its payload of at most 125 octets, unmasked.
    Pong(&'b [u8]),
    /// A close with its code and reason, 1005 and no reason where its payload is empty. Nothing follows it.
    Close(u16, &'b [u8]),
    /// The peer broke the standard. The connection fails with this code, and nothing follows.
    Failed(u16),
}
