//! Closed events that are due.

use arrayvec::ArrayVec;
use ws_kinds::Conn;

/// A connection left Open, with this code and this reason (RFC 6455, sections 7.1.5 and 7.1.6), and the handler was not told
/// yet.
#[derive(Clone, Debug, PartialEq, Eq, Drop)]
pub struct Parting {
    pub conn: Conn,
    /// The code of the peer's close, or 1005 where it had none; that of a failure; 1006 where the link was gone.
    pub code: u16,
    /// The reason of the peer's close, and nothing otherwise.
    pub reason: ArrayVec<u8, 123>,
}
