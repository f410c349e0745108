//! What happens on a net that follows a schedule.

use ws_kinds::{Bytes, Conn};

/// One thing that happens.
#[derive(Drop)]
pub enum Act {
    /// A connection comes. Its link takes `credit` octets in all, or any number.
    Arrive { conn: Conn, credit: Option<u32> },
    /// The peer sends octets.
    Octets { conn: Conn, octets: Bytes },
    /// The peer ends its stream.
    End(Conn),
    /// Reads fail once all octets were read.
    ReadFails(Conn),
    /// The link takes so many octets more.
    Room { conn: Conn, more: u32 },
    /// Writes fail from now on.
    WriteFails(Conn),
    /// Time goes by: one tick.
    Tick,
    /// All that was ready has been told.
    Turn,
}
