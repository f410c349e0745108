//! One connection of a hub.

ghost use Rattle.std.specs.Prelude.{◌≡◌, Some};
ghost use Rattle.run_meaning.specs.Lines.{is_open};
ghost use Rattle.hub_lines.specs.State.{is_gone};
ghost use Rattle.hub_table.specs.Connection.{is_due};

use crate::parting::Parting;
use socket_core::Socket;
use ws_kinds::Phase;

/// A connection's socket, and its Closed event, where that is due.
#[derive(Drop)]
pub struct Connection {
    pub socket: Socket,
    pub closed: Option<Parting>,
}

impl Connection {
    /// Whether it is open.
    pub fn is_open(&self) -> bool
        ensures { result ≡ is_open (Some self.now.socket.phase) }
    {
        matches!(self.socket.phase(), Phase::Open)
    }

    /// Whether it is gone.
    pub fn is_gone(&self) -> bool
        ensures { result ≡ is_gone self.now.socket.phase }
    {
        matches!(self.socket.phase(), Phase::Gone)
    }

    /// Whether a Closed event is due for it.
    pub fn is_due(&self) -> bool
        ensures { result ≡ is_due self.now }
    {
        self.closed.is_some()
    }
}
