//! Changes of one connection among all.

ghost use Rattle.std.specs.Prelude.{◌≡◌, ◌≢◌, ◌≤◌, ◌+◌, ◌&&◌, nat_lt, [], ◌∷◌, true, false, Some, length};
ghost use Rattle.slab.specs.Slab.{ContainsKey, with_value};
ghost use Rattle.socket_core.specs.Items.{IsPuttable, octets_of, can_drop};
ghost use Rattle.socket_core.specs.Puts.{CountsRinged, OffersOnce, PassesOctets, is_drop};
ghost use Rattle.idle_close.specs.QuietValue.{is_ping, is_gone as is_end};
ghost use Rattle.run_meaning.specs.Timely.{is_ping_due, is_end_due};
ghost use Rattle.hub_lines.specs.State.{is_gone, most_held};
ghost use Rattle.socket_core.specs.Phases.{can_enter};
ghost use Rattle.socket_core.specs.Timed.{counts_of, heard_socket, ticked_socket};
ghost use Rattle.hub_table.specs.Parting.{parting_value};
ghost use Rattle.hub_table.specs.Connection.{entered, parted, told, with_socket, is_ending};
ghost use Rattle.hub_table.specs.ConnectionMap.{stored_at};

use crate::connection::Connection;
use crate::parting::Parting;
use arrayvec::ArrayVec;
use idle_close::Due;
use link_trait::{Net, Outside};
use slab::Slab;
use socket_core::{Item, Kept};
use ws_kinds::{Conn, Phase, Watch};

/// Whether nothing more is read of a connection in this phase.
pub fn is_ending(phase: Phase) -> bool
    ensures { result ≡ is_ending phase }
{
    matches!(phase, Phase::Ending)
}

/// A Closed event with this code and this reason.
pub fn parting_of(conn: Conn, code: u16, reason: &[u8]) -> Parting
    requires { length reason.now ≤ 123 }
    ensures { parting_value result ≡ record { conn = conn.0; code = code; reason = reason.now } }
{
    let mut kept = ArrayVec::new();
    kept.try_extend_from_slice(reason).unwrap();
    Parting {
        conn,
        code,
        reason: kept,
    }
}

/// The connection under this key goes on to a phase.
pub fn enter(connections: &mut Slab<Connection>, key: usize, phase: Phase)
    requires there { ContainsKey connections.old key }
    requires step { can_enter (stored_at connections.old key).socket.phase phase ≡ true }
    ensures { connections.new ≡ with_value connections.old key (entered (stored_at connections.old key) phase) }
{
    connections[key].socket.enter(phase);
}

/// Octets of the connection under this key were read.
pub fn heard(connections: &mut Slab<Connection>, key: usize)
    requires there { ContainsKey connections.old key }
    requires present { is_gone (stored_at connections.old key).socket.phase ≡ false }
    ensures { connections.new ≡ with_value connections.old key (with_socket (stored_at connections.old key) (heard_socket (stored_at connections.old key).socket)) }
{
    connections[key].socket.heard();
}

/// Counts one more tick of the connection under this key, and says what it makes due.
pub fn tick(connections: &mut Slab<Connection>, key: usize) -> Due
    requires there { ContainsKey connections.old key }
    requires present { is_gone (stored_at connections.old key).socket.phase ≡ false }
    ensures ping { is_ping result ≡
        is_ping_due (stored_at connections.old key).socket.config (Some (stored_at connections.old key).socket.phase) (counts_of (stored_at connections.old key).socket) }
    ensures end { is_end result ≡
        is_end_due (stored_at connections.old key).socket.config (Some (stored_at connections.old key).socket.phase) (counts_of (stored_at connections.old key).socket) }
    ensures slab { connections.new ≡ with_value connections.old key (with_socket (stored_at connections.old key) (ticked_socket (stored_at connections.old key).socket)) }
{
    connections[key].socket.tick()
}

/// The connection under this key goes on to a phase, and this Closed event is due for it.
pub fn part(connections: &mut Slab<Connection>, key: usize, phase: Phase, parting: Parting)
    requires there { ContainsKey connections.old key }
    requires step { can_enter (stored_at connections.old key).socket.phase phase ≡ true }
    ensures { connections.new ≡ with_value connections.old key (parted (stored_at connections.old key) phase parting) }
{
    let connection = &mut connections[key];
    connection.closed = Some(parting);
    connection.socket.enter(phase);
}

/// The Closed event of the connection under this key, if one is due. It is due no more.
pub fn take(connections: &mut Slab<Connection>, key: usize) -> Option<Parting>
    requires { ContainsKey connections.old key }
    ensures value { result ≡ (stored_at connections.old key).closed }
    ensures slab { connections.new ≡ with_value connections.old key (told (stored_at connections.old key)) }
{
    connections[key].closed.take()
}

/// Puts an item for the connection under this key, as its socket does.
pub fn put<N: Net, W: Watch>(
    connections: &mut Slab<Connection>,
    out: &mut Outside<N, W>,
    key: usize,
    item: Item<'_>,
) -> Kept
    requires there { ContainsKey connections.old key }
    requires live { (N.state out.old.net).live (stored_at connections.old key).socket.conn ≡ true }
    requires item { IsPuttable (stored_at connections.old key).socket.config (stored_at connections.old key).socket.numbered item }
    requires room { can_drop item ≡ false → length (stored_at connections.old key).socket.ring + length (octets_of item) ≤ most_held (stored_at connections.old key).socket.config }
    ensures passes { PassesOctets (stored_at connections.old key).socket.conn (stored_at connections.old key).socket.config.limit (can_drop item.entry) (octets_of item.entry ∷ [])
        result (stored_at connections.old key).socket (stored_at connections.new key).socket
        (N.state out.old.net) (N.state out.new.net) (W.told out.old.watch) (W.told out.new.watch) }
    ensures once { (stored_at connections.old key).socket.ring ≡ [] → OffersOnce result (stored_at connections.old key).socket.conn (octets_of item.entry) (stored_at connections.new key).socket.ring
        (N.state out.old.net) (N.state out.new.net) (W.told out.old.watch) (W.told out.new.watch) }
    ensures tally { CountsRinged (stored_at connections.old key).socket.ring (stored_at connections.new key).socket.ring out.old.tally out.new.tally }
    ensures dropped { is_drop result ≡
        (can_drop item.entry && nat_lt (stored_at connections.old key).socket.config.limit (length (stored_at connections.old key).socket.ring)) }
    ensures slab { connections.new ≡ with_value connections.old key (with_socket (stored_at connections.old key) (stored_at connections.new key).socket) }
{
    connections[key].socket.put_frame(out, item)
}

/// Offers what is held back for the connection under this key, as its socket does.
pub fn writable<N: Net, W: Watch>(
    connections: &mut Slab<Connection>,
    out: &mut Outside<N, W>,
    key: usize,
) -> Kept
    requires there { ContainsKey connections.old key }
    requires live { (N.state out.old.net).live (stored_at connections.old key).socket.conn ≡ true }
    ensures passes { PassesOctets (stored_at connections.old key).socket.conn (stored_at connections.old key).socket.config.limit false []
        result (stored_at connections.old key).socket (stored_at connections.new key).socket
        (N.state out.old.net) (N.state out.new.net) (W.told out.old.watch) (W.told out.new.watch) }
    ensures waits { result ≢ Kept.Failed → (stored_at connections.new key).socket.ring ≢ [] → (N.state out.new.net).writable (stored_at connections.old key).socket.conn ≡ false }
    ensures slab { connections.new ≡ with_value connections.old key (with_socket (stored_at connections.old key) (stored_at connections.new key).socket) }
{
    connections[key].socket.writable(out)
}
