//! The table of a hub's connections.

ghost use Rattle.std.specs.Prelude.{◌≡◌, ◌≢◌, ◌+◌, ◌<◌, ◌≤◌, ◌++◌, ◌&&◌, nat_lt, [], ◌∷◌, true, false, length, IfOk, OnErr, OnOk, Some, None, nat_eq, if◌then◌else◌, ℕ};
ghost use Rattle.std.specs.Option.{option_map};
ghost use Rattle.ws_kinds.specs.ConfigValue.{IsConfig};
ghost use Rattle.idle_close.specs.QuietValue.{is_ping, is_gone as is_end};
ghost use Rattle.run_meaning.specs.Quiet.{is_leaving};
ghost use Rattle.run_meaning.specs.Timely.{is_ping_due, is_end_due};
ghost use Rattle.hub_lines.specs.State.{entry_of, has_entry, is_gone, most_held_in, new_entry};
ghost use Rattle.hub_notes.specs.Progress.{due_of};
ghost use Rattle.socket_core.specs.Items.{octets_of, can_drop, IsPuttable};
ghost use Rattle.socket_core.specs.Phases.{can_enter};
ghost use Rattle.socket_core.specs.Timed.{counts_of, heard_socket, ticked_socket};
ghost use Rattle.socket_core.specs.Puts.{CountsRinged, OffersOnce, PassesOctets, is_drop};
ghost use Rattle.hub_table.specs.Parting.{parting_value};
ghost use Rattle.hub_notes.specs.Table.{IsTable, ChangesOne, due_when_gone, IsNextEnding, IsNextEntry, TakesDue};

use crate::changes;
use crate::connection_map::ConnectionMap;
use crate::parting::Parting;
use idle_close::Due;
use link_trait::{Net, Outside};
use socket_core::{Item, Kept, Socket};
use std::alloc::{AllocError, Global};
use std::marker::Model;
use ws_kinds::{Config, Conn, Phase, Watch};

/// All connections of a hub, in the order of their numbers, and the Closed events that are due: those of which the handler was
/// not told yet.
///
/// A connection is an entry from `accept` on, as long as it is not gone, or its Closed event is due. Memory is taken by `new`
/// and `accept` alone.
#[derive(Drop)]
pub struct Connections {
    alloc: Global,
    config: Config,
    named: u64,
    table: ConnectionMap,
}

impl Model for Connections {
    ghost use Rattle.hub_notes.specs.Table.{TableState};
    ghost use Rattle.hub_table.specs.Connection.{table_state};
    ghost use Rattle.hub_table.specs.ConnectionMap.{IsKept};

    ghost Value = { TableState };

    ghost view = { λ c. table_state c.config c.named c.table.all };

    ghost invariant = { λ c. IsKept c.config c.named c.table };
}

impl Connections {
    /// An empty table, with room for as many connections as there may be. An error says that there was too little memory.
    pub fn new(alloc: Global, config: Config) -> Result<Connections, AllocError>
        ensures empty { IfOk result (λ table. table ≡ record { config = config; named = 0; entries = []; partings = [] }) }
        ensures table { IfOk result (λ table. IsTable table) }
    {
        Ok(Connections {
            alloc,
            config,
            named: 0,
            table: ConnectionMap::with_room(alloc, config.max_conns() as usize)?,
        })
    }

    /// How many connections there are, at most as many as there may be. Those that are gone count as long as their Closed
    /// event is due.
    pub fn count(&self) -> usize
        ensures value { result ≡ length self.now.entries }
        ensures table { IsTable self.now }
    {
        self.table.count()
    }

    /// Whether there are as many connections as there may be, so that none can be accepted.
    pub fn is_full(&self) -> bool
        ensures value { result ≡ nat_eq (length self.now.entries) self.now.config.max_conns }
        ensures table { IsTable self.now }
    {
        self.table.count() == self.config.max_conns() as usize
    }

    /// The octets that one message may have, from 1 to 65,536.
    pub fn max_message(&self) -> u32
        ensures value { result ≡ self.now.config.max_message }
        ensures ranges { IsConfig self.now.config }
    {
        self.config.max_message()
    }

    /// The phase of a connection. None where it is no entry.
    pub fn phase(&self, conn: Conn) -> Option<Phase>
        ensures { result ≡ (if has_entry self.now.entries conn.0 then Some (entry_of self.now.entries conn.0).phase else None) }
    {
        match self.table.get(conn) {
            Some(connection) => Some(connection.socket.phase()),
            None => None,
        }
    }

    /// The connection is an entry from now on, in phase Head. Its number is greater than each that was accepted before, and
    /// the table is not full. An error says that there was too little memory, and leaves the table as it was.
    pub fn accept(&mut self, conn: Conn) -> Result<(), AllocError>
        requires new { self.old.named < conn.0 }
        requires room { length self.old.entries < self.old.config.max_conns }
        ensures refused { OnErr result (self.new ≡ self.old) }
        ensures table { IsTable self.new }
        ensures accepted { OnOk result (self.new ≡ record self.old { named = conn.0; entries = self.old.entries ++ new_entry self.old.config conn.0 ∷ [] }) }
    {
        let socket = Socket::new(self.alloc, conn, &self.config)?;
        self.table.add(socket)?;
        self.named = conn.0;
        Ok(())
    }

    /// Puts an item for a connection that is past Head and not gone, as its socket does: it gets the connection's next index, counted
    /// from 0, and is dropped, held back or offered to the link; what the link took, and a drop, is noted. An item that may not be
    /// dropped fits behind what is held back.
    ///
    /// Where the write fails, the answer is `Failed`, and nothing is noted; the net counted the fault, and the connection
    /// stays in its phase.
    pub fn put_frame<N: Net, W: Watch>(
        &mut self,
        out: &mut Outside<N, W>,
        conn: Conn,
        item: Item<'_>,
    ) -> Kept
        requires present { is_gone (entry_of self.old.entries conn.0).phase ≡ false }
        requires live { (N.state out.old.net).live conn.0 ≡ true }
        requires item { IsPuttable self.old.config (entry_of self.old.entries conn.0).numbered item }
        requires past_head { (entry_of self.old.entries conn.0).phase ≢ Phase.Head }
        requires room { can_drop item ≡ false → length (entry_of self.old.entries conn.0).ring + length (octets_of item) ≤ most_held_in self.old.config (entry_of self.old.entries conn.0).phase }
        ensures passes { PassesOctets conn.0 self.old.config.limit (can_drop item.entry) (octets_of item.entry ∷ []) result (entry_of self.old.entries conn.0) (entry_of self.new.entries conn.0)
            (N.state out.old.net) (N.state out.new.net) (W.told out.old.watch) (W.told out.new.watch) }
        ensures dropped { is_drop result ≡ (can_drop item.entry && nat_lt self.old.config.limit (length (entry_of self.old.entries conn.0).ring)) }
        ensures once { (entry_of self.old.entries conn.0).ring ≡ [] → OffersOnce result conn.0 (octets_of item.entry) (entry_of self.new.entries conn.0).ring
            (N.state out.old.net) (N.state out.new.net) (W.told out.old.watch) (W.told out.new.watch) }
        ensures tally { CountsRinged (entry_of self.old.entries conn.0).ring (entry_of self.new.entries conn.0).ring out.old.tally out.new.tally }
        ensures there { has_entry self.new.entries conn.0 ≡ true }
        ensures due { due_of self.new.partings conn.0 ≡ due_of self.old.partings conn.0 }
        ensures table { IsTable self.new }
        ensures elsewhere { ChangesOne conn.0 self.old self.new }
    {
        self.table.put(out, conn, item)
    }

    /// Offers what is held back for a connection that is past Head, as its socket does: in at most two writes. What the link took is
    /// noted.
    ///
    /// Where a write fails, the answer is `Failed`; the net counted the fault, and the connection stays in its phase.
    pub fn writable<N: Net, W: Watch>(&mut self, out: &mut Outside<N, W>, conn: Conn) -> Kept
        requires there { has_entry self.old.entries conn.0 ≡ true }
        requires live { (N.state out.old.net).live conn.0 ≡ true }
        ensures passes { PassesOctets conn.0 self.old.config.limit false [] result (entry_of self.old.entries conn.0) (entry_of self.new.entries conn.0)
            (N.state out.old.net) (N.state out.new.net) (W.told out.old.watch) (W.told out.new.watch) }
        ensures waits { result ≢ Kept.Failed → (entry_of self.new.entries conn.0).ring ≢ [] → (N.state out.new.net).writable conn.0 ≡ false }
        ensures there { has_entry self.new.entries conn.0 ≡ true }
        ensures due { due_of self.new.partings conn.0 ≡ due_of self.old.partings conn.0 }
        ensures table { IsTable self.new }
        ensures elsewhere { ChangesOne conn.0 self.old self.new }
    {
        self.table.writable(out, conn)
    }

    /// A connection goes on to a phase: from Head to Open or Ending, or from Leaving to Ending. It does not leave Open by this,
    /// and is not gone.
    pub fn enter(&mut self, conn: Conn, phase: Phase)
        requires there { has_entry self.old.entries conn.0 ≡ true }
        requires step { can_enter (entry_of self.old.entries conn.0).phase phase ≡ true }
        requires stays { (entry_of self.old.entries conn.0).phase ≢ Phase.Open }
        requires live { phase ≢ Phase.Gone }
        ensures entry { entry_of self.new.entries conn.0 ≡ record (entry_of self.old.entries conn.0) { phase = phase } }
        ensures there { has_entry self.new.entries conn.0 ≡ true }
        ensures table { IsTable self.new }
        ensures fresh { (entry_of self.old.entries conn.0).phase ≡ Phase.Head → (entry_of self.old.entries conn.0).numbered ≡ 0 }
        ensures due { due_of self.new.partings conn.0 ≡ due_of self.old.partings conn.0 }
        ensures elsewhere { ChangesOne conn.0 self.old self.new }
    {
        self.table.enter(conn, phase);
    }

    /// An open connection goes on to Leaving or Ending, and its Closed event is due, with this code and this reason of at most 123
    /// octets: those with which the server closes it, those of the peer's close, or the code of a failure and no reason (RFC 6455,
    /// sections 7.1.5 and 7.1.6).
    pub fn close(&mut self, conn: Conn, phase: Phase, code: u16, reason: &[u8])
        requires open { (entry_of self.old.entries conn.0).phase ≡ Phase.Open }
        requires left { is_leaving (Some phase) ≡ true }
        requires short { length reason.now ≤ 123 }
        ensures entry { entry_of self.new.entries conn.0 ≡ record (entry_of self.old.entries conn.0) { phase = phase } }
        ensures there { has_entry self.new.entries conn.0 ≡ true }
        ensures table { IsTable self.new }
        ensures due { due_of self.new.partings conn.0 ≡ Some (code, reason.now) }
        ensures elsewhere { ChangesOne conn.0 self.old self.new }
    {
        let parting = changes::parting_of(conn, code, reason);
        self.table.part(conn, phase, parting);
    }

    /// A connection is gone. Where it was open, its Closed event is due, with the code 1006 (RFC 6455, section 7.1.5); an event
    /// that was due stays due. It is an entry as long as one is due, and none otherwise.
    pub fn leave(&mut self, conn: Conn)
        requires { is_gone (entry_of self.old.entries conn.0).phase ≡ false }
        ensures gone { is_gone (entry_of self.new.entries conn.0).phase ≡ true }
        ensures table { IsTable self.new }
        ensures due { due_of self.new.partings conn.0 ≡ due_when_gone (entry_of self.old.entries conn.0).phase (due_of self.old.partings conn.0) }
        ensures elsewhere { ChangesOne conn.0 self.old self.new }
    {
        if self.table.at(conn).is_open() {
            let parting = changes::parting_of(conn, 1006, &[]);
            self.table.part(conn, Phase::Gone, parting);
            return;
        }
        if self.table.at(conn).is_due() {
            self.table.enter(conn, Phase::Gone);
            return;
        }
        let _ = self.table.forget(conn);
    }

    /// How many octets the link of a connection did not take. It is 0 for one that is no entry.
    pub fn held(&self, conn: Conn) -> u64
        ensures { result ≡ length (entry_of self.now.entries conn.0).ring }
    {
        match self.table.get(conn) {
            Some(connection) => connection.socket.ring_length(),
            None => 0,
        }
    }

    /// How many items of a connection were put, those that were dropped among them. It is 0 for one that is no entry.
    pub fn numbered(&self, conn: Conn) -> u64
        ensures { result ≡ (entry_of self.now.entries conn.0).numbered }
    {
        match self.table.get(conn) {
            Some(connection) => connection.socket.numbered(),
            None => 0,
        }
    }

    /// Octets of a connection that is not gone were read: its quiet ticks are counted from 0 again, unless it is leaving.
    pub fn heard(&mut self, conn: Conn)
        requires present { is_gone (entry_of self.old.entries conn.0).phase ≡ false }
        ensures entry { entry_of self.new.entries conn.0 ≡ heard_socket (entry_of self.old.entries conn.0) }
        ensures there { has_entry self.new.entries conn.0 ≡ true }
        ensures table { IsTable self.new }
        ensures due { due_of self.new.partings conn.0 ≡ due_of self.old.partings conn.0 }
        ensures elsewhere { ChangesOne conn.0 self.old self.new }
    {
        self.table.heard(conn);
    }

    /// Counts one more tick of a connection that is not gone, and says what it makes due, as its socket does: a ping, its end, or
    /// nothing.
    pub fn tick(&mut self, conn: Conn) -> Due
        requires present { is_gone (entry_of self.old.entries conn.0).phase ≡ false }
        ensures ping { is_ping result ≡ is_ping_due self.old.config (Some (entry_of self.old.entries conn.0).phase) (counts_of (entry_of self.old.entries conn.0)) }
        ensures end { is_end result ≡ is_end_due self.old.config (Some (entry_of self.old.entries conn.0).phase) (counts_of (entry_of self.old.entries conn.0)) }
        ensures entry { entry_of self.new.entries conn.0 ≡ ticked_socket (entry_of self.old.entries conn.0) }
        ensures there { has_entry self.new.entries conn.0 ≡ true }
        ensures table { IsTable self.new }
        ensures due { due_of self.new.partings conn.0 ≡ due_of self.old.partings conn.0 }
        ensures elsewhere { ChangesOne conn.0 self.old self.new }
    {
        self.table.tick(conn)
    }

    /// The Closed event of the least connection for which one is due, and None where none is due for any. It is due no more;
    /// its connection is no entry any more, if it is gone.
    pub fn next_closed(&mut self) -> Option<Parting>
        ensures takes { TakesDue (option_map parting_value result) self.old self.new }
        ensures table { IsTable self.new }
    {
        let conn = self.table.first_due()?;
        if self.table.at(conn).is_gone() {
            return self.table.forget(conn);
        }
        self.table.take(conn)
    }

    /// The least connection above `after`, and None where there is none.
    pub fn next(&self, after: Conn) -> Option<Conn>
        ensures { IsNextEntry self.now.entries after.0 (option_map (λ conn. conn.0) result) }
    {
        self.table.next(after)
    }

    /// The least connection above `after` that is in phase Ending, and None where there is none.
    pub fn next_ending(&self, after: Conn) -> Option<Conn>
        ensures { IsNextEnding self.now.entries after.0 (option_map (λ conn. conn.0) result) }
    {
        self.table.next_ending(after)
    }
}
