//! The hub, and what comes for one connection.

ghost use Rattle.std.specs.Prelude.{◌≡◌, ◌<◌, [], true, length, nat_eq, List, Option, IfOk, IfSome, IfNone};
ghost use Rattle.std.specs.Option.{option_map};
ghost use Rattle.ws_kinds.specs.NoteValue.{NoteValue};
ghost use Rattle.link_trait.specs.NetState.{NetState};
ghost use Rattle.hub_lines.specs.State.{server, numbered_at, phase_at};
ghost use Rattle.hub_lines.specs.Lines.{held_at, held_octets};
ghost use Rattle.hub_lines.specs.Calls.{Ties, Settled, nothing};
ghost use Rattle.ws_kinds.specs.NoteValue as note;
ghost use Rattle.hub_notes.specs.Quiet.{CountsBy};
ghost use Rattle.hub_notes.specs.Calls.{Appends};
ghost use Rattle.hub_table.specs.Parting.{parting_value};
ghost use Rattle.hub_core.specs.At.{at};
ghost use Rattle.hub_notes.specs.Table.{IsTable, TakesDue, table_of};
ghost use Rattle.hub_notes.specs.Answers.{Arrives};

use hub_notes::Arrival;
use hub_table::{Connections, Parting};
use hub_tellings::Tellings;
use link_trait::{Net, Outside};
use std::alloc::{AllocError, Global};
use std::marker::Model;
use topic_tree::Topics;
use ws_kinds::{Config, Conn, Note, Phase, Watch};

/// All connections of a server.
///
/// A connection is an entry from the call that accepts it on, until it is gone and its Closed event, if it has one, was
/// handed out by `next_closed`.
#[derive(Drop)]
pub struct Hub {
    pub(crate) table: Connections,
    pub(crate) topics: Topics,
    pub(crate) tellings: Tellings,
}

impl Model for Hub {
    ghost use Rattle.hub_lines.specs.State.{HubState};
    ghost use Rattle.hub_core.specs.State.{hub_of, IsHub};

    ghost Value = { HubState };

    ghost view = { λ hub. hub_of hub.table hub.topics hub.tellings };

    ghost invariant = { λ hub. IsHub hub.table hub.topics hub.tellings };
}

impl Hub {
    /// A hub without connections. An error says that there was too little memory.
    pub fn new(alloc: Global, config: Config) -> Result<Hub, AllocError>
        ensures config { IfOk result (λ hub. hub.config ≡ config) }
        ensures named { IfOk result (λ hub. hub.named ≡ 0) }
        ensures entries { IfOk result (λ hub. hub.entries ≡ []) }
        ensures pairs { IfOk result (λ hub. hub.pairs ≡ []) }
        ensures partings { IfOk result (λ hub. hub.partings ≡ []) }
        ensures tellings { IfOk result (λ hub. hub.tellings ≡ []) }
        ensures settled { IfOk result (λ hub. Settled hub) }
        ensures table { IfOk result (λ hub. IsTable (table_of hub)) }
    {
        Ok(Hub {
            table: Connections::new(alloc, config)?,
            topics: Topics::new(alloc),
            tellings: Tellings::with_room(alloc, config.max_conns() as usize)?,
        })
    }

    /// Takes in a connection that came, whose number is greater than every number accepted before. It is `Busy` exactly
    /// where the entries are `max_conns`. The answer is noted: as Accepted, Busy or NoRoom. An accepted connection is in
    /// phase Head. Where it is not `Taken`, the hub is as it was, and the caller shuts the link.
    pub fn accept<N: Net, W: Watch>(&mut self, out: &mut Outside<N, W>, conn: Conn) -> Arrival
        requires new { self.old.named < conn.0 }
        requires live { (N.state out.old.net).live conn.0 ≡ true }
        requires ties { Ties (at N.Net W.Watch self.old out.old) }
        ensures ties { Ties (at N.Net W.Watch self.new out.new) }
        ensures answer { Arrives result conn.0 (at N.Net W.Watch self.old out.old) (at N.Net W.Watch self.new out.new) }
        ensures counts { result ≡ Arrival.Taken → CountsBy (note.accepted conn.0) self.old self.new }
        ensures appends { Appends nothing (at N.Net W.Watch self.old out.old) (at N.Net W.Watch self.new out.new) }
        ensures table { IsTable (table_of self.new) }
    {
        if self.table.is_full() {
            out.watch.note(&Note::Busy(conn));
            return Arrival::Busy;
        }
        if self.table.accept(conn).is_err() {
            out.watch.note(&Note::NoRoom(conn));
            return Arrival::Memory;
        }
        out.watch.note(&Note::Accepted(conn));
        Arrival::Taken
    }

    /// The Closed event of the least connection for which one is due, handed out once. None exactly where none is due, and
    /// then nothing changes. A connection that is gone is no entry after that.
    pub fn next_closed(&mut self) -> Option<Parting>
        ensures due { TakesDue (option_map parting_value result) (table_of self.old) (table_of self.new) }
        ensures appends { (net : NetState) (told : Option (List NoteValue)) → Appends nothing (server self.old net told) (server self.new net told) }
        ensures ties { (net : NetState) (told : Option (List NoteValue)) → Ties (server self.old net told) → Ties (server self.new net told) }
        ensures none { IfNone result (self.new ≡ self.old) }
        ensures some { IfSome result (λ parting. (self.new.config ≡ self.old.config) × (self.new.named ≡ self.old.named)) }
        ensures pairs { self.new.pairs ≡ self.old.pairs }
        ensures tellings { self.new.tellings ≡ self.old.tellings }
        ensures table { IsTable (table_of self.new) }
    {
        self.table.next_closed()
    }

    /// The phase of a connection. None exactly where it is no entry.
    pub fn phase(&self, conn: Conn) -> Option<Phase>
        ensures { result ≡ phase_at self.now conn.0 }
    {
        self.table.phase(conn)
    }

    /// How many octets are held for a connection: in its ring, in the cork and in pending frames. It is 0 for one that is no
    /// entry.
    pub fn held(&self, conn: Conn) -> u64
        ensures { result ≡ length (held_octets (held_at self.now conn.0)) }
    {
        self.table.held(conn)
    }

    /// How many items were put for a connection, those that were dropped among them and the pending frames not. It is 0 for one that
    /// is no entry. The count stands still at 2^64 - 1.
    pub fn numbered(&self, conn: Conn) -> u64
        ensures { result ≡ numbered_at self.now conn.0 }
    {
        self.table.numbered(conn)
    }

    /// How many entries there are.
    pub fn count(&self) -> usize
        ensures value { result ≡ length self.now.entries }
        ensures table { IsTable (table_of self.now) }
    {
        self.table.count()
    }

    /// Whether there are as many entries as there may be.
    pub fn full(&self) -> bool
        ensures { result ≡ nat_eq (length self.now.entries) self.now.config.max_conns }
    {
        self.table.is_full()
    }
}
