//! The connections of a hub, found by their numbers.

ghost use Rattle.std.specs.Prelude.{◌≡◌, ◌≢◌, ◌<◌, ◌++◌, ◌+◌, ◌≤◌, ◌&&◌, nat_lt, [], ◌∷◌, ℕ, true, false, length, IfOk, is_ok, option_copied, is_some, Some, None, if◌then◌else◌};
ghost use Rattle.std.specs.Option.{option_map};
ghost use Rattle.std.specs.Ordering.{nat_cmp};
ghost use Rattle.std.specs.BTreeMap.{get};
ghost use Rattle.idle_close.specs.QuietValue.{is_ping, is_gone as is_end};
ghost use Rattle.run_meaning.specs.Timely.{is_ping_due, is_end_due};
ghost use Rattle.hub_lines.specs.State.{has_entry, is_gone, most_held};
ghost use Rattle.hub_notes.specs.Table.{IsNextEntry};
ghost use Rattle.socket_core.specs.Timed.{counts_of, heard_socket, ticked_socket};
ghost use Rattle.socket_core.specs.Items.{IsPuttable, octets_of, can_drop};
ghost use Rattle.socket_core.specs.Puts.{CountsRinged, OffersOnce, PassesOctets, is_drop};
ghost use Rattle.socket_core.specs.Phases.{can_enter};
ghost use Rattle.hub_table.specs.ConnectionMap.{IsNextKey};
ghost use Rattle.hub_table.specs.NumberSet.{first_of, first_above};
ghost use Rattle.hub_table.specs.Connection.{connection_of, connection_in, entries_of, replaced, without, entered, parted, told, with_socket, is_due, ends, is_ending, numbers_where};

use crate::changes;
use crate::connection::Connection;
use crate::number_set::NumberSet;
use crate::parting::Parting;
use idle_close::Due;
use link_trait::{Net, Outside};
use slab::Slab;
use socket_core::{Item, Kept, Socket};
use std::alloc::{AllocError, Global};
use std::collections::BTreeMap;
use std::marker::Model;
use std::ops::Bound;
use ws_kinds::{Conn, Phase, Watch};

/// The connections, each under a key of the slab, which the map finds by the connection's number. The numbers of those whose
/// Closed event is due, and of those in phase Ending, stand apart, so that nobody walks over all connections.
///
/// Memory is taken by `with_room`, for all but the map, and by `add`, for the map.
#[derive(Drop)]
pub struct ConnectionMap {
    connections: Slab<Connection>,
    keys: BTreeMap<u64, usize>,
    due: NumberSet,
    ending: NumberSet,
}

impl Model for ConnectionMap {
    ghost use Rattle.hub_table.specs.ConnectionMap.{ConnectionMapState, listed, IsIndexed};

    ghost Value = { ConnectionMapState };

    ghost view = { λ map. record { all = listed map.connections map.keys.entries; room = map.due.room } };

    ghost invariant = { λ map. IsIndexed map.connections map.keys.entries map.due map.ending };
}

impl ConnectionMap {
    /// An empty map, with room for so many connections. An error says that there was too little memory.
    pub fn with_room(alloc: Global, room: usize) -> Result<ConnectionMap, AllocError>
        ensures { IfOk result (λ map. map ≡ record { all = []; room = room }) }
    {
        Ok(ConnectionMap {
            connections: Slab::with_capacity(alloc, room)?,
            keys: BTreeMap::new(alloc),
            due: NumberSet::with_room(alloc, room)?,
            ending: NumberSet::with_room(alloc, room)?,
        })
    }

    /// How many connections there are.
    pub fn count(&self) -> usize
        ensures { result ≡ length self.now.all }
    {
        self.keys.len()
    }

    /// A connection. None exactly where there is none of this number.
    pub fn get(&self, conn: Conn) -> Option<&Connection>
        ensures { option_copied result ≡ connection_in self.now.all conn.0 }
    {
        match self.keys.get(&conn.0) {
            Some(key) => self.connections.get(*key),
            None => None,
        }
    }

    /// A connection that is in the map.
    pub fn at(&self, conn: Conn) -> &Connection
        requires { has_entry (entries_of self.now.all) conn.0 ≡ true }
        ensures { result.now ≡ connection_of self.now.all conn.0 }
    {
        match self.get(conn) {
            Some(connection) => connection,
            None => unreachable!(),
        }
    }

    /// A connection more, whose number is greater than all others. It is not in phase Ending. An error says that there was too
    /// little memory, and leaves all as it was.
    pub fn add(&mut self, socket: Socket) -> Result<(), AllocError>
        requires above { (conn : ℕ) → has_entry (entries_of self.old.all) conn ≡ true → conn < socket.conn }
        requires room { length self.old.all < self.old.room }
        requires fresh { is_ending socket.phase ≡ false }
        ensures all { self.new.all ≡ (if is_ok result then self.old.all ++ (record { socket = socket; closed = None }) ∷ [] else self.old.all) }
        ensures room { self.new.room ≡ self.old.room }
    {
        let key = self.connections.vacant_key();
        match self.keys.insert(socket.conn().0, key) {
            Ok(_) => {
                self.connections.insert_reserved(Connection {
                    socket,
                    closed: None,
                });
                Ok(())
            }
            Err(_) => Err(AllocError),
        }
    }

    /// A connection goes on to a phase.
    pub fn enter(&mut self, conn: Conn, phase: Phase)
        requires there { has_entry (entries_of self.old.all) conn.0 ≡ true }
        requires step { can_enter (connection_of self.old.all conn.0).socket.phase phase ≡ true }
        ensures all { self.new.all ≡ replaced self.old.all conn.0 (entered (connection_of self.old.all conn.0) phase) }
        ensures room { self.new.room ≡ self.old.room }
    {
        let key = key_of(&self.keys, conn);
        changes::enter(&mut self.connections, key, phase);
        self.ending.mark(conn.0, changes::is_ending(phase));
    }

    /// Octets of a connection that is not gone were read.
    pub fn heard(&mut self, conn: Conn)
        requires there { has_entry (entries_of self.old.all) conn.0 ≡ true }
        requires present { is_gone (connection_of self.old.all conn.0).socket.phase ≡ false }
        ensures all { self.new.all ≡ replaced self.old.all conn.0 (with_socket (connection_of self.old.all conn.0) (heard_socket (connection_of self.old.all conn.0).socket)) }
        ensures room { self.new.room ≡ self.old.room }
    {
        let key = key_of(&self.keys, conn);
        changes::heard(&mut self.connections, key);
    }

    /// Counts one more tick of a connection that is not gone, and says what it makes due.
    pub fn tick(&mut self, conn: Conn) -> Due
        requires there { has_entry (entries_of self.old.all) conn.0 ≡ true }
        requires present { is_gone (connection_of self.old.all conn.0).socket.phase ≡ false }
        ensures ping { is_ping result ≡
            is_ping_due (connection_of self.old.all conn.0).socket.config (Some (connection_of self.old.all conn.0).socket.phase) (counts_of (connection_of self.old.all conn.0).socket) }
        ensures end { is_end result ≡
            is_end_due (connection_of self.old.all conn.0).socket.config (Some (connection_of self.old.all conn.0).socket.phase) (counts_of (connection_of self.old.all conn.0).socket) }
        ensures all { self.new.all ≡ replaced self.old.all conn.0 (with_socket (connection_of self.old.all conn.0) (ticked_socket (connection_of self.old.all conn.0).socket)) }
        ensures room { self.new.room ≡ self.old.room }
    {
        let key = key_of(&self.keys, conn);
        changes::tick(&mut self.connections, key)
    }

    /// A connection goes on to a phase, and this Closed event is due for it.
    pub fn part(&mut self, conn: Conn, phase: Phase, parting: Parting)
        requires there { has_entry (entries_of self.old.all) conn.0 ≡ true }
        requires step { can_enter (connection_of self.old.all conn.0).socket.phase phase ≡ true }
        ensures all { self.new.all ≡ replaced self.old.all conn.0 (parted (connection_of self.old.all conn.0) phase parting) }
        ensures room { self.new.room ≡ self.old.room }
    {
        let key = key_of(&self.keys, conn);
        changes::part(&mut self.connections, key, phase, parting);
        self.due.mark(conn.0, true);
        self.ending.mark(conn.0, changes::is_ending(phase));
    }

    /// The Closed event of a connection, if one is due. It is due no more.
    pub fn take(&mut self, conn: Conn) -> Option<Parting>
        requires { has_entry (entries_of self.old.all) conn.0 ≡ true }
        ensures value { result ≡ (connection_of self.old.all conn.0).closed }
        ensures all { self.new.all ≡ replaced self.old.all conn.0 (told (connection_of self.old.all conn.0)) }
        ensures room { self.new.room ≡ self.old.room }
    {
        let key = key_of(&self.keys, conn);
        let parting = changes::take(&mut self.connections, key);
        self.due.mark(conn.0, false);
        parting
    }

    /// Forgets a connection. The answer is its Closed event, if one was due.
    pub fn forget(&mut self, conn: Conn) -> Option<Parting>
        requires { has_entry (entries_of self.old.all) conn.0 ≡ true }
        ensures value { result ≡ (connection_of self.old.all conn.0).closed }
        ensures all { self.new.all ≡ without self.old.all conn.0 }
        ensures room { self.new.room ≡ self.old.room }
    {
        let key = key_of(&self.keys, conn);
        self.keys.remove(&conn.0);
        self.due.mark(conn.0, false);
        self.ending.mark(conn.0, false);
        self.connections.remove(key).closed
    }

    /// Puts an item for a connection, as its socket does.
    pub fn put<N: Net, W: Watch>(
        &mut self,
        out: &mut Outside<N, W>,
        conn: Conn,
        item: Item<'_>,
    ) -> Kept
        requires there { has_entry (entries_of self.old.all) conn.0 ≡ true }
        requires live { (N.state out.old.net).live (connection_of self.old.all conn.0).socket.conn ≡ true }
        requires item { IsPuttable (connection_of self.old.all conn.0).socket.config (connection_of self.old.all conn.0).socket.numbered item }
        requires room { can_drop item ≡ false → length (connection_of self.old.all conn.0).socket.ring + length (octets_of item) ≤ most_held (connection_of self.old.all conn.0).socket.config }
        ensures passes { PassesOctets conn.0 (connection_of self.old.all conn.0).socket.config.limit (can_drop item.entry) (octets_of item.entry ∷ [])
            result (connection_of self.old.all conn.0).socket (connection_of self.new.all conn.0).socket
            (N.state out.old.net) (N.state out.new.net) (W.told out.old.watch) (W.told out.new.watch) }
        ensures once { (connection_of self.old.all conn.0).socket.ring ≡ [] → OffersOnce result conn.0 (octets_of item.entry) (connection_of self.new.all conn.0).socket.ring
            (N.state out.old.net) (N.state out.new.net) (W.told out.old.watch) (W.told out.new.watch) }
        ensures tally { CountsRinged (connection_of self.old.all conn.0).socket.ring (connection_of self.new.all conn.0).socket.ring out.old.tally out.new.tally }
        ensures dropped { is_drop result ≡
            (can_drop item.entry && nat_lt (connection_of self.old.all conn.0).socket.config.limit (length (connection_of self.old.all conn.0).socket.ring)) }
        ensures all { self.new.all ≡ replaced self.old.all conn.0 (with_socket (connection_of self.old.all conn.0) (connection_of self.new.all conn.0).socket) }
        ensures room { self.new.room ≡ self.old.room }
    {
        let key = key_of(&self.keys, conn);
        changes::put(&mut self.connections, out, key, item)
    }

    /// Offers what is held back for a connection, as its socket does.
    pub fn writable<N: Net, W: Watch>(&mut self, out: &mut Outside<N, W>, conn: Conn) -> Kept
        requires there { has_entry (entries_of self.old.all) conn.0 ≡ true }
        requires live { (N.state out.old.net).live (connection_of self.old.all conn.0).socket.conn ≡ true }
        ensures passes { PassesOctets conn.0 (connection_of self.old.all conn.0).socket.config.limit false []
            result (connection_of self.old.all conn.0).socket (connection_of self.new.all conn.0).socket
            (N.state out.old.net) (N.state out.new.net) (W.told out.old.watch) (W.told out.new.watch) }
        ensures waits { result ≢ Kept.Failed → (connection_of self.new.all conn.0).socket.ring ≢ [] → (N.state out.new.net).writable conn.0 ≡ false }
        ensures all { self.new.all ≡ replaced self.old.all conn.0 (with_socket (connection_of self.old.all conn.0) (connection_of self.new.all conn.0).socket) }
        ensures room { self.new.room ≡ self.old.room }
    {
        let key = key_of(&self.keys, conn);
        changes::writable(&mut self.connections, out, key)
    }

    /// The least connection for which a Closed event is due.
    pub fn first_due(&self) -> Option<Conn>
        ensures { option_map (λ conn. conn.0) result ≡ first_of (numbers_where is_due self.now.all) }
    {
        match self.due.first() {
            Some(number) => Some(Conn(number)),
            None => None,
        }
    }

    /// The least connection above `after`.
    pub fn next(&self, after: Conn) -> Option<Conn>
        ensures { IsNextEntry (entries_of self.now.all) after.0 (option_map (λ conn. conn.0) result) }
    {
        match next_number(&self.keys, after.0) {
            Some(number) => Some(Conn(number)),
            None => None,
        }
    }

    /// The least connection above `after` that is in phase Ending.
    pub fn next_ending(&self, after: Conn) -> Option<Conn>
        ensures { option_map (λ conn. conn.0) result ≡ first_above (numbers_where ends self.now.all) after.0 }
    {
        match self.ending.next_above(after.0) {
            Some(number) => Some(Conn(number)),
            None => None,
        }
    }
}

/// The key of a connection that is in the map.
fn key_of(keys: &BTreeMap<u64, usize>, conn: Conn) -> usize
    requires { is_some (get nat_cmp keys.now conn.0) ≡ true }
    ensures { get nat_cmp keys.now conn.0 ≡ Some result }
{
    match keys.get(&conn.0) {
        Some(key) => *key,
        None => unreachable!(),
    }
}

/// The least number above this one.
fn next_number(keys: &BTreeMap<u64, usize>, number: u64) -> Option<u64>
    ensures { IsNextKey keys.now.entries number result }
{
    let (next, _) = keys
        .range((Bound::Excluded(number), Bound::Unbounded))
        .next()?;
    Some(*next)
}
