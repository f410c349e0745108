//! Rows of what is to be told, one a connection.

ghost use Rattle.std.specs.Prelude.{◌≡◌, ◌<◌, ◌≤◌, [], true, false, length, vec_len, vec_capacity, IfOk, IfErr};
ghost use Rattle.std.specs.List.{insert, slice_get};
ghost use Rattle.std.specs.Option.{option_map};
ghost use Rattle.run_meaning.specs.Tell.{nothing_told, marked, one_dropped, at_turn};
ghost use Rattle.hub_notes.specs.Tells.{tell_of};
ghost use Rattle.hub_tellings.specs.Tellings.{has_row, AreRisingRows, ChangesRow, IsNextRow, IsRowAt, IsGapFor};

use crate::row::Row;
use std::alloc::{AllocError, Global};
use std::marker::Model;
use ws_kinds::Conn;

/// What the handler is to be told of each connection, in rising order of their numbers. It takes memory only when it is made, for
/// as many connections as it will ever have.
#[derive(Drop)]
pub struct Tellings {
    rows: Vec<Row>,
}

impl Model for Tellings {
    ghost use Rattle.std.specs.Prelude.{vec_capacity};
    ghost use Rattle.hub_tellings.specs.Tellings.{TellingsState, AreRisingRows};

    ghost Value = { TellingsState };

    ghost view = { λ tellings. record { rows = tellings.rows.items; room = vec_capacity tellings.rows } };

    ghost invariant = { λ tellings. AreRisingRows tellings.rows.items };
}

impl Tellings {
    /// Rows of no connection, with room for so many. An error says that there was too little memory.
    pub fn with_room(alloc: Global, room: usize) -> Result<Tellings, AllocError>
        ensures { IfOk result (λ tellings. tellings ≡ record { rows = []; room = room }) }
    {
        Ok(Tellings {
            rows: Vec::with_capacity(alloc, room)?,
        })
    }

    /// How many connections have a row.
    pub fn count(&self) -> usize
        ensures { result ≡ length self.now.rows }
    {
        self.rows.len()
    }

    /// The connection has a row from now on. Where it had none, there is nothing to tell of it.
    pub fn hold(&mut self, conn: Conn)
        requires { has_row self.old.rows conn.0 ≡ false → length self.old.rows < self.old.room }
        ensures row { ChangesRow conn.0 (tell_of self.old.rows conn.0) self.old self.new }
        ensures has { has_row self.new.rows conn.0 ≡ true }
    {
        if let Err(place) = search(&self.rows, conn) {
            insert_at(&mut self.rows, place, Row::new(conn));
        }
    }

    /// An item of the connection was dropped.
    pub fn drop_one(&mut self, conn: Conn)
        requires { has_row self.old.rows conn.0 ≡ false → length self.old.rows < self.old.room }
        ensures row { ChangesRow conn.0 (one_dropped (tell_of self.old.rows conn.0)) self.old self.new }
        ensures has { has_row self.new.rows conn.0 ≡ true }
    {
        match search(&self.rows, conn) {
            Ok(place) => self.rows[place].drop_one(),
            Err(place) => {
                let mut row = Row::new(conn);
                row.drop_one();
                insert_at(&mut self.rows, place, row);
            }
        }
    }

    /// Nothing is to be told of the connection any more.
    pub fn forget(&mut self, conn: Conn)
        ensures row { ChangesRow conn.0 nothing_told self.old self.new }
        ensures has { has_row self.new.rows conn.0 ≡ false }
    {
        if let Ok(place) = search(&self.rows, conn) {
            self.rows.remove(place);
        }
    }

    /// The handler is told of the connection.
    pub fn mark(&mut self, conn: Conn)
        ensures row { ChangesRow conn.0 (marked (tell_of self.old.rows conn.0)) self.old self.new }
        ensures has { has_row self.new.rows conn.0 ≡ has_row self.old.rows conn.0 }
    {
        if let Ok(place) = search(&self.rows, conn) {
            self.rows[place].mark();
        }
    }

    /// A turn ends, while so many octets are held for a connection that has a row. Its row goes where nothing is held and nothing
    /// stands to be told.
    pub fn settle(&mut self, conn: Conn, held: u64)
        requires { has_row self.old.rows conn.0 ≡ true }
        ensures row { ChangesRow conn.0 (at_turn held (tell_of self.old.rows conn.0)) self.old self.new }
        ensures has { 0 < held → has_row self.new.rows conn.0 ≡ true }
        ensures none { has_row self.new.rows conn.0 ≡ true → has_row self.old.rows conn.0 ≡ true }
    {
        let Ok(place) = search(&self.rows, conn) else {
            unreachable!()
        };
        self.rows[place].turn(held);
        if self.rows[place].is_idle() {
            self.rows.remove(place);
        }
    }

    /// The least connection above `after` that has a row. None where there is none.
    pub fn next(&self, after: Conn) -> Option<Conn>
        ensures { IsNextRow self.now.rows after.0 (option_map (λ conn. conn.0) result) }
    {
        match search(&self.rows, after) {
            Ok(place) => conn_at(&self.rows, place + 1),
            Err(place) => conn_at(&self.rows, place),
        }
    }

    /// How many items of the connection were dropped since it was opened, or since the handler was told last. The count stands still
    /// at `u64::MAX`.
    pub fn dropped(&self, conn: Conn) -> u64
        ensures { result ≡ (tell_of self.now.rows conn.0).dropped }
    {
        match search(&self.rows, conn) {
            Ok(place) => self.rows[place].dropped(),
            Err(_) => 0,
        }
    }

    /// Whether the connection was drained as the last turn ended: it held nothing, and held octets before, or an item was dropped.
    pub fn drained(&self, conn: Conn) -> bool
        ensures { result ≡ (tell_of self.now.rows conn.0).drained }
    {
        match search(&self.rows, conn) {
            Ok(place) => self.rows[place].drained(),
            Err(_) => false,
        }
    }

    /// Says that the numbers of the rows rise.
    pub fn rising(&self)
        ensures { AreRisingRows self.now.rows }
    {
        let _ = &self.rows;
    }
}

/// The place of the connection's row. Where it has none, as an error, the place where one would stand.
fn search(rows: &[Row], conn: Conn) -> Result<usize, usize>
    requires { AreRisingRows rows.now }
    ensures found { IfOk result (IsRowAt rows.now conn.0) }
    ensures missed { IfErr result (IsGapFor rows.now conn.0) }
{
    rows.binary_search_by_key(&conn.0, |row| row.conn().0)
}

/// The row stands at this place from now on. There is memory for it.
fn insert_at(rows: &mut Vec<Row>, place: usize, row: Row)
    requires place { place ≤ vec_len rows.old }
    requires room { vec_len rows.old < vec_capacity rows.old }
    ensures items { rows.new.items ≡ insert rows.old.items place row }
    ensures room { vec_capacity rows.new ≡ vec_capacity rows.old }
{
    if rows.insert(place, row).is_err() {
        unreachable!()
    }
}

/// The connection whose row stands at this place, counted from 0. None where there is none.
fn conn_at(rows: &[Row], place: usize) -> Option<Conn>
    ensures { option_map (λ conn. conn.0) result ≡ option_map (λ row. row.conn) (slice_get rows.now place) }
{
    match rows.get(place) {
        Some(row) => Some(row.conn()),
        None => None,
    }
}
