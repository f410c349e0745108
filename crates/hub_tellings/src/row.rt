//! What is to be told of one connection.

ghost use Rattle.std.specs.Prelude.{◌≡◌, ◌||◌, not};
ghost use Rattle.run_meaning.specs.Tell.{nothing_told, has_news, marked, one_dropped, at_turn};
ghost use Rattle.hub_notes.specs.Tells.{tell_in};

use std::marker::Model;
use ws_kinds::Conn;

/// How many items of a connection were dropped since the handler was told last, and whether the connection was drained.
#[derive(Drop)]
pub struct Row {
    conn: Conn,
    // The count stands still at `u64::MAX`.
    dropped: u64,
    drained: bool,
    // It held octets as the last turn ended.
    full: bool,
    // Since the handler was told last, it held octets as a turn ended, or an item was dropped before the last turn ended.
    dirty: bool,
    // An item was dropped since the last turn ended.
    fresh: bool,
}

impl Model for Row {
    ghost use Rattle.hub_lines.specs.State.{TellingValue};

    ghost Value = { TellingValue };

    ghost view = { λ row. record {
      conn = row.conn.0;
      dropped = row.dropped;
      drained = row.drained;
      full = row.full;
      dirty = row.dirty;
      fresh = row.fresh;
    } };
}

impl Row {
    /// A row of a connection of which nothing is to be told.
    pub fn new(conn: Conn) -> Row
        ensures conn { result.conn ≡ conn.0 }
        ensures tell { tell_in result ≡ nothing_told }
    {
        Row {
            conn,
            dropped: 0,
            drained: false,
            full: false,
            dirty: false,
            fresh: false,
        }
    }

    /// The connection.
    pub fn conn(&self) -> Conn
        ensures { result.0 ≡ self.now.conn }
    {
        self.conn
    }

    /// The items that were dropped since the handler was told last.
    pub fn dropped(&self) -> u64
        ensures { result ≡ self.now.dropped }
    {
        self.dropped
    }

    /// Whether the connection was drained as the last turn ended.
    pub fn drained(&self) -> bool
        ensures { result ≡ self.now.drained }
    {
        self.drained
    }

    /// Whether nothing was held for the connection as the last turn ended, and nothing is to be told of it.
    pub fn is_idle(&self) -> bool
        ensures { result ≡ not (self.now.full || has_news (tell_in self.now)) }
    {
        !self.full && self.dropped == 0 && !self.drained
    }

    /// The handler is told.
    pub fn mark(&mut self)
        ensures conn { self.new.conn ≡ self.old.conn }
        ensures tell { tell_in self.new ≡ marked (tell_in self.old) }
    {
        self.dropped = 0;
        self.drained = false;
        self.dirty = self.full;
    }

    /// An item is dropped.
    pub fn drop_one(&mut self)
        ensures conn { self.new.conn ≡ self.old.conn }
        ensures tell { tell_in self.new ≡ one_dropped (tell_in self.old) }
    {
        self.dropped = self.dropped.saturating_add(1);
        self.fresh = true;
    }

    /// A turn ends, while so many octets are held.
    pub fn turn(&mut self, held: u64)
        ensures conn { self.new.conn ≡ self.old.conn }
        ensures tell { tell_in self.new ≡ at_turn held (tell_in self.old) }
    {
        let before = self.dirty | self.fresh;
        self.drained = held == 0 && before;
        self.full = held > 0;
        self.dirty = before | (held > 0);
        self.fresh = false;
    }
}
