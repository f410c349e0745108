//! What the handler is to be told of a connection's items: how many were dropped, and whether what was held is taken.

ghost use Rattle.std.specs.Prelude.{◌≡◌, List, Option, IfNone, IfSome};
ghost use Rattle.std.specs.Option.{option_map};
ghost use Rattle.ws_kinds.specs.NoteValue.{NoteValue};
ghost use Rattle.link_trait.specs.NetState.{NetState};
ghost use Rattle.hub_lines.specs.State.{server};
ghost use Rattle.hub_lines.specs.Calls.{Ties, nothing};
ghost use Rattle.hub_notes.specs.Calls.{Appends};
ghost use Rattle.hub_notes.specs.NextTold.{NoneToTell, TakesTold, news_at};
ghost use Rattle.hub_notes.specs.Table.{IsTable, table_of};
ghost use Rattle.hub_core.specs.Told.{IsNextNews, MarksTold};

use crate::Hub;
use ws_kinds::Conn;

/// What the handler is to be told of an open connection.
#[derive(Clone, Copy, Debug, PartialEq, Eq)]
pub struct Telling {
    pub conn: Conn,
    /// The items that were dropped since it was opened, or since the handler was told last. The count stands still at `u64::MAX`.
    pub dropped: u64,
    /// As the last turn ended, nothing was held for it; and since the handler was told last, octets were held as a turn ended, or
    /// an item was dropped.
    pub drained: bool,
}

impl Hub {
    /// What there is to tell of the least open connection above `after` of which there is something to tell, and then stands to be
    /// told no more. None exactly where there is no such connection, and then nothing changes.
    pub fn next_told(&mut self, after: Conn) -> Option<Telling>
        ensures some { IfSome result (λ telling. TakesTold after.0 telling.conn.0 telling.dropped telling.drained self.old self.new) }
        ensures none { IfNone result ((self.new ≡ self.old) × NoneToTell after.0 self.old) }
        ensures appends { (net : NetState) (told : Option (List NoteValue)) → Appends nothing (server self.old net told) (server self.new net told) }
        ensures ties { (net : NetState) (told : Option (List NoteValue)) → Ties (server self.old net told) → Ties (server self.new net told) }
        ensures config { self.new.config ≡ self.old.config }
        ensures named { self.new.named ≡ self.old.named }
        ensures pairs { self.new.pairs ≡ self.old.pairs }
        ensures table { IsTable (table_of self.new) }
    {
        let _ = &self.table;
        let conn = self.first_told(after)?;
        Some(self.take_told(conn))
    }

    /// The least open connection above `after` of which there is something to tell.
    fn first_told(&self, after: Conn) -> Option<Conn>
        ensures { IsNextNews self.now after.0 (option_map (λ conn. conn.0) result) }
    {
        let _ = &self.table;
        let mut place = after;
        'walk: while let Some(conn) = self.tellings.next(place) {
            if self.has_news(conn) {
                return Some(conn);
            }
            place = conn;
        }
        None
    }

    /// Whether a connection is open, and there is something to tell of it.
    fn has_news(&self, conn: Conn) -> bool
        ensures { result ≡ news_at self.now conn.0 }
    {
        if !self.is_open(conn) {
            return false;
        }
        self.tellings.dropped(conn) > 0 || self.tellings.drained(conn)
    }

    /// What there is to tell of a connection, which then stands to be told no more.
    fn take_told(&mut self, conn: Conn) -> Telling
        ensures conn { result.conn ≡ conn }
        ensures marks { MarksTold conn.0 result.dropped result.drained self.old self.new }
    {
        let telling = Telling {
            conn,
            dropped: self.tellings.dropped(conn),
            drained: self.tellings.drained(conn),
        };
        self.tellings.mark(conn);
        telling
    }
}
