//! What is to be told of a hub's connections, as items are put and turns end.

ghost use Rattle.std.specs.Prelude.{◌≡◌, ◌≢◌, ◌<◌, ℕ, [], true, false, length};
ghost use Rattle.hub_lines.specs.State.{entry_of};
ghost use Rattle.hub_notes.specs.Tells.{tell_of};
ghost use Rattle.hub_tellings.specs.Tellings.{AreRisingRows, ChangesRow, has_row};
ghost use Rattle.hub_core.specs.Changes.{tell_after};
ghost use Rattle.hub_core.specs.Rows.{Settles, SettlesRows};

use crate::Hub;
use hub_table::Connections;
use hub_tellings::Tellings;
use socket_core::Kept;
use ws_kinds::Conn;

impl Hub {
    /// A turn ends for each connection, by what is held for it.
    pub(crate) fn settle(&mut self)
        ensures { Settles self.old self.new }
    {
        settle_rows(&self.table, &mut self.tellings);
    }
}

/// An item of a connection was put, or what is held for it was offered: a drop is counted, and unless nothing is held, the
/// connection has a row.
pub(crate) fn keep_row(tellings: &mut Tellings, conn: Conn, kept: Kept)
    requires { has_row tellings.old.rows conn.0 ≡ false → length tellings.old.rows < tellings.old.room }
    ensures row { ChangesRow conn.0 (tell_after kept (tell_of tellings.old.rows conn.0)) tellings.old tellings.new }
    ensures has { kept ≢ Kept.Clear → has_row tellings.new.rows conn.0 ≡ true }
    ensures none { kept ≡ Kept.Clear → tellings.new ≡ tellings.old }
{
    match kept {
        Kept::Clear => tellings.rising(),
        Kept::Dropped(_) => tellings.drop_one(conn),
        Kept::Backlog(_) => tellings.hold(conn),
        Kept::Failed => tellings.hold(conn),
    }
}

/// A turn ends for each connection that has a row, by what is held for it.
fn settle_rows(table: &Connections, tellings: &mut Tellings)
    requires held { (conn : ℕ) → (entry_of table.now.entries conn).ring ≢ [] → has_row tellings.old.rows conn ≡ true }
    requires first { has_row tellings.old.rows 0 ≡ false }
    ensures { SettlesRows table.now.entries tellings.old tellings.new }
{
    tellings.rising();
    let mut after = Conn(0);
    'walk: while let Some(conn) = tellings.next(after) {
        tellings.settle(conn, table.held(conn));
        after = conn;
    }
}
