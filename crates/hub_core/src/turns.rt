//! The end of a turn.

ghost use Rattle.std.specs.Prelude.{◌≡◌};
ghost use Rattle.ws_kinds.specs.declared.note.Phase.TheVariants.{Ending};
ghost use Rattle.hub_lines.specs.State.{server, entry_at};
ghost use Rattle.hub_lines.specs.Calls.{Ties, SameLinesElsewhere, Settled, nothing};
ghost use Rattle.hub_notes.specs.Calls.{Appends};
ghost use Rattle.hub_core.specs.At.{at};
ghost use Rattle.hub_notes.specs.Table.{IsTable, table_of};
ghost use Rattle.hub_notes.specs.Turns.{EndsTurn, FinishesIfEmpty};

use crate::Hub;
use link_trait::{Net, Outside};
use ws_kinds::{Conn, Left, Note, Watch};

impl Hub {
    /// Ends a turn: each connection in phase Ending for which nothing is held is gone, as finished, in the order of their
    /// numbers. Then the turn is noted. Nothing is pending after it, and the cork is empty.
    pub fn end_turn<N: Net, W: Watch>(&mut self, out: &mut Outside<N, W>)
        requires ties { Ties (at N.Net W.Watch self.old out.old) }
        ensures ties { Ties (at N.Net W.Watch self.new out.new) }
        ensures settled { Settled self.new }
        ensures ends { EndsTurn (at N.Net W.Watch self.old out.old) (at N.Net W.Watch self.new out.new) }
        ensures appends { Appends nothing (at N.Net W.Watch self.old out.old) (at N.Net W.Watch self.new out.new) }
        ensures named { self.new.named ≡ self.old.named }
        ensures table { IsTable (table_of self.new) }
    {
        let _ = &self.table;
        let mut after = Conn(0);
        'walk: while let Some(conn) = self.table.next_ending(after) {
            self.finish(out, conn);
            after = conn;
        }
        self.settle();
        out.watch.note(&Note::Turn);
    }

    /// A connection in phase Ending is gone, as finished, where nothing is held for it.
    pub(crate) fn finish<N: Net, W: Watch>(&mut self, out: &mut Outside<N, W>, conn: Conn)
        requires ending { (entry_at self.old conn.0).phase ≡ Ending }
        requires ties { Ties (at N.Net W.Watch self.old out.old) }
        ensures ties { Ties (at N.Net W.Watch self.new out.new) }
        ensures finishes { FinishesIfEmpty conn.0 (at N.Net W.Watch self.old out.old) (at N.Net W.Watch self.new out.new) }
        ensures elsewhere { SameLinesElsewhere conn.0 (at N.Net W.Watch self.old out.old) (at N.Net W.Watch self.new out.new) }
        ensures named { self.new.named ≡ self.old.named }
        ensures table { IsTable (table_of self.new) }
    {
        if self.table.held(conn) == 0 {
            self.leave(out, conn, Left::Finished);
        }
    }
}
