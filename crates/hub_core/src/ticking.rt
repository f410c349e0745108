//! Ticks: for how long each connection is quiet, and what is due then.

ghost use Rattle.std.specs.Prelude.{◌≡◌, [], ◌∷◌, true, Some};
ghost use Rattle.ws_kinds.specs.declared.note.Phase.TheVariants.{Open};
ghost use Rattle.ws_kinds.specs.NoteValue as note;
ghost use Rattle.wire_meaning.specs.declared.frame.Opcode.TheVariants.{Ping};
ghost use Rattle.wire_meaning.specs.Answer.{whole};
ghost use Rattle.idle_close.specs.QuietValue.{is_ping, is_gone as is_end};
ghost use Rattle.run_meaning.specs.Quiet.{one_heard};
ghost use Rattle.hub_lines.specs.State.{is_present, phase_at};
ghost use Rattle.hub_lines.specs.Calls.{Ties, only};
ghost use Rattle.hub_notes.specs.Quiet.{counts_at, leaves_at, next_count, ping_due_at, end_due_at};
ghost use Rattle.hub_notes.specs.Table.{IsTable, table_of};
ghost use Rattle.hub_notes.specs.Ticks.{Ticks};
ghost use Rattle.hub_ticks.specs.Ticking.{TicksIfThere};
ghost use Rattle.hub_core.specs.At.{at};
ghost use Rattle.hub_core.specs.Sends.{Sends};
ghost use Rattle.hub_core.specs.Ticking.{Recounts};

use crate::Hub;
use idle_close::Due;
use link_trait::{Net, Outside};
use socket_core::Item;
use wire_meaning::{Opcode, opcode_number};
use ws_kinds::{Conn, Left, Note, Phase, Watch};

impl Hub {
    /// Notes that time went by, and counts one tick of each connection that is not gone, in ascending order, each fully before the
    /// next one. An open connection of which nothing was read for `ping_after` ticks is noted as Pinged, and an empty ping is put
    /// for it (RFC 6455, section 5.5.2). One of which nothing was read for `idle` ticks, or that began to leave `leave` ticks ago,
    /// is gone, as idle. What is read of one that is leaving does not begin its count again.
    pub fn tick<N: Net, W: Watch>(&mut self, out: &mut Outside<N, W>)
        requires ties { Ties (at N.Net W.Watch self.old out.old) }
        ensures ties { Ties (at N.Net W.Watch self.new out.new) }
        ensures ticks { Ticks (at N.Net W.Watch self.old out.old) (at N.Net W.Watch self.new out.new) }
        ensures named { self.new.named ≡ self.old.named }
        ensures table { IsTable (table_of self.new) }
    {
        let _ = &self.table;
        out.watch.note(&Note::Tick);
        let mut after = Conn(0);
        'walk: while let Some(conn) = self.table.next(after) {
            self.tick_one(out, conn);
            after = conn;
        }
    }

    /// Counts one tick of an entry, and does what that makes due. For one that is gone nothing is done.
    fn tick_one<N: Net, W: Watch>(&mut self, out: &mut Outside<N, W>, conn: Conn)
        requires ties { Ties (at N.Net W.Watch self.old out.old) }
        ensures ties { Ties (at N.Net W.Watch self.new out.new) }
        ensures ticks { TicksIfThere conn.0 (at N.Net W.Watch self.old out.old) (at N.Net W.Watch self.new out.new) }
        ensures named { self.new.named ≡ self.old.named }
        ensures table { IsTable (table_of self.new) }
    {
        let _ = &self.table;
        if !self.is_there(conn) {
            return;
        }
        match self.count_tick(conn) {
            Due::Nothing => {}
            Due::Ping => self.ping(out, conn),
            Due::Gone => self.leave(out, conn, Left::Idle),
        }
    }

    /// Notes that an open connection is pinged, and puts an empty ping.
    fn ping<N: Net, W: Watch>(&mut self, out: &mut Outside<N, W>, conn: Conn)
        requires phase { phase_at self.old conn.0 ≡ Some Open }
        requires ties { Ties (at N.Net W.Watch self.old out.old) }
        ensures { Sends conn.0 (note.pinged conn.0 ∷ []) (only conn.0 (whole Ping [])) (at N.Net W.Watch self.old out.old) (at N.Net W.Watch self.new out.new) }
    {
        out.watch.note(&Note::Pinged(conn));
        self.put(out, conn, Item::Frame(opcode_number(Opcode::Ping), &[]));
    }

    /// Counts one more tick of a connection that is not gone, and says what it makes due.
    fn count_tick(&mut self, conn: Conn) -> Due
        requires { is_present self.old conn.0 ≡ true }
        ensures ping { is_ping result ≡ ping_due_at self.old conn.0 }
        ensures end { is_end result ≡ end_due_at self.old conn.0 }
        ensures counts { Recounts conn.0 (next_count (leaves_at self.old conn.0) (counts_at self.old conn.0)) self.old self.new }
    {
        self.table.tick(conn)
    }

    /// Octets of a connection that is not gone were read: its quiet ticks are counted from 0 again, unless it is leaving.
    pub(crate) fn hear(&mut self, conn: Conn)
        requires { is_present self.old conn.0 ≡ true }
        ensures { Recounts conn.0 (one_heard (leaves_at self.old conn.0) (counts_at self.old conn.0)) self.old self.new }
    {
        self.table.heard(conn);
    }

    /// Whether a connection is an entry that is not gone.
    fn is_there(&self, conn: Conn) -> bool
        ensures { result ≡ is_present self.now conn.0 }
    {
        match self.table.phase(conn) {
            None => false,
            Some(Phase::Gone) => false,
            Some(_) => true,
        }
    }
}
