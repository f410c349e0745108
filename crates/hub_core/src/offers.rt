//! What is held for one connection of a hub is offered to its link.

ghost use Rattle.std.specs.Prelude.{◌≡◌, ◌≢◌, [], true};
ghost use Rattle.hub_lines.specs.State.{is_present, ring_at};
ghost use Rattle.hub_lines.specs.Calls.{Ties};
ghost use Rattle.hub_notes.specs.Turns.{Offers};
ghost use Rattle.hub_core.specs.At.{at};
ghost use Rattle.hub_core.specs.Changes.{OffersRing};
ghost use Rattle.hub_core.specs.Puts.{OffersHeld};

use crate::Hub;
use crate::rows::keep_row;
use link_trait::{Net, Outside};
use socket_core::Kept;
use ws_kinds::{Conn, Left, Phase, Watch};

impl Hub {
    /// The link of a connection that is not gone takes octets again: what is held for the connection is offered to it. Where a write
    /// fails, the connection is gone. Where it is ending and nothing is held for it any more, it is gone, as finished.
    pub fn writable<N: Net, W: Watch>(&mut self, out: &mut Outside<N, W>, conn: Conn)
        requires present { is_present self.old conn.0 ≡ true }
        requires ties { Ties (at N.Net W.Watch self.old out.old) }
        ensures { Offers conn.0 (at N.Net W.Watch self.old out.old) (at N.Net W.Watch self.new out.new) }
    {
        self.offer(out, conn);
        if self.table.phase(conn) == Some(Phase::Ending) {
            self.finish(out, conn);
        }
    }

    /// Offers what is held for a connection that is not gone. Where its link fails, it is gone.
    fn offer<N: Net, W: Watch>(&mut self, out: &mut Outside<N, W>, conn: Conn)
        requires present { is_present self.old conn.0 ≡ true }
        requires ties { Ties (at N.Net W.Watch self.old out.old) }
        ensures { OffersHeld conn.0 (at N.Net W.Watch self.old out.old) (at N.Net W.Watch self.new out.new) }
    {
        if self.table.held(conn) == 0 {
            return;
        }
        let kept = self.offer_ring(out, conn);
        if kept == Kept::Failed {
            self.leave(out, conn, Left::LinkFailed);
        }
    }

    /// Offers the octets that are held for a connection that is not gone. Where its link fails, it stays in its phase.
    fn offer_ring<N: Net, W: Watch>(&mut self, out: &mut Outside<N, W>, conn: Conn) -> Kept
        requires some { ring_at self.old conn.0 ≢ [] }
        requires present { is_present self.old conn.0 ≡ true }
        requires ties { Ties (at N.Net W.Watch self.old out.old) }
        ensures { OffersRing conn.0 result (at N.Net W.Watch self.old out.old) (at N.Net W.Watch self.new out.new) }
    {
        let kept = self.table.writable(out, conn);
        keep_row(&mut self.tellings, conn, kept);
        kept
    }
}
