//! What a hub puts for one connection, and how a connection comes to be gone.

ghost use Rattle.std.specs.Prelude.{◌≡◌, ◌≢◌, ◌+◌, ◌≤◌, [], true, length};
ghost use Rattle.ws_kinds.specs.declared.note.Phase.TheVariants.{Head};
ghost use Rattle.wire_meaning.specs.Answer.{close_item};
ghost use Rattle.hub_lines.specs.State.{entry_at, is_present, most_held_in, phase_at, ring_at};
ghost use Rattle.hub_lines.specs.Calls.{Ties, only};
ghost use Rattle.hub_notes.specs.Answers.{has_frames};
ghost use Rattle.hub_core.specs.At.{at};
ghost use Rattle.hub_core.specs.Changes.{PutsItem, Ends, Goes};
ghost use Rattle.hub_core.specs.Sends.{Sends};
ghost use Rattle.hub_core.specs.Puts.{MayPut, Puts};

use crate::Hub;
use crate::rows::keep_row;
use link_trait::{Net, Outside};
use socket_core::{Item, Kept};
use wire_meaning::{Opcode, close_body, opcode_number};
use ws_kinds::{Conn, Left, Note, Phase, Watch};

impl Hub {
    /// Puts an item for a connection that is not gone. Where its link fails, it is gone.
    pub(crate) fn put<N: Net, W: Watch>(
        &mut self,
        out: &mut Outside<N, W>,
        conn: Conn,
        item: Item<'_>,
    ) -> Kept
        requires { MayPut conn.0 item (at N.Net W.Watch self.old out.old) }
        ensures { Puts conn.0 item.entry result (at N.Net W.Watch self.old out.old) (at N.Net W.Watch self.new out.new) }
    {
        let kept = self.put_item(out, conn, item);
        if kept == Kept::Failed {
            self.leave(out, conn, Left::LinkFailed);
            return Kept::Failed;
        }
        kept
    }

    /// Puts an item for a connection that is not gone. Where its link fails, it stays in its phase.
    fn put_item<N: Net, W: Watch>(
        &mut self,
        out: &mut Outside<N, W>,
        conn: Conn,
        item: Item<'_>,
    ) -> Kept
        requires { MayPut conn.0 item (at N.Net W.Watch self.old out.old) }
        ensures { PutsItem conn.0 item.entry result (at N.Net W.Watch self.old out.old) (at N.Net W.Watch self.new out.new) }
    {
        let kept = self.table.put_frame(out, conn, item);
        keep_row(&mut self.tellings, conn, kept);
        kept
    }

    /// Puts a close frame with this code, which may be sent, or an empty one for 1005 (RFC 6455, section 5.5.1). It fits behind what
    /// is held.
    pub(crate) fn put_close<N: Net, W: Watch>(
        &mut self,
        out: &mut Outside<N, W>,
        conn: Conn,
        code: u16,
    )
        requires present { is_present self.old conn.0 ≡ true }
        requires past_head { (entry_at self.old conn.0).phase ≢ Head }
        requires room { length (ring_at self.old conn.0) + 135 ≤ most_held_in self.old.config (entry_at self.old conn.0).phase }
        requires ties { Ties (at N.Net W.Watch self.old out.old) }
        ensures { Sends conn.0 [] (only conn.0 (close_item code)) (at N.Net W.Watch self.old out.old) (at N.Net W.Watch self.new out.new) }
    {
        let body = close_body(code);
        self.put(out, conn, Item::Frame(opcode_number(Opcode::Close), &body));
    }

    /// A connection in phase Open or Leaving is ending. From Open, its Closed event is due, with this code and this reason of
    /// at most 123 octets. The answer says whether it was open.
    pub(crate) fn end(&mut self, conn: Conn, code: u16, reason: &[u8]) -> bool
        requires phase { has_frames (phase_at self.old conn.0) ≡ true }
        requires short { length reason.now ≤ 123 }
        ensures { Ends conn.0 code reason.now result self.old self.new }
    {
        if self.table.phase(conn) == Some(Phase::Open) {
            self.table.close(conn, Phase::Ending, code, reason);
            self.topics.drop_conn(conn);
            return true;
        }
        self.table.enter(conn, Phase::Ending);
        false
    }

    /// A connection is gone: what is held for it is discarded, its link is shut, and this is noted. From Open, its Closed
    /// event is due, with 1006 and no reason.
    pub(crate) fn leave<N: Net, W: Watch>(
        &mut self,
        out: &mut Outside<N, W>,
        conn: Conn,
        left: Left,
    )
        requires present { is_present self.old conn.0 ≡ true }
        requires live { (N.state out.old.net).live conn.0 ≡ true }
        ensures { Goes conn.0 left (at N.Net W.Watch self.old out.old) (at N.Net W.Watch self.new out.new) }
    {
        out.net.shut(conn);
        out.watch.note(&Note::Gone { conn, left });
        self.table.leave(conn);
        self.topics.drop_conn(conn);
        self.tellings.forget(conn);
    }
}
