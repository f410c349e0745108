//! What comes for one connection of a hub.

ghost use Rattle.std.specs.Prelude.{◌≡◌, ◌≤◌, [], ◌∷◌, true, length, Some};
ghost use Rattle.ws_kinds.specs.declared.note.Left.TheVariants.{PeerEnd};
ghost use Rattle.ws_kinds.specs.declared.note.Phase.TheVariants.{Head, Open};
ghost use Rattle.ws_kinds.specs.NoteValue as note;
ghost use Rattle.wire_meaning.specs.declared.frame.Opcode.TheVariants.{Pong};
ghost use Rattle.wire_meaning.specs.Answer.{reply as replied, whole, close_item};
ghost use Rattle.run_meaning.specs.Lines.{is_open};
ghost use Rattle.run_meaning.specs.Settled.{is_reading};
ghost use Rattle.hub_lines.specs.State.{phase_at};
ghost use Rattle.hub_lines.specs.Calls.{Ties, only, served};
ghost use Rattle.wire_meaning.specs.Bounds.{is_failure};
ghost use Rattle.hub_notes.specs.Answers.{has_frames, FitsCloseFrame};
ghost use Rattle.hub_core.specs.At.{at};
ghost use Rattle.hub_core.specs.Sends.{GivesOctets, Notes, LosesLink, Sends};

use crate::Hub;
use link_trait::{Net, Outside};
use socket_core::Item;
use wire_meaning::{Opcode, opcode_number};
use ws_kinds::{Conn, Left, Note, Phase, Watch};

impl Hub {
    /// Notes that so many octets, at least 1, were read of a connection in phase Head, Open or Leaving. Its quiet ticks are counted
    /// from 0 again, unless it is leaving.
    pub fn given<N: Net, W: Watch>(&mut self, out: &mut Outside<N, W>, conn: Conn, count: u64)
        requires phase { is_reading (phase_at self.old conn.0) ≡ true }
        requires some { 1 ≤ count }
        requires ties { Ties (at N.Net W.Watch self.old out.old) }
        ensures { GivesOctets conn.0 count (at N.Net W.Watch self.old out.old) (at N.Net W.Watch self.new out.new) }
    {
        let _ = &self.table;
        self.hear(conn);
        out.watch.note(&Note::Given { conn, count });
    }

    /// The request of a connection in phase Head is admitted, on this route and with this parameter: it is open, and the
    /// reply of 1 to 256 octets is put (RFC 6455, section 4.2.2).
    pub fn admit<N: Net, W: Watch>(
        &mut self,
        out: &mut Outside<N, W>,
        conn: Conn,
        route: u8,
        param: &[u8],
        reply: &[u8],
    )
        requires phase { phase_at self.old conn.0 ≡ Some Head }
        requires reply { (1 ≤ length reply.now) × (length reply.now ≤ 256) }
        requires ties { Ties (at N.Net W.Watch self.old out.old) }
        ensures { Sends conn.0 (note.opened conn.0 route param.now ∷ []) (only conn.0 (replied reply.now)) (at N.Net W.Watch self.old out.old) (at N.Net W.Watch self.new out.new) }
    {
        self.table.enter(conn, Phase::Open);
        out.watch.note(&Note::Opened { conn, route, param });
        self.put(out, conn, Item::Reply(reply));
    }

    /// The request of a connection in phase Head is refused with this status: the reply of 1 to 256 octets is put, and the
    /// connection is ending.
    pub fn refuse<N: Net, W: Watch>(
        &mut self,
        out: &mut Outside<N, W>,
        conn: Conn,
        status: u16,
        reply: &[u8],
    )
        requires phase { phase_at self.old conn.0 ≡ Some Head }
        requires reply { (1 ≤ length reply.now) × (length reply.now ≤ 256) }
        requires ties { Ties (at N.Net W.Watch self.old out.old) }
        ensures { Sends conn.0 (note.head conn.0 status ∷ []) (only conn.0 (replied reply.now)) (at N.Net W.Watch self.old out.old) (at N.Net W.Watch self.new out.new) }
    {
        self.table.enter(conn, Phase::Ending);
        out.watch.note(&Note::Head { conn, status });
        self.put(out, conn, Item::Reply(reply));
    }

    /// A ping of at most 125 octets was read of an open connection: a pong with the same body is put (RFC 6455, section
    /// 5.5.2).
    pub fn ping_got<N: Net, W: Watch>(&mut self, out: &mut Outside<N, W>, conn: Conn, body: &[u8])
        requires phase { phase_at self.old conn.0 ≡ Some Open }
        requires short { length body.now ≤ 125 }
        requires ties { Ties (at N.Net W.Watch self.old out.old) }
        ensures { Sends conn.0 (note.ping_got conn.0 body.now ∷ []) (only conn.0 (whole Pong body.now)) (at N.Net W.Watch self.old out.old) (at N.Net W.Watch self.new out.new) }
    {
        out.watch.note(&Note::PingGot { conn, body });
        self.put(out, conn, Item::Frame(opcode_number(Opcode::Pong), body));
    }

    /// A pong was read of an open connection (RFC 6455, section 5.5.3).
    pub fn pong_got<N: Net, W: Watch>(&mut self, out: &mut Outside<N, W>, conn: Conn, body: &[u8])
        requires phase { phase_at self.old conn.0 ≡ Some Open }
        requires ties { Ties (at N.Net W.Watch self.old out.old) }
        ensures { Notes conn.0 (note.pong_got conn.0 body.now ∷ []) (at N.Net W.Watch self.old out.old) (at N.Net W.Watch self.new out.new) }
    {
        let _ = &self.table;
        out.watch.note(&Note::PongGot { conn, body });
    }

    /// A close frame was read of a connection in phase Open or Leaving: with code 1005 and no reason where it was empty, or
    /// with a code that may be sent and a reason of at most 123 octets (RFC 6455, section 5.5.1). From Open, a close frame
    /// with the code is put and the Closed event is due, with code and reason. The connection is ending.
    pub fn peer_close<N: Net, W: Watch>(
        &mut self,
        out: &mut Outside<N, W>,
        conn: Conn,
        code: u16,
        reason: &[u8],
    )
        requires phase { has_frames (phase_at self.old conn.0) ≡ true }
        requires code { FitsCloseFrame code reason.now }
        requires ties { Ties (at N.Net W.Watch self.old out.old) }
        ensures { Sends conn.0 (note.peer_close conn.0 code reason.now ∷ []) (served (is_open (phase_at self.old conn.0)) (only conn.0 (close_item code)))
            (at N.Net W.Watch self.old out.old) (at N.Net W.Watch self.new out.new) }
    {
        let was_open = self.end(conn, code, reason);
        out.watch.note(&Note::PeerClose { conn, code, reason });
        if was_open {
            self.put_close(out, conn, code);
        }
    }

    /// What was read of a connection in phase Open or Leaving broke the protocol, with this code: 1002, 1007 or 1009. From
    /// Open, a close frame with the code is put (RFC 6455, section 7.1.7) and the Closed event is due, with the code and no
    /// reason. The connection is ending.
    pub fn failed<N: Net, W: Watch>(&mut self, out: &mut Outside<N, W>, conn: Conn, code: u16)
        requires phase { has_frames (phase_at self.old conn.0) ≡ true }
        requires code { is_failure code ≡ true }
        requires ties { Ties (at N.Net W.Watch self.old out.old) }
        ensures { Sends conn.0 (note.failed conn.0 code ∷ []) (served (is_open (phase_at self.old conn.0)) (only conn.0 (close_item code)))
            (at N.Net W.Watch self.old out.old) (at N.Net W.Watch self.new out.new) }
    {
        let was_open = self.end(conn, code, &[]);
        out.watch.note(&Note::Failed { conn, code });
        if was_open {
            self.put_close(out, conn, code);
        }
    }

    /// The peer of a connection in phase Head, Open or Leaving ended the stream: the connection is gone, what is held is
    /// discarded, and its link is shut. From Open, its Closed event is due, with 1006 and no reason.
    pub fn ended<N: Net, W: Watch>(&mut self, out: &mut Outside<N, W>, conn: Conn)
        requires phase { is_reading (phase_at self.old conn.0) ≡ true }
        requires ties { Ties (at N.Net W.Watch self.old out.old) }
        ensures { Notes conn.0 (note.gone conn.0 PeerEnd ∷ []) (at N.Net W.Watch self.old out.old) (at N.Net W.Watch self.new out.new) }
    {
        self.leave(out, conn, Left::PeerEnd);
    }

    /// A read of a connection in phase Head, Open or Leaving failed: the connection is gone, what is held is discarded, and
    /// its link is shut. From Open, its Closed event is due, with 1006 and no reason.
    pub fn link_failed<N: Net, W: Watch>(&mut self, out: &mut Outside<N, W>, conn: Conn)
        requires phase { is_reading (phase_at self.old conn.0) ≡ true }
        requires ties { Ties (at N.Net W.Watch self.old out.old) }
        ensures { LosesLink conn.0 (at N.Net W.Watch self.old out.old) (at N.Net W.Watch self.new out.new) }
    {
        self.leave(out, conn, Left::LinkFailed);
    }
}
