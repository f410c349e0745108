//! The order to close the event's connection.

ghost use Rattle.std.specs.Prelude.{◌≡◌, ◌≢◌, ◌+◌, ◌≤◌, [], None, true, length, IsTrue, IsUtf8};
ghost use Rattle.ws_kinds.specs.declared.note.Phase.TheVariants.{Head, Open};
ghost use Rattle.ws_kinds.specs.OrderValue.{close};
ghost use Rattle.wire_meaning.specs.Event.{is_sendable as IsSendable};
ghost use Rattle.run_meaning.specs.Lines.{close_frame};
ghost use Rattle.run_meaning.specs.Orders.{is_bad_close as IsBadClose, why_close};
ghost use Rattle.hub_lines.specs.State.{entry_at, is_present, most_held_in, ring_at};
ghost use Rattle.hub_lines.specs.Calls.{Ties, only};
ghost use Rattle.hub_notes.specs.Progress.{standings_at};
ghost use Rattle.hub_core.specs.At.{at};
ghost use Rattle.hub_core.specs.Closing.{BeginsToLeave, Closes};
ghost use Rattle.hub_core.specs.Sends.{Sends};
ghost use Rattle.hub_core.specs.Serving.{ServesByEachRule};

use crate::Hub;
use frame_writer::close_payload;
use link_trait::{Net, Outside};
use socket_core::Item;
use wire_meaning::{Opcode, is_sendable, is_utf8, opcode_number};
use ws_kinds::{Conn, Phase, Watch, Why};

/// The most octets that the reason of a close frame has (RFC 6455, section 5.5).
const MAX_REASON: usize = 123;

impl Hub {
    pub(crate) fn serve_close<N: Net, W: Watch>(
        &mut self,
        out: &mut Outside<N, W>,
        conn: Conn,
        number: u8,
        code: u16,
        reason: &[u8],
    )
        requires ties { Ties (at N.Net W.Watch self.old out.old) }
        ensures { ServesByEachRule conn.0 number (close code reason.now) (at N.Net W.Watch self.old out.old) (at N.Net W.Watch self.new out.new) }
    {
        let _ = &self.table;
        match self.close_refusal(conn, code, reason) {
            Some(why) => self.unserved(out, conn, number, why),
            None => self.close_now(out, conn, code, reason),
        }
    }

    /// An open connection is leaving, and its close frame is put.
    fn close_now<N: Net, W: Watch>(
        &mut self,
        out: &mut Outside<N, W>,
        conn: Conn,
        code: u16,
        reason: &[u8],
    )
        requires fits { why_close (standings_at self.old conn.0).phase code reason.now ≡ None }
        requires ties { Ties (at N.Net W.Watch self.old out.old) }
        ensures { Closes conn.0 code reason.now (at N.Net W.Watch self.old out.old) (at N.Net W.Watch self.new out.new) }
    {
        self.begin_to_leave(conn, code, reason);
        self.put_close_frame(out, conn, code, reason);
    }

    /// An open connection is leaving. Its topics end, and its Closed event is due, with this code and this reason of at most 123
    /// octets.
    fn begin_to_leave(&mut self, conn: Conn, code: u16, reason: &[u8])
        requires open { (entry_at self.old conn.0).phase ≡ Open }
        requires short { length reason.now ≤ 123 }
        ensures { BeginsToLeave conn.0 code reason.now self.old self.new }
    {
        self.table.close(conn, Phase::Leaving, code, reason);
        self.topics.drop_conn(conn);
    }

    /// Puts a close frame with this code, which may be sent, and this reason, UTF-8 of at most 123 octets (RFC 6455, section 5.5.1).
    /// It fits behind what is held.
    fn put_close_frame<N: Net, W: Watch>(
        &mut self,
        out: &mut Outside<N, W>,
        conn: Conn,
        code: u16,
        reason: &[u8],
    )
        requires present { is_present self.old conn.0 ≡ true }
        requires past_head { (entry_at self.old conn.0).phase ≢ Head }
        requires room { length (ring_at self.old conn.0) + 135 ≤ most_held_in self.old.config (entry_at self.old conn.0).phase }
        requires code { IsTrue (IsSendable code) }
        requires text { IsUtf8 reason.now }
        requires short { length reason.now ≤ 123 }
        requires ties { Ties (at N.Net W.Watch self.old out.old) }
        ensures { Sends conn.0 [] (only conn.0 (close_frame code reason.now)) (at N.Net W.Watch self.old out.old) (at N.Net W.Watch self.new out.new) }
    {
        let payload = close_payload(code, reason);
        self.put(
            out,
            conn,
            Item::Frame(opcode_number(Opcode::Close), &payload),
        );
    }

    /// Why a connection is not closed.
    fn close_refusal(&self, conn: Conn, code: u16, reason: &[u8]) -> Option<Why>
        ensures { result ≡ why_close (standings_at self.now conn.0).phase code reason.now }
    {
        if !self.is_open(conn) {
            return Some(Why::NotOpen);
        }
        if is_bad_close(code, reason) {
            return Some(Why::BadCode);
        }
        None
    }
}

/// Whether a close frame may not carry this code and this reason (RFC 6455, sections 5.5 and 7.4).
fn is_bad_close(code: u16, reason: &[u8]) -> bool
    ensures { result ≡ IsBadClose code reason.now }
{
    !is_sendable(code) || reason.len() > MAX_REASON || !is_utf8(reason)
}
