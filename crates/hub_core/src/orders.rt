//! The orders of a handler, and the messages that are sent.

ghost use Rattle.std.specs.Prelude.{◌≡◌};
ghost use Rattle.std.specs.Str.{is_utf8};
ghost use Rattle.ws_kinds.specs.NoteValue as note;
ghost use Rattle.ws_kinds.specs.OrderValue.{order_value, order_values, send, publish as publishes};
ghost use Rattle.run_meaning.specs.Lines.{is_open as is_open_phase};
ghost use Rattle.run_meaning.specs.Steps.{by_note};
ghost use Rattle.run_meaning.specs.Orders.{is_bad_text as IsBadText, why_send};
ghost use Rattle.hub_lines.specs.State.{phase_at};
ghost use Rattle.hub_lines.specs.Calls.{Ties};
ghost use Rattle.hub_notes.specs.Progress.{standings_at};
ghost use Rattle.hub_notes.specs.Serving.{ServesAll};
ghost use Rattle.hub_notes.specs.Table.{IsTable, table_of};
ghost use Rattle.hub_core.specs.At.{at};
ghost use Rattle.hub_core.specs.Sends.{SendsMessage};
ghost use Rattle.hub_core.specs.Serving.{NotesUnserved, ServesByEachRule, ServesOrder};
ghost use Rattle.topic_guard.specs.Admits.{admits};

use crate::Hub;
use link_trait::{Net, Outside};
use simdutf8::basic::from_utf8;
use socket_core::{Item, Kept};
use topic_guard::TopicGuard;
use wire_meaning::{Opcode, opcode_number};
use ws_kinds::{Conn, Kind, Note, Order, Orders, Phase, Watch, Why};

impl Hub {
    /// Sends a message to an open connection, as one frame (RFC 6455, section 5.6). `Ok` is what became of the frame, and
    /// `Failed` where the connection is gone since its link failed in this call.
    ///
    /// It is refused, in this order, as `Absent` where there is no such connection or it is gone, as `NotOpen` where it is
    /// not open, as `TooBig` where the body has more than `max_message` octets, and as `BadText` where a text is not UTF-8.
    /// A refusal changes nothing.
    pub fn send<N: Net, W: Watch>(
        &mut self,
        out: &mut Outside<N, W>,
        to: Conn,
        kind: Kind,
        body: &[u8],
    ) -> Result<Kept, Why>
        requires ties { Ties (at N.Net W.Watch self.old out.old) }
        ensures { SendsMessage to.0 kind body.now result (at N.Net W.Watch self.old out.old) (at N.Net W.Watch self.new out.new) }
    {
        let _ = &self.table;
        match self.refusal(to, kind, body) {
            Some(why) => Err(why),
            None => Ok(self.put(
                out,
                to,
                Item::Frame(opcode_number(Opcode::Begins(kind)), body),
            )),
        }
    }

    /// Serves the orders of an event of a connection, in order. One that is refused changes nothing and is noted as Unserved,
    /// with its number, counted from 0.
    ///
    /// A message that is sent is refused as [`Hub::send`] says, and one that is published as [`Hub::publish`] says. To
    /// subscribe is refused, in this order, as `NotOpen` where the event's connection is not open, as `BadTopic` where the
    /// topic has no octets or more than 64, as `Forbidden` where the guard does not allow it, as `TooMany` where it would be the
    /// connection's sixty-fifth topic, and as `Memory` where there was too little. A topic that is there already stays; the
    /// guard is asked about it all the same. To unsubscribe is refused as `NotOpen` and `BadTopic` alike; where the topic is not
    /// there, nothing changes.
    ///
    /// To close is refused as `NotOpen` where the event's connection is not open, and as `BadCode` where the code may not be
    /// sent, or the reason has more than 123 octets or is not UTF-8. One that is served makes the connection leave: its topics
    /// end, its Closed event is due with the order's code and reason, and its close frame is put (RFC 6455, section 5.5.1). So
    /// it is also where its link fails in that very write, and the connection is gone then.
    pub fn perform<N: Net, W: Watch>(
        &mut self,
        out: &mut Outside<N, W>,
        guard: &TopicGuard,
        conn: Conn,
        orders: &Orders<'_>,
    )
        requires ties { Ties (at N.Net W.Watch self.old out.old) }
        ensures ties { Ties (at N.Net W.Watch self.new out.new) }
        ensures serves { ServesAll self.old.config (admits guard.now.rule) conn.0 0 (order_values orders.now.items) (at N.Net W.Watch self.old out.old) (at N.Net W.Watch self.new out.new) }
        ensures named { self.new.named ≡ self.old.named }
        ensures table { IsTable (table_of self.new) }
    {
        let _ = &self.table;
        'walk: for number in 0..orders.len() {
            self.serve(out, guard, conn, number as u8, &orders[number]);
        }
    }

    fn serve<N: Net, W: Watch>(
        &mut self,
        out: &mut Outside<N, W>,
        guard: &TopicGuard,
        conn: Conn,
        number: u8,
        order: &Order<'_>,
    )
        requires ties { Ties (at N.Net W.Watch self.old out.old) }
        ensures { ServesOrder (admits guard.now.rule) conn.0 number (order_value order.now) (at N.Net W.Watch self.old out.old) (at N.Net W.Watch self.new out.new) }
    {
        match *order {
            Order::Send { to, kind, body } => self.serve_send(out, conn, number, to, kind, body),
            Order::Subscribe { topic } => self.serve_subscribe(out, guard, conn, number, topic),
            Order::Unsubscribe { topic } => self.serve_unsubscribe(out, conn, number, topic),
            Order::Publish { topic, kind, body } => self.serve_publish(
                out, conn, number, topic, kind, body,
            ),
            Order::Close { code, reason } => self.serve_close(out, conn, number, code, reason),
        }
    }

    fn serve_send<N: Net, W: Watch>(
        &mut self,
        out: &mut Outside<N, W>,
        conn: Conn,
        number: u8,
        to: Conn,
        kind: Kind,
        body: &[u8],
    )
        requires ties { Ties (at N.Net W.Watch self.old out.old) }
        ensures { ServesByEachRule conn.0 number (send to.0 kind body.now) (at N.Net W.Watch self.old out.old) (at N.Net W.Watch self.new out.new) }
    {
        let _ = &self.table;
        match self.send(out, to, kind, body) {
            Ok(_) => {}
            Err(why) => self.unserved(out, conn, number, why),
        }
    }

    /// Notes that an order is not served.
    pub(crate) fn unserved<N: Net, W: Watch>(
        &self,
        out: &mut Outside<N, W>,
        conn: Conn,
        order: u8,
        why: Why,
    )
        requires ties { Ties (at N.Net W.Watch self.now out.old) }
        ensures { NotesUnserved conn.0 order why (at N.Net W.Watch self.now out.old) (at N.Net W.Watch self.now out.new) }
    {
        out.watch.note(&Note::Unserved { conn, order, why });
    }

    fn refusal(&self, to: Conn, kind: Kind, body: &[u8]) -> Option<Why>
        ensures { result ≡ why_send self.now.config (phase_at self.now to.0) kind body.now }
    {
        match self.table.phase(to) {
            None | Some(Phase::Gone) => return Some(Why::Absent),
            Some(Phase::Open) => {}
            Some(_) => return Some(Why::NotOpen),
        }
        if body.len() > self.table.max_message() as usize {
            return Some(Why::TooBig);
        }
        if is_bad_text(kind, body) {
            return Some(Why::BadText);
        }
        None
    }

    /// Whether a connection is open.
    pub(crate) fn is_open(&self, conn: Conn) -> bool
        ensures { result ≡ is_open_phase (standings_at self.now conn.0).phase }
    {
        match self.table.phase(conn) {
            Some(Phase::Open) => true,
            Some(_) => false,
            None => false,
        }
    }
}

/// Whether the octets are UTF-8, looked at many at once.
#[tactic(auto, using(ws_kinds::proofs::TextLemmas::utf8_tests))]
fn is_text(octets: &[u8]) -> bool
    ensures { result ≡ is_utf8 octets.now }
{
    match from_utf8(octets) {
        Ok(_) => true,
        Err(_) => false,
    }
}

/// Whether a text is not UTF-8 (RFC 6455, section 5.6).
pub(crate) fn is_bad_text(kind: Kind, body: &[u8]) -> bool
    ensures { result ≡ IsBadText kind body.now }
{
    match kind {
        Kind::Text => !is_text(body),
        Kind::Binary => false,
    }
}
