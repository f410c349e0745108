//! Messages for all who subscribed to a topic.

ghost use Rattle.std.specs.Prelude.{◌≡◌, ◌≤◌, ◌<◌, ◌+◌, ◌-◌, ◌^◌, None, true, length, if◌then◌else◌};
ghost use Rattle.std.specs.Option.{option_map};
ghost use Rattle.ws_kinds.specs.OrderValue.{publish as publishes};
ghost use Rattle.run_meaning.specs.Lines.{data_frame, is_open};
ghost use Rattle.run_meaning.specs.Orders.{why_publish};
ghost use Rattle.hub_lines.specs.Calls.{Ties, is_sender};
ghost use Rattle.hub_notes.specs.Progress.{standings_at};
ghost use Rattle.hub_core.specs.At.{at};
ghost use Rattle.hub_core.specs.Publishing.{Publishes, PublishesMessage, PutsUnless, number_in, receivers as receivers_of};
ghost use Rattle.hub_core.specs.Serving.{ServesByEachRule};

use crate::Hub;
use crate::orders::is_bad_text;
use crate::subscriptions::is_bad_topic;
use link_trait::{Net, Outside};
use socket_core::Item;
use wire_meaning::{Opcode, opcode_number};
use ws_kinds::{Conn, Kind, Watch, Why};

impl Hub {
    /// Publishes a message: each connection that is subscribed to the topic as the call begins, but not `from`, gets it as one
    /// frame (RFC 6455, section 5.6), in ascending order. `Ok` is how many these are; one whose link fails at that is gone, and
    /// the others get the frame all the same. Without a receiver nothing changes.
    ///
    /// It is refused, in this order, as `BadTopic` where the topic has no octets or more than 64, as `TooBig` where the body has
    /// more than `max_message` octets, and as `BadText` where a text is not UTF-8. A refusal changes nothing.
    pub fn publish<N: Net, W: Watch>(
        &mut self,
        out: &mut Outside<N, W>,
        from: Option<Conn>,
        topic: &[u8],
        kind: Kind,
        body: &[u8],
    ) -> Result<u64, Why>
        requires ties { Ties (at N.Net W.Watch self.old out.old) }
        ensures { PublishesMessage (number_in from) topic.now kind body.now result (at N.Net W.Watch self.old out.old) (at N.Net W.Watch self.new out.new) }
    {
        let _ = &self.table;
        if let Some(why) = self.publish_refusal(topic, kind, body) {
            return Err(why);
        }
        let count = self.receivers(from, topic);
        if count == 0 {
            return Ok(0);
        }
        self.publish_to_each(out, from, topic, kind, body);
        Ok(count)
    }

    pub(crate) fn serve_publish<N: Net, W: Watch>(
        &mut self,
        out: &mut Outside<N, W>,
        conn: Conn,
        number: u8,
        topic: &[u8],
        kind: Kind,
        body: &[u8],
    )
        requires ties { Ties (at N.Net W.Watch self.old out.old) }
        ensures { ServesByEachRule conn.0 number (publishes topic.now kind body.now) (at N.Net W.Watch self.old out.old) (at N.Net W.Watch self.new out.new) }
    {
        let _ = &self.table;
        match self.publish_refusal(topic, kind, body) {
            Some(why) => self.unserved(out, conn, number, why),
            None => self.publish_to_each(out, Some(conn), topic, kind, body),
        }
    }

    /// Puts a message for each subscriber of a topic but the sender, in ascending order. Who subscribed is told by the state in
    /// which this begins; one that becomes gone meanwhile gets nothing.
    fn publish_to_each<N: Net, W: Watch>(
        &mut self,
        out: &mut Outside<N, W>,
        from: Option<Conn>,
        topic: &[u8],
        kind: Kind,
        body: &[u8],
    )
        requires short { length body.now ≤ self.old.config.max_message }
        requires ties { Ties (at N.Net W.Watch self.old out.old) }
        ensures { Publishes (number_in from) topic.now kind body.now (at N.Net W.Watch self.old out.old) (at N.Net W.Watch self.new out.new) }
    {
        let _ = &self.table;
        let mut after = Conn(0);
        'walk: while let Some(conn) = self.topics.next(topic, after) {
            self.publish_to(out, from, conn, kind, body);
            after = conn;
        }
    }

    fn publish_to<N: Net, W: Watch>(
        &mut self,
        out: &mut Outside<N, W>,
        from: Option<Conn>,
        conn: Conn,
        kind: Kind,
        body: &[u8],
    )
        requires open { is_open (standings_at self.old conn.0).phase ≡ true }
        requires short { length body.now ≤ self.old.config.max_message }
        requires ties { Ties (at N.Net W.Watch self.old out.old) }
        ensures { PutsUnless (is_sender (number_in from) conn.0) conn.0 (data_frame kind body.now) (at N.Net W.Watch self.old out.old) (at N.Net W.Watch self.new out.new) }
    {
        if is_from(from, conn) {
            return;
        }
        self.put(
            out,
            conn,
            Item::Frame(opcode_number(Opcode::Begins(kind)), body),
        );
    }

    /// How many connections are subscribed to a topic, but for the sender.
    fn receivers(&self, from: Option<Conn>, topic: &[u8]) -> u64
        ensures { result ≡ receivers_of self.now (number_in from) topic.now }
    {
        let _ = &self.table;
        let mut count = 0;
        let mut after = Conn(0);
        'walk: while let Some(conn) = self.topics.next(topic, after) {
            count = with_receiver(count, from, conn);
            after = conn;
        }
        count
    }

    /// Why a message is not published.
    fn publish_refusal(&self, topic: &[u8], kind: Kind, body: &[u8]) -> Option<Why>
        ensures { result ≡ why_publish self.now.config topic.now kind body.now }
    {
        if is_bad_topic(topic) {
            return Some(Why::BadTopic);
        }
        if body.len() > self.table.max_message() as usize {
            return Some(Why::TooBig);
        }
        if is_bad_text(kind, body) {
            return Some(Why::BadText);
        }
        None
    }
}

/// Whether the connection is the sender.
fn is_from(from: Option<Conn>, conn: Conn) -> bool
    ensures { result ≡ is_sender (number_in from) conn.0 }
{
    match from {
        Some(sender) => sender.0 == conn.0,
        None => false,
    }
}

/// A count with one more, unless the connection is the sender.
fn with_receiver(count: u64, from: Option<Conn>, conn: Conn) -> u64
    requires { count < 2 ^ 64 - 1 }
    ensures { result ≡ (if is_sender (number_in from) conn.0 then count else count + 1) }
{
    if is_from(from, conn) {
        return count;
    }
    count + 1
}
