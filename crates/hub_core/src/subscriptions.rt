//! The subscriptions of a connection.

ghost use Rattle.std.specs.Prelude.{◌≡◌, None};
ghost use Rattle.ws_kinds.specs.OrderValue.{subscribe as subscribes, unsubscribe};
ghost use Rattle.run_meaning.specs.Orders.{is_bad_topic as IsBadTopic, why_unsubscribe};
ghost use Rattle.hub_lines.specs.Calls.{Ties};
ghost use Rattle.hub_notes.specs.Progress.{standings_at};
ghost use Rattle.hub_core.specs.At.{at};
ghost use Rattle.hub_core.specs.Serving.{ServesByEachRule, ServesOrder};
ghost use Rattle.topic_guard.specs.Admits.{admits};

use crate::Hub;
use link_trait::{Net, Outside};
use topic_guard::TopicGuard;
use ws_kinds::{Conn, Watch, Why};

/// The most octets that a topic has.
const MAX_TOPIC: usize = 64;

impl Hub {
    pub(crate) fn serve_subscribe<N: Net, W: Watch>(
        &mut self,
        out: &mut Outside<N, W>,
        guard: &TopicGuard,
        conn: Conn,
        number: u8,
        topic: &[u8],
    )
        requires ties { Ties (at N.Net W.Watch self.old out.old) }
        ensures { ServesOrder (admits guard.now.rule) conn.0 number (subscribes topic.now) (at N.Net W.Watch self.old out.old) (at N.Net W.Watch self.new out.new) }
    {
        let _ = &self.table;
        match self.topic_refusal(conn, topic) {
            Some(why) => self.unserved(out, conn, number, why),
            None => self.subscribe(out, guard, conn, number, topic),
        }
    }

    /// Subscribes an open connection to what is a topic, where the guard allows it.
    fn subscribe<N: Net, W: Watch>(
        &mut self,
        out: &mut Outside<N, W>,
        guard: &TopicGuard,
        conn: Conn,
        number: u8,
        topic: &[u8],
    )
        requires fits { why_unsubscribe (standings_at self.old conn.0).phase topic.now ≡ None }
        requires ties { Ties (at N.Net W.Watch self.old out.old) }
        ensures { ServesOrder (admits guard.now.rule) conn.0 number (subscribes topic.now) (at N.Net W.Watch self.old out.old) (at N.Net W.Watch self.new out.new) }
    {
        let _ = &self.table;
        if !guard.allows(topic) {
            return self.unserved(out, conn, number, Why::Forbidden);
        }
        match self.topics.subscribe(conn, topic) {
            Ok(_) => {}
            Err(why) => self.unserved(out, conn, number, why),
        }
    }

    pub(crate) fn serve_unsubscribe<N: Net, W: Watch>(
        &mut self,
        out: &mut Outside<N, W>,
        conn: Conn,
        number: u8,
        topic: &[u8],
    )
        requires ties { Ties (at N.Net W.Watch self.old out.old) }
        ensures { ServesByEachRule conn.0 number (unsubscribe topic.now) (at N.Net W.Watch self.old out.old) (at N.Net W.Watch self.new out.new) }
    {
        let _ = &self.table;
        match self.topic_refusal(conn, topic) {
            Some(why) => self.unserved(out, conn, number, why),
            None => {
                self.topics.unsubscribe(conn, topic);
            }
        }
    }

    /// Why a subscription of a connection is neither begun nor ended, but for how many it has.
    fn topic_refusal(&self, conn: Conn, topic: &[u8]) -> Option<Why>
        ensures { result ≡ why_unsubscribe (standings_at self.now conn.0).phase topic.now }
    {
        if !self.is_open(conn) {
            return Some(Why::NotOpen);
        }
        if is_bad_topic(topic) {
            return Some(Why::BadTopic);
        }
        None
    }
}

/// Whether these octets are no topic.
pub(crate) fn is_bad_topic(topic: &[u8]) -> bool
    ensures { result ≡ IsBadTopic topic.now }
{
    topic.len() == 0 || topic.len() > MAX_TOPIC
}
