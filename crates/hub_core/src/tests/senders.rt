//! Senders that stand on a hub's clauses alone, for every net and every watch.

ghost use Rattle.std.specs.Prelude.{◌≡◌, ◌≤◌, ◌++◌, List, true, Some};
ghost use Rattle.ws_kinds.specs.NoteValue.{NoteValue};
ghost use Rattle.wire_meaning.specs.declared.frame.Opcode.TheVariants.{Begins};
ghost use Rattle.wire_meaning.specs.Answer.{Item, whole};
ghost use Rattle.hub_lines.specs.Told.{is_dropped};
ghost use Rattle.hub_lines.specs.Items.{kept};
ghost use Rattle.hub_core.specs.At.{at};
ghost use Rattle.hub_lines.specs.State.{server, is_present, numbered_at, ring_at};
ghost use Rattle.hub_lines.specs.Lines.{StandsFor, IsCounted};
ghost use Rattle.hub_lines.specs.Calls.{Ties, Settled, nothing, only, served, then_also};
ghost use Rattle.hub_notes.specs.Calls.{Appends};

use crate::Hub;
use link_trait::{Net, Outside};
use ws_kinds::{Conn, Kind, Phase, Watch};

/// Sends a message to two connections, where they take it, and ends the turn. The answer says who was sent it.
pub fn send_to_both<N: Net, W: Watch>(
    hub: &mut Hub,
    out: &mut Outside<N, W>,
    first: Conn,
    second: Conn,
    kind: Kind,
    body: &[u8],
) -> (bool, bool)
    requires ties { Ties (at N.Net W.Watch hub.old out.old) }
    ensures ties { Ties (at N.Net W.Watch hub.new out.new) }
    ensures settled { Settled hub.new }
    ensures appends { Appends
        (then_also (served result.0 (only first.0 (whole (Begins kind) body.now))) (served result.1 (only second.0 (whole (Begins kind) body.now))))
        (at N.Net W.Watch hub.old out.old) (at N.Net W.Watch hub.new out.new) }
{
    let one = hub.send(out, first, kind, body).is_ok();
    let two = hub.send(out, second, kind, body).is_ok();
    hub.end_turn(out);
    (one, two)
}

/// A read of a connection fails, where it is open.
fn lose<N: Net, W: Watch>(hub: &mut Hub, out: &mut Outside<N, W>, lost: Conn)
    requires ties { Ties (at N.Net W.Watch hub.old out.old) }
    ensures ties { Ties (at N.Net W.Watch hub.new out.new) }
    ensures appends { Appends nothing (at N.Net W.Watch hub.old out.old) (at N.Net W.Watch hub.new out.new) }
{
    if hub.phase(lost) == Some(Phase::Open) {
        hub.link_failed(out, lost);
    }
}

/// Sends a message to a connection, then loses another one, where it is open, and ends the turn. What was kept for the
/// receiver is then, in order, the octets that its link took and those in its ring, with the message at the end where it
/// was served.
pub fn send_and_lose<N: Net, W: Watch>(
    hub: &mut Hub,
    out: &mut Outside<N, W>,
    to: Conn,
    lost: Conn,
    kind: Kind,
    body: &[u8],
) -> bool
    requires ties { Ties (at N.Net W.Watch hub.old out.old) }
    ensures ties { Ties (at N.Net W.Watch hub.new out.new) }
    ensures settled { Settled hub.new }
    ensures carried { (items : List Item) (notes : List NoteValue) → to.0 ≤ hub.old.named → is_present hub.new to.0 ≡ true →
        StandsFor to.0 (at N.Net W.Watch hub.old out.old) items → (N.state out.new.net).tells ≡ true → W.told out.new.watch ≡ Some notes →
        IsCounted (numbered_at hub.new to.0) →
        kept (is_dropped to.0 notes) 0 (items ++ served result (only to.0 (whole (Begins kind) body.now)) to.0) ≡ (N.state out.new.net).taken to.0 ++ ring_at hub.new to.0 }
{
    let sent = hub.send(out, to, kind, body).is_ok();
    lose(hub, out, lost);
    hub.end_turn(out);
    sent
}
