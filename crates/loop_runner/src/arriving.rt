//! Connections that come.

ghost use Rattle.std.specs.Prelude.{◌≡◌, ◌<◌, ◌≤◌, ℕ, None, true, false};
ghost use Rattle.ws_kinds.specs.NoteValue.{note_value};
ghost use Rattle.ws_kinds.specs.Watch.{IsNoted};
ghost use Rattle.link_trait.specs.Net.{Shuts};
ghost use Rattle.link_trait.specs.declared.net.NetEvent.TheVariants as answer;
ghost use Rattle.hub_notes.specs.Progress.{due_at};
ghost use Rattle.hub_core.specs.At.{at};
ghost use Rattle.loop_runner.specs.Intakes.{intake_at, ChangesIntake};
ghost use Rattle.loop_runner.specs.Steps.{Every, Running};
ghost use Rattle.loop_runner.specs.Moments.{moment, TakesIn};

use crate::intakes::Intakes;
use hub_core::{Arrival, Hub};
use link_trait::{Net, Outside};
use ws_kinds::{Conn, Handler, Note, Watch};

/// Takes in a connection that came, while no Closed event is due: it has an intake, and the hub accepts it. Where either is refused, both are as before, the
/// refusal is noted, and its link is shut. The handler is not asked: it stands here for what is kept beside its state.
pub(crate) fn arrive<N: Net, W: Watch, H: Handler>(
    hub: &mut Hub,
    intakes: &mut Intakes,
    out: &mut Outside<N, W>,
    handler: &H,
    conn: Conn,
)
    requires none { (other : ℕ) → due_at hub.old other ≡ None }
    requires new { hub.old.named < conn.0 }
    requires named { conn.0 ≤ (N.state out.old.net).named }
    requires live { (N.state out.old.net).live conn.0 ≡ true }
    requires unasked { (N.state out.old.net).due conn.0 ≡ false }
    requires running { Running Every intakes.old (at N.Net W.Watch hub.old out.old) }
    ensures { let seen = moment N.Net W.Watch H.Handler in TakesIn (answer.Accept conn) intakes.old intakes.new (seen hub.old out.old handler.now) (seen hub.new out.new handler.now) }
{
    if hub.full() {
        turn_away(out, conn, &Note::Busy(conn));
        return;
    }
    if intakes.admit(conn).is_err() {
        turn_away(out, conn, &Note::NoRoom(conn));
        return;
    }
    match hub.accept(out, conn) {
        Arrival::Taken => {}
        Arrival::Busy => shut(intakes, out, conn),
        Arrival::Memory => shut(intakes, out, conn),
    }
}

/// Notes why a connection is not taken in, and shuts its link.
fn turn_away<N: Net, W: Watch>(out: &mut Outside<N, W>, conn: Conn, note: &Note<'_>)
    requires live { (N.state out.old.net).live conn.0 ≡ true }
    ensures noted { IsNoted (W.told out.old.watch) (note_value note.now) (W.told out.new.watch) }
    ensures shuts { Shuts conn.0 (N.state out.old.net) (N.state out.new.net) }
{
    out.watch.note(note);
    out.net.shut(conn);
}

/// Shuts the intake and the link of a connection that was refused.
fn shut<N: Net, W: Watch>(intakes: &mut Intakes, out: &mut Outside<N, W>, conn: Conn)
    requires live { (N.state out.old.net).live conn.0 ≡ true }
    ensures none { intake_at intakes.new conn.0 ≡ None }
    ensures others { ChangesIntake conn.0 intakes.old intakes.new }
    ensures told { W.told out.new.watch ≡ W.told out.old.watch }
    ensures shuts { Shuts conn.0 (N.state out.old.net) (N.state out.new.net) }
{
    intakes.shut(conn);
    out.net.shut(conn);
}
