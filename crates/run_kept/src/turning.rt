//! What a server keeps while it starts, while connections come, and while time goes by and turns end. Each function says laws,
//! and does nothing.

ghost use Rattle.std.specs.Prelude.{◌≡◌, ◌<◌, ◌^◌, ◌-◌, ℕ, List, [], ◌∷◌, ◌++◌, Some, None, true, length};
ghost use Rattle.ws_kinds.specs.declared.conn.Conn.{Conn};
ghost use Rattle.ws_kinds.specs.ConfigValue.{ConfigValue};
ghost use Rattle.ws_kinds.specs.NoteValue as note;
ghost use Rattle.ws_kinds.specs.NoteValue.{NoteValue};
ghost use Rattle.link_trait.specs.NetState.{NetState};
ghost use Rattle.link_trait.specs.Net.{Nexts, is_rest};
ghost use Rattle.link_trait.specs.declared.net.NetEvent.{NetEvent};
ghost use Rattle.link_trait.specs.declared.net.NetEvent.TheVariants as event;
ghost use Rattle.route_table.specs.Table.{RouteTable};
ghost use Rattle.run_meaning.specs.Server.{Server as Meaning};
ghost use Rattle.run_meaning.specs.Lines.{plain};
ghost use Rattle.run_meaning.specs.Settled as meant;
ghost use Rattle.run_meaning.specs.Right.{Right, Sound};
ghost use Rattle.run_meaning.specs.Timely.{Timely};
ghost use Rattle.run_meaning.specs.Told.{AreTold, ToldRight};
ghost use Rattle.hub_lines.specs.State.{Server, server};
ghost use Rattle.hub_lines.specs.Calls.{Settled, Ties, nothing};
ghost use Rattle.hub_notes.specs.Fronts.{RingsWait};
ghost use Rattle.hub_notes.specs.Progress.{due_at};
ghost use Rattle.hub_notes.specs.Calls.{Appends};
ghost use Rattle.hub_notes.specs.Table.{IsTable, table_of};
ghost use Rattle.hub_notes.specs.Ticks.{Ticks};
ghost use Rattle.hub_notes.specs.Turns.{EndsTurn, Offers, finishes};
ghost use Rattle.run_kept.specs.Ends.{AreThere, backlog_at};
ghost use Rattle.run_kept.specs.Kept.{IntakeView, Kept};
ghost use Rattle.run_kept.specs.Read.{AreRead};

use ws_kinds::Handler;

/// Before the first note: the hub has no connections, the net passed nothing, and the handler is as it starts.
pub fn at_first<H: Handler>()
    ensures { (meaning : Meaning H.State) (config : ConfigValue) (table : RouteTable) (s : Server) (now : H.State) (intakes : ℕ → IntakeView) →
        s.hub.entries ≡ [] → s.hub.pairs ≡ [] → s.hub.partings ≡ [] → s.net.tells ≡ true → s.told ≡ Some [] → s.net.passed ≡ [] → now ≡ meaning.start → s.hub.config ≡ config →
        Kept meaning config table [] s now intakes None }
{}

/// Time went by, and the hub counted each connection, pinged and ended those that are quiet for too long, and noted that.
pub fn ticked<H: Handler>()
    ensures { (meaning : Meaning H.State) (config : ConfigValue) (table : RouteTable) (notes : List NoteValue) (old : Server) (now : H.State) (intakes : ℕ → IntakeView) →
        Kept meaning config table notes old now intakes None → (net : NetState) (new : Server) (after : List NoteValue) (ticks : Ticks (server old.hub net old.told) new) →
        length old.net.passed < 2 ^ 64 - 1 → Nexts event.Tick old.net net → new.told ≡ Some after → IsTable (table_of old.hub) → IsTable (table_of new.hub) →
        (after ≡ notes ++ note.tick ∷ ticks.rest) × Kept meaning config table after new now intakes None }
{}

/// The net answered that a link takes octets again, and then the hub offered what it holds for that connection.
pub fn offered<H: Handler>()
    ensures { (meaning : Meaning H.State) (config : ConfigValue) (table : RouteTable) (notes : List NoteValue) (old : Server) (now : H.State) (intakes : ℕ → IntakeView) →
        Kept meaning config table notes old now intakes None → (conn : Conn) (net : NetState) (new : Server) (after : List NoteValue) (offers : Offers conn.0 (server old.hub net old.told) new) →
        Nexts (event.Writable conn) old.net net → new.told ≡ Some after → IsTable (table_of old.hub) →
        (after ≡ notes ++ (offers.proceeds.sending ++ finishes offers.finished)) × Kept meaning config table after new now intakes None }
{}

/// A turn ends: the net answered Turn, Stop or Failed, and then the hub sends what it holds, finishes connections and notes the
/// turn.
pub fn turn_ended<H: Handler>()
    ensures { (meaning : Meaning H.State) (config : ConfigValue) (table : RouteTable) (notes : List NoteValue) (old : Server) (now : H.State) (intakes : ℕ → IntakeView) →
        Kept meaning config table notes old now intakes None → (answer : NetEvent) (net : NetState) (new : Server) (after : List NoteValue) (ends : EndsTurn (server old.hub net old.told) new) →
        is_rest answer ≡ true → length old.net.passed < 2 ^ 64 - 1 → Nexts answer old.net net → Appends nothing (server old.hub net old.told) new → new.told ≡ Some after →
        IsTable (table_of old.hub) → IsTable (table_of new.hub) →
        (after ≡ notes ++ (ends.proceeds.sending ++ (finishes ends.finished ++ note.turn ∷ []))) × Kept meaning config table after new now intakes None }
{}

/// What is kept after a turn is right, where the counts of items are below their end, each note is sound, what the handler was told is
/// right and the notes are timely: with what the rings hold of connections that are not gone.
pub fn carried_right<H: Handler>()
    ensures { (meaning : Meaning H.State) (config : ConfigValue) (table : RouteTable) (notes : List NoteValue) (s : Server) (now : H.State) (intakes : ℕ → IntakeView) →
        Kept meaning config table notes s now intakes None → Settled s.hub → ((conn : ℕ) → length (plain meaning notes conn) < 2 ^ 64 - 1) →
        ((before rest : List NoteValue) (this : NoteValue) → notes ≡ before ++ this ∷ rest → Sound meaning config before this) →
        ToldRight meaning notes → Timely meaning config notes → Right meaning config table notes s.net now (backlog_at s.hub) }
{}

/// After the end of a turn all is settled, where no Closed event was due as it began, and the handler was told in it of those that had
/// something to tell: with what the rings hold of connections that are not gone.
pub fn turn_settled<H: Handler>()
    ensures { (answer : NetEvent) (old new : Server) (net : NetState) → is_rest answer ≡ true → Nexts answer old.net net → EndsTurn (server old.hub net old.told) new →
        (meaning : Meaning H.State) (config : ConfigValue) (table : RouteTable) (notes after : List NoteValue) (now : H.State) (intakes : ℕ → IntakeView) →
        Kept meaning config table notes old now intakes None → length old.net.passed < 2 ^ 64 - 1 → Appends nothing (server old.hub net old.told) new → new.told ≡ Some after →
        IsTable (table_of old.hub) → IsTable (table_of new.hub) → Settled new.hub → Ties new → RingsWait old → AreRead None old → AreThere old → ((conn : ℕ) → due_at old.hub conn ≡ None) →
        ((before made : List NoteValue) → after ≡ before ++ made → meant.IsTurn before made → AreTold meaning before made) →
        meant.Settled meaning after new.net (record { pending = 0; gathered = []; backlog = backlog_at new.hub }) }
{}
