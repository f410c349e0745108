//! What a server keeps while a connection is accepted. Each function says laws, and does nothing.

ghost use Rattle.std.specs.Prelude.{◌≡◌, ◌≢◌, ◌<◌, ◌^◌, ◌-◌, ℕ, List, [], ◌∷◌, ◌++◌, Some, None, true, length};
ghost use Rattle.ws_kinds.specs.declared.conn.Conn.{Conn};
ghost use Rattle.ws_kinds.specs.ConfigValue.{ConfigValue};
ghost use Rattle.ws_kinds.specs.NoteValue as note;
ghost use Rattle.ws_kinds.specs.NoteValue.{NoteValue};
ghost use Rattle.link_trait.specs.NetState.{NetState};
ghost use Rattle.link_trait.specs.Net.{Nexts};
ghost use Rattle.link_trait.specs.declared.net.NetEvent.TheVariants as event;
ghost use Rattle.route_table.specs.Table.{RouteTable};
ghost use Rattle.run_meaning.specs.Server.{Server as Meaning};
ghost use Rattle.run_meaning.specs.Right.{Sound};
ghost use Rattle.hub_lines.specs.State.{Server, server};
ghost use Rattle.hub_lines.specs.Calls.{nothing};
ghost use Rattle.hub_notes.specs.Calls.{Appends};
ghost use Rattle.hub_notes.specs.Table.{IsTable, table_of};
ghost use Rattle.hub_notes.specs.Answers.{Arrives};
ghost use Rattle.hub_notes.specs.declared.arrival.Arrival.TheVariants.{Taken};
ghost use Rattle.run_kept.specs.Kept.{IntakeView, Kept};

use ws_kinds::Handler;

/// A connection came and is accepted, with a number above all that were accepted before, where each note so far is sound. Its
/// intake is new.
pub fn arrived<H: Handler>()
    ensures { (meaning : Meaning H.State) (config : ConfigValue) (table : RouteTable) (notes : List NoteValue) (old : Server) (now : H.State) (intakes : ℕ → IntakeView) →
        Kept meaning config table notes old now intakes None → (conn : Conn) (net : NetState) (new : Server) (after : List NoteValue) →
        Nexts (event.Accept conn) old.net net → Arrives Taken conn.0 (server old.hub net old.told) new → Appends nothing (server old.hub net old.told) new → new.told ≡ Some after →
        old.hub.named < conn.0 → ((before rest : List NoteValue) (this : NoteValue) → notes ≡ before ++ this ∷ rest → Sound meaning config before this) →
        (later : ℕ → IntakeView) → length old.net.passed < 2 ^ 64 - 1 → IsTable (table_of old.hub) → IsTable (table_of new.hub) →
        (later conn.0).reader.raw ≡ [] → (later conn.0).reader.unread ≡ true → (later conn.0).reader.max ≡ config.max_message → (later conn.0).route ≡ 0 → (later conn.0).param ≡ [] →
        ((other : ℕ) → other ≢ conn.0 → later other ≡ intakes other) → Kept meaning config table (notes ++ note.accepted conn.0 ∷ []) new now later None }
{}
