//! What a server keeps while an event is given to the handler and its orders are served. Each function says laws, and does
//! nothing.

ghost use Rattle.std.specs.Prelude.{◌≡◌, ◌≢◌, ℕ, List, [], ◌∷◌, ◌++◌, Bool, Some, None};
ghost use Rattle.ws_kinds.specs.declared.kind.Kind.{Kind};
ghost use Rattle.ws_kinds.specs.declared.note.Phase.TheVariants.{Head, Open};
ghost use Rattle.ws_kinds.specs.ConfigValue.{ConfigValue};
ghost use Rattle.ws_kinds.specs.NoteValue as note;
ghost use Rattle.ws_kinds.specs.NoteValue.{NoteValue};
ghost use Rattle.ws_kinds.specs.EventValue as event;
ghost use Rattle.ws_kinds.specs.EventValue.{EventValue};
ghost use Rattle.ws_kinds.specs.Watch.{AreNoted};
ghost use Rattle.wire_meaning.specs.Event as wire;
ghost use Rattle.wire_meaning.specs.Answer.{reply};
ghost use Rattle.route_table.specs.Table.{RouteTable};
ghost use Rattle.run_meaning.specs.Server.{Server as Meaning};
ghost use Rattle.run_meaning.specs.Lines.{phase};
ghost use Rattle.run_meaning.specs.Life.{heard, opened};
ghost use Rattle.hub_lines.specs.State.{Server, PartingValue};
ghost use Rattle.hub_lines.specs.Calls.{nothing, only};
ghost use Rattle.hub_notes.specs.Answers.{Makes};
ghost use Rattle.hub_notes.specs.Calls.{Proceeds, Appends};
ghost use Rattle.hub_notes.specs.Serving.{ServesAll};
ghost use Rattle.hub_notes.specs.Table.{IsTable, TakesDue, table_of};
ghost use Rattle.run_laws.specs.Readers.{IsRead};
ghost use Rattle.run_laws.specs.Hears.{HearsFrames};
ghost use Rattle.run_kept.specs.Kept.{IntakeView, SameButReader, Kept};
ghost use Rattle.run_kept.specs.Giving.{event_for, OrdersServed};

use ws_kinds::Handler;

/// A message was read of an open connection, and noted. The handler was given it, and its orders were served.
pub fn message_told<H: Handler>()
    ensures { (meaning : Meaning H.State) (config : ConfigValue) (table : RouteTable) (notes after : List NoteValue) (conn : ℕ) (kind : Kind) (body : List ℕ) (given : EventValue)
        (old noted new : Server) (now next : H.State) (intakes later : ℕ → IntakeView) →
        Kept meaning config table notes old now intakes (Some conn) → phase meaning notes conn ≡ Some Open →
        IsRead (intakes conn).reader (wire.message kind body ∷ []) (later conn).reader → SameButReader conn intakes later →
        noted.hub ≡ old.hub → noted.net ≡ old.net → AreNoted old.told (note.message conn kind body ∷ []) noted.told →
        given ≡ event_for conn (intakes conn) (event.message kind body) → next ≡ meaning.after now given → ServesAll noted.hub.config meaning.admits conn 0 (meaning.said next given) noted new →
        new.told ≡ Some after →
        IsTable (table_of old.hub) → IsTable (table_of new.hub) →
        OrdersServed meaning config notes (note.message conn kind body) [] after noted new next × Kept meaning config table after new next later (Some conn) }
{}

/// The hub handed out a Closed event, while subscriptions stayed, and it was noted. The handler was given it, and its orders were
/// served. No connection is being read.
pub fn closed_told<H: Handler>()
    ensures { (meaning : Meaning H.State) (config : ConfigValue) (table : RouteTable) (notes after : List NoteValue) (parting : PartingValue) (given : EventValue)
        (old taken noted new : Server) (now next : H.State) (intakes : ℕ → IntakeView) →
        Kept meaning config table notes old now intakes None →
        TakesDue (Some parting) (table_of old.hub) (table_of taken.hub) → taken.hub.pairs ≡ old.hub.pairs → Appends nothing old taken → taken.net ≡ old.net → taken.told ≡ old.told →
        noted.hub ≡ taken.hub → noted.net ≡ taken.net → AreNoted taken.told (note.closed parting.conn parting.code parting.reason ∷ []) noted.told →
        given ≡ event_for parting.conn (intakes parting.conn) (event.closed parting.code parting.reason) → next ≡ meaning.after now given →
        ServesAll noted.hub.config meaning.admits parting.conn 0 (meaning.said next given) noted new → new.told ≡ Some after →
        IsTable (table_of old.hub) → IsTable (table_of new.hub) →
        OrdersServed meaning config notes (note.closed parting.conn parting.code parting.reason) [] after noted new next × Kept meaning config table after new next intakes None }
{}

/// It was noted what there is to tell of an open connection. The handler was given it, and its orders were served. No connection is being
/// read.
pub fn news_told<H: Handler>()
    ensures { (meaning : Meaning H.State) (config : ConfigValue) (table : RouteTable) (notes after : List NoteValue) (conn dropped : ℕ) (drained : Bool) (given : EventValue)
        (old noted new : Server) (now next : H.State) (intakes : ℕ → IntakeView) →
        Kept meaning config table notes old now intakes None → phase meaning notes conn ≡ Some Open →
        Makes (note.told conn dropped drained ∷ []) old noted → Appends nothing old noted →
        given ≡ event_for conn (intakes conn) (event.told dropped drained) → next ≡ meaning.after now given →
        ServesAll noted.hub.config meaning.admits conn 0 (meaning.said next given) noted new → new.told ≡ Some after →
        IsTable (table_of old.hub) → IsTable (table_of new.hub) →
        OrdersServed meaning config notes (note.told conn dropped drained) [] after noted new next × Kept meaning config table after new next intakes None }
{}

/// The request of a connection that is being read was admitted, its head was taken off its reader, and its intake has the
/// route and the parameter. The handler was given the Opened event, and its orders were served.
pub fn opened_told<H: Handler>()
    ensures { (meaning : Meaning H.State) (config : ConfigValue) (table : RouteTable) (notes after : List NoteValue) (conn route : ℕ) (param text : List ℕ) (given : EventValue)
        (old admitted new : Server) (now next : H.State) (intakes later : ℕ → IntakeView) →
        Kept meaning config table notes old now intakes (Some conn) → phase meaning notes conn ≡ Some Head →
        (steps : Proceeds (note.opened conn route param ∷ []) [] old admitted) → Appends (only conn (reply text)) old admitted → meaning.reply conn ≡ text →
        HearsFrames table config.max_message None (heard conn notes ++ opened route param ∷ []) (old.net.given conn) (later conn).reader →
        (later conn).route ≡ route → (later conn).param ≡ param → ((other : ℕ) → other ≢ conn → later other ≡ intakes other) →
        given ≡ event_for conn (later conn) event.opened → next ≡ meaning.after now given → ServesAll admitted.hub.config meaning.admits conn 0 (meaning.said next given) admitted new →
        new.told ≡ Some after →
        IsTable (table_of old.hub) → IsTable (table_of new.hub) →
        OrdersServed meaning config notes (note.opened conn route param) steps.sending after admitted new next × Kept meaning config table after new next later (Some conn) }
{}
