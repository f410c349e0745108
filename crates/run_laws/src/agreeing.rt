//! What the steps of a server make of a hub beside what its notes say. Each function says laws, and does nothing.

ghost use Rattle.std.specs.Prelude.{◌≡◌, ◌≢◌, ◌<◌, ◌-◌, ◌^◌, ℕ, List, [], ◌∷◌, ◌++◌, Some, None, Bool, true, false, length};
ghost use Rattle.std.specs.List.{list_all, list_any};
ghost use Rattle.ws_kinds.specs.declared.note.Phase.{Phase};
ghost use Rattle.ws_kinds.specs.ConfigValue.{ConfigValue};
ghost use Rattle.ws_kinds.specs.NoteValue.{NoteValue, accepted, closed, dropped};
ghost use Rattle.ws_kinds.specs.EventValue.{EventValue};
ghost use Rattle.ws_kinds.specs.OrderValue.{OrderValue};
ghost use Rattle.wire_meaning.specs.Answer.{Item, reply};
ghost use Rattle.run_meaning.specs.Notes.{is_acceptance};
ghost use Rattle.run_meaning.specs.Counts.{accepted_by, closes, gather, is_accepted};
ghost use Rattle.run_meaning.specs.Server.{Server as Meaning};
ghost use Rattle.run_meaning.specs.Lines.{Line, World, noted, noted_all, orders_of, unknown, first_world, world, phase, plain};
ghost use Rattle.run_meaning.specs.Fair.{IsFair};
ghost use Rattle.run_meaning.specs.Orders.{Ordered, event_at, standings, why_at};
ghost use Rattle.run_meaning.specs.Steps.{Step, notes_of, line_by_all};
ghost use Rattle.run_meaning.specs.Performs.{is_outgoing};
ghost use Rattle.run_meaning.specs.Life.{Carried};
ghost use Rattle.run_meaning.specs.Right.{entries};
ghost use Rattle.hub_lines.specs.State.{HubState, PartingValue, Server, has_entry, is_gone, phase_at, ring_at};
ghost use Rattle.hub_lines.specs.Calls.{nothing, served, IsNewTo, Settled, Starts};
ghost use Rattle.hub_notes.specs.Progress.{due_at, progress_at, standings_at};
ghost use Rattle.hub_notes.specs.Fronts.{items_at};
ghost use Rattle.hub_notes.specs.Calls.{Advances, Appends, Does};
ghost use Rattle.hub_notes.specs.Serving.{ServesAll};
ghost use Rattle.hub_notes.specs.Table.{AreRising, TakesDue, is_kept, table_of};
ghost use Rattle.run_laws.specs.Agrees.{AgreesAt, Agrees};
ghost use Rattle.run_laws.specs.Numbers.{AreUnlike};
ghost use Rattle.run_laws.specs.Tests.{is_closed};

use ws_kinds::Handler;

/// A call of the hub makes notes and appends items: where the world of its notes appends the same items, the hub is
/// afterwards as that world says. And of one connection, a call that is told by its steps, among which orders are served.
pub fn after_a_call<H: Handler>()
    ensures notes { (meaning : Meaning H.State) (world : World H.State) (notes after made : List NoteValue) (appended : ℕ → List Item) (old new : Server) →
        Agrees world notes old → Advances made old new → Appends appended old new → new.told ≡ Some after →
        list_any is_acceptance made ≡ false → list_any is_closed made ≡ false →
        ((conn : ℕ) → ((noted_all meaning made world).line conn).items ≡ (world.line conn).items ++ appended conn) →
        Agrees (noted_all meaning made world) (notes ++ made) new }
    ensures steps { (meaning : Meaning H.State) (conn : ℕ) (line : Line) (notes : List NoteValue) (steps : List Step) (old new : Server) →
        AgreesAt conn line notes old → Does meaning.reply steps old new → is_accepted conn (notes_of steps) ≡ false → closes conn (notes_of steps) ≡ [] →
        AgreesAt conn (line_by_all meaning conn steps line) (notes ++ notes_of steps) new }
{}

/// The hub is as the notes say, up to an event and what was sent since its note; then the event's orders are served. So the hub
/// is as all notes say, each order is served or named as not served for its reason, and the handler's state is the one after
/// the event.
pub fn after_the_orders<H: Handler>()
    ensures agrees { (meaning : Meaning H.State) (config : ConfigValue) (before : List NoteValue) (this : NoteValue) (event : EventValue) (sending after : List NoteValue) (old new : Server) →
        event_at this (noted meaning this (world meaning before)) ≡ Some event → list_all is_outgoing sending ≡ true →
        Agrees (noted_all meaning sending (noted meaning this (world meaning before))) (before ++ this ∷ sending) old →
        (served : ServesAll config meaning.admits event.conn 0 (orders_of meaning event (noted meaning this (world meaning before))) old new) → new.told ≡ Some after →
        Agrees (world meaning (before ++ this ∷ (sending ++ notes_of served.steps))) (before ++ this ∷ (sending ++ notes_of served.steps)) new }
    ensures ordered { (meaning : Meaning H.State) (config : ConfigValue) (before : List NoteValue) (this : NoteValue) (event : EventValue) (sending : List NoteValue) (old new : Server) →
        event_at this (noted meaning this (world meaning before)) ≡ Some event → list_all is_outgoing sending ≡ true →
        Agrees (noted_all meaning sending (noted meaning this (world meaning before))) (before ++ this ∷ sending) old →
        (served : ServesAll config meaning.admits event.conn 0 (orders_of meaning event (noted meaning this (world meaning before))) old new) →
        Ordered meaning config before → Ordered meaning config (before ++ this ∷ (sending ++ notes_of served.steps))
        × ((world meaning (before ++ this ∷ (sending ++ notes_of served.steps))).state ≡ meaning.after (world meaning before).state event) }
{}

/// A connection is accepted that no note named before: it is in phase Head, and nothing was put for it.
pub fn after_accepting<H: Handler>()
    ensures { (meaning : Meaning H.State) (world : World H.State) (conn : ℕ) (notes after : List NoteValue) (old new : Server) → Agrees world notes old →
        Advances (accepted conn ∷ []) old new → Appends nothing old new → new.told ≡ Some after →
        Starts conn new → new.hub.named ≡ conn → IsNewTo conn new → items_at new.hub conn ≡ 0 →
        world.line conn ≡ unknown → closes conn notes ≡ [] → Agrees (noted meaning (accepted conn) world) (notes ++ accepted conn ∷ []) new }
{}

/// The table hands out the Closed event of a connection, which is then due no more, and the loop notes it. `taken` says what
/// becomes of the progress of each connection, where the subscriptions stay.
pub fn after_a_closed_event<H: Handler>()
    ensures taken { (old new : HubState) (parting : PartingValue) → TakesDue (Some parting) (table_of old) (table_of new) → new.pairs ≡ old.pairs →
        (due_at old parting.conn ≡ Some (parting.code, parting.reason)) × (progress_at new parting.conn ≡ record (progress_at old parting.conn) { due = None }) ×
        ((other : ℕ) → other ≢ parting.conn → progress_at new other ≡ progress_at old other) }
    ensures noted { (meaning : Meaning H.State) (world : World H.State) (conn code : ℕ) (reason : List ℕ) (notes : List NoteValue) (old between new : Server) → Agrees world notes old →
        due_at old.hub conn ≡ Some (code, reason) → Appends nothing old between →
        progress_at between.hub conn ≡ record (progress_at old.hub conn) { due = None } → ((other : ℕ) → other ≢ conn → progress_at between.hub other ≡ progress_at old.hub other) →
        between.net ≡ old.net → between.told ≡ old.told →
        new.hub ≡ between.hub → new.net ≡ between.net → new.told ≡ Some (notes ++ closed conn code reason ∷ []) →
        Agrees (noted meaning (closed conn code reason) world) (notes ++ closed conn code reason ∷ []) new }
{}

/// After a turn, of each connection that was accepted: what its link took, and then its ring, are the items that are kept by
/// the notes; of one that is gone, its link took a front of them. This counts as long as the count of its items is below its
/// end.
pub fn carried<H: Handler>()
    ensures { (meaning : Meaning H.State) (notes : List NoteValue) (s : Server) → Agrees (world meaning notes) notes s → Settled s.hub →
        (conn : ℕ) → length (plain meaning notes conn) < 2 ^ 64 - 1 → is_accepted conn notes ≡ true → Carried meaning notes conn (s.net.taken conn) (ring_at s.hub conn) }
{}

/// Each item that was dropped of a connection was dropped fairly, whether or not it is gone. This counts as long as the count of
/// its items is below its end.
pub fn drops_are_fair<H: Handler>()
    ensures { (meaning : Meaning H.State) (config : ConfigValue) (notes : List NoteValue) (s : Server) → Agrees (world meaning notes) notes s → s.hub.config ≡ config →
        (before rest : List NoteValue) (conn index held : ℕ) → notes ≡ before ++ dropped conn index held ∷ rest → phase meaning notes conn ≢ None →
        length (plain meaning notes conn) < 2 ^ 64 - 1 → IsFair config.limit (plain meaning notes conn) before conn index held }
{}

/// The hub has for each connection the phase that its notes say, but that one which is gone may have none. So it finds the
/// same reason for not serving an order as its notes do.
pub fn why_agrees<H: Handler>()
    ensures by_notes { (world : World H.State) (notes : List NoteValue) (s : Server) → Agrees world notes s → (conn : ℕ) (phase : Phase) → is_gone phase ≡ false →
        phase_at s.hub conn ≡ Some phase → (world.line conn).phase ≡ Some phase }
    ensures by_hub { (world : World H.State) (notes : List NoteValue) (s : Server) → Agrees world notes s → (conn : ℕ) (phase : Phase) → is_gone phase ≡ false →
        (world.line conn).phase ≡ Some phase → phase_at s.hub conn ≡ Some phase }
    ensures reasons { (world : World H.State) (notes : List NoteValue) (s : Server) → Agrees world notes s →
        (config : ConfigValue) (admits : List ℕ → Bool) (from : ℕ) (order : OrderValue) → why_at config admits from (standings_at s.hub) order ≡ why_at config admits from (standings world) order }
{}

/// A Closed event that is due has the code and the reason with which its connection left Open, and the handler was not told
/// so yet. Where none is due, the handler was told of each connection that left Open, once; and of the others it was told
/// nothing.
pub fn what_is_due<H: Handler>()
    ensures due { (world : World H.State) (notes : List NoteValue) (s : Server) → Agrees world notes s → (conn : ℕ) (cause : ℕ × List ℕ) → due_at s.hub conn ≡ Some cause →
        ((world.line conn).left_open ≡ Some cause) × (closes conn notes ≡ []) }
    ensures told { (world : World H.State) (notes : List NoteValue) (s : Server) → Agrees world notes s → (conn : ℕ) (cause : ℕ × List ℕ) → due_at s.hub conn ≡ None →
        (world.line conn).left_open ≡ Some cause → closes conn notes ≡ cause ∷ [] }
    ensures others { (world : World H.State) (notes : List NoteValue) (s : Server) → Agrees world notes s → (conn : ℕ) → (world.line conn).left_open ≡ None → closes conn notes ≡ [] }
{}

/// A hub without connections is as no notes say.
pub fn at_first<H: Handler>()
    ensures { (meaning : Meaning H.State) (s : Server) → s.net.tells ≡ true → s.told ≡ Some [] → s.hub.entries ≡ [] → s.hub.pairs ≡ [] → s.hub.partings ≡ [] → Agrees (first_world meaning) [] s }
{}

/// The hub has as many entries as connections count against the greatest number of connections by the notes, where no
/// connection was accepted twice. One with a number above all that the hub accepted was not accepted.
pub fn entries_agree<H: Handler>()
    ensures number { (meaning : Meaning H.State) (notes : List NoteValue) (s : Server) → Agrees (world meaning notes) notes s →
        AreRising s.hub.entries → ((conn : ℕ) → has_entry s.hub.entries conn ≡ is_kept s.hub.entries s.hub.partings conn) →
        AreUnlike (gather accepted_by notes) → entries meaning notes ≡ length s.hub.entries }
    ensures unaccepted { (meaning : Meaning H.State) (notes : List NoteValue) (s : Server) → Agrees (world meaning notes) notes s → (conn : ℕ) → s.hub.named < conn → is_accepted conn notes ≡ false }
{}
