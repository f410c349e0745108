//! That each note is sound at its place, as the steps of a server make notes. Each function says laws, and does nothing.

ghost use Rattle.std.specs.Prelude.{◌≡◌, ◌<◌, ◌≤◌, ◌-◌, ◌^◌, ℕ, List, [], ◌∷◌, ◌++◌, Some, None, Bool, true, length};
ghost use Rattle.std.specs.List.{list_all};
ghost use Rattle.ws_kinds.specs.ConfigValue.{ConfigValue};
ghost use Rattle.ws_kinds.specs.NoteValue.{NoteValue, closed, given, tick, turn};
ghost use Rattle.ws_kinds.specs.OrderValue.{OrderValue};
ghost use Rattle.run_meaning.specs.Counts.{accepted_by, gather, is_accepted, taken};
ghost use Rattle.run_meaning.specs.Server.{Server as Meaning};
ghost use Rattle.run_meaning.specs.Lines.{plain, world};
ghost use Rattle.run_meaning.specs.Settled.{is_reading};
ghost use Rattle.hub_lines.specs.State.{Server, phase_at};
ghost use Rattle.hub_notes.specs.Progress.{due_at, progress_at};
ghost use Rattle.hub_notes.specs.Calls.{Advances, Proceeds};
ghost use Rattle.hub_notes.specs.Table.{IsTable, table_of};
ghost use Rattle.run_laws.specs.Agrees.{Agrees};
ghost use Rattle.run_laws.specs.Numbers.{AreUnlike};
ghost use Rattle.run_kept.specs.Sounds.{AreSound};
ghost use Rattle.hub_notes.specs.declared.arrival.Arrival.{Arrival};
ghost use Rattle.hub_notes.specs.Answers.{Arrives};
ghost use Rattle.hub_notes.specs.Serving.{ServesAll};
ghost use Rattle.hub_notes.specs.Ticks.{Ticks};
ghost use Rattle.hub_notes.specs.Turns.{finishes, EndsTurn, Offers};
ghost use Rattle.run_kept.specs.Known.{Known, Shows};
ghost use Rattle.run_kept.specs.Tests.{is_inner};
ghost use Rattle.run_kept.specs.Arrivals.{arrival_note};

use ws_kinds::Handler;

/// Beside notes that are sound, a hub that is as they say shows only connections that were accepted and are not gone. In the world
/// of such notes it is known who was accepted and who is gone.
pub fn shown<H: Handler>()
    ensures hub { (meaning : Meaning H.State) (config : ConfigValue) (notes : List NoteValue) (s : Server) → AreSound meaning config notes → Agrees (world meaning notes) notes s → Shows notes s }
    ensures world { (meaning : Meaning H.State) (config : ConfigValue) (notes : List NoteValue) → AreSound meaning config notes → Known (world meaning notes) notes }
{}

/// The notes of a call of the hub are sound where none says that something came from outside, that an order is not served, that the
/// handler was told of an end, or that a connection is finished.
pub fn calls<H: Handler>()
    ensures call { (meaning : Meaning H.State) (config : ConfigValue) (made notes : List NoteValue) (old new : Server) → Shows notes old → Advances made old new →
        list_all is_inner made ≡ true → AreSound meaning config notes → AreSound meaning config (notes ++ made) × Shows (notes ++ made) new }
    ensures proceeds { (meaning : Meaning H.State) (config : ConfigValue) (first last notes : List NoteValue) (old new : Server) (steps : Proceeds first last old new) → Shows notes old →
        list_all is_inner first ≡ true → list_all is_inner last ≡ true → AreSound meaning config notes →
        AreSound meaning config (notes ++ (first ++ (steps.sending ++ last))) × Shows (notes ++ (first ++ (steps.sending ++ last))) new }
{}

/// Octets came of a connection that is read, or time went by: the notes are sound where no Closed event was due before.
pub fn from_outside<H: Handler>()
    ensures octets { (meaning : Meaning H.State) (config : ConfigValue) (notes : List NoteValue) (conn count : ℕ) (s : Server) → Agrees (world meaning notes) notes s →
        ((other : ℕ) → due_at s.hub other ≡ None) → is_reading (phase_at s.hub conn) ≡ true → 1 ≤ count → AreSound meaning config notes →
        AreSound meaning config (notes ++ given conn count ∷ []) }
    ensures time { (meaning : Meaning H.State) (config : ConfigValue) (notes : List NoteValue) (old new : Server) (ticks : Ticks old new) → Agrees (world meaning notes) notes old →
        ((conn : ℕ) → due_at old.hub conn ≡ None) → AreSound meaning config notes →
        AreSound meaning config (notes ++ tick ∷ ticks.rest) × Shows (notes ++ tick ∷ ticks.rest) new }
{}

/// The handler is told of an end that is due, while the hub moves nobody.
pub fn closed_event<H: Handler>()
    ensures { (meaning : Meaning H.State) (config : ConfigValue) (notes : List NoteValue) (conn code : ℕ) (reason : List ℕ) (old new : Server) → Agrees (world meaning notes) notes old →
        due_at old.hub conn ≡ Some (code, reason) → ((other : ℕ) → (progress_at new.hub other).phase ≡ (progress_at old.hub other).phase) → AreSound meaning config notes →
        AreSound meaning config (notes ++ closed conn code reason ∷ []) × Shows (notes ++ closed conn code reason ∷ []) new }
{}

/// The note of a connection that comes, and was not accepted before, is sound where no Closed event is due, the hub has a table and
/// no connection was accepted twice, which stays so.
pub fn arrivals<H: Handler>()
    ensures { (meaning : Meaning H.State) (config : ConfigValue) (arrival : Arrival) (notes : List NoteValue) (conn : ℕ) (old new : Server) → Agrees (world meaning notes) notes old →
        ((other : ℕ) → due_at old.hub other ≡ None) → IsTable (table_of old.hub) → AreUnlike (gather accepted_by notes) → old.hub.config ≡ config → old.hub.named < conn → Arrives arrival conn old new → AreSound meaning config notes →
        AreSound meaning config (notes ++ arrival_note arrival conn ∷ []) × Shows (notes ++ arrival_note arrival conn ∷ []) new ×
        AreUnlike (gather accepted_by (notes ++ arrival_note arrival conn ∷ [])) }
{}

/// The notes that are made while the orders of a connection are served are sound, where that connection was accepted.
pub fn orders<H: Handler>()
    ensures { (meaning : Meaning H.State) (config : ConfigValue) (numbers : ConfigValue) (admits : List ℕ → Bool) (from number : ℕ) (all : List OrderValue) (notes after : List NoteValue)
        (old new : Server) → ServesAll numbers admits from number all old new →
        old.told ≡ Some notes → new.told ≡ Some after → Shows notes old → is_accepted from notes ≡ true → AreSound meaning config notes → AreSound meaning config after × Shows after new }
{}

/// The notes of a turn's end are sound where each link took as many octets as the notes say and no count of items is at its
/// end: one that is finished is ending, and its link took all its items that were not dropped.
pub fn turns<H: Handler>()
    ensures { (meaning : Meaning H.State) (config : ConfigValue) (notes after : List NoteValue) (old new : Server) (ends : EndsTurn old new) → Agrees (world meaning notes) notes old →
        new.told ≡ Some after →
        ((conn : ℕ) → is_accepted conn notes ≡ true → length (old.net.taken conn) ≡ taken conn notes) → ((conn : ℕ) → length (plain meaning notes conn) < 2 ^ 64 - 1) → AreSound meaning config notes →
        AreSound meaning config (notes ++ (ends.proceeds.sending ++ (finishes ends.finished ++ turn ∷ []))) × Shows (notes ++ (ends.proceeds.sending ++ (finishes ends.finished ++ turn ∷ []))) new }
{}

/// The notes of a call that offers what is held for a connection are sound, as those of a turn's end are.
pub fn offers<H: Handler>()
    ensures { (meaning : Meaning H.State) (config : ConfigValue) (notes after : List NoteValue) (conn : ℕ) (old new : Server) (offers : Offers conn old new) → Agrees (world meaning notes) notes old →
        new.told ≡ Some after →
        ((other : ℕ) → is_accepted other notes ≡ true → length (old.net.taken other) ≡ taken other notes) → ((other : ℕ) → length (plain meaning notes other) < 2 ^ 64 - 1) →
        AreSound meaning config notes →
        AreSound meaning config (notes ++ (offers.proceeds.sending ++ finishes offers.finished)) × Shows (notes ++ (offers.proceeds.sending ++ finishes offers.finished)) new }
{}
