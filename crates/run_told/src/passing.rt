//! The handler is told of one connection after another, as a turn begins. Each function says laws, and does nothing.

ghost use Rattle.std.specs.Prelude.{◌≡◌, ◌≤◌, ◌+◌, ℕ, List, ◌++◌, Bool, false};
ghost use Rattle.std.specs.List.{list_any};
ghost use Rattle.ws_kinds.specs.NoteValue.{NoteValue};
ghost use Rattle.ws_kinds.specs.Watch.{AreNoted};
ghost use Rattle.run_meaning.specs.Counts.{is_accepted};
ghost use Rattle.run_meaning.specs.Server.{Server as Meaning};
ghost use Rattle.run_meaning.specs.Lines.{world};
ghost use Rattle.run_meaning.specs.Notes.{is_turn};
ghost use Rattle.run_meaning.specs.Steps.{Step, notes_of};
ghost use Rattle.run_meaning.specs.Told.{AreTold};
ghost use Rattle.hub_lines.specs.State.{Server};
ghost use Rattle.hub_notes.specs.Calls.{Advances, Does};
ghost use Rattle.hub_notes.specs.Progress.{standings_at};
ghost use Rattle.hub_notes.specs.Table.{IsTable, table_of};
ghost use Rattle.hub_notes.specs.Tells.{tell_at};
ghost use Rattle.run_laws.specs.Agrees.{Agrees};
ghost use Rattle.run_told.specs.Tellings.{Tellings, TellsNext};
ghost use Rattle.hub_notes.specs.NextTold.{NoneToTell};
ghost use Rattle.run_told.specs.Pass.{KeepsOwed, TellsAll, TellsTo};

use ws_kinds::Handler;

/// What the handler is owed goes on: where nothing is done (`same`), with a call that accepts no number again (`call`), with the steps of
/// orders (`steps`), with a step that leaves the phases and what is to be told (`aside`), as the one that hands a Closed event out,
/// and with one after another (`then`).
pub fn owed_goes_on()
    ensures same { (s : Server) → KeepsOwed 0 s s }
    ensures call { (turns : ℕ) (made : List NoteValue) (old new : Server) → Advances made old new → (turns ≡ 0 → list_any is_turn made ≡ false) →
        old.hub.named ≤ new.hub.named → ((conn : ℕ) → conn ≤ old.hub.named → is_accepted conn made ≡ false) → KeepsOwed turns old new }
    ensures steps { (texts : ℕ → List ℕ) (steps : List Step) (old new : Server) → Does texts steps old new → list_any is_turn (notes_of steps) ≡ false →
        ((conn : ℕ) → conn ≤ old.hub.named → is_accepted conn (notes_of steps) ≡ false) → KeepsOwed 0 old new }
    ensures aside { (made : List NoteValue) (old new : Server) → AreNoted old.told made new.told → old.hub.named ≤ new.hub.named →
        ((conn : ℕ) → (standings_at new.hub conn).phase ≡ (standings_at old.hub conn).phase) →
        ((conn : ℕ) → tell_at new.hub conn ≡ tell_at old.hub conn) → KeepsOwed 0 old new }
    ensures then { (first second : ℕ) (old between new : Server) → KeepsOwed first old between → KeepsOwed second between new → KeepsOwed (first + second) old new }
{}

/// The pass begins below all connections (`starts`), goes on by the next one of which the handler is told (`next`), and by what else is
/// done before the next one (`more`), and ends where none above has something to tell (`ends`). After it nobody who was not told of
/// is open again, also after the turn has ended (`lasts`).
pub fn pass_goes_on()
    ensures starts { (old new : Server) → KeepsOwed 0 old new → IsTable (table_of new.hub) → TellsTo 0 old new }
    ensures next { (after conn dropped : ℕ) (drained : Bool) (old between new : Server) → TellsTo after old between →
        TellsNext after conn dropped drained between new → TellsTo conn old new }
    ensures more { (after : ℕ) (old between new : Server) → TellsTo after old between → KeepsOwed 0 between new → TellsTo after old new }
    ensures ends { (after : ℕ) (old new : Server) → TellsTo after old new → NoneToTell after new.hub → TellsAll old new }
    ensures lasts { (turns : ℕ) (old between new : Server) → TellsAll old between → KeepsOwed turns between new → TellsAll old new }
{}

/// By the notes: each connection that had something to tell as the turn began, and is open after it, was told of in this turn.
pub fn all_were_told<H: Handler>()
    ensures { (meaning : Meaning H.State) (before made : List NoteValue) (old new : Server) → Agrees (world meaning before) before old →
        Tellings meaning before old.hub → TellsAll old new → Agrees (world meaning (before ++ made)) (before ++ made) new → AreTold meaning before made }
{}
