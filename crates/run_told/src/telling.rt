//! What a hub has to tell, beside what its notes say. Each function says laws, and does nothing.

ghost use Rattle.std.specs.Prelude.{◌≡◌, ◌<◌, ◌-◌, ◌^◌, ℕ, List, [], ◌∷◌, ◌++◌, Option, Bool, true, false, length};
ghost use Rattle.std.specs.List.{list_any};
ghost use Rattle.ws_kinds.specs.ConfigValue.{ConfigValue};
ghost use Rattle.ws_kinds.specs.NoteValue as note;
ghost use Rattle.ws_kinds.specs.NoteValue.{NoteValue};
ghost use Rattle.ws_kinds.specs.OrderValue.{OrderValue};
ghost use Rattle.ws_kinds.specs.Watch.{IsNoted};
ghost use Rattle.link_trait.specs.NetState.{NetState};
ghost use Rattle.run_meaning.specs.Counts.{is_accepted, taken};
ghost use Rattle.run_meaning.specs.Server.{Server as Meaning};
ghost use Rattle.run_meaning.specs.Lines.{plain, world};
ghost use Rattle.run_meaning.specs.Notes.{is_turn};
ghost use Rattle.run_meaning.specs.Steps.{notes_of};
ghost use Rattle.run_meaning.specs.Tell.{is_telling};
ghost use Rattle.hub_lines.specs.State.{HubState, Server, server};
ghost use Rattle.hub_lines.specs.Calls.{Settled, nothing};
ghost use Rattle.hub_notes.specs.Calls.{Appends, Proceeds};
ghost use Rattle.hub_notes.specs.Serving.{ServesAll};
ghost use Rattle.hub_notes.specs.Tells.{TellsBy};
ghost use Rattle.hub_notes.specs.Turns.{EndsTurn, finishes};
ghost use Rattle.run_laws.specs.Agrees.{Agrees};
ghost use Rattle.run_told.specs.Tellings.{HoldsAs, IsTold, TellsNext};
ghost use Rattle.hub_notes.specs.NextTold.{TakesTold};

use ws_kinds::Handler;

/// What is to be told next is handed out, and then noted as told.
pub fn telling_is_noted()
    ensures { (after conn dropped : ℕ) (drained : Bool) (old new : HubState) (net : NetState) (before noted : Option (List NoteValue)) →
        TakesTold after conn dropped drained old new → Appends nothing (server old net before) (server new net before) →
        IsNoted before (note.told conn dropped drained) noted → TellsNext after conn dropped drained (server old net before) (server new net noted) }
{}

/// A hub without anything to tell has to tell what no notes say (`first`). It goes on to have to tell what its notes say, and what the
/// handler was told is right: with a call that ends no turn and tells the handler nothing (`call`), such as one that sends
/// something (`proceeds`) and the orders of an event (`orders`); where the handler is told next (`next`); and with the end of a turn,
/// where the hub then holds what its notes say (`ends`). It does so where it agrees with them, nothing is pending or corked, and its
/// links took as many octets as they say (`holds`).
pub fn told_goes_on<H: Handler>()
    ensures first { (meaning : Meaning H.State) (hub : HubState) → hub.tellings ≡ [] → IsTold meaning [] hub }
    ensures call { (meaning : Meaning H.State) (notes made : List NoteValue) (old new : HubState) → list_any is_turn made ≡ false →
        list_any is_telling made ≡ false → TellsBy made old new → IsTold meaning notes old → IsTold meaning (notes ++ made) new }
    ensures proceeds { (meaning : Meaning H.State) (notes first last : List NoteValue) (old new : Server) (steps : Proceeds first last old new) →
        list_any is_turn first ≡ false → list_any is_turn last ≡ false → list_any is_telling first ≡ false → list_any is_telling last ≡ false →
        IsTold meaning notes old.hub → IsTold meaning (notes ++ (first ++ (steps.sending ++ last))) new.hub }
    ensures orders { (meaning : Meaning H.State) (notes : List NoteValue) (config : ConfigValue) (admits : List ℕ → Bool) (from number : ℕ)
        (orders : List OrderValue) (old new : Server) (served : ServesAll config admits from number orders old new) →
        IsTold meaning notes old.hub → IsTold meaning (notes ++ notes_of served.steps) new.hub }
    ensures next { (meaning : Meaning H.State) (notes : List NoteValue) (after conn dropped : ℕ) (drained : Bool) (old new : Server) →
        Agrees (world meaning notes) notes old → TellsNext after conn dropped drained old new →
        IsTold meaning notes old.hub → IsTold meaning (notes ++ note.told conn dropped drained ∷ []) new.hub }
    ensures ends { (meaning : Meaning H.State) (notes : List NoteValue) (old new : Server) (ends : EndsTurn old new) →
        HoldsAs meaning (notes ++ (ends.proceeds.sending ++ (finishes ends.finished ++ note.turn ∷ []))) new.hub →
        IsTold meaning notes old.hub → IsTold meaning (notes ++ (ends.proceeds.sending ++ (finishes ends.finished ++ note.turn ∷ []))) new.hub }
    ensures holds { (meaning : Meaning H.State) (notes : List NoteValue) (s : Server) → Agrees (world meaning notes) notes s → Settled s.hub →
        ((conn : ℕ) → length (plain meaning notes conn) < 2 ^ 64 - 1) →
        ((conn : ℕ) → is_accepted conn notes ≡ true → length (s.net.taken conn) ≡ taken conn notes) → HoldsAs meaning notes s.hub }
{}
