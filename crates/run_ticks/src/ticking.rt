//! What a hub has counted, beside what its notes say. Each function says laws, and does nothing.

ghost use Rattle.std.specs.Prelude.{◌≡◌, ℕ, List, [], ◌∷◌, ◌++◌, Bool, true, false};
ghost use Rattle.std.specs.List.{list_all, list_any};
ghost use Rattle.ws_kinds.specs.ConfigValue.{ConfigValue, IsConfig};
ghost use Rattle.ws_kinds.specs.NoteValue.{NoteValue, tick};
ghost use Rattle.ws_kinds.specs.OrderValue.{OrderValue};
ghost use Rattle.run_meaning.specs.Server.{Server as Meaning};
ghost use Rattle.run_meaning.specs.Lines.{world};
ghost use Rattle.run_meaning.specs.Quiet.{is_tick, is_uncounted};
ghost use Rattle.run_meaning.specs.Steps.{notes_of};
ghost use Rattle.run_meaning.specs.Timely.{is_ticking};
ghost use Rattle.hub_lines.specs.State.{HubState, Server};
ghost use Rattle.hub_notes.specs.Calls.{Proceeds};
ghost use Rattle.hub_notes.specs.Quiet.{CountsBeside, CountsBy};
ghost use Rattle.hub_notes.specs.Serving.{ServesAll};
ghost use Rattle.hub_notes.specs.Ticks.{Ticks};
ghost use Rattle.run_laws.specs.Agrees.{Agrees};
ghost use Rattle.run_ticks.specs.Counts.{IsTicked};

use ws_kinds::Handler;

/// A hub without connections has counted what no notes say (`first`). It goes on to have counted what its notes say, and its notes
/// are timely: with a call that counts nothing and tells of no tick (`call`), such as one that sends something (`proceeds`) and the
/// orders of an event (`orders`); with a call whose first note says that a connection was accepted or that octets of it were read
/// (`counted`); and with a tick (`tick`). For the last two it agrees with its notes before, and its numbers are those of a configuration.
pub fn ticks_go_on<H: Handler>()
    ensures first { (meaning : Meaning H.State) (hub : HubState) → hub.entries ≡ [] → IsTicked meaning [] hub }
    ensures call { (meaning : Meaning H.State) (notes made : List NoteValue) (old new : HubState) → list_all is_uncounted made ≡ true →
        list_any is_ticking made ≡ false → CountsBeside made old new → new.config ≡ old.config →
        IsTicked meaning notes old → IsTicked meaning (notes ++ made) new }
    ensures proceeds { (meaning : Meaning H.State) (notes first last : List NoteValue) (old new : Server) (steps : Proceeds first last old new) →
        list_all is_uncounted first ≡ true → list_all is_uncounted last ≡ true → list_any is_ticking first ≡ false → list_any is_ticking last ≡ false →
        new.hub.config ≡ old.hub.config → IsTicked meaning notes old.hub → IsTicked meaning (notes ++ (first ++ (steps.sending ++ last))) new.hub }
    ensures orders { (meaning : Meaning H.State) (notes : List NoteValue) (config : ConfigValue) (admits : List ℕ → Bool) (from number : ℕ)
        (orders : List OrderValue) (old new : Server) (served : ServesAll config admits from number orders old new) →
        IsTicked meaning notes old.hub → IsTicked meaning (notes ++ notes_of served.steps) new.hub }
    ensures counted { (meaning : Meaning H.State) (notes : List NoteValue) (this : NoteValue) (more : List NoteValue) (old new : Server) →
        is_tick this ≡ false → list_all is_uncounted more ≡ true → list_any is_ticking (this ∷ more) ≡ false → IsConfig old.hub.config →
        new.hub.config ≡ old.hub.config → CountsBy this old.hub new.hub → Agrees (world meaning notes) notes old →
        IsTicked meaning notes old.hub → IsTicked meaning (notes ++ this ∷ more) new.hub }
    ensures tick { (meaning : Meaning H.State) (notes : List NoteValue) (old new : Server) (ticks : Ticks old new) → IsConfig old.hub.config →
        Agrees (world meaning notes) notes old → IsTicked meaning notes old.hub → IsTicked meaning (notes ++ tick ∷ ticks.rest) new.hub }
{}
