//! What was heard at the end of each turn, as turns end. The function says a law, and does nothing.

ghost use Rattle.std.specs.Prelude.{◌≡◌, ℕ, List, [], ◌∷◌, ◌++◌, true, false};
ghost use Rattle.std.specs.List.{list_any};
ghost use Rattle.ws_kinds.specs.ConfigValue.{ConfigValue};
ghost use Rattle.ws_kinds.specs.NoteValue.{NoteValue, turn};
ghost use Rattle.link_trait.specs.NetState.{NetState};
ghost use Rattle.link_trait.specs.Net.{is_rest};
ghost use Rattle.link_trait.specs.declared.net.NetEvent.{NetEvent};
ghost use Rattle.route_table.specs.Table.{RouteTable};
ghost use Rattle.run_meaning.specs.Server.{Server as Meaning};
ghost use Rattle.run_meaning.specs.Network.{Follows};
ghost use Rattle.run_meaning.specs.Life.{LivedThroughout};
ghost use Rattle.run_meaning.specs.Right.{Right};

use ws_kinds::Handler;

/// One more turn ended, after which the run is right: then what was heard at the end of each turn so far is what the octets say
/// that were read until then, where it was so before this turn. The net's answers went on by some that end no turn and then by
/// the one that ended this, and the notes end with it.
pub fn lived_through_turn<H: Handler>()
    ensures { (meaning : Meaning H.State) (config : ConfigValue) (table : RouteTable) (notes later front : List NoteValue) (old new : NetState) (between : List NetEvent) (answer : NetEvent)
        (now : H.State) (held : ℕ → List ℕ) →
        Follows notes old → Right meaning config table (notes ++ later) new now held → ((conn : ℕ) → (behind : List ℕ) × (new.given conn ≡ old.given conn ++ behind)) →
        list_any is_rest between ≡ false → is_rest answer ≡ true → new.passed ≡ old.passed ++ (between ++ answer ∷ []) → notes ++ later ≡ front ++ turn ∷ [] →
        LivedThroughout meaning table config.max_message notes old.given → LivedThroughout meaning table config.max_message (notes ++ later) new.given }
{}
