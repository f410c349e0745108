//! What stands to be told, by the notes alone. Each function says laws, and does nothing.

ghost use Rattle.std.specs.Prelude.{◌≡◌, ◌&&◌, ◌-◌, ◌^◌, min, ℕ, List, [], ◌∷◌, ◌++◌, false};
ghost use Rattle.std.specs.List.{list_any};
ghost use Rattle.ws_kinds.specs.NoteValue.{NoteValue, turn};
ghost use Rattle.run_meaning.specs.Server.{Server as Meaning};
ghost use Rattle.run_meaning.specs.Notes.{is_turn};
ghost use Rattle.run_meaning.specs.Tell.{at_turn, tell_by_all};
ghost use Rattle.run_meaning.specs.Told.{held_after, tell};
ghost use Rattle.run_told.specs.Trace.{drops_back, is_empty_back, trace, was_held_back};

use ws_kinds::Handler;

/// More notes that end no turn, and the end of a turn.
pub fn tells_go_on<H: Handler>()
    ensures within { (meaning : Meaning H.State) (notes more : List NoteValue) (conn : ℕ) → list_any is_turn more ≡ false →
        tell meaning (notes ++ more) conn ≡ tell_by_all conn more (tell meaning notes conn) }
    ensures turn { (meaning : Meaning H.State) (notes : List NoteValue) (conn : ℕ) →
        tell meaning (notes ++ turn ∷ []) conn ≡ at_turn (held_after meaning notes conn) (tell meaning notes conn) }
{}

/// What stands to be told of a connection is what is read from the last note back: how many items were dropped since its mark, of
/// which the count stands still at its end; and whether it held nothing as the last turn ended, but octets as a turn ended before, or
/// an item of it was dropped.
#[tactic(auto, using(crate::proofs::TraceLemmas::read_dropped, crate::proofs::TraceLemmas::read_drained))]
pub fn tells_are_read_back<H: Handler>()
    ensures dropped { (meaning : Meaning H.State) (notes : List NoteValue) (conn : ℕ) →
        (tell meaning notes conn).dropped ≡ min (drops_back (trace meaning notes conn)) (2 ^ 64 - 1) }
    ensures drained { (meaning : Meaning H.State) (notes : List NoteValue) (conn : ℕ) →
        (tell meaning notes conn).drained ≡ (is_empty_back (trace meaning notes conn) && was_held_back false (trace meaning notes conn)) }
{}
