//! Rows: each clause is a value that the definitions give.

ghost use Rattle.std.specs.Prelude.{◌≡◌, ℕ, [], ◌∷◌, ◌++◌, true, false};
ghost use Rattle.ws_kinds.specs.NoteValue.{ping_got};
ghost use Rattle.run_meaning.specs.Fair.{IsFair};
ghost use Rattle.run_meaning.specs.Lines.{plain};
ghost use Rattle.run_meaning.specs.Tell.{nothing_told};
ghost use Rattle.run_meaning.specs.Told.{has_to_tell, tell};
ghost use Rattle.run_told.specs.Rows.{begun, dropped_empty, dropped_held, emptied, emptied_told, gone, held_emptied, silent};

/// A connection whose link takes one octet of three, and then the others; and the handler is told of that.
pub fn it_drains()
    ensures begun { tell silent begun 1 ≡ record { dropped = 0; drained = false; full = true; dirty = true; fresh = false } }
    ensures quiet { has_to_tell silent begun 1 ≡ false }
    ensures emptied { tell silent emptied 1 ≡ record { dropped = 0; drained = true; full = false; dirty = true; fresh = false } }
    ensures due { has_to_tell silent emptied 1 ≡ true }
    ensures told { tell silent emptied_told 1 ≡ record { dropped = 0; drained = false; full = false; dirty = false; fresh = false } }
    ensures done { has_to_tell silent emptied_told 1 ≡ false }
{}

/// An item of it is dropped: while nothing is held, which counts as drained; and while octets are held, which drain after the handler
/// was told of the drop.
pub fn it_drops()
    ensures empty { tell silent dropped_empty 1 ≡ record { dropped = 1; drained = true; full = false; dirty = true; fresh = false } }
    ensures held { tell silent dropped_held 1 ≡ record { dropped = 1; drained = false; full = true; dirty = true; fresh = false } }
    ensures due { has_to_tell silent dropped_held 1 ≡ true }
    ensures emptied { tell silent held_emptied 1 ≡ record { dropped = 0; drained = true; full = false; dirty = true; fresh = false } }
{}

/// Of a connection that is gone there is nothing to tell.
pub fn it_is_gone()
    ensures { tell silent gone 1 ≡ nothing_told }
{}

/// A pong may be dropped while two octets are held and the limit is one. It may not be dropped at the limit, nor once the link took
/// all that it was offered; and a reply may never be.
pub fn some_drops_are_fair()
    ensures over { IsFair 1 (plain silent dropped_held 1) (begun ++ ping_got 1 [] ∷ []) 1 1 2 }
    ensures at_limit { IsFair 2 (plain silent dropped_held 1) (begun ++ ping_got 1 [] ∷ []) 1 1 2 → ⊥ }
    ensures taken { (limit : ℕ) → IsFair limit (plain silent dropped_empty 1) (emptied_told ++ ping_got 1 [] ∷ []) 1 1 9 → ⊥ }
    ensures reply { (limit : ℕ) → IsFair limit (plain silent begun 1) begun 1 0 2 → ⊥ }
{}
