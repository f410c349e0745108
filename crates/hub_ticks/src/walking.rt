//! The walk of a tick over the connections. The function says laws, and does nothing.

ghost use Rattle.std.specs.Prelude.{◌≡◌, ◌+◌, [], ◌∷◌, ℕ, Some, None, false};
ghost use Rattle.ws_kinds.specs.NoteValue.{tick};
ghost use Rattle.hub_lines.specs.State.{Server, is_present};
ghost use Rattle.hub_lines.specs.Calls.{nothing};
ghost use Rattle.hub_notes.specs.Answers.{Makes};
ghost use Rattle.hub_notes.specs.Calls.{Appends};
ghost use Rattle.hub_notes.specs.Table.{IsNextEntry};
ghost use Rattle.hub_notes.specs.Ticks.{Ticks};
ghost use Rattle.hub_ticks.specs.Ticking.{TicksBelow, TicksIfThere};

/// The tick is noted (`starts`). Then the next entry is counted, where it is not gone (`next`), and so on until there is none
/// (`ends`): each connection that was there as the tick came was counted, but for those whose link failed before their turn.
pub fn ticks_go_on()
    ensures starts { (old new : Server) → Makes (tick ∷ []) old new → Appends nothing old new → new.hub ≡ old.hub → is_present old.hub 0 ≡ false → TicksBelow 1 old new }
    ensures next { (after conn : ℕ) (old between new : Server) → IsNextEntry between.hub.entries after (Some conn) → TicksBelow (after + 1) old between →
        TicksIfThere conn between new → TicksBelow (conn + 1) old new }
    ensures ends { (after : ℕ) (old new : Server) → IsNextEntry new.hub.entries after None → TicksBelow (after + 1) old new → Ticks old new }
{}
