//! What steps make of connections. Each function says laws, and does nothing.

ghost use Rattle.std.specs.Prelude.{◌≡◌, ℕ, List, [], ◌∷◌, ◌++◌, Some, true, false};
ghost use Rattle.std.specs.List.{list_all};
ghost use Rattle.ws_kinds.specs.ConfigValue.{ConfigValue};
ghost use Rattle.ws_kinds.specs.NoteValue.{NoteValue};
ghost use Rattle.ws_kinds.specs.EventValue.{EventValue};
ghost use Rattle.wire_meaning.specs.Answer.{Item};
ghost use Rattle.run_meaning.specs.Counts.{is_accepted};
ghost use Rattle.run_meaning.specs.Server.{Server};
ghost use Rattle.run_meaning.specs.Lines.{Line, noted, noted_all, world, orders_of, line_after};
ghost use Rattle.run_meaning.specs.Orders.{Standing, standing_of, Ordered, event_at};
ghost use Rattle.run_meaning.specs.Performs.{is_outgoing, Performs};
ghost use Rattle.run_meaning.specs.Bridge.{TopicsEnd, Covers};
ghost use Rattle.run_meaning.specs.Steps.{Step, notes_of, standing_after_all, items_of, line_by_all};

use ws_kinds::Handler;

/// Steps one after another.
pub fn steps_in_order()
    ensures notes { (first more : List Step) → notes_of (first ++ more) ≡ notes_of first ++ notes_of more }
    ensures standing { (conn : ℕ) (first more : List Step) (own : Standing) → standing_after_all conn (first ++ more) own ≡ standing_after_all conn more (standing_after_all conn first own) }
    ensures items { (texts : ℕ → List ℕ) (conn : ℕ) (first more : List Step) (own : Standing) →
        items_of texts conn (first ++ more) own ≡ items_of texts conn first own ++ items_of texts conn more (standing_after_all conn first own) }
{}

/// What shows of a line after steps that accept nobody, and its items, are computed from what showed of it before.
pub fn lines_of_steps<H: Handler>()
    ensures shown { (server : Server H.State) (conn : ℕ) (steps : List Step) (line : Line) → is_accepted conn (notes_of steps) ≡ false →
        standing_of (line_by_all server conn steps line) ≡ standing_after_all conn steps (standing_of line) }
    ensures items { (server : Server H.State) (conn : ℕ) (steps : List Step) (line : Line) → is_accepted conn (notes_of steps) ≡ false →
        (line_by_all server conn steps line).items ≡ line.items ++ items_of server.reply conn steps (standing_of line) }
{}

/// An event is noted, what was to be sent before its first order is noted, and then its orders are served or refused. Then
/// each connection is by all notes what these steps made of it, but that one that is gone may have further items; the
/// handler's state is the one after the event; and each order is served or named as not served for its reason.
pub fn orders_are_answered<H: Handler>()
    ensures lines { (server : Server H.State) (config : ConfigValue) (before : List NoteValue) (this : NoteValue) (event : EventValue) (sending : List NoteValue) (steps : List Step) →
        event_at this (noted server this (world server before)) ≡ Some event → list_all is_outgoing sending ≡ true → ((conn : ℕ) → TopicsEnd ((noted_all server sending (noted server this (world server before))).line conn)) →
        Performs config server.admits event.conn 0 (λ conn. standing_of ((noted_all server sending (noted server this (world server before))).line conn)) (orders_of server event (noted server this (world server before))) steps →
        (conn : ℕ) → Covers (line_by_all server conn steps ((noted_all server sending (noted server this (world server before))).line conn)) ((world server (before ++ this ∷ (sending ++ notes_of steps))).line conn)
        × TopicsEnd (line_by_all server conn steps ((noted_all server sending (noted server this (world server before))).line conn)) }
    ensures state { (server : Server H.State) (config : ConfigValue) (before : List NoteValue) (this : NoteValue) (event : EventValue) (sending : List NoteValue) (steps : List Step) →
        event_at this (noted server this (world server before)) ≡ Some event → list_all is_outgoing sending ≡ true → ((conn : ℕ) → TopicsEnd ((noted_all server sending (noted server this (world server before))).line conn)) →
        Performs config server.admits event.conn 0 (λ conn. standing_of ((noted_all server sending (noted server this (world server before))).line conn)) (orders_of server event (noted server this (world server before))) steps →
        (world server (before ++ this ∷ (sending ++ notes_of steps))).state ≡ server.after (world server before).state event }
    ensures ordered { (server : Server H.State) (config : ConfigValue) (before : List NoteValue) (this : NoteValue) (event : EventValue) (sending : List NoteValue) (steps : List Step) →
        event_at this (noted server this (world server before)) ≡ Some event → list_all is_outgoing sending ≡ true → ((conn : ℕ) → TopicsEnd ((noted_all server sending (noted server this (world server before))).line conn)) →
        Performs config server.admits event.conn 0 (λ conn. standing_of ((noted_all server sending (noted server this (world server before))).line conn)) (orders_of server event (noted server this (world server before))) steps →
        Ordered server config before → Ordered server config (before ++ this ∷ (sending ++ notes_of steps)) }
{}

/// A connection that is not open has no topics: before the first note, and after any note.
pub fn topics_end<H: Handler>()
    ensures { (server : Server H.State) (conn : ℕ) (this : NoteValue) (line : Line) → TopicsEnd line → TopicsEnd (line_after server conn this line) }
{}
