//! Which links are live. The function says laws, and does nothing.

ghost use Rattle.std.specs.Prelude.{◌≡◌, ◌<◌, ℕ, List, [], ◌∷◌, false};
ghost use Rattle.ws_kinds.specs.declared.conn.Conn.{Conn};
ghost use Rattle.ws_kinds.specs.NoteValue.{NoteValue, accepted as accepted_note};
ghost use Rattle.link_trait.specs.NetState.{NetState};
ghost use Rattle.link_trait.specs.Net.{Same, Nexts, Shuts};
ghost use Rattle.link_trait.specs.declared.net.NetEvent.TheVariants as event;
ghost use Rattle.hub_lines.specs.State.{Server, server};
ghost use Rattle.run_meaning.specs.Steps.{Step};
ghost use Rattle.hub_notes.specs.Calls.{Advances, Does};
ghost use Rattle.hub_notes.specs.Table.{IsTable, table_of};
ghost use Rattle.run_kept.specs.Ends.{AreThere};

/// Each live link is that of an entry that is not gone: at first, where none is live; after a call of the net that leaves the
/// links, as a read; after a call of the hub, also one that serves orders; and after a connection came, whether it was accepted, or turned away and its link
/// shut.
pub fn live_are_there()
    ensures first { (s : Server) → ((conn : ℕ) → s.net.live conn ≡ false) → AreThere s }
    ensures net { (s : Server) (net : NetState) → Same s.net.live net.live → AreThere s → AreThere (server s.hub net s.told) }
    ensures call { (made : List NoteValue) (old new : Server) → Advances made old new → AreThere old → AreThere new }
    ensures steps { (texts : ℕ → List ℕ) (steps : List Step) (old new : Server) → Does texts steps old new → AreThere old → AreThere new }
    ensures accepted { (conn : Conn) (old new : Server) (net : NetState) → Nexts (event.Accept conn) old.net net → Advances (accepted_note conn.0 ∷ []) (server old.hub net old.told) new →
        IsTable (table_of old.hub) → old.hub.named < conn.0 → AreThere old → AreThere new }
    ensures turned_away { (conn : Conn) (made : List NoteValue) (old new : Server) (net later : NetState) → Nexts (event.Accept conn) old.net net → Advances made (server old.hub net old.told) new →
        Shuts conn.0 new.net later → AreThere old → AreThere (server new.hub later new.told) }
{}
