//! Laws of runs over a net in memory. Each function says some, and does nothing.

ghost use Rattle.std.specs.Prelude.{◌≡◌, ◌<◌, ◌-◌, ◌^◌, ℕ, List, [], ◌∷◌, ◌++◌, Bool, true, false, not, length};
ghost use Rattle.std.specs.List.{list_all, count_by};
ghost use Rattle.ws_kinds.specs.ConfigValue.{ConfigValue};
ghost use Rattle.ws_kinds.specs.NoteValue as note;
ghost use Rattle.ws_kinds.specs.NoteValue.{NoteValue};
ghost use Rattle.link_trait.specs.declared.net.NetEvent.{NetEvent};
ghost use Rattle.link_trait.specs.declared.net.NetEvent.TheVariants as event;
ghost use Rattle.link_trait.specs.declared.act.Act.{Act};
ghost use Rattle.mem_net.specs.Acts.{passes};
ghost use Rattle.mem_net.specs.MemNet.{MemNetState, FollowsSchedule, net_state};
ghost use Rattle.route_table.specs.Table.{RouteTable};
ghost use Rattle.run_meaning.specs.Life.{LivedThroughout};
ghost use Rattle.run_meaning.specs.Lines.{plain};
ghost use Rattle.run_meaning.specs.Settled.{Settled};
ghost use Rattle.run_meaning.specs.Right.{Right};
ghost use Rattle.link_trait.specs.NetState.{NetState};
ghost use Rattle.loop_runner.specs.declared.turns.Ran.TheVariants as ran;
ghost use Rattle.loop_runner.specs.Turns.{Runs};
ghost use Rattle.ws_program.specs.BusServer.{bus_server};
ghost use Rattle.ws_program.specs.Replayed.{IsNew, IsReplayed, IsReport, links_of, is_stop, is_turn_act};

/// A note sends at most one item to each connection, and the note of a turn none: so a connection has fewer items than there are
/// notes, where the last note is that of a turn.
pub fn items_are_few()
    ensures { (admits : List ℕ → Bool) (replies : ℕ → List ℕ) (notes front behind before : List NoteValue) → notes ≡ before ++ note.turn ∷ [] → length notes < 2 ^ 64 → notes ≡ front ++ behind →
        (conn : ℕ) → length (plain (bus_server admits replies) front conn) < 2 ^ 64 - 1 }
{}

/// Where the answers of a net that follows its schedule end with Stop, and have no other, all acts were done, and the answers are
/// those that the acts pass and then Stop.
pub fn stopped()
    ensures done { (net : MemNetState) (before : List NetEvent) → FollowsSchedule net → (net_state net).passed ≡ before ++ event.Stop ∷ [] → net.done ≡ length net.acts }
    ensures passed { (net : MemNetState) (before : List NetEvent) → FollowsSchedule net → (net_state net).passed ≡ before ++ event.Stop ∷ [] →
        list_all (λ (answer : NetEvent). not (is_stop answer)) before ≡ true → (net_state net).passed ≡ passes net.acts ++ event.Stop ∷ [] }
{}

/// A run that is right and settled, over a net of which all acts were done and no write failed: each connection that is still read was
/// given what the acts send, and no act ends it; and one is gone by its peer's end or a failed link only where an act says so.
pub fn replayed()
    ensures { (admits : List ℕ → Bool) (config : ConfigValue) (table : RouteTable) (notes : List NoteValue) (net : MemNetState) (held replies : ℕ → List ℕ) →
        FollowsSchedule net → net.whole ≡ true → net.done ≡ length net.acts →
        Right (bus_server admits replies) config table notes (net_state net) tt held →
        LivedThroughout (bus_server admits replies) table config.max_message notes (net_state net).given →
        Settled (bus_server admits replies) notes (net_state net) (record { pending = 0; gathered = []; backlog = held }) →
        IsReplayed admits config table net.acts notes (net_state net) held replies }
{}

/// Reports with the same text have the same notes and the same links, since these are in the ranges of their lines.
pub fn told_by_their_text()
    ensures { (admits : List ℕ → Bool) (config : ConfigValue) (table : RouteTable) (acts others : List Act) (octets : List ℕ)
        (one : IsReport admits config table acts octets) (other : IsReport admits config table others octets) →
        (one.notes ≡ other.notes) × (links_of one.held (net_state one.net).taken one.notes ≡ links_of other.held (net_state other.net).taken other.notes) }
{}

/// How a run over a net in memory ends, which follows a schedule, told nothing before, and is given more turns than the schedule has:
/// it is stopped, once all acts were done.
pub fn ran()
    ensures stopped { (net : MemNetState) (old : NetState) (count turns : ℕ) → IsNew net old → Runs (ran.Stopped count) turns old (net_state net) →
        (net.done ≡ length net.acts) × ((net_state net).passed ≡ passes net.acts ++ event.Stop ∷ []) }
    ensures never_spent { (net : MemNetState) (old : NetState) (turns : ℕ) → IsNew net old → count_by is_turn_act net.acts < turns → Runs ran.Spent turns old (net_state net) → ⊥ }
    ensures never_failed { (net : MemNetState) (old : NetState) (turns : ℕ) → IsNew net old → Runs ran.NetFault turns old (net_state net) → ⊥ }
{}
