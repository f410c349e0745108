//! Laws of the words. Each function says one, and does nothing.

ghost use Rattle.std.specs.Prelude.{◌≡◌, ◌+◌, ℕ, List, [], ◌∷◌, ◌++◌, Option, Bool, true, false, ◌&&◌, length, if◌then◌else◌};
ghost use Rattle.std.specs.List.{list_all, list_any};
ghost use Rattle.ws_kinds.specs.NoteValue.{NoteValue};
ghost use Rattle.ws_kinds.specs.Watch.{IsNoted, AreNoted};
ghost use Rattle.wire_meaning.specs.Answer.{Item};
ghost use Rattle.link_trait.specs.NetState.{NetState};
ghost use Rattle.run_meaning.specs.Counts.{is_accepted, is_gone_in};
ghost use Rattle.hub_lines.specs.State.{Server, is_present};
ghost use Rattle.hub_lines.specs.Calls.{Keeps, Ties, nothing, then_also};
ghost use Rattle.run_meaning.specs.Notes.{is_acceptance};
ghost use Rattle.run_meaning.specs.Performs.{is_outgoing};
ghost use Rattle.hub_notes.specs.Progress.{Progress, progress_after_all, may_all_come, standings_at};
ghost use Rattle.hub_notes.specs.NetAfter.{NetAfter, FailsAfter};
ghost use Rattle.hub_notes.specs.Fronts.{KeepsFronts};
ghost use Rattle.hub_notes.specs.Calls.{Advances, Proceeds, Appends, Does};
ghost use Rattle.hub_notes.specs.Serving.{Obeys, Serves, ServesAll};
ghost use Rattle.ws_kinds.specs.ConfigValue.{ConfigValue};
ghost use Rattle.ws_kinds.specs.OrderValue.{OrderValue};
ghost use Rattle.run_meaning.specs.Lines.{is_open};
ghost use Rattle.run_meaning.specs.Steps.{Step, by_order, of_notes, is_for, frames_of, appended_by};

/// Some notes and then others are all of them, one after another: as the watch is told them, by what they make of a
/// connection, and by the two tests. One note that is told is a list of one, and a watch that is told nothing is as it was.
pub fn notes_in_order()
    ensures told { (before between after : Option (List NoteValue)) (first more : List NoteValue) →
        AreNoted before first between → AreNoted between more after → AreNoted before (first ++ more) after }
    ensures one { (before after : Option (List NoteValue)) (this : NoteValue) → IsNoted before this after → AreNoted before (this ∷ []) after }
    ensures none { (told : Option (List NoteValue)) → AreNoted told [] told }
    ensures progress { (conn : ℕ) (first more : List NoteValue) (progress : Progress) →
        progress_after_all conn (first ++ more) progress ≡ progress_after_all conn more (progress_after_all conn first progress) }
    ensures may { (conn : ℕ) (first more : List NoteValue) (progress : Progress) →
        may_all_come conn (first ++ more) progress ≡ (may_all_come conn first progress && may_all_come conn more (progress_after_all conn first progress)) }
    ensures outgoing { (first more : List NoteValue) → list_all is_outgoing (first ++ more) ≡ (list_all is_outgoing first && list_all is_outgoing more) }
{}

/// Two calls one after another make the notes of the first and then those of the second, and leave the net as all of these
/// say. Where nothing is called, no notes are made. Where the first call makes no last notes and the second no first ones,
/// the two proceed as one call does. A call whose notes are known exactly makes them first, or last, as is wanted.
pub fn calls_in_order()
    ensures net { (first more : List NoteValue) (a b c : NetState) → NetAfter first a b → NetAfter more b c → NetAfter (first ++ more) a c }
    ensures same_net { (net : NetState) → NetAfter [] net net }
    ensures fails { (first more : List NoteValue) (a b c : NetState) → b.tells ≡ a.tells → FailsAfter first a b → FailsAfter more b c → FailsAfter (first ++ more) a c }
    ensures same_fails { (net : NetState) → FailsAfter [] net net }
    ensures advances { (first more : List NoteValue) (a b c : Server) → Advances first a b → Advances more b c → Advances (first ++ more) a c }
    ensures same_advances { (s : Server) → Advances [] s s }
    ensures proceeds { (first last : List NoteValue) (a b c : Server) → Proceeds first [] a b → Proceeds [] last b c → Proceeds first last a c }
    ensures quiet_last { (first : List NoteValue) (a b c : Server) → Proceeds first [] a b → Proceeds [] [] b c → Proceeds first [] a c }
    ensures quiet_first { (last : List NoteValue) (a b c : Server) → Proceeds [] [] a b → Proceeds [] last b c → Proceeds [] last a c }
    ensures exact_first { (notes : List NoteValue) (a b : Server) → Advances notes a b → FailsAfter notes a.net b.net → Proceeds notes [] a b }
    ensures exact_last { (notes : List NoteValue) (a b : Server) → Advances notes a b → FailsAfter notes a.net b.net → Proceeds [] notes a b }
    ensures same { (s : Server) → Proceeds [] [] s s }
{}

/// Two calls one after another append what the first appends and then what the second appends, and leave the rest of each
/// connection as one call that appends both does. Where nothing is called, nothing is appended. What a call appends may be
/// written in another way that is the same for each connection.
pub fn appended_in_order()
    ensures fronts { (first second : ℕ → List Item) (a b c : Server) →
        KeepsFronts first a b → Keeps first a b → KeepsFronts second b c → Keeps second b c → KeepsFronts (then_also first second) a c }
    ensures appends { (first second : ℕ → List Item) (a b c : Server) → Appends first a b → Appends second b c → Appends (then_also first second) a c }
    ensures quiet_first { (appended : ℕ → List Item) (a b c : Server) → Appends nothing a b → Appends appended b c → Appends appended a c }
    ensures quiet_last { (appended : ℕ → List Item) (a b c : Server) → Appends appended a b → Appends nothing b c → Appends appended a c }
    ensures same { (s : Server) → Appends nothing s s }
    ensures alike { (appended other : ℕ → List Item) (a b : Server) → Appends appended a b → ((conn : ℕ) → appended conn ≡ other conn) → Appends other a b }
{}

/// A connection that the notes of a call do not accept is there after the call only if it was there before and no note says
/// that it is gone. So after a call that accepts nobody each connection is live that is there, if it was so before; and after
/// one that accepts some, where those are live.
pub fn ties_follow()
    ensures present { (notes : List NoteValue) (conn : ℕ) (a b : Server) → Advances notes a b → is_accepted conn notes ≡ false →
        is_present b.hub conn ≡ true → is_present a.hub conn ≡ true }
    ensures gone { (notes : List NoteValue) (conn : ℕ) (a b : Server) → Advances notes a b → is_accepted conn notes ≡ false →
        is_gone_in conn notes ≡ true → is_present b.hub conn ≡ false }
    ensures ties { (notes : List NoteValue) (a b : Server) → Advances notes a b → list_any is_acceptance notes ≡ false → Ties a → Ties b }
    ensures proceeds { (first last : List NoteValue) (a b : Server) → Proceeds first last a b →
        list_any is_acceptance first ≡ false → list_any is_acceptance last ≡ false → Ties a → Ties b }
    ensures accepted { (notes : List NoteValue) (a b : Server) → Advances notes a b →
        ((conn : ℕ) → is_accepted conn notes ≡ true → b.net.live conn ≡ true) → Ties a → Ties b }
    ensures none { (notes : List NoteValue) (conn : ℕ) → list_any is_acceptance notes ≡ false → is_accepted conn notes ≡ false }
{}

/// Calls by their steps. Two calls one after another make the steps of both; where nothing is called, there are none. A call
/// that makes notes and appends what they send makes these notes as steps.
pub fn steps_of_calls()
    ensures both { (texts : ℕ → List ℕ) (first more : List Step) (a b c : Server) → Does texts first a b → Does texts more b c → Does texts (first ++ more) a c }
    ensures none { (texts : ℕ → List ℕ) (s : Server) → Does texts [] s s }
    ensures notes { (texts : ℕ → List ℕ) (notes : List NoteValue) (appended : ℕ → List Item) (a b : Server) → Advances notes a b →
        FailsAfter notes a.net b.net → Appends appended a b →
        ((conn : ℕ) → appended conn ≡ appended_by texts (of_notes notes) (standings_at a.hub) conn) → Does texts (of_notes notes) a b }
{}

/// Orders, one after another. An order is served where the tables change as it says and its frames are then put.
pub fn orders_in_order()
    ensures order { (texts : ℕ → List ℕ) (from : ℕ) (order : OrderValue) (appended : ℕ → List Item) (a b c : Server)
        (obeys : Obeys from order a b) (steps : Proceeds [] [] b c) → Appends appended b c →
        ((conn : ℕ) → appended conn ≡ (if is_for from conn order (standings_at a.hub conn).topics then frames_of order else [])) →
        ((conn : ℕ) → is_for from conn order (standings_at a.hub conn).topics ≡ true → is_open (standings_at a.hub conn).phase ≡ true) →
        Does texts (by_order from order ∷ of_notes steps.sending) a c }
    ensures more { (config : ConfigValue) (admits : List ℕ → Bool) (from number : ℕ) (orders : List OrderValue) (order : OrderValue) (a b c : Server) →
        ServesAll config admits from number orders a b → Serves config admits from (number + length orders) order b c → ServesAll config admits from number (orders ++ order ∷ []) a c }
    ensures none { (config : ConfigValue) (admits : List ℕ → Bool) (from number : ℕ) (s : Server) → ServesAll config admits from number [] s s }
{}
