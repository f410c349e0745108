//! Laws of the notes beside a net that tells. Each function says some, and does nothing.

ghost use Rattle.std.specs.Prelude.{◌≡◌, ◌<◌, ◌+◌, ◌^◌, ◌-◌, ℕ, List, [], ◌∷◌, ◌++◌, true, false, length};
ghost use Rattle.std.specs.List.{list_all};
ghost use Rattle.ws_kinds.specs.declared.note.Left.TheVariants.{PeerEnd, LinkFailed};
ghost use Rattle.ws_kinds.specs.NoteValue as note;
ghost use Rattle.ws_kinds.specs.NoteValue.{NoteValue};
ghost use Rattle.link_trait.specs.NetState.{NetState};
ghost use Rattle.link_trait.specs.Net.{Nexts, Reads, HasNoTraffic};
ghost use Rattle.link_trait.specs.declared.net.NetEvent.{NetEvent};
ghost use Rattle.link_trait.specs.declared.net.NetRead.TheVariants as read;
ghost use Rattle.run_meaning.specs.Counts.{gather, writes, taken, given, is_gone_by_in, is_accepted};
ghost use Rattle.run_meaning.specs.Network.{Follows, Mark, marks_by, marks_of};
ghost use Rattle.run_meaning.specs.Network.Mark.{arrival, turn};
ghost use Rattle.hub_notes.specs.NetAfter.{NetAfter, FailsAfter};
ghost use Rattle.run_laws.specs.Steps.{FollowsBut};
ghost use Rattle.run_laws.specs.Tests.{is_of_orders};

/// A call of a hub reads nothing and asks nothing: where its notes say neither that octets were read nor that a peer ended,
/// and have no marks, what is to come stays so. Where they accept no connection, the marks that they have come no more.
pub fn after_a_call()
    ensures plain { (notes made : List NoteValue) (coming : List Mark) (old new : NetState) → old.tells ≡ true → gather marks_by made ≡ [] →
        ((conn : ℕ) → given conn made ≡ 0) → ((conn : ℕ) → is_gone_by_in conn PeerEnd made ≡ false) →
        NetAfter made old new → FailsAfter made old new → FollowsBut coming notes old → FollowsBut coming (notes ++ made) new }
    ensures marked { (notes made : List NoteValue) (coming marks rest : List Mark) (old new : NetState) → old.tells ≡ true → gather marks_by made ≡ marks → coming ≡ marks ++ rest →
        ((conn : ℕ) → is_accepted conn made ≡ false) → ((conn : ℕ) → given conn made ≡ 0) → ((conn : ℕ) → is_gone_by_in conn PeerEnd made ≡ false) →
        NetAfter made old new → FailsAfter made old new → FollowsBut coming notes old → FollowsBut rest (notes ++ made) new }
{}

/// The orders of an event are served, or named as not served.
pub fn after_the_orders()
    ensures { (notes made : List NoteValue) (old new : NetState) → old.tells ≡ true → list_all is_of_orders made ≡ true → NetAfter made old new → FailsAfter made old new →
        Follows notes old → Follows (notes ++ made) new }
{}

/// A read, and then the call of a hub that notes what was read. `now` is the net in between.
pub fn after_reading()
    ensures octets { (conn count : ℕ) (space : List ℕ) (notes : List NoteValue) (old now new : NetState) → old.tells ≡ true → Follows notes old → Reads conn space (read.Octets count) old now →
        NetAfter (note.given conn count ∷ []) now new → FailsAfter (note.given conn count ∷ []) now new → Follows (notes ++ note.given conn count ∷ []) new }
    ensures ended { (conn : ℕ) (space : List ℕ) (notes : List NoteValue) (old now new : NetState) → old.tells ≡ true → Follows notes old → Reads conn space read.End old now →
        NetAfter (note.gone conn PeerEnd ∷ []) now new → FailsAfter (note.gone conn PeerEnd ∷ []) now new → Follows (notes ++ note.gone conn PeerEnd ∷ []) new }
    ensures failed { (conn : ℕ) (space : List ℕ) (notes : List NoteValue) (old now new : NetState) → old.tells ≡ true → Follows notes old → Reads conn space read.Failed old now →
        NetAfter (note.gone conn LinkFailed ∷ []) now new → FailsAfter [] now new → Follows (notes ++ note.gone conn LinkFailed ∷ []) new }
{}

/// `next` answered, and what its answer marks is to be noted: time that went by, a turn that ends, or a connection that came.
pub fn after_asking()
    ensures { (answer : NetEvent) (notes : List NoteValue) (old new : NetState) → old.tells ≡ true → length old.passed < 2 ^ 64 - 1 → Nexts answer old new →
        Follows notes old → FollowsBut (marks_of answer) notes new }
{}

/// A connection that came is accepted, which must not be counted in the notes before.
pub fn after_arriving()
    ensures { (conn : ℕ) (notes : List NoteValue) (old new : NetState) → old.tells ≡ true → HasNoTraffic conn old →
        given conn notes ≡ 0 → taken conn notes ≡ 0 → writes conn notes ≡ [] → is_gone_by_in conn PeerEnd notes ≡ false → is_gone_by_in conn LinkFailed notes ≡ false →
        FollowsBut (arrival conn ∷ []) notes old → NetAfter (note.accepted conn ∷ []) old new → FailsAfter (note.accepted conn ∷ []) old new →
        Follows (notes ++ note.accepted conn ∷ []) new }
{}
