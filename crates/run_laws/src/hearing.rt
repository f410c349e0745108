//! How what was heard of a connection goes on. Each function says one law, and does nothing.

ghost use Rattle.std.specs.Prelude.{◌≡◌, ◌≤◌, ℕ, List, [], ◌∷◌, ◌++◌, Option, Some, None, Bool, true, false, length, drop, map};
ghost use Rattle.ws_kinds.specs.NoteValue.{NoteValue, opened as opened_note};
ghost use Rattle.wire_meaning.specs.Event.{Event};
ghost use Rattle.wire_meaning.specs.Reading.{reading};
ghost use Rattle.route_table.specs.Table.{RouteTable};
ghost use Rattle.upgrade_head.specs.Judged.{more, admit, refuse, Judged, answer_text};
ghost use Rattle.frame_reader.specs.declared.reader.Reader.{Reader};
ghost use Rattle.frame_reader.specs.declared.step.Step.{Step};
ghost use Rattle.frame_reader.specs.Step.{events_of, HasStepped};
ghost use Rattle.run_meaning.specs.Server.{Server};
ghost use Rattle.run_meaning.specs.Lines.{is_gone_phase, phase};
ghost use Rattle.run_meaning.specs.Life.{Heard, opened, refused, read, heard, is_frame_heard, frames_in, last_frame, Lived};
ghost use Rattle.run_meaning.specs.Replies.{AreAdmitted, AreReplies};
ghost use Rattle.run_laws.specs.Readers.{ReaderView, reader_view, IsFed, IsRead};
ghost use Rattle.run_laws.specs.Hears.{HearsHead, HearsFrames, HearsAll, HearsFront, to_come};

use ws_kinds::Handler;

/// Octets that come and are fed change nothing of what was heard.
pub fn octets_fed()
    ensures head { (max : ℕ) (heard : List Heard) (octets came : List ℕ) (old new : ReaderView) → HearsHead max heard octets old → IsFed came old new → HearsHead max heard (octets ++ came) new }
    ensures frames { (table : RouteTable) (max : ℕ) (last : Option ℕ) (heard : List Heard) (octets came : List ℕ) (old new : ReaderView) → HearsFrames table max last heard octets old →
        IsFed came old new → HearsFrames table max last heard (octets ++ came) new }
{}

/// The head of a request is judged in the octets that the reader shows, which are all octets that came (RFC 6455, section
/// 4.2.1). While more are needed, nothing is said. A refusal is all that is said. Where the request is admitted, the events of
/// the frames behind the head are still to be read: the last premise is what `Reader::skip` ensures for the head's end.
pub fn head_judged()
    ensures waits { (table : RouteTable) (max : ℕ) (heard : List Heard) (octets : List ℕ) (reader : ReaderView) → HearsHead max heard octets reader →
        Judged table octets more → HearsAll table max None heard octets }
    ensures refused { (table : RouteTable) (max : ℕ) (heard : List Heard) (octets : List ℕ) (reader : ReaderView) (status : ℕ) → HearsHead max heard octets reader →
        Judged table octets (refuse status) → HearsAll table max None (heard ++ refused status ∷ []) octets }
    ensures admitted { (table : RouteTable) (max : ℕ) (heard : List Heard) (octets : List ℕ) (end route : ℕ) (param accept : List ℕ) (protocol : Bool) (old new : ReaderView) →
        HearsHead max heard octets old → Judged table octets (admit end route param accept protocol) → end ≤ length octets →
        ((further : List ℕ) → new.ahead further ≡ reading old.max (drop end old.raw ++ further)) → HearsFrames table max None (heard ++ opened route param ∷ []) octets new }
{}

/// What a reader steps over is read. Events are heard as they are read: all of them before a Close was served, and then only a
/// close or a failure, while messages, pings and pongs are passed over. Once nothing is ahead, all was heard that is to be heard
/// of the octets.
pub fn event_read()
    ensures stepped { (old new : Reader) (step : Step) → HasStepped old step new → IsRead (reader_view old) (events_of step) (reader_view new) }
    ensures read { (table : RouteTable) (max : ℕ) (last : Option ℕ) (heard : List Heard) (octets : List ℕ) (events : List Event) (old new : ReaderView) → HearsFrames table max last heard octets old →
        IsRead old events new → HearsFrames table max last (heard ++ to_come last (map read events)) octets new }
    ensures heard { (last : Option ℕ) (heard : List Heard) (event : Event) → is_frame_heard (read event) ≡ false → heard ++ to_come last (map read (event ∷ [])) ≡ heard ++ read event ∷ [] }
    ensures passed { (count : ℕ) (heard : List Heard) (event : Event) → is_frame_heard (read event) ≡ true → heard ++ to_come (Some count) (map read (event ∷ [])) ≡ heard }
    ensures all { (table : RouteTable) (max : ℕ) (last : Option ℕ) (heard : List Heard) (octets : List ℕ) (reader : ReaderView) → HearsFrames table max last heard octets reader →
        reader.ahead [] ≡ [] → HearsAll table max last heard octets }
{}

/// A Close is served for an open connection, which is leaving then.
pub fn close_served()
    ensures { (table : RouteTable) (max : ℕ) (heard : List Heard) (octets : List ℕ) (reader : ReaderView) → HearsFrames table max None heard octets reader →
        HearsFrames table max (Some (frames_in heard)) heard octets reader }
{}

/// Wherever a connection is gone, what was heard is a front of what is to be heard of its octets, and it was opened or told its status
/// where its head is decided: in phase Head more octets are needed.
pub fn gone()
    ensures frames { (table : RouteTable) (max : ℕ) (last : Option ℕ) (heard : List Heard) (octets : List ℕ) (reader : ReaderView) → HearsFrames table max last heard octets reader →
        HearsFront table max last heard octets }
    ensures head { (table : RouteTable) (max : ℕ) (heard : List Heard) (octets : List ℕ) (reader : ReaderView) → HearsHead max heard octets reader →
        Judged table octets more → HearsFront table max None heard octets }
    ensures all { (table : RouteTable) (max : ℕ) (last : Option ℕ) (heard : List Heard) (octets : List ℕ) → HearsAll table max last heard octets → HearsFront table max last heard octets }
{}

/// All that is to be heard, or of a connection that is gone a front of it, is what the relation of a run asks for.
pub fn lived<H: Handler>()
    ensures all { (server : Server H.State) (table : RouteTable) (max : ℕ) (notes : List NoteValue) (conn : ℕ) (octets : List ℕ) →
        HearsAll table max (last_frame server notes conn) (heard conn notes) octets → Lived server table max notes conn octets }
    ensures front { (server : Server H.State) (table : RouteTable) (max : ℕ) (notes : List NoteValue) (conn : ℕ) (octets : List ℕ) →
        HearsFront table max (last_frame server notes conn) (heard conn notes) octets → is_gone_phase (phase server notes conn) ≡ true → Lived server table max notes conn octets }
{}

/// Texts that agree with the judging of all octets, beside all notes, agree with that of the first ones, beside the first
/// notes: an opened connection stays opened, and what was decided of its request stays so; so who was admitted stays admitted. The reply to a connection that was
/// opened is the answer to its request: to the octets that were judged before the note Opened, whatever came behind them.
pub fn replies()
    ensures before { (table : RouteTable) (notes later : List NoteValue) (octets all : ℕ → List ℕ) (replies : ℕ → List ℕ) → AreReplies table (notes ++ later) all replies →
        ((conn : ℕ) → (behind : List ℕ) × (all conn ≡ octets conn ++ behind)) → AreReplies table notes octets replies }
    ensures admitted { (table : RouteTable) (notes : List NoteValue) (octets all : ℕ → List ℕ) → ((conn : ℕ) → (behind : List ℕ) × (all conn ≡ octets conn ++ behind)) →
        AreAdmitted table notes octets → AreAdmitted table notes all }
    ensures opened { (table : RouteTable) (notes later : List NoteValue) (octets : ℕ → List ℕ) (replies : ℕ → List ℕ) (conn other : ℕ) (named first behind : List ℕ) (end route : ℕ)
        (param accept : List ℕ) (protocol : Bool) →
        AreReplies table (notes ++ opened_note conn other named ∷ later) octets replies → octets conn ≡ first ++ behind → Judged table first (admit end route param accept protocol) →
        replies conn ≡ answer_text table (admit end route param accept protocol) }
{}
