//! What a server keeps where a connection is read and what came of it is told. Each function says laws, and does nothing.

ghost use Rattle.std.specs.Prelude.{◌≡◌, ℕ, List, [], ◌∷◌, ◌++◌, Some, None, true, take};
ghost use Rattle.ws_kinds.specs.declared.note.Left.TheVariants.{LinkFailed};
ghost use Rattle.ws_kinds.specs.declared.note.Phase.TheVariants.{Head, Open, Leaving};
ghost use Rattle.ws_kinds.specs.ConfigValue.{ConfigValue};
ghost use Rattle.ws_kinds.specs.NoteValue.{NoteValue, given, gone, head, peer_close, failed};
ghost use Rattle.wire_meaning.specs.Event as wire;
ghost use Rattle.wire_meaning.specs.Event.{Event};
ghost use Rattle.wire_meaning.specs.Answer.{reply, close_item};
ghost use Rattle.link_trait.specs.NetState.{NetState};
ghost use Rattle.link_trait.specs.Net.{Reads};
ghost use Rattle.link_trait.specs.declared.net.NetRead.TheVariants as answer;
ghost use Rattle.route_table.specs.Table.{RouteTable};
ghost use Rattle.upgrade_head.specs.Judged.{Judged, refuse};
ghost use Rattle.upgrade_head.specs.Texts.{refusal_text};
ghost use Rattle.run_laws.specs.Readers.{IsFed, IsRead};
ghost use Rattle.run_meaning.specs.Life.{read, is_frame_heard};
ghost use Rattle.run_meaning.specs.Server.{Server as Meaning};
ghost use Rattle.run_meaning.specs.Lines.{is_open};
ghost use Rattle.run_meaning.specs.Settled.{is_reading};
ghost use Rattle.hub_lines.specs.State.{Server, server, phase_at};
ghost use Rattle.hub_lines.specs.Calls.{nothing, only, served};
ghost use Rattle.hub_notes.specs.Calls.{Advances, Proceeds, Appends};
ghost use Rattle.hub_notes.specs.NetAfter.{FailsAfter};
ghost use Rattle.hub_notes.specs.Table.{IsTable, table_of};
ghost use Rattle.hub_notes.specs.Answers.{Makes, has_frames};
ghost use Rattle.run_kept.specs.Kept.{IntakeView, SameButReader, Kept};

use ws_kinds::Handler;

/// Octets came of a connection, they are fed to its reader, and the hub notes them: then more may be told of it.
pub fn given_some<H: Handler>()
    ensures { (meaning : Meaning H.State) (config : ConfigValue) (table : RouteTable) (notes after : List NoteValue) (conn count : ℕ) (space : List ℕ) (s new : Server) (net : NetState)
        (now : H.State) (intakes fed : ℕ → IntakeView) →
        Kept meaning config table notes s now intakes None → Reads conn space (answer.Octets count) s.net net →
        IsTable (table_of s.hub) → IsTable (table_of new.hub) → is_reading (phase_at s.hub conn) ≡ true →
        Makes (given conn count ∷ []) (server s.hub net s.told) new → Appends nothing (server s.hub net s.told) new → new.told ≡ Some after →
        SameButReader conn intakes fed → IsFed (take count space) (intakes conn).reader (fed conn).reader →
        Kept meaning config table (notes ++ given conn count ∷ []) new now fed (Some conn) }
{}

/// A read of a connection failed, and the connection is gone.
pub fn read_failed<H: Handler>()
    ensures { (meaning : Meaning H.State) (config : ConfigValue) (table : RouteTable) (notes after : List NoteValue) (conn : ℕ) (space : List ℕ) (s new : Server) (net : NetState) (now : H.State)
        (intakes : ℕ → IntakeView) →
        Kept meaning config table notes s now intakes None → Reads conn space answer.Failed s.net net →
        IsTable (table_of s.hub) → IsTable (table_of new.hub) → is_reading (phase_at s.hub conn) ≡ true →
        Advances (gone conn LinkFailed ∷ []) (server s.hub net s.told) new → FailsAfter [] net new.net → Appends nothing (server s.hub net s.told) new → new.told ≡ Some after →
        Kept meaning config table (notes ++ gone conn LinkFailed ∷ []) new now intakes None }
{}

/// The request head of a connection is refused.
pub fn head_refused<H: Handler>()
    ensures { (meaning : Meaning H.State) (config : ConfigValue) (table : RouteTable) (notes after : List NoteValue) (conn status : ℕ) (s new : Server) (now : H.State) (intakes : ℕ → IntakeView)
        (steps : Proceeds (head conn status ∷ []) [] s new) →
        Kept meaning config table notes s now intakes (Some conn) → IsTable (table_of s.hub) → IsTable (table_of new.hub) → phase_at s.hub conn ≡ Some Head →
        Judged table (s.net.given conn) (refuse status) → Appends (only conn (reply (refusal_text status))) s new → new.told ≡ Some after →
        (after ≡ notes ++ head conn status ∷ steps.sending) × Kept meaning config table after new now intakes None }
{}

/// The reader of a connection has no further event: no more can be told of it.
pub fn all_told<H: Handler>()
    ensures { (meaning : Meaning H.State) (config : ConfigValue) (table : RouteTable) (notes : List NoteValue) (conn : ℕ) (s : Server) (now : H.State) (intakes stepped : ℕ → IntakeView) →
        Kept meaning config table notes s now intakes (Some conn) → has_frames (phase_at s.hub conn) ≡ true → SameButReader conn intakes stepped →
        IsRead (intakes conn).reader [] (stepped conn).reader → Kept meaning config table notes s now stepped None }
{}

/// A close was read of a connection in phase Open or Leaving, which is then ending.
pub fn close_told<H: Handler>()
    ensures { (meaning : Meaning H.State) (config : ConfigValue) (table : RouteTable) (notes after : List NoteValue) (conn code : ℕ) (reason : List ℕ) (s new : Server) (now : H.State)
        (intakes stepped : ℕ → IntakeView) (steps : Proceeds (peer_close conn code reason ∷ []) [] s new) →
        Kept meaning config table notes s now intakes (Some conn) → IsTable (table_of s.hub) → IsTable (table_of new.hub) → has_frames (phase_at s.hub conn) ≡ true →
        SameButReader conn intakes stepped → IsRead (intakes conn).reader (wire.closed code reason ∷ []) (stepped conn).reader →
        Appends (served (is_open (phase_at s.hub conn)) (only conn (close_item code))) s new → new.told ≡ Some after →
        (after ≡ notes ++ peer_close conn code reason ∷ steps.sending) × Kept meaning config table after new now stepped None }
{}

/// What was read of a connection in phase Open or Leaving broke the standard, and the connection is then ending.
pub fn failure_told<H: Handler>()
    ensures { (meaning : Meaning H.State) (config : ConfigValue) (table : RouteTable) (notes after : List NoteValue) (conn code : ℕ) (s new : Server) (now : H.State)
        (intakes stepped : ℕ → IntakeView) (steps : Proceeds (failed conn code ∷ []) [] s new) →
        Kept meaning config table notes s now intakes (Some conn) → IsTable (table_of s.hub) → IsTable (table_of new.hub) → has_frames (phase_at s.hub conn) ≡ true →
        SameButReader conn intakes stepped → IsRead (intakes conn).reader (wire.failed code ∷ []) (stepped conn).reader →
        Appends (served (is_open (phase_at s.hub conn)) (only conn (close_item code))) s new → new.told ≡ Some after →
        (after ≡ notes ++ failed conn code ∷ steps.sending) × Kept meaning config table after new now stepped None }
{}

/// A message, a ping or a pong was read of a connection for which a Close was served: it is passed over, and nothing is noted.
pub fn frame_passed<H: Handler>()
    ensures { (meaning : Meaning H.State) (config : ConfigValue) (table : RouteTable) (notes : List NoteValue) (conn : ℕ) (event : Event) (s : Server) (now : H.State)
        (intakes stepped : ℕ → IntakeView) →
        Kept meaning config table notes s now intakes (Some conn) → phase_at s.hub conn ≡ Some Leaving → SameButReader conn intakes stepped →
        IsRead (intakes conn).reader (event ∷ []) (stepped conn).reader → is_frame_heard (read event) ≡ true → Kept meaning config table notes s now stepped (Some conn) }
{}
