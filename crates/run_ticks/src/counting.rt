//! For how long connections are quiet, by the notes alone. Each function says laws, and does nothing.

ghost use Rattle.std.specs.Prelude.{◌≡◌, ℕ, List, [], ◌∷◌, ◌++◌, false, true};
ghost use Rattle.std.specs.List.{list_all, list_any};
ghost use Rattle.ws_kinds.specs.ConfigValue.{ConfigValue};
ghost use Rattle.ws_kinds.specs.NoteValue.{NoteValue, tick};
ghost use Rattle.run_meaning.specs.Server.{Server as Meaning};
ghost use Rattle.run_meaning.specs.Lines.{phase};
ghost use Rattle.run_meaning.specs.Quiet.{count_by, is_leaving, is_uncounted, quiet};
ghost use Rattle.run_meaning.specs.Timely.{TicksRight, Timely, ends_stretch, is_ticking};

use ws_kinds::Handler;

/// One more note, and more notes that change no count.
pub fn counts_go_on<H: Handler>()
    ensures one { (meaning : Meaning H.State) (notes : List NoteValue) (this : NoteValue) (conn : ℕ) →
        quiet meaning (notes ++ this ∷ []) conn ≡ count_by conn this (is_leaving (phase meaning notes conn)) (quiet meaning notes conn) }
    ensures still { (meaning : Meaning H.State) (notes more : List NoteValue) (conn : ℕ) → list_all is_uncounted more ≡ true →
        quiet meaning (notes ++ more) conn ≡ quiet meaning notes conn }
{}

/// No notes are timely. They stay so with more notes that tell of no tick and of nobody who was pinged or ended by one (`other`), and
/// with a tick and all that follows from it, where this is right for each connection (`tick`).
pub fn timely_goes_on<H: Handler>()
    ensures first { (meaning : Meaning H.State) (config : ConfigValue) → Timely meaning config [] }
    ensures other { (meaning : Meaning H.State) (config : ConfigValue) (notes more : List NoteValue) → list_any is_ticking more ≡ false →
        Timely meaning config notes → Timely meaning config (notes ++ more) }
    ensures tick { (meaning : Meaning H.State) (config : ConfigValue) (notes rest : List NoteValue) → list_any ends_stretch rest ≡ false →
        ((conn : ℕ) → TicksRight config conn (phase meaning notes conn) (quiet meaning notes conn) rest) →
        Timely meaning config notes → Timely meaning config (notes ++ tick ∷ rest) }
{}
