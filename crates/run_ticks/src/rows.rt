//! Rows: each clause is a value that the definitions give.

ghost use Rattle.std.specs.Prelude.{◌≡◌, true, false};
ghost use Rattle.run_meaning.specs.Lines.{phase};
ghost use Rattle.run_meaning.specs.Quiet.{quiet};
ghost use Rattle.run_meaning.specs.Timely.{Timely, is_end_due, is_ping_due};
ghost use Rattle.run_ticks.specs.Rows.{leaving, opened, pinged, quick, shut_at_arrival, shut_at_first_tick, silent, ticked};

/// A connection that is read once, and then quiet: it is pinged at the second tick, and ended at the third.
pub fn it_is_quiet()
    ensures opened { quiet silent opened 1 ≡ record { ticks = 0; leaving = 0 } }
    ensures ping { is_ping_due quick (phase silent ticked 1) (quiet silent ticked 1) ≡ true }
    ensures no_end { is_end_due quick (phase silent ticked 1) (quiet silent ticked 1) ≡ false }
    ensures no_ping { is_ping_due quick (phase silent pinged 1) (quiet silent pinged 1) ≡ false }
    ensures end { is_end_due quick (phase silent pinged 1) (quiet silent pinged 1) ≡ true }
{}

/// A connection that closes: octets that come of it then do not count, and it is ended at the second tick after.
pub fn it_leaves()
    ensures counts { quiet silent leaving 1 ≡ record { ticks = 2; leaving = 1 } }
    ensures end { is_end_due quick (phase silent leaving 1) (quiet silent leaving 1) ≡ true }
{}

/// A server that shuts a connection as idle as it arrives, or at its first tick, makes no timely run.
pub fn nobody_is_shut_at_once()
    ensures arrival { Timely silent quick shut_at_arrival → ⊥ }
    ensures tick { Timely silent quick shut_at_first_tick → ⊥ }
{}
