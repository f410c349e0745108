//! Laws of the definitions. Each function says one, and does nothing.

ghost use Rattle.std.specs.Prelude.{◌≡◌, ◌≢◌, ℕ, List, ◌++◌};
ghost use Rattle.route_table.specs.Table.{RouteTable};
ghost use Rattle.upgrade_head.specs.Judged.{Verdict, more, Judged};

/// Exactly one thing is decided of the octets of a connection.
pub fn one_verdict()
    ensures { (table : RouteTable) (octets : List ℕ) (first second : Verdict) →
        Judged table octets first → Judged table octets second → first ≡ second }
{}

/// What was decided stays so, whatever follows: once no more octets are needed, further octets change nothing.
pub fn verdict_stays()
    ensures { (table : RouteTable) (octets behind : List ℕ) (verdict : Verdict) →
        Judged table octets verdict → verdict ≢ more → Judged table (octets ++ behind) verdict }
{}
