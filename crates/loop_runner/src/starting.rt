//! What a server keeps before its first turn. Each function says a law, and does nothing.

ghost use Rattle.std.specs.Prelude.{◌≡◌, ℕ, List, [], Bool, Some, None};
ghost use Rattle.ws_kinds.specs.ConfigValue.{ConfigValue};
ghost use Rattle.route_table.specs.Table.{RouteTable};
ghost use Rattle.hub_lines.specs.State.{Server};
ghost use Rattle.hub_notes.specs.Table.{IsTable, table_of};
ghost use Rattle.run_kept.specs.Kept.{IntakeView};
ghost use Rattle.loop_runner.specs.Keeps.{beginning, KeptAll, IsLivedThroughout};

use ws_kinds::Handler;

/// A new hub, with a net that answered nothing and a watch that noted nothing, keeps what turns keep; so the first turn's
/// condition on it holds for every handler, and whichever topics may be subscribed to.
pub fn kept_at_first<H: Handler>()
    ensures { (rule : List ℕ → Bool) (start : H.State) (config : ConfigValue) (table : RouteTable) (s : Server) (now : H.State) (views : ℕ → IntakeView) →
        s.hub.entries ≡ [] → s.hub.pairs ≡ [] → s.hub.partings ≡ [] → s.hub.tellings ≡ [] → s.hub.config ≡ config → IsTable (table_of s.hub) →
        s.told ≡ Some [] → s.net.passed ≡ [] → now ≡ start → KeptAll (beginning H.Handler rule start config table) s now views None }
{}

/// A watch that noted nothing has told of no turn that ended; so the first turn's condition on what was heard at the end of each
/// turn holds.
pub fn lived_at_first<H: Handler>()
    ensures { (rule : List ℕ → Bool) (start : H.State) (config : ConfigValue) (table : RouteTable) (s : Server) → s.told ≡ Some [] → IsLivedThroughout (beginning H.Handler rule start config table) s }
{}
