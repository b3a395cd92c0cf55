// Laws of closed lists.
ghost use Rattle.std.specs.Prelude.{ℕ, ◌≡◌, ◌<◌, ◌↔◌, List};
ghost use Rattle.cstn_label.specs.Labels.{Scenario};
ghost use Rattle.cstn_label.specs.Bounds.{Bound};
ghost use Rattle.cstn_net.specs.Networks.{Network, IsNetwork, count};
ghost use Rattle.cstn_net.specs.Strategies.{IsStrategy, IsLeast};
ghost use Rattle.cstn_rules.specs.Closed.{IsClosed};
ghost use Rattle.cstn_plan.specs.Asked.{asked, AllSound, IsHeldBack};

/// The moments that a closed list asks for are a strategy; where its bounds hold in every strategy, they are the least
/// moments; and a time-point is held back at just the moments before its own.
pub fn closed_lists_have_strategies()
    ensures strategy { (net : Network) (bounds : List Bound) → IsNetwork net → IsClosed net bounds → IsStrategy net (asked net bounds) }
    ensures least { (net : Network) (bounds : List Bound) → IsNetwork net → IsClosed net bounds → AllSound net bounds → (s : Scenario) (x : ℕ)
        → x < count net → IsLeast net s x (asked net bounds s x) }
    ensures held { (net : Network) (bounds : List Bound) → IsNetwork net → IsClosed net bounds → (s : Scenario) (t x : ℕ) → x < count net
        → (IsHeldBack net bounds s (asked net bounds s) t x ↔ (t < asked net bounds s x)) }
{}
