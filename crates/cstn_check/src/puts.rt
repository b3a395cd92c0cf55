// Puts conclusions at the end of the list of a log.
ghost use Rattle.std.specs.Prelude.{◌≡◌, ◌++◌, ◌∷◌, [], ◌<◌, length, cond, IfOk, IsErr, IsTrue, ◌↔◌};
ghost use Rattle.cstn_label.specs.Read.{the_bound};
ghost use Rattle.cstn_net.specs.Networks.{count};
ghost use Rattle.cstn_net.specs.Read.{the_network};
ghost use Rattle.cstn_rules.specs.Rules.{Refutes};
ghost use Rattle.cstn_rules.specs.Derivations.{Follows};
ghost use Rattle.cstn_rules.specs.Read.{the_entry};
ghost use Rattle.cstn_log.specs.Entries.{the_entries};
ghost use Rattle.cstn_check.specs.Growth.{is_covered};
ghost use Rattle.cstn_check.specs.Turns.{IsOpen, HasBecome, IsCutShort};
ghost use Rattle.cstn_check.specs.Steps.{is_refutation};

use crate::steps::Step;
use cstn_label::Bound;
use cstn_log::Log;
use cstn_net::Network;
use cstn_pool::Full;
use cstn_rules::{Entry, refutes};

// Puts a conclusion at the end of the list, where no entry dominates it.
pub fn put(net: &Network, log: &mut Log, e: Entry) -> Result<Step, Full>
    requires ready { IsOpen (the_network net.now) log.old }
    requires follows { Follows (the_network net.now) (the_entries log.old.entries) (length log.old.entries) e.why (the_bound e.bound) }
    requires node { e.bound.node.0 < count (the_network net.now) }
    ensures taken { IfOk result (λ s. HasBecome (the_network net.now) log.old log.new
        (cond (is_covered (the_entries log.old.entries) (the_bound e.bound)) (the_entries log.old.entries)
        (the_entries log.old.entries ++ the_entry e ∷ [])) (is_refutation s)) }
    ensures cut { IsErr result → IsCutShort log.old log.new
        (cond (is_covered (the_entries log.old.entries) (the_bound e.bound)) (the_entries log.old.entries)
        (the_entries log.old.entries ++ the_entry e ∷ [])) }
    ensures agenda { log.new.agenda ≡ log.old.agenda }
{
    if log.covered(&e.bound) {
        return Ok(Step::Open);
    }
    log.push(net, e)?;
    Ok(step_to(net, &e.bound))
}

// The step that ends at a new entry with this bound.
fn step_to(net: &Network, b: &Bound) -> Step
    requires node { b.now.node.0 < count (the_network net.now) }
    ensures refutes { IsTrue (is_refutation result) ↔ Refutes (the_network net.now) (the_bound b.now) }
{
    if refutes(net, b) {
        Step::Refuted
    } else {
        Step::Open
    }
}
