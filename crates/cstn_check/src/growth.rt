ghost use Rattle.std.specs.Prelude.{◌≡◌, ◌+◌, ◌≤◌, length};
ghost use Rattle.cstn_check.specs.Spent.{AreSpent, fresh_count, most_tries};
ghost use Rattle.cstn_net.specs.Read.{the_network};
ghost use Rattle.cstn_log.specs.Entries.{the_entries};
ghost use Rattle.cstn_check.specs.Kept.{IsKeptList};
ghost use Rattle.cstn_check.specs.Tries.{most_tried};
ghost use Rattle.cstn_check.specs.Turns.{IsOpen, IsOutcome, IsGrowthCounted, IsGrowable, IsGrown};

use crate::steps::Step;
use crate::turns::take_turn;
use cstn_log::{Log, log_is_well_formed};
use cstn_net::{Network, network_is_well_formed};
use cstn_rules::{Tries, derivations_move, refutes};

/// What growth came to: no turn is left, an entry refutes the network, or the log is full.
#[derive(Clone, Copy, Debug, PartialEq, Eq)]
pub enum Grown {
    Closed,
    Refuted,
    Full,
}

/// Grows the list of the log in a fixed order, and says why growth ended. Each entry has a turn, which tries chain of each
/// constraint with the entry, in ascending id, and then wait of the entry with each entry up to it, in both orders. A
/// conclusion of live entries is appended where no entry dominates it. Growth ends at the first entry that refutes the network,
/// or after the last entry's turn. The log is full exactly where the list would have more entries than its cap. The entries that
/// the log has keep their ids.
pub fn grow(net: &Network, log: &mut Log, tries: &mut Tries) -> Grown
    requires growable { IsGrowable (the_network net.now) log.old }

    ensures grown { IsGrown (the_network net.now) log.old log.new result }
    ensures tries { tries.old.count ≤ tries.new.count }
    ensures most_tried { (result ≡ Grown.Full → ⊥) → tries.new.count ≤ tries.old.count + most_tried (the_network net.now) (the_entries log.new.entries) }
{
    network_is_well_formed(net);
    derivations_move();
    log_is_well_formed(log);
    grow_kept(net, log, &[], 0, tries)
}

/// Grows the list of the log as [`grow`] does, with fewer tries: on the entries that the log has already, it tries only chains
/// of constraints whose ids are in `fresh`. So what any other rule gives from live ones of these entries must be dominated by
/// some entry already.
pub fn grow_on(net: &Network, log: &mut Log, fresh: &[u32], tries: &mut Tries) -> Grown
    requires growable { IsGrowable (the_network net.now) log.old }
    requires spent { AreSpent (the_network net.now) (the_entries log.old.entries) fresh.now (length log.old.entries) }

    ensures grown { IsGrown (the_network net.now) log.old log.new result }
    ensures tries { tries.old.count ≤ tries.new.count }
    ensures most_tried { (result ≡ Grown.Full → ⊥) → tries.new.count ≤ tries.old.count + most_tried (the_network net.now) (the_entries log.new.entries) }
    ensures most_tries { (result ≡ Grown.Full → ⊥)
        → tries.new.count ≤ tries.old.count + most_tries (length net.now.constraints) (fresh_count fresh.now (the_network net.now).constraints)
        (length log.old.entries) (length log.new.entries) }
{
    network_is_well_formed(net);
    derivations_move();
    let old = log.len();
    grow_kept(net, log, fresh, old, tries)
}

// Grows a list in which no entry refutes the network. On its first `old` entries all rules but chains of fresh constraints are
// spent.
fn grow_open(net: &Network, log: &mut Log, fresh: &[u32], old: u32, tries: &mut Tries) -> Grown
    requires ready { IsOpen (the_network net.now) log.old }
    requires front { old ≤ length log.old.entries }
    requires spent { AreSpent (the_network net.now) (the_entries log.old.entries) fresh.now old }
    ensures outcome { IsOutcome (the_network net.now) log.old log.new result }
    ensures counted { IsGrowthCounted result tries.old.count tries.new.count (most_tried (the_network net.now) (the_entries log.new.entries))
        (most_tries (length net.now.constraints) (fresh_count fresh.now (the_network net.now).constraints) old (length log.new.entries)) }
{
    network_is_well_formed(net);
    let mut j = 0;
    while j < log.len() {
        match take_turn(net, log, fresh, old, j, tries) {
            Ok(Step::Refuted) => return Grown::Refuted,
            Ok(Step::Open) => j += 1,
            Err(_) => return Grown::Full,
        }
    }
    Grown::Closed
}

// Grows a list in which at most the last entry refutes the network, and leaves it as it is where that one does. On its first
// `old` entries all rules but chains of fresh constraints are spent.
fn grow_kept(net: &Network, log: &mut Log, fresh: &[u32], old: u32, tries: &mut Tries) -> Grown
    requires front { old ≤ length log.old.entries }
    requires spent { AreSpent (the_network net.now) (the_entries log.old.entries) fresh.now old }
    requires growable { IsGrowable (the_network net.now) log.old }
    requires kept { IsKeptList (the_network net.now) (the_entries log.old.entries) }
    ensures outcome { IsOutcome (the_network net.now) log.old log.new result }
    ensures counted { IsGrowthCounted result tries.old.count tries.new.count (most_tried (the_network net.now) (the_entries log.new.entries))
        (most_tries (length net.now.constraints) (fresh_count fresh.now (the_network net.now).constraints) old (length log.new.entries)) }
{
    network_is_well_formed(net);
    let count = log.len();
    if count == 0 {
        return grow_open(net, log, fresh, old, tries);
    }
    let last = log.entry(count - 1);
    if refutes(net, &last.bound) {
        return Grown::Refuted;
    }
    grow_open(net, log, fresh, old, tries)
}
