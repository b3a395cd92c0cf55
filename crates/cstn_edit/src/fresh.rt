// The fresh ids of a session: those of the constraints that were added or changed since the last verdict, in their order.
ghost use Rattle.std.specs.Prelude.{◌≡◌, ◌≤◌, ◌↔◌, ℕ, true, ◌==◌, ◌||◌, [], length, vec_capacity};
ghost use Rattle.cstn_check.specs.declared.verdicts.Verdict.{Verdict};
ghost use Rattle.cstn_check.specs.Spent.{is_fresh};
ghost use Rattle.cstn_edit.specs.Fresh.{fresh_with, constraint_ids};

use crate::outcomes::Outcome;
use cstn_check::{Verdict, is_fresh};
use cstn_net::Network;
use std::mem::swap;

// Leaves in `fresh` the ids of the network's constraints that were fresh before, and `id` where a constraint has it. `list`
// lends the room for this.
pub fn freshen(net: &Network, fresh: &mut Vec<u32>, list: &mut Vec<u32>, id: u32)
    requires room { length net.now.constraints ≤ vec_capacity list.old }
    ensures fresh { fresh.new.items ≡ fresh_with id fresh.old.items (constraint_ids net.now.constraints) }
    ensures room { (vec_capacity list.old ≤ vec_capacity fresh.new) × (vec_capacity list.new ≡ vec_capacity fresh.old) }
{
    list.clear();
    pick_fresh(net, fresh, list, id);
    swap(fresh, list);
}

// Puts into `list` the ids of the network's constraints that are fresh or equal to `id`.
fn pick_fresh(net: &Network, fresh: &[u32], list: &mut Vec<u32>, id: u32)
    requires empty { list.old.items ≡ [] }
    requires room { length net.now.constraints ≤ vec_capacity list.old }
    ensures picked { list.new.items ≡ fresh_with id fresh.now (constraint_ids net.now.constraints) }
    ensures room { vec_capacity list.old ≤ vec_capacity list.new }
{
    let constraints = net.constraints();
    for k in 0..constraints.len() {
        let known = constraints[k].id;
        if is_picked(fresh, known, id) {
            list.push(known).unwrap();
        }
    }
}

fn is_picked(fresh: &[u32], known: u32, id: u32) -> bool
    ensures { result ≡ (known == id) || is_fresh fresh.now known }
{
    if known == id {
        return true;
    }
    is_fresh(fresh, known)
}

pub fn is_yes(outcome: Outcome) -> bool
    ensures { (result ≡ true) ↔ ((load : ℕ) × (outcome.verdict ≡ Verdict.Yes load)) }
{
    match outcome.verdict {
        Verdict::Yes { .. } => true,
        Verdict::No { .. } | Verdict::Full => false,
    }
}
