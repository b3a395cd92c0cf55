// What an edit takes out of what a session keeps.
ghost use Rattle.std.specs.Prelude.{◌≡◌, ◌≤◌, ◌↔◌, true, [], length, vec_capacity};
ghost use Rattle.cstn_log.specs.Entries.{the_entries};
ghost use Rattle.cstn_log.specs.Cuts.{chosen, dropped, marked_staying};
ghost use Rattle.cstn_edit.specs.Fresh.{fresh_with, constraint_ids};

use crate::fresh::freshen;
use cstn_log::Log;
use cstn_net::Network;

// Takes what the constraint of this id gave out of the kept list, where the others keep their ids; counts the constraint as fresh
// where the network, as edited, still has it; and answers whether the list is still settled. `list` lends the room for the fresh
// ids.
pub fn forget(
    net: &Network,
    log: &mut Log,
    fresh: &mut Vec<u32>,
    list: &mut Vec<u32>,
    settled: bool,
    id: u32,
) -> bool
    requires room { length net.now.constraints ≤ vec_capacity list.old }
    ensures dropped { the_entries log.new.entries ≡ dropped (the_entries log.old.entries) id }
    ensures ids { log.new.ids ≡ chosen (marked_staying id [] (the_entries log.old.entries)) log.old.ids }
    ensures births { log.new.births ≡ log.old.births }
    ensures size { (log.new.cap ≡ log.old.cap) × (log.new.nodes ≡ log.old.nodes) }
    ensures short { length log.old.entries ≤ log.old.cap }
    ensures fresh { fresh.new.items ≡ fresh_with id fresh.old.items (constraint_ids net.now.constraints) }
    ensures room { (vec_capacity list.old ≤ vec_capacity fresh.new) × (vec_capacity list.new ≡ vec_capacity fresh.old) }
    ensures settled { (result ≡ true) ↔ ((settled ≡ true) × (log.new.entries ≡ log.old.entries)) }
{
    log_is_short(log);
    let gone = log.retract(id);
    freshen(net, fresh, list, id);
    stays_settled(settled, gone)
}

// Whether a list stays settled when `gone` of its entries are taken out.
fn stays_settled(settled: bool, gone: u32) -> bool
    ensures { (result ≡ true) ↔ ((settled ≡ true) × (gone ≡ 0)) }
{
    settled && gone == 0
}

// A log is no longer than its cap.
fn log_is_short(log: &Log)
    ensures { length log.now.entries ≤ log.now.cap }
{
    let _ = log.len();
}
