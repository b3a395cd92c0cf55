// The new outcome of a session.
ghost use Rattle.std.specs.Prelude.{ℕ, true, false, [], ◌≡◌, ◌≤◌, ◌<◌, ◌+◌, ◌^◌, nat_lt, nat_le, if◌then◌else◌, length, Some};
ghost use Rattle.cstn_net.specs.Limits.{most_load};
ghost use Rattle.cstn_net.specs.Networks.{count};
ghost use Rattle.cstn_net.specs.Read.{the_network};
ghost use Rattle.cstn_net.specs.Strategies.{IsConsistent};
ghost use Rattle.cstn_log.specs.Entries.{the_entries, bases};
ghost use Rattle.cstn_check.specs.declared.verdicts.Verdict.{Verdict};
ghost use Rattle.cstn_check.specs.Growth.{grow, log_of, load_of};
ghost use Rattle.cstn_check.specs.declared.growth.Grown.{Grown};
ghost use Rattle.cstn_check.specs.Spent.{AreSpent, fresh_count, most_tries};
ghost use Rattle.cstn_check.specs.Turns.{IsGrowable, IsGrown, KeepIds, LastRefutes};
ghost use Rattle.cstn_edit.specs.Sessions.{IsKeptLog, Refuted, Consistent, kept_list, kept_after, new_outcome, verdict_by};

use crate::outcomes::Outcome;
use cstn_check::{Grown, Verdict, grow, grow_on, verdict_of};
use cstn_log::Log;
use cstn_net::{Network, network_is_well_formed};
use cstn_rules::Tries;

// Grows the kept list, or, where that gets longer than the cap, the log of the network, and answers the verdict by the grown
// list. Where the kept list is settled, its entries give nothing new but with fresh constraints.
pub fn answer(
    net: &Network,
    log: &mut Log,
    fresh: &[u32],
    settled: bool,
    tries: &mut Tries,
) -> Outcome
    requires kept { IsKeptLog (the_network net.now) log.old }
    requires births { log.old.births < 2 ^ 60 }
    requires spent { settled ≡ true → AreSpent (the_network net.now) (the_entries log.old.entries) fresh.now (length log.old.entries) }
    ensures outcome { result ≡ new_outcome (the_network net.now) log.old.cap (kept_list (the_network net.now) log.old.cap (the_entries log.old.entries)) }
    ensures list { kept_list (the_network net.now) log.old.cap (the_entries log.new.entries)
        ≡ kept_after (the_network net.now) log.old.cap (kept_list (the_network net.now) log.old.cap (the_entries log.old.entries)) }
    ensures kept { IsKeptLog (the_network net.now) log.new }
    ensures refuted { Refuted (the_network net.now) log.new (Some result) }
    ensures consistent { Consistent (the_network net.now) (Some result) }
    ensures births { log.new.births ≤ log.old.births + 2 ^ 24 }
    ensures size { log.new.cap ≡ log.old.cap }
    ensures ids { result.afresh ≡ false → KeepIds log.old.ids log.new.ids }
    ensures spent { (load : ℕ) → result.verdict ≡ Verdict.Yes load → AreSpent (the_network net.now) (the_entries log.new.entries) [] (length log.new.entries) }
    ensures tries { tries.old.count ≤ tries.new.count }
    ensures most_tries { settled ≡ true → result.afresh ≡ false
        → tries.new.count ≤ tries.old.count + most_tries (length net.now.constraints) (fresh_count fresh.now (the_network net.now).constraints)
        (length log.old.entries) (length log.new.entries) }
{
    network_is_well_formed(net);
    if log.len() == 0 {
        return Outcome {
            afresh: true,
            verdict: Verdict::Full,
        };
    }
    let grown = grow_further(net, log, fresh, settled, tries);
    if grown == Grown::Full {
        return Outcome {
            afresh: true,
            verdict: answer_afresh(net, log, tries),
        };
    }
    Outcome {
        afresh: false,
        verdict: verdict_of(grown, log.len()),
    }
}

// Grows the list. Where it is settled, only rules with a fresh constraint or a new entry are tried.
fn grow_further(
    net: &Network,
    log: &mut Log,
    fresh: &[u32],
    settled: bool,
    tries: &mut Tries,
) -> Grown
    requires growable { IsGrowable (the_network net.now) log.old }
    requires spent { settled ≡ true → AreSpent (the_network net.now) (the_entries log.old.entries) fresh.now (length log.old.entries) }
    ensures grown { IsGrown (the_network net.now) log.old log.new result }
    ensures tries { tries.old.count ≤ tries.new.count }
    ensures most_tries { settled ≡ true → (result ≡ Grown.Full → ⊥)
        → tries.new.count ≤ tries.old.count + most_tries (length net.now.constraints) (fresh_count fresh.now (the_network net.now).constraints)
        (length log.old.entries) (length log.new.entries) }
{
    if settled {
        return grow_on(net, log, fresh, tries);
    }
    grow(net, log, tries)
}

// Replaces the list by the log of the network, or by the base bounds alone where the log is longer than the cap.
fn answer_afresh(net: &Network, log: &mut Log, tries: &mut Tries) -> Verdict
    requires room { count (the_network net.now) ≤ log.old.cap }
    requires nodes { log.old.nodes ≡ count (the_network net.now) }
    requires size { (1 ≤ log.old.cap) × (log.old.cap ≤ most_load) }
    requires births { log.old.births < 2 ^ 60 + 2 ^ 23 }
    ensures verdict { result ≡ (if nat_lt log.old.cap (load_of (the_network net.now)) then Verdict.Full else verdict_by (the_network net.now)
        (log_of (the_network net.now))) }
    ensures list { the_entries log.new.entries
        ≡ (if nat_le (load_of (the_network net.now)) log.old.cap then log_of (the_network net.now) else bases (count (the_network net.now))) }
    ensures kept { IsKeptLog (the_network net.now) log.new }
    ensures no { (load : ℕ) → result ≡ Verdict.No load → (load ≡ length log.new.entries) × LastRefutes (the_network net.now) (the_entries log.new.entries) }
    ensures yes { (load : ℕ) → result ≡ Verdict.Yes load → IsConsistent (the_network net.now) }
    ensures spent { (load : ℕ) → result ≡ Verdict.Yes load → AreSpent (the_network net.now) (the_entries log.new.entries) [] (length log.new.entries) }
    ensures births { log.new.births ≤ log.old.births + log.old.cap + 2048 }
    ensures size { log.new.cap ≡ log.old.cap }
    ensures tries { tries.old.count ≤ tries.new.count }
{
    network_is_well_formed(net);
    log.restart(net);
    let grown = grow(net, log, tries);
    if grown == Grown::Full {
        log.restart(net);
    }
    verdict_of(grown, log.len())
}
