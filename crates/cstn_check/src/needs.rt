// What a check says of a network, and which constraints its no needs.
ghost use Rattle.std.specs.Prelude.{ℕ, ◌≡◌, ◌<◌, ◌++◌, ◌∷◌, [], true, false, List, length, map, get_or, Some, IfOk};
ghost use Rattle.cstn_net.specs.Read.{the_network};
ghost use Rattle.cstn_rules.specs.Derivations.{Entry as TheEntry};
ghost use Rattle.cstn_rules.specs.Read.{the_entry};
ghost use Rattle.cstn_log.specs.Entries.{the_entries};
ghost use Rattle.cstn_check.specs.Givers.{is_of};
ghost use Rattle.cstn_check.specs.Growth.{load_of};
ghost use Rattle.cstn_check.specs.Needs.{said, answer, IfNo, AreMarked, IsNeeded, Stands};
ghost use Rattle.cstn_check.specs.declared.verdicts.Verdict.{Verdict};

use crate::checks::Check;
use crate::laws::growth_decides;
use crate::room::is_never_full;
use crate::search::ids_of;
use crate::verdicts::Verdict;
use cstn_log::{Cap, Log};
use cstn_net::{Network, network_is_well_formed};
use cstn_rules::{Entry, Why};
use std::alloc::{AllocError, Global};

/// What a check finds, and which constraints its no needs.
#[derive(Drop)]
pub enum Finding {
    /// Nothing: the log is full.
    Full,
    /// Yes; `load` is the number of entries of the log.
    Yes { load: u32 },
    /// No, also without any constraints but those of these ids.
    No(Vec<u32>),
}

/// What a check finds of a network, whose log may have `cap` entries. A no needs those constraints that gave a step of the
/// refutation, where no log can be full, and else those that gave an entry of the log. The network is dropped. Fails for want of
/// memory alone.
pub fn find(alloc: Global, net: Network, cap: Cap) -> Result<Finding, AllocError>
    ensures said { IfOk result (λ o. answer o ≡ said cap.entries (the_network net)) }
    ensures load { IfOk result (λ o. (load : ℕ) → o ≡ Finding.Yes load → load ≡ load_of (the_network net)) }
    ensures stands { IfOk result (λ o. IfNo o (Stands (said cap.entries) (the_network net))) }
{
    growth_decides();
    network_is_well_formed(&net);
    let mut check = Check::start(alloc, net, cap)?;
    match check.run() {
        Verdict::Yes { load } => Ok(Finding::Yes { load }),
        Verdict::Full => Ok(Finding::Full),
        Verdict::No { .. } => {
            let needed = needed_by(alloc, &check, cap)?;
            Ok(Finding::No(needed))
        }
    }
}

// The ids of the constraints that a check that said no needs.
fn needed_by(alloc: Global, check: &Check, cap: Cap) -> Result<Vec<u32>, AllocError>
    requires no { (load : ℕ) × (check.now.verdict ≡ Some (Verdict.No load)) }
    ensures needed { IfOk result (λ v. IsNeeded cap.entries (the_network check.now.net) v.items) }
{
    let net = check.network();
    let ids = ids_of(alloc, net)?;
    if is_never_full(net, cap) {
        let refutation = check.refutation(alloc)?;
        let marks = marks_of_steps(alloc, net, refutation.steps())?;
        let needed = marked(alloc, &ids, &marks)?;
        return Ok(needed);
    }
    let marks = marks_of_log(alloc, net, check.kept())?;
    let needed = marked(alloc, &ids, &marks)?;
    Ok(needed)
}

// For each constraint of the network, whether it gave one of the steps.
fn marks_of_steps(alloc: Global, net: &Network, steps: &[Entry]) -> Result<Vec<bool>, AllocError>
    ensures size { IfOk result (λ marks. length marks.items ≡ length net.now.constraints) }
    ensures marked { IfOk result (λ marks. AreMarked (the_network net.now) marks.items (map the_entry steps.now)) }
{
    let mut marks = vec![in alloc; false; net.constraints().len()]?;
    for k in 0..steps.len() {
        mark(net, steps[k], &mut marks);
    }
    Ok(marks)
}

// For each constraint of the network, whether it gave an entry of the log.
fn marks_of_log(alloc: Global, net: &Network, log: &Log) -> Result<Vec<bool>, AllocError>
    ensures size { IfOk result (λ marks. length marks.items ≡ length net.now.constraints) }
    ensures marked { IfOk result (λ marks. AreMarked (the_network net.now) marks.items (the_entries log.now.entries)) }
{
    let mut marks = vec![in alloc; false; net.constraints().len()]?;
    for k in 0..log.len() {
        mark(net, log.entry(k), &mut marks);
    }
    Ok(marks)
}

// Marks the place of the constraint that gave the entry, if one of the network did.
fn mark(net: &Network, e: Entry, marks: &mut [bool])
    requires size { length marks.old ≡ length net.now.constraints }
    ensures marked { (list : List TheEntry) → AreMarked (the_network net.now) marks.old list
        → AreMarked (the_network net.now) marks.new (list ++ the_entry e ∷ []) }
    ensures size { length marks.new ≡ length marks.old }
{
    network_is_well_formed(net);
    let Why::Chain { constraint, .. } = e.why else {
        return;
    };
    let Some(place) = net.place_of(constraint) else {
        return;
    };
    marks[place] = true;
}

// The ids that are marked.
fn marked(alloc: Global, ids: &[u32], marks: &[bool]) -> Result<Vec<u32>, AllocError>
    requires { length marks.now ≡ length ids.now }
    ensures { IfOk result (λ v. (k : ℕ) → k < length ids.now → is_of v.items (get_or ids.now k 0) ≡ false → get_or marks.now k true ≡ false) }
{
    let mut found = Vec::new(alloc);
    for k in 0..ids.len() {
        if marks[k] {
            found.push(ids[k])?;
        }
    }
    Ok(found)
}
