// Which constraints a no needs.
ghost use Rattle.std.specs.Prelude.{ℕ, ◌≡◌, ◌++◌, ◌∷◌, [], List, IfOk, if◌then◌else◌};
ghost use Rattle.cstn_net.specs.Networks.{count};
ghost use Rattle.cstn_net.specs.Read.{the_network, the_constraint, IsInRange};
ghost use Rattle.cstn_check.specs.Needs.{said, answer, IfNo};
ghost use Rattle.cstn_lift.specs.Completion.{full_label};
ghost use Rattle.cstn_lift.specs.Kept.{IsConstraintOf};
ghost use Rattle.cstn_lift.specs.Lowered.{is_plain};
ghost use Rattle.cstn_lift.specs.Read.{the_labelled};
ghost use Rattle.cstn_follow.specs.Needs.{sources, HasSources, NeedsNoOther};

use cstn_check::{Finding, find};
use cstn_history::completed;
use cstn_lift::{Labelled, plain_constraints_are_kept};
use cstn_log::Cap;
use cstn_net::{Constraint, Network};
use std::alloc::{AllocError, Global};

/// What a check finds of a network, whose log may have `cap` entries. Its constraints are numbered from 0, and these are the ids
/// that the first of them had, by which a no tells what it needs. Fails for want of memory alone.
pub(crate) fn find_by_sources(
    alloc: Global,
    net: Network,
    sources: &[u32],
    cap: Cap,
) -> Result<Finding, AllocError>
    ensures said { IfOk result (λ o. answer o ≡ said cap.entries (the_network net)) }
    ensures needed { IfOk result (λ o. IfNo o (NeedsNoOther cap.entries (the_network net) sources.now)) }
{
    match find(alloc, net, cap)? {
        Finding::Full => Ok(Finding::Full),
        Finding::Yes { load } => Ok(Finding::Yes { load }),
        Finding::No(numbers) => {
            let needed = at_numbers(alloc, sources, &numbers)?;
            Ok(Finding::No(needed))
        }
    }
}

// The sources at these numbers, where they have one.
fn at_numbers(alloc: Global, sources: &[u32], numbers: &[u32]) -> Result<Vec<u32>, AllocError>
    ensures { IfOk result (λ v. HasSources sources.now v.items numbers.now) }
{
    let mut found = Vec::new(alloc);
    for i in 0..numbers.len() {
        push_at(&mut found, sources, numbers[i])?;
    }
    Ok(found)
}

// Puts the source at the number, if it has one.
fn push_at(found: &mut Vec<u32>, sources: &[u32], number: u32) -> Result<(), AllocError>
    ensures { IfOk result (λ _. (numbers : List ℕ) → HasSources sources.now found.old.items numbers
        → HasSources sources.now found.new.items (numbers ++ number ∷ [])) }
{
    let place = number as usize;
    if place < sources.len() {
        found.push(sources[place])?;
    }
    Ok(())
}

/// The ids of those constraints of a labelled network that its lowered network has, in order: of those with plain full labels.
pub(crate) fn sources(alloc: Global, network: &Labelled) -> Result<Vec<u32>, AllocError>
    ensures { IfOk result (λ v. v.items ≡ sources (the_labelled network.now)) }
{
    let mut ids = Vec::new(alloc);
    for c in network.base().constraints() {
        push_if(&mut ids, c.id, is_plain(network, c))?;
    }
    Ok(ids)
}

/// Puts an id behind the others, if it is kept.
pub(crate) fn push_if(ids: &mut Vec<u32>, id: u32, is_kept: bool) -> Result<(), AllocError>
    ensures { IfOk result (λ _. ids.new.items ≡ ids.old.items ++ (if is_kept then id ∷ [] else [])) }
{
    if is_kept {
        ids.push(id)?;
    }
    Ok(())
}

/// Whether the full label of a constraint is plain.
pub(crate) fn is_plain(network: &Labelled, c: &Constraint) -> bool
    requires range { IsInRange (count (the_labelled network.now).base) c.now }
    requires given { IsConstraintOf (the_labelled network.now) (the_constraint c.now) }
    ensures { result ≡ is_plain (full_label (the_labelled network.now) (the_constraint c.now)) }
{
    plain_constraints_are_kept();
    network.base();
    let ends = network.label(c.from).join(network.label(c.to));
    completed(network, c.label.join(ends)).is_plain()
}
