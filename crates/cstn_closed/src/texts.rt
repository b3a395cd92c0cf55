// The check of a text of bounds.
ghost use Rattle.std.specs.Prelude.{◌≡◌, ◌≤◌, ◌<◌, ◌++◌, ℕ, List, length, IfOk, codes, decimal, [], ◌∷◌, slice_index_or};
ghost use Rattle.cstn_label.specs.Limits.{most_ids};
ghost use Rattle.cstn_net.specs.Networks.{count};
ghost use Rattle.cstn_net.specs.Read.{the_network};
ghost use Rattle.cstn_text.specs.PrintedNames.{printed_name};
ghost use Rattle.cstn_reply.specs.Read.{the_said};
ghost use Rattle.cstn_reply.specs.Texts.{say};
ghost use Rattle.cstn_closed.specs.Certificates.{IsCertificate, IsCertificateOf};
ghost use Rattle.cstn_closed.specs.Closed.{the_listed_bounds};

use crate::{Closed, ClosedAnswer, ClosedError, Indexed, check};
use cstn_label::NodeId;
use cstn_net::Network;
use cstn_reply::{Outcome, Said, accepted, wrong_line};
use cstn_text::{Names, print_name};
use std::alloc::{AllocError, Global};

/// Says that the bounds of a text are closed for the network, or what their first fault is; of a text that isn't of the form,
/// the first line that is wrong. Fails for want of memory alone.
pub fn closedcheck_text(
    alloc: Global,
    network: &Network,
    names: &Names,
    text: &[u8],
) -> Result<Said, AllocError>
    requires named { length names.now ≡ count (the_network network.now) }
    requires few { length names.now ≤ most_ids }
    ensures said { IfOk result (λ said. IsCertificateOf names.now text.now (the_network network.now) (the_said said)) }
{
    match Closed::read(alloc, names, text) {
        Ok(closed) => check_closed(alloc, network, names, closed),
        Err(ClosedError::Line { line }) => wrong_line(alloc, line),
        Err(ClosedError::Memory(error)) => Err(error),
    }
}

// The check of a list for a network.
fn check_closed(
    alloc: Global,
    network: &Network,
    names: &Names,
    closed: Closed,
) -> Result<Said, AllocError>
    requires named { length names.now ≡ count (the_network network.now) }
    ensures said { IfOk result (λ said. IsCertificate names.now (the_listed_bounds closed) (the_network network.now) (the_said said)) }
{
    let indexed = Indexed::of(alloc, closed)?;
    check_bounds(alloc, network, names, &indexed)
}

// The check of bounds for a network.
fn check_bounds(
    alloc: Global,
    network: &Network,
    names: &Names,
    closed: &Indexed,
) -> Result<Said, AllocError>
    requires named { length names.now ≡ count (the_network network.now) }
    ensures said { IfOk result (λ said. IsCertificate names.now (the_listed_bounds closed.now) (the_network network.now) (the_said said)) }
{
    match check(network, closed) {
        ClosedAnswer::Accepted => accepted(alloc),
        ClosedAnswer::Bad { at } => bad_bound(alloc, at),
        ClosedAnswer::NoBase { node } => no_base(alloc, node, names),
        ClosedAnswer::NoChain { constraint, at } => no_chain(alloc, constraint, at),
        ClosedAnswer::NoWait { seen, at } => no_wait(alloc, seen, at),
    }
}

fn bad_bound(alloc: Global, at: u32) -> Result<Said, AllocError>
    ensures said { IfOk result (λ said. the_said said ≡ say Outcome.Bad (codes "rejected bound " ++ decimal at)) }
{
    let text = format!(in alloc; "rejected bound {at}\n")?;
    Ok(Said {
        outcome: Outcome::Bad,
        text: text.into_bytes(),
    })
}

fn no_base(alloc: Global, node: NodeId, names: &Names) -> Result<Said, AllocError>
    requires node { node.0 < length names.now }
    ensures said { IfOk result (λ said. the_said said ≡ say Outcome.Bad (codes "rejected base " ++ printed_name (slice_index_or names.now node.0 []))) }
{
    let name = print_name(alloc, names.name(node))?;
    let text = format!(in alloc; "rejected base {name}\n")?;
    Ok(Said {
        outcome: Outcome::Bad,
        text: text.into_bytes(),
    })
}

fn no_chain(alloc: Global, constraint: u32, at: u32) -> Result<Said, AllocError>
    ensures said { IfOk result (λ said. the_said said ≡ say Outcome.Bad (codes "rejected chain " ++ decimal constraint ++ 32 ∷ decimal at)) }
{
    let text = format!(in alloc; "rejected chain {constraint} {at}\n")?;
    Ok(Said {
        outcome: Outcome::Bad,
        text: text.into_bytes(),
    })
}

fn no_wait(alloc: Global, seen: u32, at: u32) -> Result<Said, AllocError>
    ensures said { IfOk result (λ said. the_said said ≡ say Outcome.Bad (codes "rejected wait " ++ decimal seen ++ 32 ∷ decimal at)) }
{
    let text = format!(in alloc; "rejected wait {seen} {at}\n")?;
    Ok(Said {
        outcome: Outcome::Bad,
        text: text.into_bytes(),
    })
}
