// `drill NUMBER`
ghost use Rattle.std.specs.Prelude.{◌≡◌, ◌≤◌, ◌<◌, ◌+◌, ◌-◌, ◌^◌, length, if◌then◌else◌, IfOk};
ghost use Rattle.cstn_net.specs.Networks.{IsWellFormed};
ghost use Rattle.cstn_net.specs.Read.{the_network};
ghost use Rattle.cstn_check.specs.Growth.{most_entries};
ghost use Rattle.cstn_table.specs.Tables.{observed_props};
ghost use Rattle.cstn_check.specs.Decisions.{verdict};
ghost use Rattle.cstn_top.specs.commands.Drill.{drilled, small, large, is_unrefuted, counts_of, small_line, large_line};
ghost use Rattle.cstn_reply.specs.Read.{the_said};

use cstn_check::{Check, Verdict};
use cstn_gen::network;
use cstn_log::Cap;
use cstn_net::Network;
use cstn_reply::{Outcome, Said};
use cstn_table::{TableError, decide};
use std::alloc::{AllocError, Global};

const SMALL_NETWORKS: u32 = 64;

const SMALL_SIZE: u32 = 6;

const SMALL_CAP: u32 = 65_536;

const LARGE_SIZE: u32 = 48;

const LARGE_CAP: u32 = 16_384;

/// How many networks are consistent and how many aren't, by their checks, and on how many the table says otherwise.
#[derive(Clone, Copy)]
pub(crate) struct Counts {
    pub(crate) yes: u32,
    pub(crate) no: u32,
    pub(crate) differ: u32,
}

/// Checks the 64 small networks from a number on, which a table decides too, and the large network of the number.
pub(crate) fn drill(alloc: Global, number: u64) -> Result<Said, AllocError>
    ensures said { IfOk result (λ said. the_said said ≡ drilled number) }
{
    let counts = small_counts(alloc, number, SMALL_NETWORKS)?;
    let verdict = large_verdict(alloc, number)?;
    let mut text = small_line(alloc, counts)?;
    let line = large_line(alloc, verdict)?;
    text.extend_from_slice(&line)?;
    Ok(Said {
        outcome: Outcome::Good,
        text,
    })
}

// The counts of the first n small networks.
fn small_counts(alloc: Global, number: u64, n: u32) -> Result<Counts, AllocError>
    ensures counts { IfOk result (λ counts. counts ≡ counts_of number n) }
{
    let mut counts = Counts {
        yes: 0,
        no: 0,
        differ: 0,
    };
    for i in 0..n {
        let net = small_network(alloc, number, i)?;
        let by_table = is_decided(alloc, &net)?;
        let by_check = is_checked(alloc, net)?;
        counts = counted(counts, by_check, by_table);
    }
    Ok(counts)
}

// The counts with one more network.
fn counted(counts: Counts, by_check: bool, by_table: bool) -> Counts
    requires few { counts.yes + counts.no < 2 ^ 32 - 1 }
    requires few_differ { counts.differ < 2 ^ 32 - 1 }
    ensures yes { result.yes ≡ counts.yes + (if by_check then 1 else 0) }
    ensures all { result.yes + result.no ≡ counts.yes + counts.no + 1 }
    ensures agree { by_check ≡ by_table → result.differ ≡ counts.differ }
    ensures differ { (by_check ≡ by_table → ⊥) → result.differ ≡ counts.differ + 1 }
{
    Counts {
        yes: counts.yes + by_check as u32,
        no: counts.no + !by_check as u32,
        differ: counts.differ + (by_check != by_table) as u32,
    }
}

// The i-th small network from a number on.
fn small_network(alloc: Global, number: u64, i: u32) -> Result<Network, AllocError>
    ensures network { IfOk result (λ net. the_network net ≡ small number i) }
    ensures well_formed { IfOk result (λ net. IsWellFormed (the_network net)) }
    ensures few_props { IfOk result (λ net. length (observed_props (the_network net).observes) ≤ 8) }
    ensures few_entries { IfOk result (λ net. most_entries (the_network net) ≤ SMALL_CAP) }
{
    let (net, _) = network(alloc, number.wrapping_add(i as u64), SMALL_SIZE)?;
    Ok(net)
}

// Whether the network is consistent, by the table.
fn is_decided(alloc: Global, net: &Network) -> Result<bool, AllocError>
    requires well_formed { IsWellFormed (the_network net.now) }
    requires few_props { length (observed_props (the_network net.now).observes) ≤ 8 }
    ensures consistent { IfOk result (λ is. is ≡ is_unrefuted (the_network net.now)) }
{
    match decide(alloc, net) {
        Ok(Some(_)) => Ok(true),
        Ok(None) => Ok(false),
        Err(TableError::TooManyProps) => unreachable!(),
        Err(TableError::Memory(error)) => Err(error),
    }
}

// Whether the network is consistent, by its check.
fn is_checked(alloc: Global, net: Network) -> Result<bool, AllocError>
    requires well_formed { IsWellFormed (the_network net) }
    requires few_entries { most_entries (the_network net) ≤ SMALL_CAP }
    ensures consistent { IfOk result (λ is. is ≡ is_unrefuted (the_network net)) }
{
    let mut check = Check::start(alloc, net, Cap { entries: SMALL_CAP })?;
    match check.run() {
        Verdict::Yes { .. } => Ok(true),
        Verdict::No { .. } => Ok(false),
        Verdict::Full => unreachable!(),
    }
}

// The verdict on the large network of a number.
fn large_verdict(alloc: Global, number: u64) -> Result<Verdict, AllocError>
    ensures verdict { IfOk result (λ v. v ≡ verdict LARGE_CAP (large number)) }
{
    let net = large_network(alloc, number)?;
    let mut check = Check::start(alloc, net, Cap { entries: LARGE_CAP })?;
    Ok(check.run())
}

// The large network of a number.
fn large_network(alloc: Global, number: u64) -> Result<Network, AllocError>
    ensures network { IfOk result (λ net. the_network net ≡ large number) }
    ensures well_formed { IfOk result (λ net. IsWellFormed (the_network net)) }
{
    let (net, _) = network(alloc, number, LARGE_SIZE)?;
    Ok(net)
}

fn small_line(alloc: Global, counts: Counts) -> Result<Vec<u8>, AllocError>
    ensures line { IfOk result (λ line. line.items ≡ small_line counts) }
{
    let Counts { yes, no, differ } = counts;
    let line = format!(in alloc; "small 64 yes {yes} no {no} differ {differ}\n")?;
    Ok(line.into_bytes())
}

fn large_line(alloc: Global, verdict: Verdict) -> Result<Vec<u8>, AllocError>
    ensures line { IfOk result (λ line. line.items ≡ large_line verdict) }
{
    let line = match verdict {
        Verdict::Yes { load } => format!(in alloc; "large 48 yes {load}\n"),
        Verdict::No { load } => format!(in alloc; "large 48 no {load}\n"),
        Verdict::Full => format!(in alloc; "large 48 full {LARGE_CAP}\n"),
    };
    let line = line?;
    Ok(line.into_bytes())
}
