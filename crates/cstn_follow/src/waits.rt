// Until when a time-point can wait.
ghost use Rattle.std.specs.Prelude.{ℕ, ◌≡◌, ◌+◌, ◌++◌, ◌∷◌, [], ◌<◌, ◌≤◌, ◌&&◌, nat_lt, IsTrue, None, Some, length, IfOk, IsOk, IsErrOf};
ghost use Rattle.std.specs.List.{All};
ghost use Rattle.cstn_net.specs.Limits.{most_constraints, most_deadline};
ghost use Rattle.cstn_net.specs.Networks.{IsWellFormed, count};
ghost use Rattle.cstn_net.specs.Read.{the_network, the_constraint};
ghost use Rattle.cstn_lift.specs.Lowered.{lowered};
ghost use Rattle.cstn_lift.specs.Read.{the_labelled};
ghost use Rattle.cstn_history.specs.Continuations.{Can, CanWait};
ghost use Rattle.cstn_history.specs.Rest.{is_left, rest};
ghost use Rattle.cstn_history.specs.Read.{the_history, IsKeptFor};
ghost use Rattle.cstn_history.specs.Handed.{rest_number};
ghost use Rattle.cstn_follow.specs.Waiting.{HasRoomToWait, TakesWaiting, waiting_one, said_until, waits_until, wait_number};

use crate::errors::WaitError;
use crate::laws::waiting_is_found;
use crate::tries::{said, with_base};
use cstn_check::{MomentTrial, Span, halve};
use cstn_history::{History, RestError, numbers_left, rest};
use cstn_label::{Label, NodeId};
use cstn_lift::Labelled;
use cstn_log::Cap;
use cstn_net::{Constraint, MAX_CONSTRAINTS, Network};
use std::alloc::{AllocError, Global};

/// Until when a time-point that is left and isn't done can wait, in ticks: the greatest moment at which or after which some table
/// that continues the history has it in each scenario in which it is executed. Found by at most 20 checks of what is left, each
/// of a log that may have `cap` entries. The ids of the network are below `fresh`, which is at most 4,294,000,000.
pub fn by(
    alloc: Global,
    network: &Labelled,
    history: &History,
    fresh: u32,
    x: NodeId,
    cap: Cap,
) -> Result<u32, WaitError>
    requires kept { IsKeptFor (the_labelled network.now) history.now }
    requires above { All (λ c. c.id < fresh) (the_labelled network.now).base.constraints }
    requires room { fresh ≤ 4294000000 }
    requires inside { x.0 < count (the_labelled network.now).base }
    requires coming { (the_history history.now).done x.0 ≡ None }
    requires left { IsTrue (is_left (the_labelled network.now) (the_history history.now) x.0) }
    requires can { Can (the_labelled network.now) (the_history history.now) }
    ensures waits { IfOk result (λ t. CanWait (the_labelled network.now) (the_history history.now) x.0 t) }
    ensures last { IfOk result (λ t. (u : ℕ) → CanWait (the_labelled network.now) (the_history history.now) x.0 u → u ≤ t) }
    ensures until { IfOk result (λ t. waits_until (the_labelled network.now) (the_history history.now) fresh x.0 cap.entries ≡ Some t) }

    // Unless memory is refused, it is refused exactly where there are too many constraints, and else where a log is full.
    ensures few { IsOk result → HasRoomToWait (the_labelled network.now) (the_history history.now) fresh }
    ensures many { IsErrOf result WaitError.TooManyConstraints → HasRoomToWait (the_labelled network.now) (the_history history.now) fresh → ⊥ }
    ensures full { IsErrOf result WaitError.Full → HasRoomToWait (the_labelled network.now) (the_history history.now) fresh
        × (waits_until (the_labelled network.now) (the_history history.now) fresh x.0 cap.entries ≡ None) }
{
    waiting_is_found();
    network.base();
    let remaining = match rest(alloc, network, history, fresh) {
        Ok(remaining) => remaining,
        Err(e) => return Err(error_of(e)),
    };
    let numbers = match numbers_left(alloc, network, history) {
        Ok(numbers) => numbers,
        Err(e) => return Err(WaitError::Memory(e)),
    };
    if !has_room(&remaining) {
        return Err(WaitError::TooManyConstraints);
    }
    let span = Span {
        low: history.now(),
        high: network.base().deadline(),
    };
    let waiting = Waiting {
        remaining: &remaining,
        fresh,
        number: numbers[x.index()],
        cap,
    };
    match halve(alloc, &waiting, span) {
        Ok(Some(moment)) => Ok(moment),
        Ok(None) => Err(WaitError::Full),
        Err(e) => Err(WaitError::Memory(e)),
    }
}

// The refusal that a refusal of what is left stands for.
fn error_of(error: RestError) -> WaitError
    ensures memory { rest_number error ≡ 0 → wait_number result ≡ 0 }
    ensures many { (rest_number error ≡ 0 → ⊥) → result ≡ WaitError.TooManyConstraints }
    ensures never { result ≡ WaitError.Full → ⊥ }
{
    match error {
        RestError::Memory(e) => WaitError::Memory(e),
        RestError::TooManyConstraints => WaitError::TooManyConstraints,
    }
}

/// Whether a labelled network, and its lowered network, has room for one constraint more.
pub(crate) fn has_room(network: &Labelled) -> bool
    ensures { result ≡ (nat_lt (length (the_labelled network.now).base.constraints) most_constraints
        && nat_lt (length (lowered (the_labelled network.now)).constraints) most_constraints) }
{
    network.base().constraints().len() < MAX_CONSTRAINTS
        && network.lowered().constraints().len() < MAX_CONSTRAINTS
}

// What a check says of a labelled network with a time-point at some moment or later.
#[derive(Clone, Copy)]
struct Waiting<'a> {
    remaining: &'a Labelled,
    fresh: u32,
    number: u16,
    cap: Cap,
}

impl<'a> MomentTrial for Waiting<'a> {
    ghost may = { λ w. (w.fresh ≤ 4294000000) × TakesWaiting (the_labelled w.remaining.now) w.fresh w.number };

    ghost says = { λ w. said_until (the_labelled w.remaining.now) w.fresh w.number w.cap.entries };

    fn says(&self, alloc: Global, moment: u32) -> Result<Option<bool>, AllocError> {
        said_until(
            alloc,
            self.remaining,
            self.fresh,
            self.number,
            moment,
            self.cap,
        )
    }
}

// What a check says of a labelled network with a time-point at this moment or later.
fn said_until(
    alloc: Global,
    remaining: &Labelled,
    fresh: u32,
    number: u16,
    moment: u32,
    cap: Cap,
) -> Result<Option<bool>, AllocError>
    requires range { moment ≤ most_deadline }
    requires low { fresh ≤ 4294000000 }
    requires takes { TakesWaiting (the_labelled remaining.now) fresh number }
    ensures { IfOk result (λ o. o ≡ said_until (the_labelled remaining.now) fresh number cap.entries moment) }
{
    waiting_is_found();
    let base = base_until(alloc, remaining.base(), fresh, number, moment)?;
    let waiting = with_base(alloc, remaining, base)?;
    let (net, _) = waiting.split();
    said(alloc, net, cap)
}

// The network with the constraint by which a time-point is at this moment or later.
fn base_until(
    alloc: Global,
    net: &Network,
    fresh: u32,
    number: u16,
    moment: u32,
) -> Result<Network, AllocError>
    requires range { moment ≤ most_deadline }
    requires low { fresh ≤ 4294000000 }
    requires inside { number < count (the_network net.now) }
    requires above { All (λ c. c.id < fresh + most_constraints) (the_network net.now).constraints }
    requires few { length (the_network net.now).constraints < most_constraints }
    ensures base { IfOk result (λ n. the_network n
        ≡ record (the_network net.now) { constraints = (the_network net.now).constraints ++ waiting_one fresh number moment ∷ [] }) }
    ensures well_formed { IfOk result (λ n. IsWellFormed (the_network n)) }
{
    let mut base = net.copy(alloc)?;
    base.reserve(base.constraints().len() as u32 + 1)?;
    base.insert(waiting_one(fresh, number, moment));
    Ok(base)
}

// The constraint by which a time-point is at this moment or later.
fn waiting_one(fresh: u32, number: u16, moment: u32) -> Constraint
    requires range { moment ≤ most_deadline }
    requires low { fresh ≤ 4294000000 }
    ensures { the_constraint result ≡ waiting_one fresh number moment }
{
    Constraint {
        id: fresh + MAX_CONSTRAINTS as u32,
        from: NodeId(number),
        to: NodeId(0),
        most: -(moment as i32),
        label: Label::empty(),
    }
}
