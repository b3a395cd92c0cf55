// By how much a limit has to give way in a session.
ghost use Rattle.std.specs.Prelude.{◌≡◌, Some, true, pos, ◌+ℤ◌, ◌-ℤ◌, ◌≤ℤ◌, ◌<ℤ◌, IfOk};
ghost use Rattle.std.specs.Int.{int_max};
ghost use Rattle.cstn_net.specs.Limits.{most_deadline};
ghost use Rattle.cstn_net.specs.Networks.{IsValue};
ghost use Rattle.cstn_lift.specs.Read.{the_labelled};
ghost use Rattle.cstn_history.specs.Read.{the_history};
ghost use Rattle.cstn_follow.specs.Raises.{raised_to, raise_first, raise_stuck, raise_by, raise_of, IsRightRaise};

use super::Session;
use crate::answers::Raise;
use crate::raises::{least_raise, value_of};
use cstn_check::Verdict;
use std::alloc::AllocError;

impl Session {
    /// By how much the constraint with this id has to give way where what has happened can't go on: the least value above its own, in ticks
    /// and up to 1,000,000,000, with which it can. Takes up to 22 checks. Fails for want of memory alone.
    pub fn raise(&self, id: u32) -> Result<Raise, AllocError>
        ensures right { IfOk result (IsRightRaise (the_labelled self.now.network) (the_history self.now.history) self.now.fresh self.now.cap id) }
        ensures told { IfOk result (λ r. r
            ≡ raise_of (the_labelled self.now.network) (the_history self.now.history) self.now.fresh self.now.cap id self.now.verdict) }
    {
        let raise = self.raise_found(id)?;
        self.verdict();
        Ok(raise)
    }

    // By how much it has to give way, if there is a constraint with the id.
    fn raise_found(&self, id: u32) -> Result<Raise, AllocError>
        ensures told { IfOk result (λ r. r
            ≡ raise_of (the_labelled self.now.network) (the_history self.now.history) self.now.fresh self.now.cap id self.now.verdict) }
    {
        let Some(own) = value_of(self.network().base(), id) else {
            return Ok(Raise::NoSuch);
        };
        self.raise_by(id, own, self.verdict())
    }

    // By this verdict, by how much it has to give way, where this is its value.
    fn raise_by(&self, id: u32, own: i32, verdict: Verdict) -> Result<Raise, AllocError>
        ensures told { IfOk result (λ r. r
            ≡ raise_by (the_labelled self.now.network) (the_history self.now.history) self.now.fresh self.now.cap id own verdict) }
    {
        match verdict {
            Verdict::Yes { .. } => Ok(Raise::Possible),
            Verdict::No { .. } => self.raise_stuck(id, own),
            Verdict::Full => Ok(Raise::Unknown),
        }
    }

    // By how much it has to give way, where what has happened can't go on.
    fn raise_stuck(&self, id: u32, own: i32) -> Result<Raise, AllocError>
        ensures told { IfOk result (λ r. r
            ≡ raise_stuck (the_labelled self.now.network) (the_history self.now.history) self.now.fresh self.now.cap id own) }
    {
        let high = self.highest();
        if own < high {
            let said = self.execution.said_raised(self.alloc, id, high, self.cap)?;
            self.raise_first(id, least_tried(own, high), said)
        } else {
            Ok(Raise::Never)
        }
    }

    // By what is said of the deadline as its value, by how much it has to give way.
    fn raise_first(&self, id: u32, low: i32, said: Option<bool>) -> Result<Raise, AllocError>
        requires low { (pos 0 -ℤ pos (the_labelled self.now.network).base.deadline) ≤ℤ low }
        requires order { low ≤ℤ pos (the_labelled self.now.network).base.deadline }
        ensures told { IfOk result (λ r. r
            ≡ raise_first (the_labelled self.now.network) (the_history self.now.history) self.now.fresh self.now.cap id low said) }
    {
        match said {
            None => Ok(Raise::Unknown),
            Some(true) => self.raise_from(id, low),
            Some(false) => Ok(Raise::Never),
        }
    }

    // The least value from this one up to the deadline, with which what has happened can go on.
    fn raise_from(&self, id: u32, low: i32) -> Result<Raise, AllocError>
        requires low { (pos 0 -ℤ pos (the_labelled self.now.network).base.deadline) ≤ℤ low }
        requires order { low ≤ℤ pos (the_labelled self.now.network).base.deadline }
        ensures told { IfOk result (λ r. r
            ≡ raise_first (the_labelled self.now.network) (the_history self.now.history) self.now.fresh self.now.cap id low (Some true)) }
    {
        let found = least_raise(
            self.alloc,
            &self.execution,
            id,
            low,
            self.highest(),
            self.cap,
        )?;
        Ok(raised_to(found))
    }

    // The deadline as a value, from which on values are one.
    fn highest(&self) -> i32
        ensures highest { result ≡ pos (the_labelled self.now.network).base.deadline }
        ensures range { result ≤ℤ pos most_deadline }
        ensures value { IsValue result }
    {
        self.network().base().deadline() as i32
    }
}

// The least value that is tried.
fn least_tried(own: i32, high: i32) -> i32
    requires order { own <ℤ high }
    requires range { high ≤ℤ pos most_deadline }
    requires low { pos 0 ≤ℤ high }
    ensures tried { result ≡ int_max (own +ℤ pos 1) (pos 0 -ℤ high) }
    ensures order { result ≤ℤ high }
    ensures low { (pos 0 -ℤ high) ≤ℤ result }
{
    (own + 1).max(-high)
}

fn raised_to(found: Option<i32>) -> Raise
    ensures { result ≡ raised_to found }
{
    match found {
        Some(most) => Raise::To(most),
        None => Raise::Unknown,
    }
}
