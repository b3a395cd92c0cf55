// Facts that are recorded in a history, and those that are refused.
ghost use Rattle.std.specs.Prelude.{◌≡◌, ◌<◌, ◌≤◌, ◌↔◌, IfSome, IsTrue, length, OnOk, OnErr};
ghost use Rattle.std.specs.Option.{option_map};
ghost use Rattle.cstn_net.specs.Limits.{most_deadline};
ghost use Rattle.cstn_net.specs.Networks.{count};
ghost use Rattle.cstn_lift.specs.Labelled.{Labelled as TheLabelled};
ghost use Rattle.cstn_lift.specs.WellFormed.{IsLabelled};
ghost use Rattle.cstn_lift.specs.Read.{the_labelled};
ghost use Rattle.cstn_lift.specs.Lowered.{observer_of};
ghost use Rattle.cstn_history.specs.Read.{the_history, IsKeptFor, the_fact_refusal, refusal_of};
ghost use Rattle.cstn_history.specs.Facts.{now_refusal, done_refusal, told_refusal, expected_refusal, wait_refusal, ready_refusal, observed_since, latest_expected, is_beyond};
ghost use Rattle.cstn_history.specs.Facts.{at_now, with_done, with_told, with_expected, with_ready};

use crate::completion::completed;
use crate::errors::FactError;
use crate::histories::History;
use cstn_label::{NodeId, Prop};
use cstn_lift::{Labelled, observers_are_found};
use cstn_net::{MAX_DEADLINE, MAX_REACTION};

impl History {
    /// Records that it is this moment now, in ticks, and that nothing else has happened. Refused with the first that applies of
    /// `Past` and `OutOfRange`.
    pub fn pass(&mut self, moment: u32) -> Result<(), FactError>
        ensures refused { refusal_of result ≡ now_refusal (the_history self.old) moment }
        ensures recorded { OnOk result (the_history self.new ≡ at_now (the_history self.old) moment) }
        ensures same { OnErr result (self.new ≡ self.old) }
        ensures kept { (m : TheLabelled) → IsKeptFor m self.old → IsKeptFor m self.new }
    {
        if moment < self.time {
            return Err(FactError::Past { now: self.time });
        }
        if is_beyond(moment) {
            return Err(FactError::OutOfRange { moment });
        }
        self.time = moment;
        Ok(())
    }

    /// Records that a time-point was done at this moment, in ticks, which may be past or before it was ready; where it is above now,
    /// it is that moment now. Refused with the first that applies of `OutOfRange`, `NoSuch`, `Done` and `Undecided`.
    pub fn execute(&mut self, network: &Labelled, moment: u32, x: NodeId) -> Result<(), FactError>
        requires kept { IsKeptFor (the_labelled network.now) self.old }
        ensures refused { refusal_of result ≡ done_refusal (the_labelled network.now) (the_history self.old) moment x.0 }
        ensures recorded { OnOk result (the_history self.new ≡ with_done (the_history self.old) moment x.0) }
        ensures same { OnErr result (self.new ≡ self.old) }
        ensures kept { IsKeptFor (the_labelled network.now) self.new }
    {
        if let Some(refusal) = self.done_refusal(network, moment, x) {
            return Err(refusal);
        }
        self.done[x.index()] = Some(moment);
        self.time = self.time.max(moment);
        Ok(())
    }

    /// Records that the outcome of a proposition came at this moment, in ticks, which may be past; where it is above now, it is
    /// that moment now. Refused with the first that applies of `OutOfRange` for a moment above 1,000,000, `NotObserved`, `Told`,
    /// and `OutOfRange` for a moment before its observer was done.
    pub fn observe(
        &mut self,
        network: &Labelled,
        moment: u32,
        p: Prop,
        value: bool,
    ) -> Result<(), FactError>
        requires kept { IsKeptFor (the_labelled network.now) self.old }
        ensures refused { refusal_of result ≡ told_refusal (the_labelled network.now) (the_history self.old) moment p.index }
        ensures recorded { OnOk result (the_history self.new ≡ with_told (the_history self.old) moment p.index value) }
        ensures same { OnErr result (self.new ≡ self.old) }
        ensures kept { IsKeptFor (the_labelled network.now) self.new }
    {
        if let Some(refusal) = self.told_refusal(network, moment, p) {
            return Err(refusal);
        }
        self.told = self.told.with(p, value);
        self.time = self.time.max(moment);
        Ok(())
    }

    /// Records that the outcome of a proposition is expected at this moment, in ticks, and not before. Refused with the first
    /// that applies of `NotObserved`, `Told` and `OutOfRange`.
    pub fn expect(&mut self, network: &Labelled, moment: u32, p: Prop) -> Result<(), FactError>
        requires kept { IsKeptFor (the_labelled network.now) self.old }
        ensures refused { refusal_of result ≡ expected_refusal (the_labelled network.now) (the_history self.old) moment p.index }
        ensures recorded { OnOk result (the_history self.new ≡ with_expected (the_history self.old) moment p.index) }
        ensures same { OnErr result (self.new ≡ self.old) }
        ensures kept { IsKeptFor (the_labelled network.now) self.new }
    {
        if let Some(refusal) = self.expected_refusal(network, moment, p) {
            return Err(refusal);
        }
        self.expected[p.index as usize] = Some(moment);
        Ok(())
    }

    /// Records that a time-point can't be done before this moment, in ticks, whatever was recorded of this before; 0 takes it back.
    /// Refused with the first that applies of `OutOfRange`, `NoSuch`, `Done` and, where it is ruled out, `Undecided`.
    pub fn make_ready(
        &mut self,
        network: &Labelled,
        moment: u32,
        x: NodeId,
    ) -> Result<(), FactError>
        requires kept { IsKeptFor (the_labelled network.now) self.old }
        ensures refused { refusal_of result ≡ ready_refusal (the_labelled network.now) (the_history self.old) moment x.0 }
        ensures recorded { OnOk result (the_history self.new ≡ with_ready (the_history self.old) moment x.0) }
        ensures same { OnErr result (self.new ≡ self.old) }
        ensures kept { IsKeptFor (the_labelled network.now) self.new }
    {
        if is_beyond(moment) {
            return Err(FactError::OutOfRange { moment });
        }
        if let Some(refusal) = self.wait_refusal(network, x) {
            return Err(refusal);
        }
        self.ready[x.index()] = moment;
        Ok(())
    }

    /// Why a time-point doesn't wait: the first that applies of `NoSuch`, `Done` and, where it is ruled out, `Undecided`; none where it
    /// may still be done.
    pub fn wait_refusal(&self, network: &Labelled, x: NodeId) -> Option<FactError>
        requires kept { IsKeptFor (the_labelled network.now) self.now }
        ensures refusal { option_map the_fact_refusal result ≡ wait_refusal (the_labelled network.now) (the_history self.now) x.0 }
        ensures labelled { IsLabelled (the_labelled network.now) }
    {
        let base = network.base();
        if x.0 >= base.count() {
            return Some(FactError::NoSuch { node: x });
        }
        if let Some(moment) = self.done(x) {
            return Some(FactError::Done { node: x, moment });
        }
        if self.allows(completed(network, network.label(x))) {
            None
        } else {
            Some(FactError::Undecided { node: x })
        }
    }

    // Why a time-point can't be done at this moment.
    fn done_refusal(&self, network: &Labelled, moment: u32, x: NodeId) -> Option<FactError>
        requires kept { IsKeptFor (the_labelled network.now) self.now }
        ensures refusal { option_map the_fact_refusal result ≡ done_refusal (the_labelled network.now) (the_history self.now) moment x.0 }
        ensures labelled { IsLabelled (the_labelled network.now) }
    {
        let base = network.base();
        if is_beyond(moment) {
            return Some(FactError::OutOfRange { moment });
        }
        if x.0 >= base.count() {
            return Some(FactError::NoSuch { node: x });
        }
        if let Some(moment) = self.done(x) {
            return Some(FactError::Done { node: x, moment });
        }
        if self.settles(completed(network, network.label(x))) {
            None
        } else {
            Some(FactError::Undecided { node: x })
        }
    }

    // Why the outcome of a proposition can't have come at this moment.
    fn told_refusal(&self, network: &Labelled, moment: u32, p: Prop) -> Option<FactError>
        requires kept { IsKeptFor (the_labelled network.now) self.now }
        ensures refusal { option_map the_fact_refusal result ≡ told_refusal (the_labelled network.now) (the_history self.now) moment p.index }
        ensures labelled { IsLabelled (the_labelled network.now) }
    {
        let since = self.observed_since(network, p);
        if is_beyond(moment) {
            return Some(FactError::OutOfRange { moment });
        }
        let Some(since) = since else {
            return Some(FactError::NotObserved { prop: p });
        };
        if let Some(value) = self.told(p) {
            return Some(FactError::Told { prop: p, value });
        }
        if moment < since {
            Some(FactError::OutOfRange { moment })
        } else {
            None
        }
    }

    // Why the outcome of a proposition can't be expected at this moment.
    fn expected_refusal(&self, network: &Labelled, moment: u32, p: Prop) -> Option<FactError>
        requires kept { IsKeptFor (the_labelled network.now) self.now }
        ensures refusal { option_map the_fact_refusal result ≡ expected_refusal (the_labelled network.now) (the_history self.now) moment p.index }
        ensures labelled { IsLabelled (the_labelled network.now) }
    {
        let Some(since) = self.observed_since(network, p) else {
            return Some(FactError::NotObserved { prop: p });
        };
        if let Some(value) = self.told(p) {
            return Some(FactError::Told { prop: p, value });
        }
        if moment >= self.time && since < moment && moment <= latest_expected(network, p) {
            None
        } else {
            Some(FactError::OutOfRange { moment })
        }
    }

    /// When the observer of a proposition was done, in ticks; none where it isn't done.
    pub fn observed_since(&self, network: &Labelled, p: Prop) -> Option<u32>
        requires kept { IsKeptFor (the_labelled network.now) self.now }
        ensures since { result ≡ observed_since (the_labelled network.now) (the_history self.now) p.index }
        ensures range { IfSome result (λ t. t ≤ most_deadline) }
        ensures labelled { IsLabelled (the_labelled network.now) }
    {
        observers_are_found();
        match network.base().observer(p) {
            Some(x) => self.done(x),
            None => None,
        }
    }
}

// The latest moment at which the outcome of a proposition may be expected.
fn latest_expected(network: &Labelled, p: Prop) -> u32
    ensures { result ≡ latest_expected (observer_of (the_labelled network.now).base p.index) }
{
    observers_are_found();
    let Some(x) = network.base().observer(p) else {
        return MAX_DEADLINE;
    };
    if x.0 == 0 { MAX_REACTION } else { MAX_DEADLINE }
}

fn is_beyond(moment: u32) -> bool
    ensures { result ≡ is_beyond moment }
{
    moment > MAX_DEADLINE
}
