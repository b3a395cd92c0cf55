ghost use Rattle.std.specs.Prelude.{◌≡◌, ◌<◌, ◌≤◌, [], false, length, replicate, None, IfOk, IfErr, OnErr};
ghost use Rattle.cstn_net.specs.Networks.{count};
ghost use Rattle.cstn_net.specs.Read.{the_network};
ghost use Rattle.cstn_exec.specs.Runs.{start_of_run};
ghost use Rattle.cstn_exec.specs.Answers.{Moment, See, AskDue, Names, Kept, DueAt};
ghost use Rattle.cstn_exec.specs.Running.{the_nodes};
ghost use Rattle.cstn_run.specs.hosted.Hosts.{nothing_open, named_last};
ghost use Rattle.cstn_run.specs.hosted.Calls.{Open, AskFile, AskNamed, Pass, Close, Agreed, FileIs, Told, answer_on, host_after};
ghost use Rattle.cstn_run.specs.hosted.Read.{answer_of, in_want};

use super::cases::{Case, pass_moment, pass_outcome};
use super::errors::HostError;
use cstn_exec::Executive;
use cstn_label::{NodeId, Prop};
use cstn_plan::SoundPlan;
use std::alloc::{AllocError, Global};
use std::marker::Model;

/// How many ids there are, from 0.
pub(crate) const IDS: u32 = 64;

/// Carries out up to 64 runs of plans at once, each under an id, by interleaved calls. The calls on an id are answered as by
/// an executive that gets no others.
///
/// The plans are numbered from 0, and their numbers are called files. An open id holds a copy of its file's plan, and one that
/// isn't open holds none. Only [`Host::start`] and [`Host::open`] take memory.
#[derive(Drop)]
pub struct Host {
    alloc: Global,
    plans: Vec<SoundPlan>,
    cases: Vec<Option<Case>>,
}

impl Model for Host {
    ghost use Rattle.cstn_run.specs.hosted.Hosts.{HostParts};
    ghost use Rattle.cstn_run.specs.hosted.Read.{IsHost, the_cases};

    ghost Value = { HostParts };

    ghost view = { λ h. record { plans = h.plans.items; cases = the_cases h.cases.items } };

    ghost invariant = { λ h. IsHost h.plans.items h.cases.items };
}

impl Host {
    /// A host of 1 to 8 plans, with no id open. Fails for want of memory alone, and drops the plans then.
    pub fn start(alloc: Global, plans: Vec<SoundPlan>) -> Result<Host, AllocError>
        requires some { 1 ≤ length plans.items }
        requires few { length plans.items ≤ 8 }
        ensures start { IfOk result (λ host. host ≡ nothing_open plans.items) }
    {
        let cases = closed_cases(alloc)?;
        Ok(Host {
            alloc,
            plans,
            cases,
        })
    }

    /// Opens an id over a file: nothing of its plan is executed or seen. Refused with the first that applies of `IdRange`,
    /// `IdInUse`, `NoFile` and `Memory`. Takes the memory of a copy of the plan and of an executive.
    pub fn open(&mut self, id: u32, file: u32) -> Result<(), HostError>
        ensures answer { answer_of (λ _. Agreed) result ≡ answer_on self.old id (Open file (in_want result)) }
        ensures after { self.new ≡ host_after self.old id (Open file (in_want result)) }
        ensures same { OnErr result (self.new ≡ self.old) }
        ensures plans { self.new.plans ≡ self.old.plans }
    {
        let place = place_of(id)?;
        if self.cases[place].is_some() {
            return Err(HostError::IdInUse { id });
        }
        let Some(plan) = self.plans.get(file as usize) else {
            return Err(HostError::NoFile { file });
        };
        match start_copy(self.alloc, plan) {
            Ok(executive) => {
                self.cases[place] = Some(Case { file, executive });
                Ok(())
            }
            Err(error) => Err(HostError::Memory(error)),
        }
    }

    /// The file of the id's last accepted `open`. Refused with the first that applies of `IdRange` and `NoSuchPlan`.
    pub fn file(&self, id: u32) -> Result<u32, HostError>
        ensures answer { answer_of FileIs result ≡ answer_on self.now id AskFile }
        ensures inside { IfOk result (λ file. file < length self.now.plans) }
    {
        let place = place_of(id)?;
        match &self.cases[place] {
            Some(case) => Ok(case.file),
            None => Err(HostError::NoSuchPlan { id }),
        }
    }

    /// The first moment, in ticks, at which the id's plan has something to be done; none where all is executed. Refused with
    /// the first that applies of `IdRange` and `NoSuchPlan`.
    pub fn due(&self, id: u32) -> Result<Option<u32>, HostError>
        ensures answer { answer_of (λ t. Told (DueAt t)) result ≡ answer_on self.now id (Pass AskDue) }
        ensures memory { in_want result ≡ false }
    {
        let place = place_of(id)?;
        match &self.cases[place] {
            Some(case) => Ok(case.executive.due()),
            None => Err(HostError::NoSuchPlan { id }),
        }
    }

    /// The time-points of the id's plan that were named at its last accepted moment, in ascending number. Refused with the
    /// first that applies of `IdRange` and `NoSuchPlan`.
    pub fn named(&self, id: u32) -> Result<&[NodeId], HostError>
        ensures answer { answer_of (λ xs. Told (Names (the_nodes xs.now))) result ≡ answer_on self.now id AskNamed }
    {
        let place = place_of(id)?;
        match &self.cases[place] {
            Some(case) => Ok(case.executive.named()),
            None => Err(HostError::NoSuchPlan { id }),
        }
    }

    /// Accepts a moment of the id's plan, in ticks, and executes the time-points whose least moment it is; [`Host::named`] then
    /// returns them. Refused with the first that applies of `IdRange`, `NoSuchPlan`, and `Exec` with the reason of
    /// [`Executive::moment`].
    pub fn moment(&mut self, id: u32, t: u32) -> Result<(), HostError>
        ensures answer { answer_of (λ _. Told (Names (named_last self.new id))) result ≡ answer_on self.old id (Pass (Moment t)) }
        ensures memory { in_want result ≡ false }
        ensures after { self.new ≡ host_after self.old id (Pass (Moment t)) }
        ensures same { OnErr result (self.new ≡ self.old) }
        ensures plans { self.new.plans ≡ self.old.plans }
    {
        let place = place_of(id)?;
        pass_moment(&mut self.cases[place], id, t)
    }

    /// Keeps the outcome of a proposition of the id's plan. Refused with the first that applies of `IdRange`, `NoSuchPlan`, and
    /// `Exec` with the reason of [`Executive::see`].
    pub fn see(&mut self, id: u32, p: Prop, value: bool) -> Result<(), HostError>
        ensures answer { answer_of (λ _. Told Kept) result ≡ answer_on self.old id (Pass (See p.index value)) }
        ensures memory { in_want result ≡ false }
        ensures after { self.new ≡ host_after self.old id (Pass (See p.index value)) }
        ensures same { OnErr result (self.new ≡ self.old) }
        ensures plans { self.new.plans ≡ self.old.plans }
    {
        let place = place_of(id)?;
        pass_outcome(&mut self.cases[place], id, p, value)
    }

    /// Closes an id, and drops its executive. Refused with the first that applies of `IdRange` and `NoSuchPlan`.
    pub fn close(&mut self, id: u32) -> Result<(), HostError>
        ensures answer { answer_of (λ _. Agreed) result ≡ answer_on self.old id Close }
        ensures memory { in_want result ≡ false }
        ensures after { self.new ≡ host_after self.old id Close }
        ensures same { OnErr result (self.new ≡ self.old) }
        ensures plans { self.new.plans ≡ self.old.plans }
    {
        let place = place_of(id)?;
        if self.cases[place].is_none() {
            return Err(HostError::NoSuchPlan { id });
        }
        self.cases[place] = None;
        Ok(())
    }
}

// The place of an id in `cases`. Refused with `IdRange` where the id is above 63.
fn place_of(id: u32) -> Result<usize, HostError>
    ensures place { IfOk result (λ place. (place ≡ id) × (id < 64)) }
    ensures refused { IfErr result (λ e. (e ≡ HostError.IdRange id) × (64 ≤ id)) }
{
    if id < IDS {
        Ok(id as usize)
    } else {
        Err(HostError::IdRange { id })
    }
}

// An executive of a copy of the plan.
fn start_copy(alloc: Global, plan: &SoundPlan) -> Result<Executive, AllocError>
    ensures { IfOk result (λ e. e ≡ record {
      net = record plan.now.net { spare = 0 };
      bounds = plan.now.bounds;
      run = start_of_run (count (the_network plan.now.net));
      named = [];
    }) }
{
    Executive::start(alloc, plan.copy(alloc)?)
}

// A place for each id, with none of the ids open.
fn closed_cases(alloc: Global) -> Result<Vec<Option<Case>>, AllocError>
    ensures { IfOk result (λ cases. cases.items ≡ replicate 64 None) }
{
    let mut cases = Vec::with_capacity(alloc, IDS as usize)?;
    for _ in 0..IDS {
        cases.push(None)?;
    }
    Ok(cases)
}
