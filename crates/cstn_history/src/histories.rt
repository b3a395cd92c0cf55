ghost use Rattle.std.specs.Prelude.{ℕ, ◌≡◌, ◌<◌, ◌≤◌, ◌==◌, length, None, IfOk, replicate, if◌then◌else◌};
ghost use Rattle.cstn_label.specs.Read.{marks, known_value};
ghost use Rattle.cstn_net.specs.Limits.{most_deadline};
ghost use Rattle.cstn_net.specs.Networks.{count};
ghost use Rattle.cstn_lift.specs.Read.{the_labelled};
ghost use Rattle.cstn_history.specs.Histories.{nothing_yet, soonest, allows, mark_left, label_left};
ghost use Rattle.cstn_history.specs.Read.{the_history, IsKeptFor};
ghost use Rattle.cstn_history.specs.Facts.{settles};

use cstn_label::{Known, Label, NodeId, Prop, labels_are_their_marks};
use cstn_lift::Labelled;
use std::alloc::{AllocError, Global};
use std::marker::Model;

/// What has happened while a labelled network was carried out: the moments of the time-points that are done, the outcomes that
/// were told, those that are expected at another moment than after their reaction, and the moments before which time-points can't be
/// done. What is before `now` is over.
#[derive(Drop)]
pub struct History {
    pub(crate) time: u32,
    pub(crate) done: Vec<Option<u32>>,
    pub(crate) told: Known,
    pub(crate) expected: [Option<u32>; 52],
    pub(crate) ready: Vec<u32>,
}

impl Model for History {
    ghost use Rattle.std.specs.Prelude.{◌≤◌};
    ghost use Rattle.cstn_net.specs.Limits.{most_deadline};
    ghost use Rattle.cstn_history.specs.Read.{HistoryParts};

    ghost Value = { HistoryParts };

    ghost view = { λ h. record { time = h.time; done = h.done.items; told = h.told; expected = h.expected; ready = h.ready.items } };

    ghost invariant = { λ h. h.time ≤ most_deadline };
}

impl History {
    /// The history of a network of which nothing has happened yet: the origin is done at 0, and it is 0 now.
    pub fn new(alloc: Global, network: &Labelled) -> Result<History, AllocError>
        ensures nothing { IfOk result (λ h. the_history h ≡ nothing_yet) }
        ensures kept { IfOk result (λ h. IsKeptFor (the_labelled network.now) h) }
    {
        let count = network.base().count() as usize;
        let ready = zeros(alloc, count)?;
        let mut done = Vec::with_capacity(alloc, count)?;
        done.resize(count, None)?;
        done[0] = Some(0);
        Ok(History {
            time: 0,
            done,
            told: Known::nothing(),
            expected: [None; 52],
            ready,
        })
    }

    /// An equal history. Fails where memory is refused.
    pub fn copy(&self, alloc: Global) -> Result<History, AllocError>
        ensures equal { IfOk result (λ h. h ≡ self.now) }
    {
        let done = Vec::from_slice(alloc, &self.done)?;
        let ready = Vec::from_slice(alloc, &self.ready)?;
        Ok(History {
            time: self.time,
            done,
            told: self.told,
            expected: self.expected,
            ready,
        })
    }

    /// The moment that it is now, in ticks, at most 1,000,000.
    pub fn now(&self) -> u32
        ensures now { result ≡ self.now.time }
        ensures range { result ≤ most_deadline }
    {
        self.time
    }

    /// The moment at which a time-point was done, in ticks; none where it isn't done.
    pub fn done(&self, x: NodeId) -> Option<u32>
        requires { x.0 < length self.now.done }
        ensures done { result ≡ (the_history self.now).done x.0 }
    {
        self.done[x.index()]
    }

    /// The outcome of a proposition; none where it wasn't told.
    pub fn told(&self, p: Prop) -> Option<bool>
        ensures told { result ≡ (the_history self.now).told p.index }
    {
        self.told.value(p)
    }

    /// The moment at which the outcome of a proposition is expected, in ticks; none where it is expected after its reaction.
    pub fn expected(&self, p: Prop) -> Option<u32>
        ensures expected { result ≡ (the_history self.now).expected p.index }
    {
        self.expected[p.index as usize]
    }

    /// The moment before which a time-point that isn't done can't be done, in ticks: it is past, or the time-point isn't ready.
    pub fn soonest(&self, x: NodeId) -> u32
        requires { x.0 < length self.now.ready }
        ensures soonest { result ≡ soonest (the_history self.now) x.0 }
    {
        self.time.max(self.ready[x.index()])
    }

    /// Whether what was told contradicts no mark of the label.
    pub fn allows(&self, label: Label) -> bool
        ensures allows { result ≡ allows (the_history self.now) (marks label) }
    {
        labels_are_their_marks();
        label.possible(self.told)
    }

    /// The label without its marks on what was told.
    pub fn label_left(&self, label: Label) -> Label
        ensures left { marks result ≡ label_left (the_history self.now) (marks label) }
    {
        let mut left = label;
        let mut from = 0;
        while let Some(p) = label.first_marked_from(from) {
            left = self.mark_left(left, p);
            from = p.index + 1;
        }
        left
    }

    // The label without its mark on p, where p was told.
    fn mark_left(&self, label: Label, p: Prop) -> Label
        ensures { (q : ℕ) → marks result q ≡ (if q == p.index then mark_left (known_value self.now.told q) (marks label q) else marks label q) }
    {
        if self.told(p).is_some() {
            label.without(p)
        } else {
            label
        }
    }

    /// Whether what was told decides that the label holds.
    pub fn settles(&self, label: Label) -> bool
        ensures settles { result ≡ settles (the_history self.now) (marks label) }
    {
        labels_are_their_marks();
        match self.label_left(label).first_marked_from(0) {
            Some(_) => false,
            None => self.allows(label),
        }
    }
}

// As many zeros.
fn zeros(alloc: Global, count: usize) -> Result<Vec<u32>, AllocError>
    ensures { IfOk result (λ v. v.items ≡ replicate count 0) }
{
    let mut zeros = Vec::with_capacity(alloc, count)?;
    zeros.resize(count, 0)?;
    Ok(zeros)
}
