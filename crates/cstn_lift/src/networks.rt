ghost use Rattle.std.specs.Prelude.{ℕ, ◌≡◌, ◌≢◌, ◌<◌, ◌↔◌, IsTrue, length, map};
ghost use Rattle.cstn_label.specs.Labels.{empty};
ghost use Rattle.cstn_label.specs.Read.{marks};
ghost use Rattle.cstn_net.specs.Networks.{IsWellFormed, count};
ghost use Rattle.cstn_net.specs.Read.{the_network};
ghost use Rattle.cstn_lift.specs.Labelled.{label_in, label_of};
ghost use Rattle.cstn_lift.specs.Completion.{completed_label};
ghost use Rattle.cstn_lift.specs.WellFormed.{IsLabelled};
ghost use Rattle.cstn_lift.specs.Lowered.{lowered};
ghost use Rattle.cstn_lift.specs.Strategies.{IsEquivalent};
ghost use Rattle.cstn_lift.specs.Read.{the_labelled, with_labels, AreCompleted};

use crate::scans::is_empty;
use cstn_label::{Label, NodeId};
use cstn_net::Network;
use std::marker::Model;

/// A labelled network: a network whose time-points have labels, with the plain network that it is lowered to.
#[derive(Drop)]
pub struct Labelled {
    plain: Network,
    rest: Labels,
}

impl Model for Labelled {
    ghost use Rattle.std.specs.Prelude.{◌≡◌};
    ghost use Rattle.cstn_net.specs.Networks.{IsWellFormed};
    ghost use Rattle.cstn_net.specs.Read.{the_network};
    ghost use Rattle.cstn_lift.specs.Lowered.{lowered};
    ghost use Rattle.cstn_lift.specs.WellFormed.{IsLabelled};
    ghost use Rattle.cstn_lift.specs.Read.{LabelledParts, the_labelled};

    ghost Value = { LabelledParts };

    ghost view = { λ l. l.rest };

    ghost invariant = { λ l. (the_network l.plain ≡ lowered (the_labelled l.rest)) × IsWellFormed (the_network l.plain) × IsLabelled (the_labelled l.rest) };
}

/// A labelled network without the plain network that it is lowered to: the network as it was handed in, the labels of its
/// time-points, and these labels completed.
#[derive(Drop)]
pub struct Labels {
    handed: Network,
    given: Vec<Label>,
    whole: Vec<Label>,
}

impl Model for Labels {
    ghost use Rattle.cstn_lift.specs.WellFormed.{IsLabelled};
    ghost use Rattle.cstn_lift.specs.Read.{LabelledParts, AreCompleted, with_labels};

    ghost Value = { LabelledParts };

    ghost view = { λ l. record { base = l.handed; labels = l.given.items } };

    ghost invariant = { λ l. IsLabelled (with_labels l.handed l.given.items) × AreCompleted (with_labels l.handed l.given.items) l.whole.items };
}

impl Labelled {
    // The labelled network and the plain one that it is lowered to.
    pub(crate) fn new(plain: Network, rest: Labels) -> Labelled
        requires lowered { the_network plain ≡ lowered (the_labelled rest) }
        requires well_formed { IsWellFormed (the_network plain) }
        requires labelled { IsLabelled (the_labelled rest) }
        ensures same { result ≡ rest }
    {
        Labelled { plain, rest }
    }

    /// The network as it was handed in, with its own ids.
    pub fn base(&self) -> &Network
        ensures base { result.now ≡ self.now.base }
        ensures well_formed { IsWellFormed (the_labelled self.now).base }
        ensures labelled { IsLabelled (the_labelled self.now) }
    {
        &self.rest.handed
    }

    /// The label of a time-point as it was handed in.
    pub fn label(&self, x: NodeId) -> Label
        requires { x.0 < count (the_network self.now.base) }
        ensures label { marks result ≡ label_of (the_labelled self.now) x.0 }
    {
        self.rest.given[x.index()]
    }

    /// The plain network that the labelled one is lowered to. It has the same time-points, is consistent exactly where the
    /// labelled one is, and has the same least moments of each time-point that is executed.
    pub fn lowered(&self) -> &Network
        ensures lowered { the_network result.now ≡ lowered (the_labelled self.now) }
        ensures well_formed { IsWellFormed (the_network result.now) }
        ensures equivalent { IsEquivalent (the_labelled self.now) (the_network result.now) }
    {
        &self.plain
    }

    /// Whether some time-point's label isn't empty.
    pub fn is_labelled(&self) -> bool
        ensures labelled { IsTrue result ↔ ((x : ℕ) × (x < count (the_network self.now.base)) × (label_of (the_labelled self.now) x ≢ empty)) }
    {
        some_label(&self.rest.given)
    }

    /// The plain network that the labelled one is lowered to, and the labelled network without it.
    pub fn split(self) -> (Network, Labels)
        ensures lowered { the_network result.0 ≡ lowered (the_labelled self) }
        ensures well_formed { IsWellFormed (the_network result.0) }
        ensures equivalent { IsEquivalent (the_labelled self) (the_network result.0) }
        ensures labels { result.1 ≡ self }
        ensures labelled { IsLabelled (the_labelled self) }
    {
        (self.plain, self.rest)
    }
}

impl Labels {
    // The labels of the time-points of a network, and these completed.
    pub(crate) fn new(handed: Network, given: Vec<Label>, whole: Vec<Label>) -> Labels
        requires labelled { IsLabelled (with_labels handed given.items) }
        requires completed { AreCompleted (with_labels handed given.items) whole.items }
        ensures parts { result ≡ record { base = handed; labels = given.items } }
    {
        Labels {
            handed,
            given,
            whole,
        }
    }

    /// The network as it was handed in, with its own ids.
    pub fn base(&self) -> &Network
        ensures base { result.now ≡ self.now.base }
        ensures well_formed { IsWellFormed (the_labelled self.now).base }
        ensures labelled { IsLabelled (the_labelled self.now) }
    {
        &self.handed
    }

    /// The completed label of a time-point.
    pub fn get(&self, x: NodeId) -> Label
        requires { x.0 < count (the_network self.now.base) }
        ensures completed { marks result ≡ completed_label (the_labelled self.now) x.0 }
        ensures labelled { IsLabelled (the_labelled self.now) }
    {
        self.whole[x.index()]
    }
}

// Whether some label isn't empty.
fn some_label(labels: &[Label]) -> bool
    ensures { IsTrue result ↔ ((x : ℕ) × (x < length labels.now) × (label_in (map marks labels.now) x ≢ empty)) }
{
    for label in labels {
        if !is_empty(*label) {
            return true;
        }
    }
    false
}
