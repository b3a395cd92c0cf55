// Facts that a session is told in lines.
ghost use Rattle.std.specs.Prelude.{◌≡◌, ◌≤◌, ◌++◌, [], length, vec_capacity, IfOk, OnErr};
ghost use Rattle.std.specs.List.{cons_option};
ghost use Rattle.std.specs.Option.{option_map};
ghost use Rattle.cstn_net.specs.Limits.{most_time_points};
ghost use Rattle.cstn_lift.specs.Read.{the_labelled};
ghost use Rattle.cstn_history.specs.Facts.{ready_refusal, with_ready};
ghost use Rattle.cstn_history.specs.Read.{the_history};
ghost use Rattle.cstn_follow.specs.Following.{says};
ghost use Rattle.cstn_follow.specs.FactLines.{all_done, unknown_of, node_named, nodes_of, on_result, on_did, on_saw, on_now, on_await, on_fact, on_expect};
ghost use Rattle.cstn_follow.specs.Read.{the_following};
ghost use Rattle.cstn_follow.specs.Told.{IsSaidOfFacts, IsUnmade};

use super::Following;
use crate::errors::FollowError;
use crate::texts::{refused_fact, room, too_many, unknown_name, verdict_in};
use cstn_check::Verdict;
use cstn_history::FactError;
use cstn_label::{NodeId, Prop};
use cstn_lines::NameText;
use cstn_net::MAX_DEADLINE;
use cstn_text::Names;
use std::alloc::{AllocError, Global};

impl Following {
    /// Records that the time-points of these names were done at this moment, in ticks, which may be past; where it is above now, it is
    /// that moment now. Answers with the line of the verdict, or with the line that refuses the fact, and then nothing has changed:
    /// the first that applies of F2, F3 of each name, F4 and F5 of each name in turn, and F8. Fails for want of memory alone, and then
    /// nothing has changed either.
    pub fn did(&mut self, moment: u32, names: &[NameText]) -> Result<Vec<u8>, AllocError>
        ensures says { IfOk result (λ text. on_did (the_following self.old) moment names.now ≡ says text.items (the_following self.new)) }
        ensures same { OnErr result (self.new ≡ self.old) }
    {
        if moment > MAX_DEADLINE {
            return refused_fact(self.alloc, &self.names, FactError::OutOfRange { moment });
        }
        if let Some(name) = unknown(&self.names, names) {
            return unknown_name(self.alloc, name.as_str());
        }
        self.session.network().base().count();
        let nodes = nodes_of(self.alloc, &self.names, names)?;
        self.did_all(moment, &nodes)
    }

    // Records that these time-points were done at this moment.
    fn did_all(&mut self, moment: u32, nodes: &[NodeId]) -> Result<Vec<u8>, AllocError>
        ensures says { IfOk result (λ text.
            on_result (the_following self.old) (all_done (the_labelled self.old.network) moment (the_history self.old.history) nodes.now)
            ≡ says text.items (the_following self.new)) }
        ensures same { OnErr result (self.new ≡ self.old) }
    {
        let room = room(self.alloc)?;
        let told = self.session.did(moment, nodes);
        self.answer_told(room, told)
    }

    /// Records that the outcome of a proposition came at this moment, in ticks, which may be past; where it is above now, it is that
    /// moment now. Answers as `did`, and refuses with the first that applies of F2 for a moment above 1,000,000, F6, F7, F2 for one
    /// before its observer was done, and F8.
    pub fn saw(&mut self, moment: u32, p: Prop, value: bool) -> Result<Vec<u8>, AllocError>
        ensures says { IfOk result (λ text. on_saw (the_following self.old) moment p.index value ≡ says text.items (the_following self.new)) }
        ensures same { OnErr result (self.new ≡ self.old) }
    {
        let room = room(self.alloc)?;
        let told = self.session.saw(moment, p, value);
        self.answer_told(room, told)
    }

    /// Records that it is this moment, in ticks, and that nothing else has happened. Answers as `did`, and refuses with the first that
    /// applies of F1, F2 and F8.
    pub fn now(&mut self, moment: u32) -> Result<Vec<u8>, AllocError>
        ensures says { IfOk result (λ text. on_now (the_following self.old) moment ≡ says text.items (the_following self.new)) }
        ensures same { OnErr result (self.new ≡ self.old) }
    {
        let room = room(self.alloc)?;
        let told = self.session.now(moment);
        self.answer_told(room, told)
    }

    /// Records that the outcome of a proposition is expected at this moment, in ticks, and not before. Answers as `did`, and refuses
    /// with the first that applies of F6, F7, F2 and F8.
    pub fn await_outcome(&mut self, moment: u32, p: Prop) -> Result<Vec<u8>, AllocError>
        ensures says { IfOk result (λ text. on_await (the_following self.old) moment p.index ≡ says text.items (the_following self.new)) }
        ensures same { OnErr result (self.new ≡ self.old) }
    {
        let room = room(self.alloc)?;
        let told = self.session.expect(moment, p);
        self.answer_told(room, told)
    }

    /// Records that the time-point of this name can't be done before this moment, in ticks, whatever was recorded of this before; 0 takes
    /// it back. Answers as `did`, and refuses with the first that applies of F2, F3, F4, F5 and F8.
    pub fn expect(&mut self, moment: u32, name: &str) -> Result<Vec<u8>, AllocError>
        ensures says { IfOk result (λ text. on_expect (the_following self.old) moment name.now ≡ says text.items (the_following self.new)) }
        ensures same { OnErr result (self.new ≡ self.old) }
    {
        if moment > MAX_DEADLINE {
            return refused_fact(self.alloc, &self.names, FactError::OutOfRange { moment });
        }
        self.session.network().base().count();
        match node_named(&self.names, name) {
            Some(x) => self.make_ready(moment, x),
            None => unknown_name(self.alloc, name),
        }
    }

    // Records that this time-point can't be done before this moment.
    fn make_ready(&mut self, moment: u32, x: NodeId) -> Result<Vec<u8>, AllocError>
        ensures says { IfOk result (λ text.
            on_fact (the_following self.old) (ready_refusal (the_labelled self.old.network) (the_history self.old.history) moment x.0)
            (with_ready (the_history self.old.history) moment x.0)
            ≡ says text.items (the_following self.new)) }
        ensures same { OnErr result (self.new ≡ self.old) }
    {
        let room = room(self.alloc)?;
        let told = self.session.make_ready(moment, x);
        self.answer_told(room, told)
    }

    // The line of the verdict on what is left, or of why facts aren't recorded. The line of a verdict stands in the room, so it fails
    // only where nothing is recorded.
    fn answer_told(
        &self,
        room: Vec<u8>,
        told: Result<Verdict, FollowError>,
    ) -> Result<Vec<u8>, AllocError>
        requires empty { room.items ≡ [] }
        requires room { 64 ≤ vec_capacity room }
        ensures said { IfOk result (λ text. IsSaidOfFacts self.now.names self.now.cap told text.items) }
        ensures refused { OnErr result (IsUnmade told) }
    {
        match told {
            Ok(verdict) => Ok(verdict_in(room, self.session.cap(), verdict)),
            Err(FollowError::Refused(error)) => refused_fact(self.alloc, &self.names, error),
            Err(FollowError::TooManyConstraints) => too_many(self.alloc),
            Err(FollowError::Memory(e)) => Err(e),
        }
    }
}

// The first of these names that no time-point has.
fn unknown<'a>(names: &Names, given: &'a [NameText]) -> Option<&'a NameText>
    ensures { option_map (λ name. name.now) result ≡ unknown_of names.now given.now }
{
    given
        .iter()
        .find(|name| names.find(name.as_str()).is_none())
}

// The time-points that have these names.
fn nodes_of(alloc: Global, names: &Names, given: &[NameText]) -> Result<Vec<NodeId>, AllocError>
    requires few { length names.now ≤ most_time_points }
    ensures { IfOk result (λ v. v.items ≡ nodes_of names.now given.now) }
{
    let mut nodes = Vec::new(alloc);
    for name in given {
        push_some(&mut nodes, node_named(names, name.as_str()))?;
    }
    Ok(nodes)
}

// The time-point that has the name, if there is one.
fn node_named(names: &Names, name: &str) -> Option<NodeId>
    requires few { length names.now ≤ most_time_points }
    ensures { result ≡ node_named names.now name.now }
{
    let number = names.find(name)?;
    Some(NodeId(number as u16))
}

fn push_some(nodes: &mut Vec<NodeId>, node: Option<NodeId>) -> Result<(), AllocError>
    ensures { IfOk result (λ _. nodes.new.items ≡ nodes.old.items ++ cons_option node []) }
{
    if let Some(x) = node {
        nodes.push(x)?;
    }
    Ok(())
}
