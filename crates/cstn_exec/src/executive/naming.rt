// Which time-points are executed at a moment.
ghost use Rattle.std.specs.Prelude.{◌≡◌, ◌<◌, ◌≤◌, ◌&&◌, not, nat_lt, is_none, Some, None, length, map};
ghost use Rattle.std.specs.List.{All, filter, range_with_len};
ghost use Rattle.cstn_net.specs.Limits.{most_time_points};
ghost use Rattle.cstn_net.specs.Read.{the_network};
ghost use Rattle.cstn_plan.specs.Plans.{the_bounds};
ghost use Rattle.cstn_exec.specs.Runs.{AreAskedUnlessAwaited, due, is_free_by, called};
ghost use Rattle.cstn_exec.specs.Moves.{moment_refusal, executed};

use super::Executive;
use super::asked::Moments;
use super::search::Due;
use cstn_label::NodeId;
use smallvec::SmallVec;

/// How many named time-points the executive holds in place. For a network with more, `start` allocates the memory.
const NAMES_IN_PLACE: usize = 8;

/// The time-points that are named at one moment.
pub type Names = SmallVec<NodeId, NAMES_IN_PLACE>;

impl Executive {
    // Names the time-points to be executed at t: none before the due moment.
    pub(super) fn name(&mut self, t: u32, first: &Due)
        requires accepted { moment_refusal (the_network self.old.net) (the_bounds self.old.bounds) self.old.run t ≡ None }
        requires due { due (the_network self.old.net) (the_bounds self.old.bounds) self.old.run ≡ Some first.now.moment }
        requires asked { AreAskedUnlessAwaited (the_network self.old.net) (the_bounds self.old.bounds) self.old.run first.now.moment first.now.asked }
        ensures { self.new ≡ record self.old { named = called (the_network self.old.net) (the_bounds self.old.bounds) self.old.run t } }
    {
        self.is_right();
        match &first.asked {
            Some(asked) if first.moment <= t => collect(&mut self.named, &self.moments, asked, t),
            _ => self.named.clear(),
        }
    }
}

// Names the time-points that aren't executed and whose moment in `after` is t at most, in ascending number.
fn collect(named: &mut Names, moments: &[Option<u32>], after: &Moments, t: u32)
    requires few { length moments.now ≤ most_time_points }
    requires room { length moments.now ≤ named.old.capacity }
    ensures named { map (λ x. x.0) named.new.items ≡ filter (is_free_by moments.now after.now t) (range_with_len 0 (length moments.now)) }
    ensures capacity { named.new.capacity ≡ named.old.capacity }
{
    named.clear();
    for (x, moment) in moments.iter().enumerate() {
        if is_free(*moment, after[x], t) {
            named.push_reserved(NodeId(x as u16));
        }
    }
}

fn is_free(moment: Option<u32>, after: u32, t: u32) -> bool
    ensures { result ≡ (is_none moment && not (nat_lt t after)) }
{
    moment.is_none() && after <= t
}

// Notes t as the moment of each named time-point.
pub fn execute(moments: &mut Vec<Option<u32>>, named: &[NodeId], t: u32)
    requires { All (λ x. x.0 < length moments.old.items) named.now }
    ensures { moments.new.items ≡ executed t (map (λ x. x.0) named.now) moments.old.items }
{
    for x in named {
        moments[x.index()] = Some(t);
    }
}
