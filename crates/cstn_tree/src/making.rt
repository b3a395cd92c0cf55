// The tree of a network, made by what its executive does.
ghost use Rattle.std.specs.Prelude.{ℕ, ◌≡◌, ◌<◌, ◌+◌, ◌++◌, ◌∷◌, [], true, false, None, Some, List, length, map, IfOk, OnOk, MatchOption};
ghost use Rattle.std.specs.Option.{option_map};
ghost use Rattle.cstn_exec.specs.Read.{the_event_refusal, moved_on};
ghost use Rattle.cstn_label.specs.Labels.{Scenario};
ghost use Rattle.cstn_net.specs.Networks.{count};
ghost use Rattle.cstn_net.specs.Strategies.{IsLeast};
ghost use Rattle.cstn_net.specs.Read.{the_network};
ghost use Rattle.cstn_plan.specs.Plans.{the_bounds};
ghost use Rattle.cstn_exec.specs.Runs.{start_of_run, due};
ghost use Rattle.cstn_exec.specs.Moves.{Awaiting, moment_refusal, outcome_refusal, handed};
ghost use Rattle.cstn_outline.specs.Trees.{IsAmong, table_of};
ghost use Rattle.cstn_tree.specs.Good.{IsUnbroken};
ghost use Rattle.cstn_tree.specs.Made.{IsTreeOf, IsGrownTree};
ghost use Rattle.cstn_outline.specs.Written.{TreeFitsText};
ghost use Rattle.cstn_outline.specs.Read.{the_tree_line, the_tree};
ghost use Rattle.cstn_tree.specs.Making.{IsMaking, IsMovedTo};

use cstn_exec::{ExecError, Executive, Snapshot, due_is_exact, refusals_are_right};
use cstn_label::Prop;
use cstn_outline::{Line, Named, Tree};
use std::alloc::{AllocError, Global};

/// The tree of the executive's network. No line of it breaks, it has each time-point at its least moment, and its text is read
/// back as the same tree. Fails for want of memory alone. The executive is left restarted, also when this fails.
///
/// Takes a step for each line of the tree: at most what the executive takes to find a due moment twice, and for an `ask` and
/// the tree for false below it a copy of what the executive knows. Where k propositions are observed a tree can have 2^k branches.
pub fn make(alloc: Global, exec: &mut Executive) -> Result<Tree, AllocError>
    ensures tree { IfOk result (λ t. IsTreeOf (the_network exec.old.net) (the_bounds exec.old.bounds) (the_tree t)) }
    ensures restarted { exec.new ≡ record exec.old { run = start_of_run (count (the_network exec.old.net)); named = [] } }

    ensures good { IfOk result (λ t. IsUnbroken (the_network exec.old.net) (the_tree t)) }
    ensures least { IfOk result (λ t. (s : Scenario) (x : ℕ) → x < count (the_network exec.old.net)
        → IsLeast (the_network exec.old.net) s x (table_of (the_tree t) s x)) }
    ensures among { IfOk result (λ t. IsAmong (count (the_network exec.old.net)) (the_tree t)) }
    ensures fits { IfOk result (λ t. TreeFitsText (the_tree t)) }
{
    // This call tells the proof that the executive's plan has a strategy with each time-point at its least moment.
    exec.network();
    exec.restart();
    let made = grow(alloc, exec);
    exec.restart();
    made
}

fn grow(alloc: Global, exec: &mut Executive) -> Result<Tree, AllocError>
    requires started { exec.old.run ≡ start_of_run (count (the_network exec.old.net)) }
    ensures tree { IfOk result (λ t. IsTreeOf (the_network exec.old.net) (the_bounds exec.old.bounds) (the_tree t)) }
    ensures same { exec.new ≡ record exec.old { run = exec.new.run; named = exec.new.named } }
{
    let mut making = Making {
        lines: Vec::new(alloc),
        asks: Vec::new(alloc),
    };
    // Each step takes memory for a line, so memory ends before the steps do.
    for _ in 0..u64::MAX {
        match making.step(alloc, exec) {
            Ok(true) => {}
            Ok(false) => return Ok(Tree::new(making.lines)),
            Err(e) => return Err(e),
        }
    }
    Err(AllocError)
}

// An `ask` whose tree for false is still to come, and what the executive knew before it.
#[derive(Drop)]
struct OpenAsk {
    before: Snapshot,
    prop: Prop,
}

// The lines so far, and each `ask` whose tree for false is still to come, the next one last.
#[derive(Drop)]
struct Making {
    lines: Vec<Line>,
    asks: Vec<OpenAsk>,
}

impl Making {
    // Puts the next line behind the others; false where it was the last one.
    fn step(&mut self, alloc: Global, exec: &mut Executive) -> Result<bool, AllocError>
        requires making { IsMaking (the_network exec.old.net) (the_bounds exec.old.bounds) exec.old.run self.old }
        ensures goes_on { IfOk result (λ more. more ≡ true → IsMaking (the_network exec.old.net) (the_bounds exec.old.bounds) exec.new.run self.new) }
        ensures ends { IfOk result (λ more. more ≡ false
            → IsGrownTree (the_network exec.old.net) (the_bounds exec.old.bounds) (map the_tree_line self.new.lines.items) []) }
        ensures same { exec.new ≡ record exec.old { run = exec.new.run; named = exec.new.named } }
    {
        let Some(t) = exec.due() else {
            return self.finish(exec);
        };
        match move_on(exec, t) {
            Some(prop) => self.ask(alloc, exec, prop),
            None => self.name(alloc, exec, t),
        }
    }

    // Puts a `done`, and goes back to the last `ask` whose tree for false is still to come.
    fn finish(&mut self, exec: &mut Executive) -> Result<bool, AllocError>
        requires making { IsMaking (the_network exec.old.net) (the_bounds exec.old.bounds) exec.old.run self.old }
        requires over { due (the_network exec.old.net) (the_bounds exec.old.bounds) exec.old.run ≡ None }
        ensures goes_on { IfOk result (λ more. more ≡ true → IsMaking (the_network exec.old.net) (the_bounds exec.old.bounds) exec.new.run self.new) }
        ensures ends { IfOk result (λ more. more ≡ false
            → IsGrownTree (the_network exec.old.net) (the_bounds exec.old.bounds) (map the_tree_line self.new.lines.items) []) }
        ensures same { exec.new ≡ record exec.old { run = exec.new.run; named = exec.new.named } }
    {
        self.lines.push(Line::Done)?;
        match self.asks.pop() {
            Some(ask) => {
                exec.go_back(ask.before);
                see(exec, ask.prop, false);
                Ok(true)
            }
            None => Ok(false),
        }
    }

    // Puts an `ask`, and goes on with the tree for true.
    fn ask(&mut self, alloc: Global, exec: &mut Executive, prop: Prop) -> Result<bool, AllocError>
        requires making { IsMaking (the_network exec.old.net) (the_bounds exec.old.bounds) exec.old.run self.old }
        requires waits { (t : ℕ) × (due (the_network exec.old.net) (the_bounds exec.old.bounds) exec.old.run ≡ Some t)
            × (moment_refusal (the_network exec.old.net) (the_bounds exec.old.bounds) exec.old.run t ≡ Some (Awaiting prop.index)) }
        ensures more { IfOk result (λ more. more ≡ true) }
        ensures making { OnOk result (IsMaking (the_network exec.old.net) (the_bounds exec.old.bounds) exec.new.run self.new) }
        ensures same { exec.new ≡ record exec.old { run = exec.new.run; named = exec.new.named } }
    {
        refusals_are_right();
        exec.network().count();
        let before = exec.snapshot(alloc)?;
        self.asks.push(OpenAsk { before, prop })?;
        self.lines.push(Line::Ask { prop })?;
        see(exec, prop, true);
        Ok(true)
    }

    // Puts an `at` of the moment that the executive has just accepted.
    fn name(&mut self, alloc: Global, exec: &Executive, t: u32) -> Result<bool, AllocError>
        requires moved { IsMovedTo t exec.now self.old }
        ensures more { IfOk result (λ more. more ≡ true) }
        ensures making { OnOk result (IsMaking (the_network exec.now.net) (the_bounds exec.now.bounds) exec.now.run self.new) }
    {
        let nodes = Vec::from_slice(alloc, exec.named())?;
        self.lines.push(Line::At {
            moment: t,
            named: Named::new(nodes),
        })?;
        Ok(true)
    }
}

// Goes on to the due moment. Where that moment has to wait for an outcome nothing changes, and the proposition is returned.
fn move_on(exec: &mut Executive, t: u32) -> Option<Prop>
    requires due { due (the_network exec.old.net) (the_bounds exec.old.bounds) exec.old.run ≡ Some t }
    ensures moves { MatchOption result (moment_refusal (the_network exec.old.net) (the_bounds exec.old.bounds) exec.old.run t ≡ None)
        (λ p. moment_refusal (the_network exec.old.net) (the_bounds exec.old.bounds) exec.old.run t ≡ Some (Awaiting p.index)) }
    ensures moved { MatchOption result (exec.new ≡ moved_on exec.old t) (λ p. exec.new ≡ exec.old) }
{
    due_is_exact();
    match exec.moment(t) {
        Ok(()) => None,
        Err(refusal) => awaited_by(refusal),
    }
}

fn awaited_by(refusal: ExecError) -> Option<Prop>
    ensures { (p : ℕ) → the_event_refusal refusal ≡ Awaiting p → option_map (λ q. q.index) result ≡ Some p }
{
    match refusal {
        ExecError::Awaiting { prop } => Some(prop),
        ExecError::Past { .. } => None,
        ExecError::Late { .. } => None,
        ExecError::NotExecuted { .. } => None,
        ExecError::Known { .. } => None,
        ExecError::Done => None,
    }
}

// Tells the executive an outcome that it accepts.
fn see(exec: &mut Executive, prop: Prop, value: bool)
    requires accepted { outcome_refusal (the_network exec.old.net) exec.old.run prop.index ≡ None }
    ensures handed { exec.new ≡ record exec.old { run = handed exec.old.run prop.index value } }
{
    let _ = exec.see(prop, value);
}
