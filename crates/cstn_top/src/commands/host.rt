// `host [--deadline N] [--cap CAP] FILE ..`
ghost use Rattle.std.specs.Prelude.{ℕ, ◌≡◌, ◌≤◌, ◌++◌, ◌∷◌, [], length, map, IfOk, OnOk};
ghost use Rattle.std.specs.List.{All};
ghost use Rattle.cstn_net.specs.Limits.{most_time_points};
ghost use Rattle.cstn_net.specs.Networks.{count};
ghost use Rattle.cstn_net.specs.Read.{the_network};
ghost use Rattle.cstn_text.specs.PrintedNames.{printed_name};
ghost use Rattle.cstn_reply.specs.Texts.{yes_line};
ghost use Rattle.cstn_exec.specs.Running.{AreShort};
ghost use Rattle.cstn_run.specs.hosted.SessionRead.{the_names, IsHostSession};
ghost use Rattle.cstn_request.specs.Limits.{most_files};
ghost use Rattle.cstn_top.specs.Begun.{the_named, IsBegin};
ghost use Rattle.cstn_request.specs.Several.{IsSoundNetwork};
ghost use Rattle.cstn_top.specs.commands.Host.{attended};
ghost use Rattle.cstn_top.specs.Plans.{ComesTo};
ghost use Rattle.cstn_top.specs.Prepared.{the_plan, FitsKind};
ghost use Rattle.cstn_top.specs.Kinds.{a_host};

use super::Prepared;
use cstn_check::{Judged, judge, yes_line};
use cstn_exec::print_names;
use cstn_log::Cap;
use cstn_plan::SoundPlan;
use cstn_request::NamedNetwork;
use cstn_run::HostSession;
use cstn_text::Names;
use std::alloc::{AllocError, Global};

// The lines that say yes, the plans and the printed names of the networks that were checked so far.
#[derive(Drop)]
struct Begun {
    opening: Vec<u8>,
    plans: Vec<SoundPlan>,
    names: Vec<Vec<String>>,
}

impl Begun {
    // Adds the plan of a network whose verdict is yes, the line that says so, and the printed names.
    fn add(
        &mut self,
        alloc: Global,
        load: u32,
        plan: SoundPlan,
        names: &Names,
    ) -> Result<(), AllocError>
        requires named { length names.now ≡ count (the_network plan.net) }
        requires few { count (the_network plan.net) ≤ most_time_points }
        ensures opening { OnOk result (self.new.opening.items ≡ self.old.opening.items ++ yes_line load) }
        ensures plans { OnOk result (self.new.plans.items ≡ self.old.plans.items ++ plan ∷ []) }
        ensures names { OnOk result (the_names self.new.names.items ≡ the_names self.old.names.items ++ map printed_name names.now ∷ []) }
        ensures short { OnOk result (AreShort plan.net (map printed_name names.now)) }
    {
        let line = yes_line(alloc, load)?;
        let printed = print_names(alloc, names)?;
        self.opening.extend_from_slice(&line)?;
        self.plans.push(plan)?;
        self.names.push(printed)?;
        Ok(())
    }
}

/// Checks the networks of 1 to 8 documents one after another, each log with at most `cap` entries: the first whose verdict isn't
/// yes is told, and else the host lines are to be answered. Fails for want of memory alone.
pub(crate) fn host_session(
    alloc: Global,
    documents: Vec<NamedNetwork>,
    cap: Cap,
) -> Result<Prepared, AllocError>
    requires some_documents { 1 ≤ length documents.items }
    requires few_documents { length documents.items ≤ most_files }
    requires sound { All IsSoundNetwork documents.items }
    ensures comes { IfOk result (λ prepared. ComesTo (attended cap.entries (map the_named documents.items)) (the_plan prepared)) }
    ensures fits { IfOk result (FitsKind a_host) }
{
    let mut begun = Begun {
        opening: Vec::new(alloc),
        plans: Vec::new(alloc),
        names: Vec::new(alloc),
    };
    for document in documents {
        let NamedNetwork { network, names } = document;
        match judge(alloc, network, &names, cap)? {
            Judged::Yes { load, check } => {
                begun.add(alloc, load, check.into_plan(), &names)?;
            }
            Judged::Told(said) => return Ok(Prepared::Says(said)),
        }
    }
    begin(alloc, begun)
}

// The host of the plans, with no id open, after the lines that say yes.
fn begin(alloc: Global, begun: Begun) -> Result<Prepared, AllocError>
    requires some { 1 ≤ length begun.plans.items }
    requires few { length begun.plans.items ≤ most_files }
    requires named { IsHostSession begun.plans.items (the_names begun.names.items) }
    ensures begins { IfOk result (IsBegin begun) }
{
    let session = HostSession::start(alloc, begun.plans, begun.names)?;
    Ok(Prepared::Hosts {
        opening: begun.opening,
        session,
    })
}
