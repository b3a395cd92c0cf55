// `save FILE [--deadline N]`
ghost use Rattle.std.specs.Prelude.{◌≡◌, IfOk, Some, length, slice_get, codes};
ghost use Rattle.cstn_net.specs.Networks.{count};
ghost use Rattle.cstn_net.specs.Read.{the_network};
ghost use Rattle.cstn_lift.specs.Read.{the_labelled};
ghost use Rattle.cstn_reply.specs.Read.{the_said};
ghost use Rattle.cstn_top.specs.commands.Save.{saved};

use cstn_lift::Labelled;
use cstn_reply::{Outcome, Said};
use cstn_save::write;
use cstn_text::Names;
use std::alloc::{AllocError, Global};

/// The canonical document of a labelled network. Fails for want of memory alone.
pub(crate) fn save_text(
    alloc: Global,
    labelled: &Labelled,
    names: &Names,
) -> Result<Said, AllocError>
    requires named { length names.now ≡ count (the_network labelled.now.base) }
    requires origin { slice_get names.now 0 ≡ Some (codes "Z") }
    ensures said { IfOk result (λ said. the_said said ≡ saved names.now (the_labelled labelled.now)) }
{
    let text = write(alloc, labelled, names)?;
    Ok(Said {
        outcome: Outcome::Good,
        text,
    })
}
