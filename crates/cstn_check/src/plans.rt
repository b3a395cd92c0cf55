ghost use Rattle.std.specs.Prelude.{◌≡◌, ◌≤◌, [], length, vec_capacity};
ghost use Rattle.cstn_net.specs.Limits.{most_load};
ghost use Rattle.cstn_log.specs.Entries.{the_entries};
ghost use Rattle.cstn_plan.specs.Plans.{the_bounds};
ghost use Rattle.cstn_check.specs.Growth.{live_bounds};

use cstn_label::Bound;
use cstn_log::Log;

/// Writes the bounds of the live entries, in order, into `room`, an empty vector with room for as many as the log's cap.
pub(crate) fn live_bounds(log: &Log, room: Vec<Bound>) -> Vec<Bound>
    requires empty { room.items ≡ [] }
    requires room { log.now.cap ≤ vec_capacity room }
    ensures bounds { the_bounds result.items ≡ live_bounds (the_entries log.now.entries) }
    ensures few { length result.items ≤ most_load }
{
    let mut bounds = room;
    for k in 0..log.len() {
        if log.live(k) {
            bounds.push(log.bound(k)).unwrap();
        }
    }
    bounds
}
