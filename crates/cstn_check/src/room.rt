// Whether a log can be full at all.
ghost use Rattle.std.specs.Prelude.{◌≡◌, ◌<◌, ◌≤◌, true, false};
ghost use Rattle.std.specs.Option.{option_map};
ghost use Rattle.cstn_net.specs.Read.{the_network};
ghost use Rattle.cstn_check.specs.Growth.{most_entries};
ghost use Rattle.cstn_check.specs.Room.{factor};

use cstn_label::{NodeId, Prop};
use cstn_log::Cap;
use cstn_net::Network;

/// No log of the network, or of the network with fewer constraints, can have more than `cap` entries: so many marks of the
/// observed propositions and least values are there for its time-points.
pub fn is_never_full(net: &Network, cap: Cap) -> bool
    ensures within { result ≡ true → most_entries (the_network net.now) ≤ cap.entries }
    ensures beyond { result ≡ false → cap.entries < most_entries (the_network net.now) }
{
    let mut most = net.count() as u64 * (net.deadline() as u64 + 2);
    for x in 0..net.count() {
        if most > cap.entries as u64 {
            return false;
        }
        most *= factor(net.observes(NodeId(x)));
    }
    most <= cap.entries as u64
}

// How many marks a label may have of what a time-point observes.
fn factor(observed: Option<Prop>) -> u64
    ensures { result ≡ factor (option_map (λ p. p.index) observed) }
{
    match observed {
        Some(_) => 4,
        None => 1,
    }
}
