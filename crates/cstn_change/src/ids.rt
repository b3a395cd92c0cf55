// Ids that were never used.
ghost use Rattle.std.specs.Prelude.{◌≡◌, ◌<◌, ◌≤◌, ◌^◌};
ghost use Rattle.std.specs.List.{All};
ghost use Rattle.cstn_net.specs.Read.{the_network};
ghost use Rattle.cstn_change.specs.Changes.{id_above};

use cstn_net::Network;

/// An id above those of the network's constraints: one above the last one's, or 0.
pub fn id_above(net: &Network) -> u32
    requires ids { All (λ c. c.id < 2 ^ 31) (the_network net.now).constraints }
    ensures above { result ≡ id_above (the_network net.now).constraints }
    ensures small { result ≤ 2 ^ 31 }
    ensures each { All (λ c. c.id < id_above (the_network net.now).constraints) net.now.constraints }
{
    let constraints = net.constraints();
    let Some(last) = constraints.len().checked_sub(1) else {
        return 0;
    };
    constraints[last].id + 1
}
