// Finds the entries with which wait of the entry whose turn it is may add something, and puts their places on the agenda.
ghost use Rattle.std.specs.Prelude.{◌≡◌, ◌<◌, ◌≤ℤ◌, pos, length};
ghost use Rattle.cstn_log.specs.Entries.{IsBoundAt};
ghost use Rattle.cstn_net.specs.Limits.{most_reaction};
ghost use Rattle.cstn_net.specs.Networks.{Observes, count};
ghost use Rattle.cstn_net.specs.Read.{the_network};
ghost use Rattle.cstn_label.specs.Labels.{without};
ghost use Rattle.cstn_label.specs.Read.{marks};
ghost use Rattle.cstn_check.specs.Floors.{IsFloor};
ghost use Rattle.cstn_check.specs.Turns.{IsOpen};
ghost use Rattle.cstn_check.specs.Waits.{IsAhead, IsSifted, AreSeen, AreSeenOf, AreMarking, AreMarkingAt};

use cstn_label::{Bound, NodeId, Prop};
use cstn_log::Log;
use cstn_net::{Network, network_is_well_formed};

// Puts on the agenda, which is emptied first, the places up to `j` of the entries with which wait of the entry at `j`, either way
// round, isn't known to add nothing.
pub fn sift(net: &Network, log: &mut Log, j: u32)
    requires ready { IsOpen (the_network net.now) log.old }
    requires place { j < length log.old.entries }
    ensures stays { log.new ≡ record log.old { agenda = log.new.agenda } }
    ensures ahead { IsAhead (the_network net.now) log.new j 0 }
{
    network_is_well_formed(net);
    log.clear_agenda();
    let own = log.bound(j);
    sift_seen(net, log, &own, j);
    sift_marking(net, log, &own, j);
}

// Puts on the agenda the places of the entries that may add something as the one at the observer. An entry may where its
// least value and the reaction are above that of each entry that dominates a conclusion by its label alone.
fn sift_seen(net: &Network, log: &mut Log, own: &Bound, j: u32)
    requires ready { IsOpen (the_network net.now) log.old }
    requires place { j < length log.old.entries }
    requires bound { IsBoundAt log.old.entries j own.now }
    ensures sifted { IsSifted log.old log.new j }
    ensures seen { AreSeen (the_network net.now) log.new j }
{
    let Some(_) = own.label.first_marked_from(0) else {
        return;
    };
    let floors = log.floors(own.node, own.label);
    let mut index = 0;
    while let Some(p) = own.label.first_marked_from(index) {
        sift_at_observer(net, log, own, p, floors[p.index as usize], j);
        index = p.index + 1;
    }
}

// Puts on the agenda the places of the entries at the observer of p that may add something as the one there. The floor is that of
// the label of the entry at `j` without p.
fn sift_at_observer(net: &Network, log: &mut Log, own: &Bound, p: Prop, floor: i32, j: u32)
    requires ready { IsOpen (the_network net.now) log.old }
    requires place { j < length log.old.entries }
    requires bound { IsBoundAt log.old.entries j own.now }
    requires floor { IsFloor log.old.entries own.now.node.0 (without (marks own.now.label) p.index) floor }
    ensures sifted { IsSifted log.old log.new j }
    ensures seen { AreSeenOf (the_network net.now) log.new j p.index }
{
    network_is_well_formed(net);
    let Some(x) = net.observer(p) else {
        return;
    };
    let low = floor - reaction(net, p);
    log.put_down(x, low, None, j);
}

// How many ticks after its observer p is known.
fn reaction(net: &Network, p: Prop) -> i32
    ensures reaction { result ≡ pos ((the_network net.now).reaction p.index) }
    ensures range { result ≤ℤ pos most_reaction }
{
    net.reaction(p) as i32
}

// Puts on the agenda the places of the entries that may add something as the one that marks what the time-point observes.
fn sift_marking(net: &Network, log: &mut Log, own: &Bound, j: u32)
    requires ready { IsOpen (the_network net.now) log.old }
    requires place { j < length log.old.entries }
    requires bound { IsBoundAt log.old.entries j own.now }
    ensures sifted { IsSifted log.old log.new j }
    ensures marking { AreMarking (the_network net.now) log.new j }
{
    network_is_well_formed(net);
    let Some(p) = net.observes(own.node) else {
        return;
    };
    for x in 0..net.count() {
        sift_marking_at(net, log, own, p, NodeId(x), j);
    }
}

// Puts on the agenda the places of the entries at x that may add something as the one that marks p.
fn sift_marking_at(net: &Network, log: &mut Log, own: &Bound, p: Prop, x: NodeId, j: u32)
    requires ready { IsOpen (the_network net.now) log.old }
    requires place { j < length log.old.entries }
    requires bound { IsBoundAt log.old.entries j own.now }
    requires observes { Observes (the_network net.now) own.now.node.0 p.index }
    requires node { x.0 < count (the_network net.now) }
    ensures sifted { IsSifted log.old log.new j }
    ensures marking { AreMarkingAt (the_network net.now) log.new j x.0 }
{
    network_is_well_formed(net);
    if !log.may_mark(x, p) {
        return;
    }
    let floor = log.floor(x, own.label);
    let most = own.least + reaction(net, p);
    if most <= floor {
        return;
    }
    log.put_down(x, floor, Some(p), j);
}
