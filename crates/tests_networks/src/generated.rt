ghost use Rattle.std.specs.Prelude.{◌≡◌, ◌+◌};
ghost use Rattle.cstn_net.specs.Networks.{count};
ghost use Rattle.cstn_net.specs.Read.{the_network};

use crate::fixtures::{constraint, same};
use cstn_gen::network;
use cstn_label::{NodeId, Prop};
use cstn_net::Network;
use std::alloc::Global;
use std::process::Abort;

const A: Prop = Prop { index: 26 };

const C: Prop = Prop { index: 28 };

// Generates the network of a number and a size, which has this deadline, and so many time-points, names and constraints.
fn generated(rt: &impl Abort, alloc: Global, number: u64, size: u32, deadline: u32) -> Network
    ensures { count (the_network result) ≡ size + 1 }
{
    assert!(rt; 1 <= size && size <= 200);
    let (net, names) = network(alloc, number, size).expect(rt, "memory");
    assert!(rt; net.deadline() == deadline && net.count() as u32 == size + 1);
    assert!(rt; net.constraints().len() == 2 * size as usize && names.count() == size + 1);
    net
}

// A constraint, whose id is its place.
struct Row {
    from: u16,
    to: u16,
    most: i32,
    text: &'static str,
}

const OF_SIZE_6: [Row; 12] = [
    Row {
        from: 1,
        to: 2,
        most: 11,
        text: "c",
    },
    Row {
        from: 1,
        to: 2,
        most: 7,
        text: "a",
    },
    Row {
        from: 1,
        to: 0,
        most: -3,
        text: "!c",
    },
    Row {
        from: 6,
        to: 4,
        most: -1,
        text: "c",
    },
    Row {
        from: 3,
        to: 0,
        most: -4,
        text: "b",
    },
    Row {
        from: 0,
        to: 5,
        most: 11,
        text: "-",
    },
    Row {
        from: 2,
        to: 0,
        most: -2,
        text: "ab",
    },
    Row {
        from: 0,
        to: 4,
        most: 10,
        text: "b!c",
    },
    Row {
        from: 3,
        to: 0,
        most: -6,
        text: "c",
    },
    Row {
        from: 0,
        to: 3,
        most: 12,
        text: "!c",
    },
    Row {
        from: 5,
        to: 0,
        most: -4,
        text: "-",
    },
    Row {
        from: 3,
        to: 6,
        most: 10,
        text: "-",
    },
];

const OF_SIZE_1: [Row; 2] = [
    Row {
        from: 0,
        to: 1,
        most: 11,
        text: "a",
    },
    Row {
        from: 0,
        to: 1,
        most: 7,
        text: "a",
    },
];

const OF_SIZE_2: [Row; 4] = [
    Row {
        from: 2,
        to: 1,
        most: 0,
        text: "-",
    },
    Row {
        from: 0,
        to: 1,
        most: 14,
        text: "a",
    },
    Row {
        from: 1,
        to: 0,
        most: -2,
        text: "a",
    },
    Row {
        from: 2,
        to: 0,
        most: -6,
        text: "-",
    },
];

// The constraints of the network are those of the rows.
fn has_rows(rt: &impl Abort, net: &Network, rows: &[Row]) {
    assert!(rt; net.constraints().len() == rows.len() && rows.len() <= 100);
    for id in 0..rows.len() {
        let row = &rows[id];
        let wanted = constraint(id as u32, row.from, row.to, row.most, row.text);
        same(rt, id, net.constraints()[id], wanted);
    }
}

#[test]
fn small_sizes(rt: HostRuntime) {
    let six = generated(&rt, rt.alloc(), 0, 6, 22);
    assert!(rt; six.observes(NodeId(0)).is_none() && six.observes(NodeId(1)) == Some(A));
    assert!(rt; six.observes(NodeId(3)) == Some(C) && six.observes(NodeId(4)).is_none());
    has_rows(&rt, &six, &OF_SIZE_6);
    has_rows(&rt, &generated(&rt, rt.alloc(), 0, 1, 12), &OF_SIZE_1);
    let two = generated(&rt, rt.alloc(), 1, 2, 14);
    assert!(rt; two.observes(NodeId(2)).is_none());
    has_rows(&rt, &two, &OF_SIZE_2);
}

#[test]
fn the_largest_size(rt: HostRuntime) {
    let net = generated(&rt, rt.alloc(), 0, 200, 410);
    assert!(rt; net.observes(NodeId(6)) == Prop::from_letter(b'f'));
    assert!(rt; net.observes(NodeId(7)).is_none());
}
