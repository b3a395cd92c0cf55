ghost use Rattle.std.specs.Prelude.{◌≡◌, ◌≤◌};
ghost use Rattle.cstn_net.specs.Networks.{count};
ghost use Rattle.cstn_net.specs.Read.{the_network};

use crate::fixtures::{P, branch, crossed, late_branch, pair, process, same, unknown_mark};
use cstn_label::{NodeId, Prop, Scenario};
use cstn_net::{Builder, Network};
use cstn_table::{Table, TableError, decide};
use std::alloc::Global;
use std::process::Abort;

const NEITHER: Scenario = Scenario { bits: 0 };

const P_ALONE: Scenario = Scenario { bits: 1 << 41 };

const Q_ALONE: Scenario = Scenario { bits: 1 << 42 };

const BOTH: Scenario = Scenario { bits: 3 << 41 };

const FIVE: [u32; 8] = [0, 5, 5, 0, 0, 0, 0, 0];

// A network of `count` time-points, each of which observes a proposition of its own.
fn observers(rt: &impl Abort, alloc: Global, count: u8) -> Network
    requires { count ≤ 52 }
{
    let mut net = Builder::new(alloc, 5);
    for index in 0..count {
        net.node(Some(Prop { index })).expect(rt, "memory");
    }
    net.close().expect(rt, "a network")
}

// A scenario, and the moments of the time-points in it.
type Row = (Scenario, [u32; 8]);

// Asserts that the network has a table with these rows.
fn has_rows(rt: &impl Abort, alloc: Global, net: &Network, rows: &[Row]) {
    let table = decide(alloc, net)
        .expect(rt, "memory")
        .expect(rt, "a table");
    for (s, moments) in rows {
        has_row(rt, net, &table, *s, moments);
    }
    drop(table);
}

fn has_row(rt: &impl Abort, net: &Network, table: &Table, s: Scenario, moments: &[u32; 8])
    requires { table.now.points ≡ count (the_network net.now) }
{
    for x in 0..net.count() {
        same(
            rt,
            (s, x),
            Some(&table.moment(s, NodeId(x))),
            moments.get(x as usize),
        );
    }
}

// Asserts that the network has no table.
fn has_none(rt: &impl Abort, alloc: Global, row: &str, net: &Network) {
    same(
        rt,
        row,
        decide(alloc, net).expect(rt, "an answer").is_none(),
        true,
    );
}

#[test]
fn one_scenario_has_its_least_moments(rt: HostRuntime) {
    let alloc = rt.alloc();
    let rows = [(BOTH, [0, 5, 0, 0, 0, 0, 0, 0])];
    has_rows(&rt, alloc, &pair(&rt, alloc, 5, 1, 0, -5), &rows);
    has_none(&rt, alloc, "pair", &pair(&rt, alloc, 4, 1, 0, -5));
}

#[test]
fn an_outcome_is_waited_for(rt: HostRuntime) {
    let alloc = rt.alloc();
    let early = [
        (P_ALONE, [0, 0, 10, 0, 0, 0, 0, 0]),
        (NEITHER, [0, 0, 1, 0, 0, 0, 0, 0]),
    ];
    let late = [
        (BOTH, [0, 2, 10, 0, 0, 0, 0, 0]),
        (Q_ALONE, [0, 2, 3, 0, 0, 0, 0, 0]),
    ];
    has_rows(&rt, alloc, &late_branch(&rt, alloc, 0), &early);
    has_rows(&rt, alloc, &late_branch(&rt, alloc, -2), &late);
    has_none(&rt, alloc, "late", &late_branch(&rt, alloc, -3));
}

#[test]
fn an_outcome_is_known_after_its_reaction(rt: HostRuntime) {
    let alloc = rt.alloc();
    let rows = [
        (P_ALONE, [0, 0, 10, 0, 0, 0, 0, 0]),
        (NEITHER, [0, 0, 3, 0, 0, 0, 0, 0]),
    ];
    has_rows(&rt, alloc, &branch(&rt, alloc, 3), &rows);
    has_none(&rt, alloc, "slow", &branch(&rt, alloc, 4));
}

#[test]
fn each_outcome_has_its_moments(rt: HostRuntime) {
    let alloc = rt.alloc();
    let rows = [
        (P_ALONE, [0, 0, 5, 7, 10, 0, 0, 0]),
        (NEITHER, [0, 0, 5, 13, 16, 0, 0, 0]),
    ];
    has_rows(&rt, alloc, &process(&rt, alloc), &rows);
}

#[test]
fn observers_wait_on_each_other(rt: HostRuntime) {
    let alloc = rt.alloc();
    let rows = [
        (NEITHER, FIVE),
        (P_ALONE, FIVE),
        (Q_ALONE, FIVE),
        (BOTH, FIVE),
    ];
    has_rows(&rt, alloc, &crossed(&rt, alloc, 5), &rows);
    has_none(&rt, alloc, "crossed", &crossed(&rt, alloc, 4));
    has_none(&rt, alloc, "unknown mark", &unknown_mark(&rt, alloc));
}

#[test]
fn propositions_are_counted(rt: HostRuntime) {
    let alloc = rt.alloc();
    has_rows(&rt, alloc, &observers(&rt, alloc, 8), &[(BOTH, [0; 8])]);
    let refused = decide(alloc, &observers(&rt, alloc, 9)).err();
    same(
        &rt,
        "9 propositions",
        refused,
        Some(TableError::TooManyProps),
    );
}
