//! The canonical document of a network that lost a constraint.

use crate::fixtures::accepted;
use cstn_label::{Label, Mark, NodeId, Prop};
use cstn_lift::{Labelled, lift};
use cstn_net::Network;
use cstn_save::write;
use cstn_text::Names;
use std::alloc::Global;
use std::process::Abort;

// The canonical document of a labelled network under its names.
fn saved(rt: &impl Abort, alloc: Global, net: &Labelled, names: &Names) -> Vec<u8> {
    assert!(rt; names.count() == net.base().count() as u32);
    assert!(rt; names.count() > 0);
    assert!(rt; names.name(NodeId(0)) == "Z");
    write(alloc, net, names).expect(rt, "memory")
}

const THREE: &str = concat!(
    "<graphml><graph><node id=\"Z\"/><edge source=\"Z\" target=\"Z\">",
    "<data key=\"LabeledValues\">{(1, ⊡) (2, ⊡) (3, ⊡)}</data></edge></graph></graphml>",
);

// The network without its constraint 1, in which the last time-point alone has a label, `last`.
fn without_the_second(
    rt: &impl Abort,
    alloc: Global,
    unlabelled: Labelled,
    last: Label,
) -> Labelled {
    let (mut net, _) = unlabelled.split();
    net.take_out(1);
    let others = (net.count() as usize).saturating_sub(1);
    let mut labels = vec![in alloc; Label::empty(); others].expect(rt, "memory");
    labels.push(last).expect(rt, "memory");
    assert!(rt; labels.len() == net.count() as usize);
    lift(alloc, net, labels).expect(rt, "a labelled network")
}

// The network has two constraints, with these ids and values.
fn expect_two(rt: &impl Abort, net: &Network, wanted: [(u32, i32); 2]) {
    let [first, second] = net.constraints() else {
        panic!(rt; "two constraints");
    };
    assert!(rt; (first.id, first.most) == wanted[0]);
    assert!(rt; (second.id, second.most) == wanted[1]);
}

// The network of the text without its constraint 1 has the ids 0 and 2, and is read back with the ids 0 and 1.
fn expect_closed_up(rt: &impl Abort, alloc: Global, text: &str, last: Label) {
    let (unlabelled, names) = accepted(rt, alloc, text, Some(10));
    let net = without_the_second(rt, alloc, unlabelled, last);
    expect_two(rt, net.base(), [(0, 1), (2, 3)]);
    let bytes = saved(rt, alloc, &net, &names);
    let text = str::from_utf8(&bytes).expect(rt, "a text");
    let (again, names_again) = accepted(rt, alloc, text, None);
    expect_two(rt, again.base(), [(0, 1), (1, 3)]);
    assert!(rt; again.is_labelled() == net.is_labelled());
    drop(names_again);
    drop(again);
    drop(bytes);
    drop(names);
    drop(net);
}

const TREATED: &str = concat!(
    "<graphml><graph><node id=\"Z\"/><node id=\"P\"><data key=\"Obs\">p</data></node><node id=\"X\"/>",
    "<edge source=\"X\" target=\"Z\"><data key=\"LabeledValues\">{(1, ⊡) (2, ⊡) (3, p)}</data></edge></graph></graphml>",
);

#[test]
fn ids_are_closed_up(rt: HostRuntime) {
    let p = Label::empty().with(Prop { index: 41 }, Mark::Yes);
    expect_closed_up(&rt, rt.alloc(), THREE, Label::empty());
    expect_closed_up(&rt, rt.alloc(), TREATED, p);
}
