// Hosts of several ids.
use crate::fixtures::{P, origin, plan};
use cstn_label::NodeId;
use cstn_run::{Host, HostError};
use std::alloc::Global;
use std::process::Abort;

// A host with one plan, whose origin observes p.
fn host(rt: &impl Abort, alloc: Global) -> Host {
    let plan = plan(rt, alloc, origin(rt, alloc, 10, Some(P)));
    let mut plans = Vec::with_capacity(alloc, 1).expect(rt, "memory");
    plans.push(plan).expect(rt, "memory");
    assert!(rt; plans.len() == 1);
    Host::start(alloc, plans).expect(rt, "memory")
}

// Opens the id, and asserts that it answers as an executive that is alone.
fn is_alone(rt: &impl Abort, host: &mut Host, id: u32) {
    assert!(rt; host.open(id, 0) == Ok(()) && host.due(id) == Ok(Some(0)));
    assert!(rt; host.moment(id, 0) == Ok(()) && host.due(id) == Ok(None));
    let named = host.named(id);
    assert!(rt; named.is_ok_and(|xs| xs.first() == Some(&NodeId(0))));
}

#[test]
fn all_ids_are_open_at_once(rt: HostRuntime) {
    let mut host = host(&rt, rt.alloc());
    for id in 0..64 {
        is_alone(&rt, &mut host, id);
    }
    assert!(rt; host.open(64, 0) == Err(HostError::IdRange { id: 64 }));
    assert!(rt; host.see(7, P, true) == Ok(()) && host.file(7) == Ok(0));
    assert!(rt; host.close(7) == Ok(()) && host.named(7).is_err());
}
