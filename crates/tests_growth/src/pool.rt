// Each pool is dropped by a call, since a drop at the end of a function is proved as a part of it.
ghost use Rattle.std.specs.Prelude.{◌≡◌, ◌<◌, ◌≤◌, ◌+◌};

use cstn_pool::{Full, Pool, SlotId};
use std::alloc::Global;
use std::process::Abort;

fn started(rt: &impl Abort, alloc: Global, capacity: u32) -> Pool<i32>
    ensures { result.births ≡ 0 }
{
    Pool::start(alloc, capacity).expect(rt, "memory")
}

fn id(slot: u32, birth: u64) -> SlotId {
    SlotId { slot, birth }
}

// Taking the value gives this answer.
fn takes(rt: &impl Abort, pool: &mut Pool<i32>, value: i32, answer: Result<SlotId, Full>)
    requires { pool.old.births < 100 }
    ensures { pool.new.births ≤ pool.old.births + 1 }
{
    assert!(rt; pool.take(value) == answer, "take {value}");
}

// Takes the value, for which there is room.
fn taken(rt: &impl Abort, pool: &mut Pool<i32>, value: i32) -> SlotId
    requires { pool.old.births < 100 }
    ensures { pool.new.births ≤ pool.old.births + 1 }
{
    pool.take(value).expect(rt, "room")
}

// The id's value is this one.
fn has(rt: &impl Abort, pool: &Pool<i32>, id: SlotId, value: Option<i32>) {
    assert!(rt; pool.get(id) == value, "get {id:?}");
}

// Giving the id back gives this value.
fn gives(rt: &impl Abort, pool: &mut Pool<i32>, id: SlotId, value: Option<i32>)
    ensures { pool.new.births ≡ pool.old.births }
{
    assert!(rt; pool.give(id) == value, "give {id:?}");
}

fn lives(rt: &impl Abort, pool: &Pool<i32>, count: u32) {
    assert!(rt; pool.live() == count, "{count} live");
}

#[test]
fn one_slot_is_taken_again_under_a_new_birth(rt: HostRuntime) {
    let mut pool = started(&rt, rt.alloc(), 1);
    let first = id(0, 0);
    let second = id(0, 1);
    takes(&rt, &mut pool, 7, Ok(first));
    takes(&rt, &mut pool, 9, Err(Full));
    gives(&rt, &mut pool, first, Some(7));
    takes(&rt, &mut pool, 8, Ok(second));
    has(&rt, &pool, first, None);
    gives(&rt, &mut pool, first, None);
    has(&rt, &pool, second, Some(8));
    lives(&rt, &pool, 1);
    pool.clear();
    lives(&rt, &pool, 0);
    takes(&rt, &mut pool, 6, Ok(id(0, 2)));
    drop(pool);
}

#[test]
fn slots_that_came_back_are_taken_again(rt: HostRuntime) {
    let mut pool = started(&rt, rt.alloc(), 3);
    let one = taken(&rt, &mut pool, 1);
    let two = taken(&rt, &mut pool, 2);
    let three = taken(&rt, &mut pool, 3);
    gives(&rt, &mut pool, two, Some(2));
    gives(&rt, &mut pool, two, None);
    gives(&rt, &mut pool, one, Some(1));
    lives(&rt, &pool, 1);
    taken(&rt, &mut pool, 4);
    taken(&rt, &mut pool, 5);
    takes(&rt, &mut pool, 6, Err(Full));
    lives(&rt, &pool, 3);
    has(&rt, &pool, three, Some(3));
    drop(pool);
}

#[test]
fn no_slot_and_no_such_slot(rt: HostRuntime) {
    let mut none = started(&rt, rt.alloc(), 0);
    takes(&rt, &mut none, 7, Err(Full));
    has(&rt, &none, id(0, 0), None);
    lives(&rt, &none, 0);
    drop(none);
    let mut one = started(&rt, rt.alloc(), 1);
    let five = taken(&rt, &mut one, 5);
    gives(&rt, &mut one, id(u32::MAX, 0), None);
    gives(&rt, &mut one, id(0, u64::MAX), None);
    has(&rt, &one, five, Some(5));
    drop(one);
}
