// Laws of lists of calls on a pool, and of lists that blanks fill up.
ghost use Rattle.std.specs.Prelude.{◌≡◌, ◌<◌, ◌≤◌, ◌-◌, ◌++◌, ℕ, List, None, length, take, replicate, slice_index_or, slice_set};
ghost use Rattle.cstn_pool.specs.Slots.{Slots, value_at, padded};
ghost use Rattle.cstn_pool.specs.Calls.{PoolCall, AfterCalls};

/// No call lowers the number of births, and an id whose value is gone never names a value again.
/// A new id has the number of births so far as its birth, so no birth is returned twice.
pub fn births_never_come_back<T: Copy>()
    ensures births { (calls : List (PoolCall T)) (before after : Slots T) → AfterCalls calls before after → before.births ≤ after.births }
    ensures gone { (calls : List (PoolCall T)) (before after : Slots T) (slot birth : ℕ) → AfterCalls calls before after → birth < before.births
        → value_at before.slots slot birth ≡ None → value_at after.slots slot birth ≡ None }
{}

/// A list that blanks fill up to a count has that many places, and past the list itself a blank is
/// read. Filling the list up with blanks beyond a place, and then writing that place, writes it in
/// the list that is filled up to the count.
pub fn blanks_fill_up_to_a_count<A: Copy>()
    ensures length { (blank : A) (count : ℕ) (written : List A) → length written ≤ count → length (padded blank count written) ≡ count }
    ensures at { (blank : A) (count place : ℕ) (written : List A)
        → slice_index_or (padded blank count written) place blank ≡ slice_index_or written place blank }
    ensures set { (blank : A) (count more place : ℕ) (x : A) (written : List A) → more ≤ count → length written ≤ more → place < more
        → padded blank count (slice_set (take more written ++ replicate (more - length written) blank) place x)
        ≡ slice_set (padded blank count written) place x }
{}
