// Laws of minimal sets.
ghost use Rattle.std.specs.Prelude.{◌≡◌, ◌<◌, ◌+◌, ◌≤◌, ◌↔◌, ℕ, List, Some, None, length, slice_get, replicate};
ghost use Rattle.cstn_label.specs.declared.bounds.Bound.{Bound};
ghost use Rattle.cstn_pool.specs.declared.slot_id.SlotId.{SlotId};
ghost use Rattle.cstn_minset.specs.Sets.{Entries, IsPlaced, IsThere, IsAt, IsWalkOfSlots, IsMinimal};
ghost use Rattle.cstn_minset.specs.Placings.{Placing, AfterPlacings, HaveOwnSlots, IsLastOver};

/// A walk that begins with `first` and goes on by `next` meets each entry of the time-point exactly
/// once, in ascending birth. It meets at most as many entries as there are slots. Each time-point has
/// such a walk, and no other.
pub fn walks_meet_each_once()
    ensures each { (nodes node slot birth : ℕ) (b : Bound) (table : Entries) (ids : List SlotId) → IsMinimal nodes table → IsWalkOfSlots table (IsAt node) 0 ids
        → IsPlaced table slot (birth, b) → b.node.0 ≡ node → (k : ℕ) × (slice_get ids k ≡ Some (record { slot = slot; birth = birth })) }
    ensures there { (node k : ℕ) (id : SlotId) (table : Entries) (ids : List SlotId) → IsWalkOfSlots table (IsAt node) 0 ids → slice_get ids k ≡ Some id
        → (b : Bound) × IsPlaced table id.slot (id.birth, b) × (b.node.0 ≡ node) }
    ensures ascending { (node j k : ℕ) (earlier later : SlotId) (table : Entries) (ids : List SlotId) → IsWalkOfSlots table (IsAt node) 0 ids
        → slice_get ids j ≡ Some earlier → slice_get ids k ≡ Some later → j < k → earlier.birth < later.birth }
    ensures within { (node : ℕ) (table : Entries) (ids : List SlotId) → IsWalkOfSlots table (IsAt node) 0 ids → length ids ≤ length table }
    ensures exists { (nodes node : ℕ) (table : Entries) → IsMinimal nodes table → (ids : List SlotId) × IsWalkOfSlots table (IsAt node) 0 ids }
    ensures one { (nodes node : ℕ) (table : Entries) (ids others : List SlotId) → IsMinimal nodes table → IsWalkOfSlots table (IsAt node) 0 ids
        → IsWalkOfSlots table (IsAt node) 0 others → ids ≡ others }
{}

/// Where bounds are placed in order into an empty set, each in a slot of its own, the set has exactly
/// those that no later one dominates, each under its id.
pub fn placing_leaves_what_nothing_later_dominates()
    ensures exactly { (size slot birth : ℕ) (b : Bound) (ps : List Placing) (table : Entries) → HaveOwnSlots size ps
        → AfterPlacings ps (replicate size None) table
        → (IsPlaced table slot (birth, b) ↔ ((k : ℕ) × IsLastOver ps k (record { id = record { slot = slot; birth = birth }; bound = b }))) }
    ensures size { (ps : List Placing) (before after : Entries) → AfterPlacings ps before after → length after ≡ length before }
{}
