/// Names one value of a pool: the slot it lies in, and which birth of the pool it was.
///
/// Slots come back into use; births never do. Two ids are equal exactly where both numbers are.
#[derive(Clone, Copy, Debug, PartialEq, Eq)]
pub struct SlotId {
    /// The place in the pool, below its capacity.
    pub slot: u32,
    /// How many births the pool had before this one.
    pub birth: u64,
}
