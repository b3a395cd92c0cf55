// The limits of a network.
ghost use Rattle.std.specs.Prelude.{◌↔◌, IsTrue};
ghost use Rattle.cstn_net.specs.Networks.{IsValue};

/// The most time-points that a network may have.
pub const MAX_NODES: usize = 1024;

/// The most constraints that a network may have.
pub const MAX_CONSTRAINTS: usize = 16384;

/// The latest deadline, in ticks.
pub const MAX_DEADLINE: u32 = 1_000_000;

/// The greatest value of a constraint, in ticks; the least is as far below 0.
pub const MAX_MOST: i32 = 1_000_000_000;

/// The longest reaction, in ticks; the shortest is 1.
pub const MAX_REACTION: u32 = 1000;

/// The most bounds that a log may have, which is the greatest load and the greatest cap.
pub const MAX_LOAD: u32 = 4_194_304;

/// The most edits of a network that a session accepts.
pub const MAX_EDITS: u32 = 1_000_000;

/// Whether a constraint may have this value, in ticks.
pub fn is_value(most: i32) -> bool
    ensures { IsTrue result ↔ IsValue most }
{
    -MAX_MOST <= most && most <= MAX_MOST
}
