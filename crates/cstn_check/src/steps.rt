ghost use Rattle.std.specs.Prelude.{◌<◌, ◌^◌};

use cstn_rules::Tries;

// What came of trying some rules: growth goes on, or an entry refutes the network.
#[derive(Clone, Copy)]
pub enum Step {
    Open,
    Refuted,
}

// Does nothing. A count of tries is a number of 64 bits.
pub fn count_is_in_range(tries: &Tries)
    ensures { tries.now.count < 2 ^ 64 }
{
    let _count = tries.count;
}
