ghost use Rattle.std.specs.Prelude.{◌≡◌, ◌<◌};
ghost use Rattle.cstn_gen.specs.Draws.{next, drawn};

const FACTOR: u64 = 6_364_136_223_846_793_005;

const STEP: u64 = 1_442_695_040_888_963_407;

/// Draws numbers one after another by a linear recurrence from its state.
#[derive(Drop)]
pub(crate) struct Draws {
    pub(crate) state: u64,
}

impl Draws {
    /// The next number below `m`.
    pub(crate) fn below(&mut self, m: u32) -> u32
        requires some { 0 < m }
        ensures drawn { result ≡ drawn 1 m self.old.state }
        ensures state { self.new.state ≡ next self.old.state }
        ensures below { result < m }
    {
        self.state = self.state.wrapping_mul(FACTOR).wrapping_add(STEP);
        ((self.state >> 33) % m as u64) as u32
    }
}
