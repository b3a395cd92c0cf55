ghost use Rattle.std.specs.Prelude.{◌≡◌, ◌≤◌, ◌↔◌, IfSome, IsSome};
ghost use Rattle.cstn_net.specs.Limits.{most_load};

use cstn_net::MAX_LOAD;

/// How many entries a log may have: from 1 to 4,194,304.
#[derive(Clone, Copy)]
pub struct Cap {
    pub entries: u32,
    pub ghost some: { 1 ≤ entries },
    pub ghost most: { entries ≤ most_load },
}

impl Cap {
    /// The cap that holds where none is named.
    pub const USUAL: Cap = Cap { entries: 65_536 };

    /// The cap of this many entries, if they are in range.
    pub fn new(entries: u32) -> Option<Cap>
        ensures cap { IfSome result (λ cap. cap.entries ≡ entries) }
        ensures range { IsSome result ↔ ((1 ≤ entries) × (entries ≤ most_load)) }
    {
        if entries == 0 || entries > MAX_LOAD {
            return None;
        }
        Some(Cap { entries })
    }
}
