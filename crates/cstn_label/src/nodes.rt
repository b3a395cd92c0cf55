ghost use Rattle.std.specs.Prelude.{◌≡◌, ◌<◌, ◌↔◌, IsSome, IfSome};
ghost use Rattle.cstn_label.specs.Limits.{most_ids};

/// A time-point, by its number. The origin is 0.
#[derive(Clone, Copy, Debug, Default, PartialEq, Eq, PartialOrd, Ord, Hash)]
pub struct NodeId(pub u16);

impl NodeId {
    /// The time-point of a number; none at 65,536 and above.
    pub fn from_number(number: u32) -> Option<NodeId>
        ensures some { IsSome result ↔ (number < most_ids) }
        ensures number { IfSome result (λ x. x.0 ≡ number) }
    {
        if number < 65536 {
            Some(NodeId(number as u16))
        } else {
            None
        }
    }

    /// The time-point's number, below 65,536.
    pub fn number(self) -> u32
        ensures number { result ≡ self.0 }
    {
        self.0 as u32
    }

    /// The number, as a place in a list.
    pub fn index(self) -> usize
        ensures index { result ≡ self.0 }
    {
        self.0 as usize
    }
}
