use cstn_label::Bound;

/// The rule that gave a bound, with its constraint by id, and its premises by their places in the list, from 0. The premise
/// `seen` of wait is the one at the observer.
#[derive(Clone, Copy, Debug, PartialEq, Eq)]
pub enum Why {
    Base,
    Chain { constraint: u32, premise: u32 },
    Wait { seen: u32, premise: u32 },
}

/// A bound with the rule that gave it.
#[derive(Clone, Copy, Debug, PartialEq, Eq)]
pub struct Entry {
    pub bound: Bound,
    pub why: Why,
}
