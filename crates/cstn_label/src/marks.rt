/// What a label says of one proposition: nothing, that it is true, that it is false, or that it is still unknown.
#[derive(Clone, Copy, Debug, PartialEq, Eq, Hash)]
pub enum Mark {
    Absent,
    Yes,
    No,
    Unknown,
}
