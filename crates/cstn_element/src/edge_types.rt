//! The types of edges.

ghost use Rattle.std.specs.Prelude.{◌≡◌};
ghost use Rattle.cstn_element.specs.EdgeTypes.{is_kept_type, is_passed_type, edge_type_of};

/// What becomes of an edge of some type.
#[derive(Clone, Copy)]
pub enum EdgeType {
    /// Its values are constraints.
    Kept,
    /// It is passed over, whatever it holds.
    PassedOver,
    /// It is contingent, and refused.
    Contingent,
}

fn is_kept_type(bytes: &[u8]) -> bool
    ensures { result ≡ is_kept_type bytes.now }
{
    bytes == b"".as_slice()
        || bytes == b"requirement".as_slice()
        || bytes == b"normal".as_slice()
        || bytes == b"constraint".as_slice()
}

fn is_passed_type(bytes: &[u8]) -> bool
    ensures { result ≡ is_passed_type bytes.now }
{
    bytes == b"derived".as_slice() || bytes == b"internal".as_slice()
}

/// What becomes of an edge whose type is this word. The empty word counts as `requirement`. None where the word is no type.
pub fn edge_type_of(bytes: &[u8]) -> Option<EdgeType>
    ensures { result ≡ edge_type_of bytes.now }
{
    if is_kept_type(bytes) {
        return Some(EdgeType::Kept);
    }
    if is_passed_type(bytes) {
        return Some(EdgeType::PassedOver);
    }
    if bytes == b"contingent".as_slice() {
        return Some(EdgeType::Contingent);
    }
    None
}
