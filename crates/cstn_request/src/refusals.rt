// What is said of a document that is refused, and why a network or its labels are.
ghost use Rattle.std.specs.Prelude.{◌≡◌, ◌++◌, ◌∷◌, [], IfOk, codes, slice_index_or};
ghost use Rattle.cstn_label.specs.Letters.{letter_of};
ghost use Rattle.cstn_text.specs.PrintedNames.{printed_name};
ghost use Rattle.cstn_request.specs.Opened.{IsToldBy};
ghost use Rattle.cstn_reply.specs.Read.{the_said};
ghost use Rattle.cstn_request.specs.Refusals.{at_place, with_number, network_fault, label_fault};
ghost use Rattle.cstn_reply.specs.Texts.{say};

use cstn_graphml::DocError;
use cstn_label::{NodeId, Prop};
use cstn_lift::LiftError;
use cstn_net::NetError;
use cstn_reply::{Outcome, Said};
use cstn_text::{Names, print_name};
use std::alloc::{AllocError, Global};

/// What is said of a document that is refused with this error. Fails for want of memory alone, also where that is the error.
pub(crate) fn refuse(alloc: Global, error: DocError) -> Result<Said, AllocError>
    ensures told { IfOk result (λ said. IsToldBy error (the_said said)) }
{
    match error {
        DocError::NotUtf8 { at } => at_place(alloc, 1, at),
        DocError::Shape { at } => at_place(alloc, 2, at),
        DocError::NameTwice { at } => at_place(alloc, 3, at),
        DocError::UnknownNode { at } => at_place(alloc, 4, at),
        DocError::Value { at } => at_place(alloc, 5, at),
        DocError::LabelText { at } => at_place(alloc, 6, at),
        DocError::Contingent { at } => at_place(alloc, 7, at),
        DocError::EdgeType { at } => at_place(alloc, 8, at),
        DocError::NoDeadline => refusal(alloc, b"document ", b"X9"),
        DocError::Net { error, names } => {
            let why = network_fault(alloc, error, &names)?;
            refusal(alloc, b"document X10 ", &why)
        }
        DocError::Lift { error, names } => {
            let why = label_fault(alloc, error, &names)?;
            refusal(alloc, b"document X12 ", &why)
        }
        DocError::Memory(e) => Err(e),
    }
}

/// What is said of a file that is refused: one line, by what it begins with and why. Fails for want of memory alone.
pub fn refusal(alloc: Global, front: &[u8], why: &[u8]) -> Result<Said, AllocError>
    ensures said { IfOk result (λ said. the_said said ≡ say Outcome.Document (front.now ++ why.now)) }
{
    let mut text = front.to_vec(alloc)?;
    text.extend_from_slice(why)?;
    text.push(b'\n')?;
    Ok(Said {
        outcome: Outcome::Document,
        text,
    })
}

fn at_place(alloc: Global, kind: u8, at: usize) -> Result<Said, AllocError>
    ensures said { IfOk result (λ said. the_said said ≡ say Outcome.Document (at_place kind at)) }
{
    let why = format!(in alloc; "X{kind} at {at}")?;
    refusal(alloc, b"document ", why.as_bytes())
}

/// Why a network is refused, by its time-points' names. Fails for want of memory alone, also where that is the error.
pub fn network_fault(alloc: Global, error: NetError, names: &Names) -> Result<Vec<u8>, AllocError>
    ensures why { IfOk result (λ text. text.items ≡ network_fault names.now error) }
{
    match error {
        NetError::TooManyNodes => b"N1".to_vec(alloc),
        NetError::NoOrigin => b"N2".to_vec(alloc),
        NetError::TooManyConstraints => b"N3".to_vec(alloc),
        NetError::DeadlineRange { deadline } => with_number(alloc, 4, deadline),
        NetError::ValueRange { constraint } => with_number(alloc, 5, constraint),
        NetError::NotObserved { prop } => unobserved(alloc, prop),
        NetError::TwoObservers {
            prop,
            first,
            second,
        } => twins(alloc, prop, name_of(names, first), name_of(names, second)),
        NetError::NotPlain { constraint } => with_number(alloc, 8, constraint),
        NetError::ReactionRange { node } => with_name(alloc, b"N9 ", name_of(names, node)),
        NetError::Memory(e) => Err(e),
    }
}

fn with_number(alloc: Global, kind: u8, n: u32) -> Result<Vec<u8>, AllocError>
    ensures why { IfOk result (λ text. text.items ≡ with_number kind n) }
{
    let text = format!(in alloc; "N{kind} {n}")?;
    Ok(text.into_bytes())
}

fn unobserved(alloc: Global, prop: Prop) -> Result<Vec<u8>, AllocError>
    ensures why { IfOk result (λ text. text.items ≡ codes "N6 " ++ letter_of prop.index ∷ []) }
{
    let mut text = b"N6 ".to_vec(alloc)?;
    text.push(prop.letter())?;
    Ok(text)
}

#[tactic(auto, using(crate::proofs::Joining::between))]
fn twins(alloc: Global, prop: Prop, first: &str, second: &str) -> Result<Vec<u8>, AllocError>
    ensures why { IfOk result (λ text. text.items ≡ codes "N7 " ++ letter_of prop.index ∷ 32 ∷ printed_name first.now
        ++ 32 ∷ printed_name second.now) }
{
    let first = print_name(alloc, first)?;
    let second = print_name(alloc, second)?;
    let mut text = b"N7 ".to_vec(alloc)?;
    text.push(prop.letter())?;
    text.push(b' ')?;
    text.extend_from_slice(first.as_bytes())?;
    text.push(b' ')?;
    text.extend_from_slice(second.as_bytes())?;
    Ok(text)
}

fn with_name(alloc: Global, front: &[u8], name: &str) -> Result<Vec<u8>, AllocError>
    ensures why { IfOk result (λ text. text.items ≡ front.now ++ printed_name name.now) }
{
    let name = print_name(alloc, name)?;
    let mut text = front.to_vec(alloc)?;
    text.extend_from_slice(name.as_bytes())?;
    Ok(text)
}

/// Why labels of time-points are refused, by the names of these. Fails for want of memory alone, also where that is the error.
pub fn label_fault(alloc: Global, error: LiftError, names: &Names) -> Result<Vec<u8>, AllocError>
    ensures why { IfOk result (λ text. text.items ≡ label_fault names.now error) }
{
    match error {
        LiftError::OriginLabel => b"L1".to_vec(alloc),
        LiftError::NotPlain { node } => with_name(alloc, b"L2 ", name_of(names, node)),
        LiftError::NotObserved { node, prop } => unseen(alloc, name_of(names, node), prop),
        LiftError::Circle { node } => with_name(alloc, b"L4 ", name_of(names, node)),
        LiftError::Never { node } => with_name(alloc, b"L5 ", name_of(names, node)),
        LiftError::TooManyConstraints => b"L6".to_vec(alloc),
        LiftError::Memory(e) => Err(e),
    }
}

#[tactic(auto, using(crate::proofs::Joining::between))]
fn unseen(alloc: Global, name: &str, prop: Prop) -> Result<Vec<u8>, AllocError>
    ensures why { IfOk result (λ text. text.items ≡ codes "L3 " ++ printed_name name.now ++ 32 ∷ letter_of prop.index ∷ []) }
{
    let name = print_name(alloc, name)?;
    let mut text = b"L3 ".to_vec(alloc)?;
    text.extend_from_slice(name.as_bytes())?;
    text.push(b' ')?;
    text.push(prop.letter())?;
    Ok(text)
}

// The name of a time-point, or the empty text where there is no such time-point.
fn name_of(names: &Names, x: NodeId) -> &str
    ensures name { result.now ≡ slice_index_or names.now x.0 [] }
{
    if x.0 as u32 >= names.count() {
        return "";
    }
    names.name(x)
}
