// The documents of files.
ghost use Rattle.std.specs.Prelude.{ℕ, ◌≡◌, ◌≤◌, List, ◌∷◌, length, IfOk, IsTrue, IsErrOf, Err, codes};
ghost use Rattle.cstn_net.specs.Networks.{count};
ghost use Rattle.cstn_net.specs.Read.{the_network};
ghost use Rattle.cstn_graphml.specs.DrawnGraph.{origin_name};
ghost use Rattle.cstn_io.specs.Causes.{Rose};
ghost use Rattle.cstn_reply.specs.declared.output.Said.{Said as SaidText};
ghost use Rattle.cstn_reply.specs.Read.{the_said};
ghost use Rattle.cstn_reply.specs.Texts.{say};
ghost use Rattle.cstn_request.specs.Read.{the_asked_file};
ghost use Rattle.cstn_request.specs.Asked.{AsksFileOnce};
ghost use Rattle.cstn_request.specs.Opened.{HasAskedFile, IsLabelledOf, IsLoweredOf, IsPlainOf, IsNetworkOf, IsDocumentRefusal, IsPlainRefusal};
ghost use Rattle.cstn_request.specs.Opened.{IsNetworkRefusal, IsTakenOf, TellsLabels};

use crate::refusals::refuse;
use crate::{Asked, NamedLabelled, NamedNetwork, Unread};
use cstn_graphml::read;
use cstn_io::{Shelf, TakeError, take_all};
use cstn_lift::{Labelled, unlabelled_is_plain};
use cstn_reply::{Outcome, Said};
use cstn_text::Names;
use std::alloc::{AllocError, Global};

const MAX_DOCUMENT: usize = 8_388_608;

/// Reads the document of a file, which is refused where a time-point has a label. Fails where it is refused, where the file can't
/// be read, and for want of memory.
pub fn open<F: Shelf>(
    alloc: Global,
    asked: Asked<'_>,
    shelf: &mut F,
) -> Result<NamedNetwork, Unread>
    requires may_ask { IsTrue (F.may_ask shelf.old asked.file.now) }
    ensures opened { IfOk result (λ d. HasAskedFile (F.files shelf.old) (the_asked_file asked.entry) (λ bytes deadline. IsPlainOf bytes deadline d)) }
    ensures refused { (said : SaidText) → result ≡ Err (Unread.Told said)
        → HasAskedFile (F.files shelf.old) (the_asked_file asked.entry) (λ bytes deadline. IsPlainRefusal bytes deadline said) }
    ensures once { AsksFileOnce asked.entry.file.now (F.asked shelf.old) (F.asked shelf.new) result }
    ensures names { F.may_ask shelf.new ≡ F.may_ask shelf.old }
    ensures files { F.files shelf.new ≡ F.files shelf.old }
    ensures later { F.faults shelf.old ≤ F.faults shelf.new }
    ensures fault { IsErrOf result Unread.ReadFault → Rose (F.faults shelf.old) (F.faults shelf.new) }
{
    unlabelled_is_plain();
    let document = open_labelled(alloc, asked, shelf)?;
    take_plain(alloc, document.labelled, document.names)
}

/// Reads the document of a file, and lowers its labelled network to a plain one. Fails as `open_labelled` does.
pub fn open_lowered<F: Shelf>(
    alloc: Global,
    asked: Asked<'_>,
    shelf: &mut F,
) -> Result<NamedNetwork, Unread>
    requires may_ask { IsTrue (F.may_ask shelf.old asked.file.now) }
    ensures opened { IfOk result (λ d. HasAskedFile (F.files shelf.old) (the_asked_file asked.entry) (λ bytes deadline. IsLoweredOf bytes deadline d)) }
    ensures refused { (said : SaidText) → result ≡ Err (Unread.Told said)
        → HasAskedFile (F.files shelf.old) (the_asked_file asked.entry) (λ bytes deadline. IsDocumentRefusal bytes deadline said) }
    ensures once { AsksFileOnce asked.entry.file.now (F.asked shelf.old) (F.asked shelf.new) result }
    ensures names { F.may_ask shelf.new ≡ F.may_ask shelf.old }
    ensures files { F.files shelf.new ≡ F.files shelf.old }
    ensures later { F.faults shelf.old ≤ F.faults shelf.new }
    ensures fault { IsErrOf result Unread.ReadFault → Rose (F.faults shelf.old) (F.faults shelf.new) }
{
    let document = open_labelled(alloc, asked, shelf)?;
    let (network, _) = document.labelled.split();
    Ok(NamedNetwork {
        network,
        names: document.names,
    })
}

/// Reads the document of a file as that of a network: where labels are taken, of the one that its labelled network is lowered to.
/// Fails as `open_lowered` does, or as `open` does.
pub fn open_network<F: Shelf>(
    alloc: Global,
    asked: Asked<'_>,
    takes_labels: bool,
    shelf: &mut F,
) -> Result<NamedNetwork, Unread>
    requires may_ask { IsTrue (F.may_ask shelf.old asked.file.now) }
    ensures opened { IfOk result (λ d. HasAskedFile (F.files shelf.old) (the_asked_file asked.entry)
        (λ bytes deadline. IsNetworkOf takes_labels bytes deadline d)) }
    ensures refused { (said : SaidText) → result ≡ Err (Unread.Told said)
        → HasAskedFile (F.files shelf.old) (the_asked_file asked.entry) (λ bytes deadline. IsNetworkRefusal takes_labels bytes deadline said) }
    ensures once { AsksFileOnce asked.entry.file.now (F.asked shelf.old) (F.asked shelf.new) result }
    ensures names { F.may_ask shelf.new ≡ F.may_ask shelf.old }
    ensures files { F.files shelf.new ≡ F.files shelf.old }
    ensures later { F.faults shelf.old ≤ F.faults shelf.new }
    ensures fault { IsErrOf result Unread.ReadFault → Rose (F.faults shelf.old) (F.faults shelf.new) }
{
    if takes_labels {
        return open_lowered(alloc, asked, shelf);
    }
    open(alloc, asked, shelf)
}

/// Reads the document of a file, whose time-points may have labels. Fails where it is refused, where the file can't be read, and
/// for want of memory.
pub fn open_labelled<F: Shelf>(
    alloc: Global,
    asked: Asked<'_>,
    shelf: &mut F,
) -> Result<NamedLabelled, Unread>
    requires may_ask { IsTrue (F.may_ask shelf.old asked.file.now) }
    ensures opened { IfOk result (λ d. HasAskedFile (F.files shelf.old) (the_asked_file asked.entry) (λ bytes deadline. IsLabelledOf bytes deadline d)) }
    ensures refused { (said : SaidText) → result ≡ Err (Unread.Told said)
        → HasAskedFile (F.files shelf.old) (the_asked_file asked.entry) (λ bytes deadline. IsDocumentRefusal bytes deadline said) }
    ensures once { AsksFileOnce asked.entry.file.now (F.asked shelf.old) (F.asked shelf.new) result }
    ensures names { F.may_ask shelf.new ≡ F.may_ask shelf.old }
    ensures files { F.files shelf.new ≡ F.files shelf.old }
    ensures later { F.faults shelf.old ≤ F.faults shelf.new }
    ensures fault { IsErrOf result Unread.ReadFault → Rose (F.faults shelf.old) (F.faults shelf.new) }
{
    match take_all(alloc, shelf, asked.file, MAX_DOCUMENT) {
        Ok(bytes) => open_bytes(alloc, &bytes, asked.deadline),
        Err(TakeError::TooLong) => {
            let said = too_long(alloc)?;
            Err(Unread::Told(said))
        }
        Err(TakeError::ReadFault) => Err(Unread::ReadFault),
        Err(TakeError::Memory(error)) => Err(Unread::from(error)),
    }
}

// The document of these bytes.
fn open_bytes(alloc: Global, bytes: &[u8], deadline: Option<u32>) -> Result<NamedLabelled, Unread>
    requires few { length bytes.now ≤ MAX_DOCUMENT }
    ensures opened { IfOk result (IsLabelledOf bytes.now deadline) }
    ensures refused { (said : SaidText) → result ≡ Err (Unread.Told said) → IsDocumentRefusal bytes.now deadline said }
    ensures fault { IsErrOf result Unread.ReadFault → ⊥ }
{
    match read(alloc, bytes, deadline) {
        Ok((labelled, names)) => Ok(NamedLabelled { labelled, names }),
        Err(error) => {
            let said = refuse(alloc, error)?;
            Err(Unread::Told(said))
        }
    }
}

// The network of a labelled one, unless a time-point has a label.
fn take_plain(alloc: Global, labelled: Labelled, names: Names) -> Result<NamedNetwork, Unread>
    requires named { length names ≡ count (the_network labelled.base) }
    requires origin { (later : List (List ℕ)) × (names ≡ origin_name ∷ later) }
    ensures taken { IfOk result (IsTakenOf labelled names) }
    ensures refused { (said : SaidText) → result ≡ Err (Unread.Told said) → TellsLabels labelled said }
    ensures fault { IsErrOf result Unread.ReadFault → ⊥ }
{
    let is_labelled = labelled.is_labelled();
    let (network, _) = labelled.split();
    if is_labelled {
        let said = has_labels(alloc)?;
        return Err(Unread::Told(said));
    }
    Ok(NamedNetwork { network, names })
}

// What is said of a document with labels.
fn has_labels(alloc: Global) -> Result<Said, AllocError>
    ensures said { IfOk result (λ said. the_said said ≡ say Outcome.Document (codes "document labels")) }
{
    let text = b"document labels\n".to_vec(alloc)?;
    Ok(Said {
        outcome: Outcome::Document,
        text,
    })
}

// What is said of a file that is too long.
fn too_long(alloc: Global) -> Result<Said, AllocError>
    ensures said { IfOk result (λ said. the_said said ≡ say Outcome.Document (codes "document long")) }
{
    let text = b"document long\n".to_vec(alloc)?;
    Ok(Said {
        outcome: Outcome::Document,
        text,
    })
}
