// What is read of files, and why nothing is.
ghost use Rattle.std.specs.Prelude.{◌≡◌};

use cstn_lift::Labelled;
use cstn_net::Network;
use cstn_reply::Said;
use cstn_text::Names;
use std::alloc::AllocError;

/// A network, and the names of its time-points.
#[derive(Drop)]
pub struct NamedNetwork {
    pub network: Network,
    pub names: Names,
}

/// A labelled network, and the names of its time-points.
#[derive(Drop)]
pub struct NamedLabelled {
    pub labelled: Labelled,
    pub names: Names,
}

/// Why nothing is read of a file.
#[derive(Drop)]
pub enum Unread {
    /// What it holds is refused, and this is said of it.
    Told(Said),
    /// It couldn't be read.
    ReadFault,
    /// Memory was refused.
    Memory,
}

impl From<AllocError> for Unread {
    ghost use Rattle.cstn_request.specs.declared.reading.Unread.TheVariants.{Memory};

    ghost from_gives = { λ _ e. e ≡ Memory };

    fn from(_: AllocError) -> Unread {
        Unread::Memory
    }
}
