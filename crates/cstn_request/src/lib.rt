//! A request: which words are one, what its files hold, and what is said of those that are refused.
#![tactic(auto)]

mod documents;
mod files;
mod reading;
mod refusals;
mod several;
mod texts;
mod words;

pub use documents::{open, open_labelled, open_lowered, open_network};
pub use files::HostFiles;
pub use reading::{NamedLabelled, NamedNetwork, Unread};
pub use refusals::{label_fault, network_fault, refusal};
pub use several::open_all;
pub use texts::{read_sentences, read_text};
pub use words::{
    Asked, DocumentVerb, LabelledVerb, NetworkVerb, Release, Request, TextVerb, parse,
};
