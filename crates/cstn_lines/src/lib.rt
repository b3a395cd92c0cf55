//! Lines of a live source, and what they say.
#![tactic(auto)]

mod edits;
mod follow;
mod hosts;
mod laws;
mod lines;
mod live;
mod places;

pub use edits::{EditLine, NameText, read_edit, read_name_text};
pub use follow::{FollowLine, read_follow};
pub use hosts::{HostLine, read_host};
pub use laws::{
    edit_lines_are_read_back, follow_lines_are_read_back, host_lines_have_one_text,
    joined_lines_are_the_bytes, live_lines_have_one_text,
};
pub use lines::{Lines, Next};
pub use live::{LiveLine, read_live};
