//! Walks: what the names of a space reach, found from address to address, and the text of its dump.
#![tactic(auto)]

pub mod paths;
mod text;
mod walk;
mod words;

pub use text::{dump_text, identity, object_text, root_text};
pub use walk::{Found, Walk, walk_until};
pub use words::{append, append_number, append_word};
