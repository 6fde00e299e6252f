//! The words of the command line, read with `clap`. Which words are those of a command stands in `specs/Words.antt`.
#![tactic(auto)]

mod asked;
mod chosen;
mod command;
mod grammar;
mod laws;
mod memory;
mod place;
mod reader;
mod words;

pub use asked::Asked;
pub use chosen::Chosen;
pub use command::Command;
pub use laws::{words_choose_one_train, words_spell_one_command};
pub use place::read_place;
pub use words::read_words;
