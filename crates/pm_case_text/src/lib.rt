//! What the cases of all parts share: how the words and the bytes of a line are spelled, lines that are written out and
//! taken apart, calls one after another, what is printed, and why a step was not done.
#![tactic(auto)]

mod bytes;
mod calls;
mod fault;
mod lines;
mod printed;
mod repeated;
mod texts;
pub mod told;
mod words;

pub use bytes::{part, patch, put};
pub use calls::{CallsOf, push_calls};
pub use fault::{Fault, push_refused, refuse};
pub use lines::{push_lines, script_text};
pub use printed::{
    push_bytes, push_case, push_filled, push_number, push_said, push_text, push_value,
    push_value_line, push_words,
};
pub use repeated::{Count, counted, written_out};
pub use texts::Texts;
pub use words::{
    first_word, is_silent, number, numbered, place, placed, raw_bytes, small, two_numbers,
    word_and_number,
};
