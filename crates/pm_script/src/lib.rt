//! The grammar of scripts and the texts of replies: bytes in, lines of what clients ask out; replies in, bytes out.
//! Which bytes are a script, and of which lines, stands in `specs/Script.antt`; why bytes are none in `specs/Bad.antt`.
#![tactic(auto)]

mod body;
mod command;
mod fault;
mod hexadecimal;
mod laws;
mod limits;
mod line;
mod lines;
pub mod parted;
mod parts;
mod reply;
mod said;
mod script;
mod value;
mod verb;
mod young;

pub use body::read_line;
pub use fault::{Cause, LineFault, ScriptFault};
pub use laws::{
    a_script_has_no_fault, a_script_has_one_reading, a_young_script_has_no_fault,
    a_young_script_has_one_reading, limits_of_scripts, spelled_lines_are_read_again,
    spelled_young_lines_are_read_again, what_data_prints_is_taken,
};
pub use limits::LINE_BYTES;
pub use line::{Line, YoungLine};
pub use parts::{cut, take_part, take_word};
pub use reply::{REPLY_BYTES, journal_text, reply_into, reply_text};
pub use script::{Script, read_script};
pub use value::{is_numeral, number_of, read_hex, register_of};
pub use young::{YoungScript, read_young};
