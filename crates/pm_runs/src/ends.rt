//! How a command ends, and what tells it. `Detail` says why it ended, `Ended` has what it leaves, and here are the lines
//! that go to standard error. Beside them stands what a command does with its streams: the source is read as a script, or
//! one text is written.

mod ended;
mod reading;
mod texting;
mod texts;

pub use ended::{Alone, Detail, Ended, end_unopened, end_with, ended_by, not_opened};
pub use pm_serial::{Engine, Stop, run_lines};
pub use reading::{read_source, read_young_source};
pub use texting::write_text;
pub use texts::{detail_text, line_of, shipped_line};
