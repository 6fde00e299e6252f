//! What an engine works with, and what its commands, its events of the collector and its flush events do to that: the space,
//! the pages of its store on a disk, the saver between them, and the journal; and what was opened. What the space stands for
//! after the opening is not kept here.

mod answer;
mod begin;
mod collect;
mod course;
mod flush;
mod forget;
mod forgotten;
mod past;
mod save;
mod settle;
mod start;
mod watch;
mod works;

pub use begin::begin_works;
pub use course::Course;
pub use forgotten::Forgotten;
pub use past::Past;
pub use pm_reclaim::{WATCH_ROOM, tell_watches};
pub use pm_save::{SaveFault, Saver};
pub use start::Start;
pub use works::Works;
