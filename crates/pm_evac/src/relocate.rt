//! What the collector's events change on the parts of the space: an object moves, a source is fixed, an object is swept, a
//! car goes. Which of these comes next is not asked here.

mod applying;
mod fixing;
mod freeing;
mod moving;
mod placing;
mod rooms;
mod sweeping;
mod telling;

pub use applying::apply;
pub use fixing::fix;
pub use freeing::{finish, free};
pub use moving::relocate;
pub use sweeping::sweep;
