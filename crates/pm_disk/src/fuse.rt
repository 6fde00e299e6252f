//! A disk with a fuse, over any other disk: it passes so many calls on, and fails each one from then on.

mod fuse_disk;
mod missed;
mod misses;

pub use fuse_disk::FuseDisk;
pub use missed::Missed;
pub use misses::Misses;
