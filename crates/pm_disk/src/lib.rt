//! The disk: what its calls answer, and what a crash at any moment may leave.
#![tactic(auto)]

mod call;
mod crash;
mod disk;
pub mod fuse;
mod law;
mod mark;
mod mem_disk;
mod moments;
mod noting;
mod ordered;
mod overwrite;
mod reading;

pub use call::DiskCall;
pub use disk::{Disk, DiskFailed};
pub use law::runs_are_joined;
pub use mark::{CallKind, Mark};
pub use mem_disk::MemDisk;
pub use moments::Moments;
pub use ordered::write_in_order;
