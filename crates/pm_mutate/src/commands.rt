//! The commands of clients on the parts of a space: each changes what is seen of them by its row, and answers as the
//! row says.

pub(crate) mod birth;
mod bytes;
mod closing;
mod fields;
mod holding;
mod naming;
mod reading;

pub use birth::new;
pub use bytes::put;
pub use closing::close;
pub use fields::{clear, store, swap};
pub use holding::{copy, find, forget, load};
pub use naming::{root, unroot};
pub use reading::{data, id};
