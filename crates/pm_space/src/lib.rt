//! The space of objects: its cars with their remembered sets and queues, its trains, names and registers,
//! and the write barrier.
#![tactic(auto)]

mod barrier;
mod counting;
mod held;
mod links;
mod opening;
mod parts;
mod placing;
mod readying;
mod room;
mod setting;
mod sources;
mod space;
mod spreading;

pub use barrier::{is_aside, tell_all};
pub use held::Held;
pub use links::{LinkTable, Links};
pub use opening::{open_car, open_car_in_new_train};
pub use parts::Parts;
pub use placing::{put_into, room_of, tail_for};
pub use readying::{make_ready, make_room_for_birth};
pub use room::{count_car, make_room, make_room_for_each};
pub use setting::set;
pub use sources::{object_at, resolve};
pub use space::Space;
pub use spreading::spread;
