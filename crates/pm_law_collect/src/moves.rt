//! Laws of objects that move.

mod laws;

pub use laws::an_object_moves_to_one_place;
