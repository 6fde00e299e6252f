//! Laws of walks: that the addresses of a space lead through its copy.

mod laws;

pub use laws::a_copy_is_walked_by_addresses;
