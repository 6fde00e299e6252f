//! Laws of sweeping: which objects end, and when a car goes.

mod laws;

pub use laws::a_sweep_ends_one_object;
