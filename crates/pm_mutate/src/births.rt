//! Where a new object is put: the open train's last car, a new car, or a new train; and how it is born there.

mod bearing;
mod placing;

pub use bearing::{be_born, fresh};
pub use placing::place_for;
