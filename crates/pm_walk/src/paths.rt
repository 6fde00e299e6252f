//! Paths: why an object is kept. A path leads from a name, field by field, to the object.

mod checking;
mod finding;
mod laws;
mod path;
mod text;

pub use checking::check_path;
pub use finding::find_path;
pub use laws::a_path_is_one_of_the_graph;
pub use path::{Path, PathStep};
pub use text::path_text;
