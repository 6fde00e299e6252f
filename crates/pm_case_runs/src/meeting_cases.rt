//! The case of the part `meeting`: the program is run in threads on a script whose workers have to meet. `docs/TESTS.md`
//! says what that shows.

mod case;
mod meeting;
mod running;

pub use case::take;
