//! The cases of the part `containers`: calls of one container of the heap, and what they answer. `docs/TESTS.md` says how
//! a case is written.

mod anchors;
mod answers;
mod case;
mod choosers;
mod numbers;
mod nurseries;
mod queues;
mod registers;
mod roots;
mod sets;
mod spelling;
mod tables;
mod trains;

pub use case::take;
