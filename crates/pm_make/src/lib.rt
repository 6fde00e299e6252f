//! The generator of scripts: from a seed and a number of turns the text of a script, or its lines, always the same.
//! Which script it is stands in `specs/Made.antt`, and what is drawn for it in `specs/Drawing.antt`.
#![tactic(auto)]

mod drawing;
mod laws;
mod lines;
mod making;
mod script_lines;

pub use drawing::Turn;
pub use laws::{a_seed_gives_a_script, one_turn_from_seed_one, the_first_draws_from_seed_one};
pub use making::make;
pub use script_lines::make_lines;
