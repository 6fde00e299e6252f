//! The whole program but for its outermost shell: it reads the words, does what the command asks for, and tells how it
//! ended. It makes a store; runs a script over a store's copy, in the order of its lines or in threads, and writes the
//! replies; writes the report of a store, its dump, or a path in it; makes a store of a dump; writes a script that is made
//! from a seed; runs that script and writes the digest of the replies; or brings a standby to the last settled copy of a
//! store.
#![tactic(auto)]

mod laws;
mod made;
mod making;
mod restoring;
mod shell;
mod standby;
mod telling;
mod top;

pub use laws::{
    a_run_stays_closed, a_standby_that_was_made_has_a_settled_copy, ends_lie_between_stages,
};
pub use pm_runs::{Alone, Detail, Ended, detail_text};
pub use shell::{program, tell};
pub use top::pmos;
