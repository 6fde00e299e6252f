//! The collector's events as calls on the space, the one call that makes whichever comes next, and watches.
#![tactic(auto)]

mod collecting;
mod on_space;
mod watch;

pub use collecting::{collect_one, decide, select};
pub use on_space::{
    an_event_that_was_made_keeps_all, apply_one, finish_car, fix_one, free_car, make_next,
    move_one, sweep_one,
};
pub use watch::{WATCH_ROOM, set_watch, tell_watch, tell_watches};
