//! The trains of the collector: which trains stand, which cars each has, and how many objects were
//! born in the open one.
#![tactic(auto)]

mod laws;
mod line;
mod place;
mod trains;

pub use laws::{
    a_car_is_found_where_it_stands, a_new_train_is_the_youngest, a_removed_car_was_the_first,
    an_appended_car_is_the_last, limits_of_trains, the_oldest_is_the_least_with_a_car,
    the_youngest_is_the_greatest,
};
pub use trains::{BIRTHS, MOST_TRAINS, Trains};
