//! Laws of counting: how many objects stand, by their identities and by cars.

mod laws;

pub use laws::{
    a_watch_is_not_cut_off, few_trains_stand, fewer_stand_than_identities_were_given,
    no_more_stand, old_objects_are_counted,
};
