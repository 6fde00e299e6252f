//! Laws of commands: on a space each answers what the world's answer is, and the space after it stands for the
//! world after it.
#![tactic(auto)]

mod laws;
pub mod row;

pub use laws::{
    a_command_is_answered_as_by_the_world, a_command_keeps_the_heap_law,
    a_refused_command_leaves_the_space, every_command_but_new_leaves_objects_where_they_stand,
    new_adds_one_object_in_the_open_train,
};
