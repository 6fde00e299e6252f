//! Laws of packings: the objects of a dump, filled into cars, are accepted by each rule of opening, and are the dump's
//! copy.

mod laws;

pub use laws::{
    a_packed_dump_is_accepted, a_packed_dump_is_its_copy, addresses_lead_to_packed_objects,
    objects_are_filled_in_one_way,
};
