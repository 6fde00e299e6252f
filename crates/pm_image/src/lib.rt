//! The pages of cars and catalogs, and what the bytes of a store stand for.
#![tactic(auto)]

mod car;
mod car_law;
mod car_reading;
mod car_writing;
mod catalog;
mod catalog_kind;
mod catalog_law;
mod catalog_reading;
mod catalog_writing;
mod fault;
mod law;
mod met;
mod number_set;
mod rule_law;
mod settled;
mod steps;

pub use car::{CarImage, RECORDS_AT, SlotList};
pub use car_law::{car_pages_are_read_again, limits_of_cars_may_grow};
pub use car_reading::{read_car, read_car_in};
pub use car_writing::{write_car, write_slots};
pub use catalog::{CatEntry, CatalogPage, EntryList};
pub use catalog_kind::{CAR_ENTRY_BYTES, ENTRIES, ROOT_ENTRY_BYTES};
pub use catalog_law::{catalog_pages_are_read_again, limits_of_catalogs};
pub use catalog_reading::{read_catalog, read_catalog_in};
pub use catalog_writing::write_catalog;
pub use fault::PageFault;
pub use law::{
    a_first_checkpoint_is_found, a_new_store_is_empty, bytes_stand_for_one_copy,
    other_pages_do_not_matter,
};
pub use met::Met;
pub use number_set::NumberSet;
pub use rule_law::{addresses_lead_to_objects, opening_answers_its_rules};
pub use settled::{KeptPage, Settled};
