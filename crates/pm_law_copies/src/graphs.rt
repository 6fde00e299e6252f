//! Laws of the graph behind a header: what its pages spell, and where its addresses stand.

mod laws;

pub use laws::{a_graph_is_found_where_its_pages_spell_it, a_reported_address_stands_at_its_place};
