//! A peer that is heard one line at a time and told in turn, so that what is said has an order.
#![tactic(auto)]

mod asked;
mod buffer;
mod calls;
mod laws;
mod lines;
mod mem_peer;
mod next;
mod peer;
mod question;
mod said;
mod streams;

pub use asked::{Asked, read_asked};
pub use laws::a_line_asks_what_it_spells;
pub use lines::Lines;
pub use mem_peer::MemPeer;
pub use next::Next;
pub use peer::Peer;
pub use said::Said;
pub use streams::Streams;
