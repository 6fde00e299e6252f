//! Streams of bytes: sources that bytes are taken from, sinks that they are put into, each with a
//! count of the calls that failed.
#![tactic(auto)]

mod calls;
mod failed;
mod in_stream;
mod mem_sink;
mod mem_source;
mod out_stream;
mod reading;
mod sink;
mod source;
mod std_sink;
mod std_source;

pub use failed::Failed;
pub use in_stream::InStream;
pub use mem_sink::MemSink;
pub use mem_source::MemSource;
pub use out_stream::OutStream;
pub use reading::{ReadAll, pieces_have_their_size, read_all};
pub use sink::Sink;
pub use source::Source;
pub use std_sink::StdSink;
pub use std_source::StdSource;
