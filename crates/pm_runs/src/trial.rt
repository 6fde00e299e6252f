//! A trial run: the lines of a script, one after another, over an engine, of whose replies a digest is written.

mod digest_sink;
mod line;
mod told;
mod trial;

pub use digest_sink::DigestSink;
pub use trial::run_trial;
