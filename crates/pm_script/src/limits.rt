/// The most bytes of a line of a script, without its newline. A line that begins with `#` has no limit.
pub const LINE_BYTES: usize = 16_384;
