/// What was heard next.
#[derive(Clone, Copy, Debug, PartialEq, Eq)]
pub enum Next {
    /// A line of 1 to 16,384 bytes (`LINE_BYTES` of `pm_script`), the first no `#`, and its newline.
    Line,
    /// A newline alone, or a line of any length whose first byte is `#`.
    Silent,
    /// A line of more than 16,384 bytes, the first no `#`, and its newline. All of it is passed over.
    TooLong,
    /// At least one byte, and then the end: half a line, which is passed over whatever it is.
    Cut,
    /// The end, behind a newline or at once.
    End,
}
