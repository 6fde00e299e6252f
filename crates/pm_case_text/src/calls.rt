//! Calls that are spelled in a line, one after another.

use crate::fault::Fault;
use std::alloc::Global;

/// How the calls of a `T` are spelled.
pub trait CallsOf<T> {
    /// Makes the call that the text spells, and adds what it answers.
    fn call(alloc: Global, called: &mut T, text: &str, out: &mut String) -> Result<(), Fault>;
}

// Adds a stroke before each answer but the first.
fn push_stroke(place: usize, out: &mut String) -> Result<(), Fault> {
    if place > 0 {
        out.push_str(" / ")?;
    }
    Ok(())
}

/// Makes the calls between ` / `, and adds a line: what they answer, with ` / ` between the answers.
pub fn push_calls<C: CallsOf<T>, T>(
    alloc: Global,
    called: &mut T,
    text: &str,
    out: &mut String,
) -> Result<(), Fault> {
    for (place, call) in text.split(" / ").enumerate() {
        push_stroke(place, out)?;
        C::call(alloc, called, call, out)?;
    }
    Ok(out.push('\n')?)
}
