//! What a table answers where memory ran out.

ghost use Rattle.std.specs.Prelude.{◌≡◌, [], ◌∷◌, Some};

use atomic_table::Refused;
use std::alloc::{AllocError, Global};

/// The value that did not come into a table, and the evidence that there was no memory for it: a table hands its slots
/// back where an allocation was refused, and nothing else.
pub(crate) fn out_of_memory<B: Drop>(refused: Refused<Option<B>, Global>) -> (B, AllocError)
    requires one { (b : B) × (refused.slots.items ≡ Some b ∷ []) }
    ensures value { refused.slots.items ≡ Some result.0 ∷ [] }
{
    let Refused { mut slots } = refused;
    let Some(Some(value)) = slots.pop() else {
        unreachable!()
    };
    (value, AllocError)
}
