ghost use Rattle.std.specs.Prelude.{◌≡◌, ◌+◌, ◌*◌, ◌<◌, ◌^◌};

use crate::{FIELD_BYTES, OBJECT_HEAD_BYTES};

/// The room in bytes that an object of so many fields and bytes takes in its car:
/// a head of 17 bytes, 12 bytes a field, and the bytes.
pub fn room(fields: u32, bytes: u32) -> u32
    requires { OBJECT_HEAD_BYTES + FIELD_BYTES * fields + bytes < 2 ^ 32 }
    ensures { result ≡ OBJECT_HEAD_BYTES + FIELD_BYTES * fields + bytes }
{
    OBJECT_HEAD_BYTES + FIELD_BYTES * fields + bytes
}
