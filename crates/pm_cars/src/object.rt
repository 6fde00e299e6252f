ghost use Rattle.std.specs.Prelude.{◌≡◌, ◌+◌, ◌<◌, ◌≤◌, length};
ghost use Rattle.pm_cars.specs.Cars.{object_room, with_field, with_bytes};

use pm_types::{Addr, Bytes, CAR_BYTES, Fields, Object, room};

/// The room of the object, in bytes.
pub(crate) fn room_of(object: &Object) -> u32
    requires { object_room object.now ≤ CAR_BYTES }
    ensures { result ≡ object_room object.now }
{
    let fields = object.fields.as_slice().len() as u32;
    let bytes = object.bytes.as_slice().len() as u32;
    room(fields, bytes)
}

/// The object with this value in the field.
pub(crate) fn set_field(object: Object, index: usize, value: Option<Addr>) -> Object
    requires { index < length object.fields }
    ensures { result ≡ with_field object index value }
{
    let Object { id, fields, bytes } = object;
    let mut fields = fields.into_vec();
    fields[index] = value;
    Object {
        id,
        fields: Fields::from_vec(fields),
        bytes,
    }
}

/// The object with these bytes from this place on.
pub(crate) fn set_bytes(object: Object, at: usize, from: &[u8]) -> Object
    requires { at + length from.now ≤ length object.bytes }
    ensures { result ≡ with_bytes object at from.now }
{
    let Object { id, fields, bytes } = object;
    let mut bytes = bytes.into_vec();
    bytes[at..at + from.len()].copy_from_slice(from);
    Object {
        id,
        fields,
        bytes: Bytes::from_vec(bytes),
    }
}
