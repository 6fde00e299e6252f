ghost use Rattle.std.specs.Prelude.{◌≡◌, ◌+◌, ◌<◌, ◌≤◌, length, IfOk};
ghost use Rattle.pm_model.specs.Answer.{fresh};
ghost use Rattle.pm_model.specs.Heap.{with_bytes, with_field};

use pm_types::{Id, NoMemory};
use std::alloc::Global;
use std::marker::Model;

/// A young object, seen as its fields and its bytes.
#[derive(Drop)]
pub struct Young {
    fields: Vec<Option<Id>>,
    bytes: Vec<u8>,
}

impl Model for Young {
    ghost use Rattle.pm_model.specs.Heap.{Object, object_code};

    ghost Value = { Object };

    ghost coded = { object_code };

    ghost view = { λ it. record { fields = it.fields.items; bytes = it.bytes.items } };
}

impl Young {
    /// An object of so many null fields and these bytes.
    pub fn new(alloc: Global, count: u32, bytes: &[u8]) -> Result<Young, NoMemory>
        ensures { IfOk result (λ young. young ≡ fresh count bytes.now) }
    {
        let fields = vec![in alloc; None; count as usize]?;
        let bytes = bytes.to_vec(alloc)?;
        Ok(Young { fields, bytes })
    }

    /// The fields, each null or an identity, lent.
    pub fn fields(&self) -> &[Option<Id>]
        ensures { result.now ≡ self.now.fields }
    {
        self.fields.as_slice()
    }

    /// The bytes, lent.
    pub fn bytes(&self) -> &[u8]
        ensures { result.now ≡ self.now.bytes }
    {
        self.bytes.as_slice()
    }

    // Puts this into the field, in place.
    pub(crate) fn set_field(&mut self, index: usize, value: Option<Id>)
        requires { index < length self.old.fields }
        ensures { self.new ≡ with_field self.old index value }
    {
        self.fields[index] = value;
    }

    // Puts these bytes at this place and behind it, in place.
    pub(crate) fn set_bytes(&mut self, at: usize, from: &[u8])
        requires { at + length from.now ≤ length self.old.bytes }
        ensures { self.new ≡ with_bytes self.old at from.now }
    {
        self.bytes[at..at + from.len()].copy_from_slice(from);
    }
}
