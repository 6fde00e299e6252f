ghost use Rattle.std.specs.Prelude.{◌≡◌, IfOk};
ghost use Rattle.pm_types.specs.Fields.{same_fields, fields_equiv, fields_partly_equiv};

use crate::{Addr, Bytes, Id, NoMemory};
use std::alloc::Global;
use std::marker::Model;

/// The reference fields of an object, seen as a list: each is null or an address.
#[derive(Debug, Drop)]
pub struct Fields {
    items: Vec<Option<Addr>>,
}

impl Model for Fields {
    ghost use Rattle.std.specs.Prelude.{List, Option};
    ghost use Rattle.pm_types.specs.declared.address.Addr.{Addr};

    ghost Value = { List (Option Addr) };

    ghost view = { λ fields. fields.items.items };
}

impl Fields {
    /// These fields.
    pub fn from_vec(items: Vec<Option<Addr>>) -> Self
        ensures { result ≡ items.items }
    {
        Fields { items }
    }

    /// The fields, lent.
    pub fn as_slice(&self) -> &[Option<Addr>]
        ensures { result.now ≡ self.now }
    {
        self.items.as_slice()
    }

    /// The fields, given back.
    pub fn into_vec(self) -> Vec<Option<Addr>>
        ensures { result.items ≡ self }
    {
        self.items
    }

    /// The same fields again.
    pub fn copy(&self, alloc: Global) -> Result<Fields, NoMemory>
        ensures { IfOk result (λ copied. copied ≡ self.now) }
    {
        Ok(Fields {
            items: self.items.as_slice().to_vec(alloc)?,
        })
    }
}

impl PartialEq for Fields {
    ghost eq = { same_fields };

    ghost laws = { fields_partly_equiv };

    fn eq(&self, other: &Fields) -> bool {
        self.items.as_slice() == other.items.as_slice()
    }
}

impl Eq for Fields {
    ghost laws = { fields_equiv };
}

/// An object as a car holds it: its identity, its reference fields and its bytes.
#[derive(Debug, PartialEq, Eq, Drop)]
pub struct Object {
    pub id: Id,
    pub fields: Fields,
    pub bytes: Bytes,
}

impl Object {
    /// The same object again.
    pub fn copy(&self, alloc: Global) -> Result<Object, NoMemory>
        ensures { IfOk result (λ copied. copied ≡ self.now) }
    {
        let fields = self.fields.copy(alloc)?;
        let bytes = self.bytes.copy(alloc)?;
        Ok(Object {
            id: self.id,
            fields,
            bytes,
        })
    }
}

/// A slot of a car: an object, or the address to which its object went.
#[derive(Debug, PartialEq, Eq, Drop)]
pub enum Slot {
    Live(Object),
    Moved(Addr),
}

impl Slot {
    /// The same slot again.
    pub fn copy(&self, alloc: Global) -> Result<Slot, NoMemory>
        ensures { IfOk result (λ copied. copied ≡ self.now) }
    {
        match self {
            Slot::Live(object) => {
                let object = object.copy(alloc)?;
                Ok(Slot::Live(object))
            }
            Slot::Moved(to) => Ok(Slot::Moved(*to)),
        }
    }
}
