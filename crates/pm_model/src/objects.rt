ghost use Rattle.std.specs.Prelude.{◌≡◌, ◌+◌, ◌<◌, ◌≤◌, ◌++◌, length, OnOk, OnErr, IfOk};
ghost use Rattle.std.specs.Option.{option_map};
ghost use Rattle.std.specs.FinMap as map;
ghost use Rattle.pm_model.specs.Heap.{with_field, with_bytes};
ghost use Rattle.pm_model.specs.Answer.{fresh};
ghost use Rattle.pm_model.specs.Copying.{held_ids};

use pm_types::{Bytes, Id, NoMemory};
use std::alloc::Global;
use std::collections::{BTreeMap, btree_map};
use std::marker::Model;

/// An object of the graph, seen as its fields and its bytes.
#[derive(Drop)]
pub struct Node {
    fields: Vec<Option<Id>>,
    bytes: Bytes,
}

impl Model for Node {
    ghost use Rattle.pm_model.specs.Heap.{Object, object_code};

    ghost Value = { Object };

    ghost coded = { object_code };

    ghost view = { λ it. record { fields = it.fields.items; bytes = it.bytes } };
}

impl Node {
    /// An object of these fields, each null or an identity, and these bytes.
    pub fn new(fields: Vec<Option<Id>>, bytes: Bytes) -> Node
        ensures fields { result.fields ≡ fields.items }
        ensures bytes { result.bytes ≡ bytes }
    {
        Node { fields, bytes }
    }

    /// An object of so many null fields and these bytes.
    pub fn fresh(alloc: Global, count: u32, bytes: &Bytes) -> Result<Node, NoMemory>
        ensures { IfOk result (λ node. node ≡ fresh count bytes.now) }
    {
        let fields = vec![in alloc; None; count as usize]?;
        let bytes = bytes.copy(alloc)?;
        Ok(Node { fields, bytes })
    }

    /// The fields, lent.
    pub fn fields(&self) -> &[Option<Id>]
        ensures { result.now ≡ self.now.fields }
    {
        self.fields.as_slice()
    }

    /// The bytes, lent.
    pub fn bytes(&self) -> &Bytes
        ensures { result.now ≡ self.now.bytes }
    {
        &self.bytes
    }

    /// The same object again.
    pub fn copy(&self, alloc: Global) -> Result<Node, NoMemory>
        ensures { IfOk result (λ copied. copied ≡ self.now) }
    {
        let fields = self.fields.as_slice().to_vec(alloc)?;
        let bytes = self.bytes.copy(alloc)?;
        Ok(Node { fields, bytes })
    }

    /// The same object again, but with this in the field.
    pub fn with_field(
        &self,
        alloc: Global,
        index: usize,
        value: Option<Id>,
    ) -> Result<Node, NoMemory>
        requires { index < length self.now.fields }
        ensures { IfOk result (λ node. node ≡ with_field self.now index value) }
    {
        let mut fields = self.fields.as_slice().to_vec(alloc)?;
        fields[index] = value;
        let bytes = self.bytes.copy(alloc)?;
        Ok(Node { fields, bytes })
    }

    /// The same object again, but with these bytes from this place on.
    pub fn with_bytes(&self, alloc: Global, at: usize, from: &[u8]) -> Result<Node, NoMemory>
        requires { at + length from.now ≤ length self.now.bytes }
        ensures { IfOk result (λ node. node ≡ with_bytes self.now at from.now) }
    {
        let fields = self.fields.as_slice().to_vec(alloc)?;
        let mut bytes = self.bytes.as_slice().to_vec(alloc)?;
        bytes[at..at + from.len()].copy_from_slice(from);
        Ok(Node {
            fields,
            bytes: Bytes::from_vec(bytes),
        })
    }

    /// Puts the identities that the fields hold behind those of the list, in the order of the fields.
    /// After want of memory some of them may have been put there.
    pub(crate) fn push_held(&self, pending: &mut Vec<Id>) -> Result<(), NoMemory>
        ensures { OnOk result (pending.new.items ≡ pending.old.items ++ held_ids self.now) }
    {
        for field in self.fields.as_slice() {
            if let Some(id) = field {
                pending.push(*id)?;
            }
        }
        Ok(())
    }
}

/// A heap, seen as a finite map from identities to objects.
#[derive(Drop)]
pub struct Objects {
    nodes: BTreeMap<Id, Node>,
}

impl Model for Objects {
    ghost use Rattle.std.specs.Ordering.{nat_cmp};
    ghost use Rattle.std.specs.FinMap as map;
    ghost use Rattle.std.specs.Coded.{coded_ℕ};
    ghost use Rattle.pm_model.specs.Heap.{Object, object_code};

    ghost Value = { map.FinMap nat_cmp Object };

    ghost coded = { map.code coded_ℕ object_code };

    ghost view = { λ it. map.from_entries it.nodes.entries };
}

impl Objects {
    /// A heap with no object.
    pub fn new(alloc: Global) -> Self
        ensures { result ≡ map.empty }
    {
        Objects {
            nodes: BTreeMap::new(alloc),
        }
    }

    /// The object at the identity.
    pub fn get(&self, id: Id) -> Option<&Node>
        ensures { option_map (λ node. node.now) result ≡ map.get self.now id }
    {
        self.nodes.get(&id)
    }

    /// Goes over the objects in ascending order of their identities.
    pub fn iter(&self) -> btree_map::Iter<'_, Id, Node>
        ensures { result ≡ map.entries self.now }
    {
        self.nodes.iter()
    }

    /// Puts the object at the identity.
    pub fn insert(&mut self, id: Id, node: Node) -> Result<(), NoMemory>
        ensures ok { OnOk result (self.new ≡ map.insert self.old id node) }
        ensures err { OnErr result (self.new ≡ self.old) }
    {
        self.nodes.insert(id, node)?;
        Ok(())
    }

    /// Takes the object at the identity away.
    pub fn remove(&mut self, id: Id)
        ensures { self.new ≡ map.remove self.old id }
    {
        self.nodes.remove(&id);
    }
}
