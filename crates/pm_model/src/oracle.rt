ghost use Rattle.std.specs.Prelude.{◌≡◌, ◌<◌, OnOk, OnErr, IfOk};
ghost use Rattle.std.specs.FinMap.{get};
ghost use Rattle.pm_types.specs.declared.limits.TheConstants.{CLIENTS};
ghost use Rattle.pm_types.specs.declared.reply.Reply.TheVariants.{Done};
ghost use Rattle.pm_model.specs.Heap.{field_of};
ghost use Rattle.pm_model.specs.World.{empty_world, held, closing};
ghost use Rattle.pm_model.specs.Answer.{answer, answer_new, answer_load, answer_store, answer_clear, writing, answer_data, answer_put, putting, answer_copy, answer_id, answer_drop, answer_root, answer_unroot, answer_find, answer_save, answer_settle, answer_watch, answer_swap, answer_unsave};

use crate::graph::Graph;
use crate::objects::{Node, Objects};
use crate::registers::Registers;
use crate::roots::Roots;
use pm_types::{
    Bytes, Cmd, FIELDS, Id, LAST_COPY, LAST_ID, Name, NoMemory, OBJECT_BYTES, ROOTS, Reg, Reply,
    WATCHES,
};
use std::alloc::Global;
use std::marker::Model;

/// The world as a plain slow program: ordered maps, and each command as it is defined.
#[derive(Drop)]
pub struct Oracle {
    objects: Objects,
    roots: Roots,
    registers: Registers,
    // The next identity, 1 to 4,294,967,296.
    next: u64,
    // The number of the copy that settled last, 0 where none did, and that copy.
    settled: u32,
    settled_copy: Graph,
    // The number of the copy in progress, and that copy.
    saving: Option<(u32, Graph)>,
    // How many watches are set.
    watches: u32,
}

impl Model for Oracle {
    ghost use Rattle.pm_model.specs.World.{World, world_code};
    ghost use Rattle.pm_model.specs.Oracles.{world_of, IsSound};

    ghost Value = { World };

    ghost coded = { world_code };

    ghost view = { λ it. world_of it.objects it.roots it.registers it.next it.settled it.settled_copy it.saving it.watches };

    ghost invariant = { λ it. IsSound it.objects it.next };
}

impl Oracle {
    /// The world in which nothing was ever made.
    pub fn new(alloc: Global) -> Oracle
        ensures { result ≡ empty_world }
    {
        Oracle {
            objects: Objects::new(alloc),
            roots: Roots::new(alloc),
            registers: Registers::new(alloc),
            next: 1,
            settled: 0,
            settled_copy: Graph::empty(alloc),
            saving: None,
            watches: 0,
        }
    }

    /// Answers a client's command. After want of memory the world is as it was.
    #[tactic(auto, unfolding(crate::specs::Answer::answer))]
    pub fn answer(&mut self, alloc: Global, client: u32, cmd: &Cmd) -> Result<Reply, NoMemory>
        requires { client < CLIENTS }
        ensures reply { IfOk result (λ reply. reply ≡ (answer self.old client cmd.now).0) }
        ensures world { OnOk result (self.new ≡ (answer self.old client cmd.now).1) }
        ensures err { OnErr result (self.new ≡ self.old) }
    {
        match cmd {
            Cmd::New { reg, count, bytes } => self.make(alloc, client, *reg, *count, bytes),
            Cmd::Load { to, reg, index } => self.load(client, *to, *reg, *index),
            Cmd::Store { reg, index, value } => self.store(alloc, client, *reg, *index, *value),
            Cmd::Clear { reg, index } => self.clear(alloc, client, *reg, *index),
            Cmd::Show { reg } => self.show(alloc, client, *reg),
            Cmd::Put { reg, at, bytes } => self.put(alloc, client, *reg, *at, bytes),
            Cmd::Copy { to, reg } => self.copy(client, *to, *reg),
            Cmd::IdOf { reg } => Ok(self.tell(client, *reg)),
            Cmd::Forget { reg } => Ok(self.forget(client, *reg)),
            Cmd::Bind { name, reg } => self.bind(alloc, client, name, *reg),
            Cmd::Unbind { name } => Ok(self.unbind(name)),
            Cmd::Find { to, name } => self.find(client, *to, name),
            Cmd::Save => self.save(alloc),
            Cmd::Settle => Ok(self.settle()),
            Cmd::Watch => Ok(self.watch()),
            Cmd::Close => Ok(self.close(client)),
            Cmd::Swap {
                reg,
                index,
                old,
                value,
            } => self.swap(alloc, client, *reg, *index, *old, *value),
            Cmd::Unsave => Ok(self.unsave()),
        }
    }

    fn make(
        &mut self,
        alloc: Global,
        client: u32,
        reg: Reg,
        count: u32,
        bytes: &Bytes,
    ) -> Result<Reply, NoMemory>
        ensures reply { IfOk result (λ reply. reply ≡ (answer_new self.old client reg count bytes.now).0) }
        ensures world { OnOk result (self.new ≡ (answer_new self.old client reg count bytes.now).1) }
        ensures err { OnErr result (self.new ≡ self.old) }
    {
        if count > FIELDS || bytes.as_slice().len() > OBJECT_BYTES {
            return Ok(Reply::TooLarge);
        }
        if self.next > u64::from(LAST_ID) {
            return Ok(Reply::IdsSpent);
        }
        let id = self.next as Id;
        let node = Node::fresh(alloc, count, bytes)?;
        self.objects.insert(id, node)?;
        if let Err(error) = self.registers.set(client, reg.number(), id) {
            self.objects.remove(id);
            return Err(error);
        }
        self.next += 1;
        Ok(Reply::Ident(id))
    }

    // What a field of an object holds, where there are such an object and field.
    fn field(&self, id: Id, index: u32) -> Option<Option<Id>>
        ensures { result ≡ field_of (get self.now.heap id) index }
    {
        match self.objects.get(id) {
            Some(node) => node.fields().get(index as usize).copied(),
            None => None,
        }
    }

    fn load(&mut self, client: u32, to: Reg, reg: Reg, index: u32) -> Result<Reply, NoMemory>
        ensures reply { IfOk result (λ reply. reply ≡ (answer_load self.old client to index
            (held self.old client reg)).0) }
        ensures world { OnOk result (self.new ≡ (answer_load self.old client to index (held self.old client reg)).1) }
        ensures err { OnErr result (self.new ≡ self.old) }
    {
        let Some(id) = self.registers.get(client, reg.number()) else {
            return Ok(Reply::NoHandle);
        };
        match self.field(id, index) {
            None => Ok(Reply::NoField),
            Some(None) => {
                self.registers.forget(client, to.number());
                Ok(Reply::Null)
            }
            Some(Some(found)) => {
                self.registers.set(client, to.number(), found)?;
                Ok(Reply::Ident(found))
            }
        }
    }

    // Puts this into a field of an object, where there are such an object and field.
    fn write(
        &mut self,
        alloc: Global,
        id: Id,
        index: u32,
        value: Option<Id>,
    ) -> Result<Reply, NoMemory>
        ensures reply { IfOk result (λ reply. reply ≡ (writing self.old id index value (get self.old.heap id)).0) }
        ensures world { OnOk result (self.new ≡ (writing self.old id index value (get self.old.heap id)).1) }
        ensures err { OnErr result (self.new ≡ self.old) }
    {
        let Some(node) = self.objects.get(id) else {
            return Ok(Reply::NoField);
        };
        if index as usize >= node.fields().len() {
            return Ok(Reply::NoField);
        }
        let node = node.with_field(alloc, index as usize, value)?;
        self.objects.insert(id, node)?;
        Ok(Reply::Done)
    }

    fn store(
        &mut self,
        alloc: Global,
        client: u32,
        reg: Reg,
        index: u32,
        value: Reg,
    ) -> Result<Reply, NoMemory>
        ensures reply { IfOk result (λ reply. reply ≡ (answer_store self.old index (held self.old client reg)
            (held self.old client value)).0) }
        ensures world { OnOk result (self.new ≡ (answer_store self.old index (held self.old client reg)
            (held self.old client value)).1) }
        ensures err { OnErr result (self.new ≡ self.old) }
    {
        let Some(id) = self.registers.get(client, reg.number()) else {
            return Ok(Reply::NoHandle);
        };
        let Some(value) = self.registers.get(client, value.number()) else {
            return Ok(Reply::NoHandle);
        };
        self.write(alloc, id, index, Some(value))
    }

    fn clear(&mut self, alloc: Global, client: u32, reg: Reg, index: u32) -> Result<Reply, NoMemory>
        ensures reply { IfOk result (λ reply. reply ≡ (answer_clear self.old index (held self.old client reg)).0) }
        ensures world { OnOk result (self.new ≡ (answer_clear self.old index (held self.old client reg)).1) }
        ensures err { OnErr result (self.new ≡ self.old) }
    {
        let Some(id) = self.registers.get(client, reg.number()) else {
            return Ok(Reply::NoHandle);
        };
        self.write(alloc, id, index, None)
    }

    fn show(&self, alloc: Global, client: u32, reg: Reg) -> Result<Reply, NoMemory>
        ensures { IfOk result (λ reply. (reply, self.now) ≡ answer_data self.now (held self.now client reg)) }
    {
        let Some(id) = self.registers.get(client, reg.number()) else {
            return Ok(Reply::NoHandle);
        };
        let bytes = match self.objects.get(id) {
            Some(node) => node.bytes().copy(alloc)?,
            None => Bytes::from_vec(Vec::new(alloc)),
        };
        Ok(Reply::Shown(bytes))
    }

    // Puts bytes into an object from a place on, where it has so many from there on.
    fn overwrite(
        &mut self,
        alloc: Global,
        id: Id,
        at: u32,
        bytes: &Bytes,
    ) -> Result<Reply, NoMemory>
        ensures reply { IfOk result (λ reply. reply ≡ (putting self.old id at bytes.now (get self.old.heap id)).0) }
        ensures world { OnOk result (self.new ≡ (putting self.old id at bytes.now (get self.old.heap id)).1) }
        ensures err { OnErr result (self.new ≡ self.old) }
    {
        let Some(node) = self.objects.get(id) else {
            return Ok(Reply::OutOfRange);
        };
        let bytes = bytes.as_slice();
        if at as usize + bytes.len() > node.bytes().as_slice().len() {
            return Ok(Reply::OutOfRange);
        }
        let node = node.with_bytes(alloc, at as usize, bytes)?;
        self.objects.insert(id, node)?;
        Ok(Reply::Done)
    }

    fn put(
        &mut self,
        alloc: Global,
        client: u32,
        reg: Reg,
        at: u32,
        bytes: &Bytes,
    ) -> Result<Reply, NoMemory>
        ensures reply { IfOk result (λ reply. reply ≡ (answer_put self.old at bytes.now (held self.old client reg)).0) }
        ensures world { OnOk result (self.new ≡ (answer_put self.old at bytes.now (held self.old client reg)).1) }
        ensures err { OnErr result (self.new ≡ self.old) }
    {
        let Some(id) = self.registers.get(client, reg.number()) else {
            return Ok(Reply::NoHandle);
        };
        self.overwrite(alloc, id, at, bytes)
    }

    fn copy(&mut self, client: u32, to: Reg, reg: Reg) -> Result<Reply, NoMemory>
        ensures reply { IfOk result (λ reply. reply ≡ (answer_copy self.old client to (held self.old client reg)).0) }
        ensures world { OnOk result (self.new ≡ (answer_copy self.old client to (held self.old client reg)).1) }
        ensures err { OnErr result (self.new ≡ self.old) }
    {
        let Some(id) = self.registers.get(client, reg.number()) else {
            return Ok(Reply::NoHandle);
        };
        self.registers.set(client, to.number(), id)?;
        Ok(Reply::Ident(id))
    }

    fn tell(&self, client: u32, reg: Reg) -> Reply
        ensures { (result, self.now) ≡ answer_id self.now (held self.now client reg) }
    {
        match self.registers.get(client, reg.number()) {
            Some(id) => Reply::Ident(id),
            None => Reply::NoHandle,
        }
    }

    fn forget(&mut self, client: u32, reg: Reg) -> Reply
        ensures reply { result ≡ (answer_drop self.old client reg (held self.old client reg)).0 }
        ensures world { self.new ≡ (answer_drop self.old client reg (held self.old client reg)).1 }
    {
        if self.registers.get(client, reg.number()).is_none() {
            return Reply::NoHandle;
        }
        self.registers.forget(client, reg.number());
        Reply::Done
    }

    fn bind(&mut self, alloc: Global, client: u32, name: &Name, reg: Reg) -> Result<Reply, NoMemory>
        ensures reply { IfOk result (λ reply. reply ≡ (answer_root self.old name.now (held self.old client reg)).0) }
        ensures world { OnOk result (self.new ≡ (answer_root self.old name.now (held self.old client reg)).1) }
        ensures err { OnErr result (self.new ≡ self.old) }
    {
        let Some(id) = self.registers.get(client, reg.number()) else {
            return Ok(Reply::NoHandle);
        };
        if self.roots.get(name).is_none() && self.roots.len() >= ROOTS {
            return Ok(Reply::TooManyRoots);
        }
        let name = name.copy(alloc)?;
        self.roots.bind(name, id)?;
        Ok(Reply::Done)
    }

    fn unbind(&mut self, name: &Name) -> Reply
        ensures reply { result ≡ (answer_unroot self.old name.now (get self.old.roots name.now)).0 }
        ensures world { self.new ≡ (answer_unroot self.old name.now (get self.old.roots name.now)).1 }
    {
        if self.roots.get(name).is_none() {
            return Reply::NoRoot;
        }
        self.roots.unbind(name);
        Reply::Done
    }

    fn find(&mut self, client: u32, to: Reg, name: &Name) -> Result<Reply, NoMemory>
        ensures reply { IfOk result (λ reply. reply ≡ (answer_find self.old client to
            (get self.old.roots name.now)).0) }
        ensures world { OnOk result (self.new ≡ (answer_find self.old client to (get self.old.roots name.now)).1) }
        ensures err { OnErr result (self.new ≡ self.old) }
    {
        let Some(id) = self.roots.get(name) else {
            return Ok(Reply::NoRoot);
        };
        self.registers.set(client, to.number(), id)?;
        Ok(Reply::Ident(id))
    }

    fn save(&mut self, alloc: Global) -> Result<Reply, NoMemory>
        ensures reply { IfOk result (λ reply. reply ≡ (answer_save self.old self.old.saving).0) }
        ensures world { OnOk result (self.new ≡ (answer_save self.old self.old.saving).1) }
        ensures err { OnErr result (self.new ≡ self.old) }
    {
        if let Some((number, _)) = &self.saving {
            return Ok(Reply::Busy(*number));
        }
        if self.settled >= LAST_COPY {
            return Ok(Reply::SavesSpent);
        }
        let number = self.settled + 1;
        let copy = Graph::copied(alloc, &self.objects, &self.roots, self.next)?;
        self.saving = Some((number, copy));
        Ok(Reply::Begun(number))
    }

    fn settle(&mut self) -> Reply
        ensures reply { result ≡ (answer_settle self.old self.old.saving).0 }
        ensures world { self.new ≡ (answer_settle self.old self.old.saving).1 }
    {
        let Some((number, copy)) = self.saving.take() else {
            return Reply::Idle;
        };
        self.settled = number;
        self.settled_copy = copy;
        Reply::Saved(number)
    }

    fn unsave(&mut self) -> Reply
        ensures reply { result ≡ (answer_unsave self.old self.old.saving).0 }
        ensures world { self.new ≡ (answer_unsave self.old self.old.saving).1 }
    {
        let Some((number, _copy)) = self.saving.take() else {
            return Reply::Idle;
        };
        Reply::Dropped(number)
    }

    fn watch(&mut self) -> Reply
        ensures reply { result ≡ (answer_watch self.old).0 }
        ensures world { self.new ≡ (answer_watch self.old).1 }
    {
        if self.watches >= WATCHES {
            return Reply::TooManyWatches;
        }
        self.watches += 1;
        Reply::Watching(self.watches)
    }

    fn close(&mut self, client: u32) -> Reply
        ensures reply { result ≡ Done }
        ensures world { self.new ≡ closing self.old client }
    {
        self.registers.close(client);
        Reply::Done
    }

    fn swap(
        &mut self,
        alloc: Global,
        client: u32,
        reg: Reg,
        index: u32,
        old: Reg,
        value: Reg,
    ) -> Result<Reply, NoMemory>
        ensures reply { IfOk result (λ reply. reply ≡ (answer_swap self.old index (held self.old client reg)
            (held self.old client old) (held self.old client value)).0) }
        ensures world { OnOk result (self.new ≡ (answer_swap self.old index (held self.old client reg)
            (held self.old client old) (held self.old client value)).1) }
        ensures err { OnErr result (self.new ≡ self.old) }
    {
        let Some(id) = self.registers.get(client, reg.number()) else {
            return Ok(Reply::NoHandle);
        };
        let Some(old) = self.registers.get(client, old.number()) else {
            return Ok(Reply::NoHandle);
        };
        let Some(new) = self.registers.get(client, value.number()) else {
            return Ok(Reply::NoHandle);
        };
        match self.field(id, index) {
            None => Ok(Reply::NoField),
            Some(None) => Ok(Reply::Null),
            Some(Some(found)) if found == old => self.write(alloc, id, index, Some(new)),
            Some(Some(found)) => Ok(Reply::Held(found)),
        }
    }
}
