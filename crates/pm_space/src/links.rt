ghost use Rattle.std.specs.Prelude.{◌≡◌, ◌==◌, ℕ, cond, [], ◌∷◌, drop, OnOk, OnErr, None, is_some, IsSome};
ghost use Rattle.std.specs.Option.{option_copied};
ghost use Rattle.std.specs.FinMap as map;
ghost use Rattle.pm_view.specs.Effective.{with_source};
ghost use Rattle.pm_space.specs.Linked.{sets_of, queues_of, HasRoom, UsesRoom, Tells, waiting, took_front, with_front, without_front, without_source};

use pm_delta::Queue;
use pm_remset::Remset;
use pm_types::{Change, NoMemory, Numbered, RefSource};
use std::alloc::Global;
use std::marker::Model;

/// What belongs to a car beside its objects: its remembered set, and the queue of changes that wait for it.
#[derive(Drop)]
pub struct Links {
    pub set: Remset,
    pub queue: Queue,
}

/// The remembered set and the queue of each car that stands, seen as a finite map from the cars' numbers.
#[derive(Drop)]
pub struct LinkTable {
    links: Numbered<Links>,
}

impl Model for LinkTable {
    ghost use Rattle.std.specs.Ordering.{nat_cmp};
    ghost use Rattle.std.specs.FinMap as map;
    ghost use Rattle.std.specs.Coded.{coded_ℕ};
    ghost use Rattle.pm_space.specs.declared.links.Links.{Links};
    ghost use Rattle.pm_space.specs.contracts.links.Links as both;

    ghost Value = { map.FinMap nat_cmp Links };

    ghost coded = { map.code coded_ℕ both.the_row.coded };

    ghost view = { λ it. it.links };
}

// A remembered set takes a change. After want of memory it is as it was.
fn take_change(set: &mut Remset, change: Change) -> Result<(), NoMemory>
    ensures ok { OnOk result (set.new ≡ with_source set.old change.source change.slot) }
    ensures err { OnErr result (set.new ≡ set.old) }
{
    match change.slot {
        Some(slot) => set.put(change.source, slot),
        None => {
            set.take(change.source);
            Ok(())
        }
    }
}

// A remembered set takes the change that waits longest, and then the queue loses it. After want of memory
// both are as they were.
fn take_front(set: &mut Remset, queue: &mut Queue) -> Result<(), NoMemory>
    ensures set { OnOk result (set.new ≡ took_front set.old queue.old.changes) }
    ensures queue { OnOk result (queue.new.changes ≡ drop 1 queue.old.changes) }
    ensures err_set { OnErr result (set.new ≡ set.old) }
    ensures err_queue { OnErr result (queue.new ≡ queue.old) }
{
    let Some(change) = queue.front().copied() else {
        return Ok(());
    };
    take_change(set, change)?;
    queue.pop();
    Ok(())
}

impl LinkTable {
    /// No car has links.
    pub fn new(alloc: Global) -> LinkTable
        ensures { result ≡ map.empty }
    {
        LinkTable {
            links: Numbered::new(alloc),
        }
    }

    /// No car has links, and those of so many cars are to come, in any order of their numbers.
    pub fn expecting(alloc: Global, many: usize) -> LinkTable
        ensures { result ≡ map.empty }
    {
        LinkTable {
            links: Numbered::expecting(alloc, many),
        }
    }

    /// The links of a car, lent.
    pub fn get(&self, car: u64) -> Option<&Links>
        ensures { option_copied result ≡ map.get self.now car }
    {
        self.links.get(car)
    }

    /// Whether the car has links.
    pub fn has(&self, car: u64) -> bool
        ensures { result ≡ is_some (map.get self.now car) }
    {
        self.links.has(car)
    }

    /// Makes room in the car's queue for at least this many more changes; where no such car is, none is
    /// needed. What waits stays, and so does all room that was taken before, also after want of memory.
    pub fn reserve(&mut self, car: u64, count: u64) -> Result<(), NoMemory>
        ensures sets { sets_of self.new ≡ sets_of self.old }
        ensures queues { queues_of self.new ≡ queues_of self.old }
        ensures room { OnOk result (HasRoom self.new car count) }
        ensures kept { (other more : ℕ) → HasRoom self.old other more → HasRoom self.new other more }
    {
        let Some(links) = self.links.get_mut(car) else {
            return Ok(());
        };
        links.queue.reserve(count)
    }

    /// Lets a change wait at the end of the car's queue, in room that was taken before; where no such car
    /// is, nothing is done.
    pub fn push(&mut self, car: u64, change: Change)
        requires { HasRoom self.old car 1 }
        ensures sets { sets_of self.new ≡ sets_of self.old }
        ensures queues { Tells self.old self.new ((car, change) ∷ []) }
        ensures room { UsesRoom self.old self.new (λ other. cond (car == other) 1 0) }
    {
        let Some(links) = self.links.get_mut(car) else {
            return;
        };
        links.queue.push(change);
    }

    /// Gives links to a car that has none: this remembered set, and an empty queue with room for so many
    /// changes. After want of memory all is as it was, and the set is gone.
    pub fn add(&mut self, alloc: Global, car: u64, set: Remset, room: u64) -> Result<(), NoMemory>
        requires { map.get self.old car ≡ None }
        ensures sets { OnOk result (sets_of self.new ≡ map.insert (sets_of self.old) car set) }
        ensures queues { OnOk result (queues_of self.new ≡ map.insert (queues_of self.old) car []) }
        ensures room { OnOk result (HasRoom self.new car room) }
        ensures others { OnOk result (map.remove self.new car ≡ self.old) }
        ensures err { OnErr result (self.new ≡ self.old) }
    {
        let mut queue = Queue::new(alloc);
        queue.reserve(room)?;
        self.links.insert(car, Links { set, queue })?;
        Ok(())
    }

    /// The change that waits longest in the car's queue goes into the car's remembered set, and leaves the
    /// queue; where none waits, nothing is done. After want of memory all is as it was.
    pub fn apply_front(&mut self, car: u64) -> Result<(), NoMemory>
        ensures sets { OnOk result (sets_of self.new ≡ with_front (sets_of self.old) car
            (waiting (queues_of self.old) car)) }
        ensures queues { OnOk result (queues_of self.new ≡ without_front (queues_of self.old) car
            (waiting (queues_of self.old) car)) }
        ensures err { OnErr result (self.new ≡ self.old) }
    {
        let Some(links) = self.links.get_mut(car) else {
            return Ok(());
        };
        take_front(&mut links.set, &mut links.queue)
    }

    /// Takes a source out of the remembered set of a car that has links. It takes no memory.
    pub fn forget(&mut self, car: u64, source: RefSource)
        requires { IsSome (map.get (sets_of self.old) car) }
        ensures sets { sets_of self.new ≡ without_source (sets_of self.old) car source }
        ensures queues { queues_of self.new ≡ queues_of self.old }
        ensures kept { (other more : ℕ) → HasRoom self.old other more → HasRoom self.new other more }
    {
        let Some(links) = self.links.get_mut(car) else {
            return;
        };
        links.set.take(source);
    }

    /// Takes the links of a car away. It takes no memory.
    pub fn remove(&mut self, car: u64)
        ensures { self.new ≡ map.remove self.old car }
    {
        self.links.remove(car);
    }
}
