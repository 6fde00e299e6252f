//! A table that is frozen and then changed, beside two plain maps.

use pm_case_text::{Fault, push_filled, refuse};
use pm_snap::{Keep, Table, put};
use pm_types::NoMemory;
use std::alloc::Global;
use std::collections::BTreeMap;

// A value of the table.
#[derive(Drop)]
struct Held {
    number: u64,
}

impl Keep for Held {
    fn keep(&self, _alloc: Global) -> Result<Held, NoMemory> {
        Ok(Held {
            number: self.number,
        })
    }
}

// A table, and beside it the values that it should have now and those that were frozen.
#[derive(Drop)]
struct Tables {
    table: Table<Held>,
    current: BTreeMap<u64, u64>,
    frozen: BTreeMap<u64, u64>,
    // The key of the value that was added last.
    last: u64,
}

// Whether the table holds something else than a map does.
fn is_other(held: Option<&Held>, number: Option<&u64>) -> bool {
    match (held, number) {
        (Some(held), Some(number)) => held.number != *number,
        (None, None) => false,
        _ => true,
    }
}

// Whether the table has another value than the maps at a key, now or frozen.
fn differs(tables: &Tables, key: u64) -> bool {
    is_other(tables.table.get(key), tables.current.get(&key))
        || is_other(tables.table.frozen(key), tables.frozen.get(&key))
}

// At how many keys below this one the table has another value than the maps, now or frozen.
fn differences(tables: &Tables, end: u64) -> u64 {
    let mut count = 0u64;
    for key in 0..end {
        if differs(tables, key) {
            count = count.saturating_add(1);
        }
    }
    count
}

// What is done to a table.
#[derive(Clone, Copy)]
enum Kind {
    // Values are added.
    Add,
    // Each is added, and the map of those that are frozen has it too.
    Fill,
    // Each value is changed.
    Put,
    // Each third value is removed.
    Remove,
}

// Adds a value.
fn add(tables: &mut Tables, number: u64) -> Result<(), Fault> {
    tables.last = tables
        .table
        .add(Held { number })
        .ok()
        .ok_or(refuse("no memory"))?;
    tables.current.insert(tables.last, number)?;
    Ok(())
}

// Adds a value that will be frozen.
fn fill(tables: &mut Tables, number: u64) -> Result<(), Fault> {
    add(tables, number)?;
    tables.frozen.insert(tables.last, number)?;
    Ok(())
}

// Changes the value at a key, if there is one, to one that stands at no other key.
fn change(tables: &mut Tables, key: u64) -> Result<(), Fault> {
    if tables.table.get(key).is_none() {
        return Ok(());
    }
    let number = key.saturating_add(1 << 32);
    put(&mut tables.table, key, Held { number })?;
    tables.current.insert(key, number)?;
    Ok(())
}

// Removes the value at a key, if there is one.
fn remove(tables: &mut Tables, key: u64) -> Result<(), Fault> {
    if tables.table.get(key).is_some() {
        tables.table.remove(key)?;
        tables.current.remove(&key);
    }
    Ok(())
}

// Makes a change for the number of its turn.
fn make(tables: &mut Tables, what: Kind, number: u64) -> Result<(), Fault> {
    match what {
        Kind::Add => add(tables, number),
        Kind::Fill => fill(tables, number),
        Kind::Put => change(tables, number),
        Kind::Remove => remove(tables, number.saturating_mul(3)),
    }
}

// Makes so many changes of a kind, and counts the differences at three times as many keys as there were values.
fn make_all(tables: &mut Tables, what: Kind, times: u64, end: u64) -> Result<u64, Fault> {
    for number in 0..times {
        make(tables, what, number)?;
    }
    Ok(differences(tables, end))
}

// Freezes the table.
fn freeze(tables: &mut Tables) {
    tables.table.thaw();
    tables.table.freeze();
}

// Thaws the table, and counts the differences.
fn thaw(tables: &mut Tables, alloc: Global, end: u64) -> u64 {
    tables.table.thaw();
    tables.frozen = BTreeMap::new(alloc);
    differences(tables, end)
}

// Changes a table of so many values that is frozen, and adds the differences after each kind of change.
fn push_changes(
    tables: &mut Tables,
    alloc: Global,
    count: u64,
    out: &mut String,
) -> Result<(), Fault> {
    let end = count.saturating_mul(3);
    make_all(tables, Kind::Fill, count, 0)?;
    freeze(tables);
    let changed = make_all(tables, Kind::Put, end, end)?;
    let removed = make_all(tables, Kind::Remove, count, end)?;
    let added = make_all(tables, Kind::Add, count, end)?;
    let thawed = thaw(tables, alloc, end);
    push_filled(
        "differences % % % %, last %\n",
        &[changed, removed, added, thawed, tables.last],
        out,
    )
}

/// `N`: a table of N values is frozen; then each is changed, each third is removed, and N values are added, which take the
/// keys that were removed first; then it is thawed. At how many keys it has another value than two plain maps, now or
/// frozen, after each of these four, and which key the last value that was added has.
pub(crate) fn push_frozen(alloc: Global, count: u64, out: &mut String) -> Result<(), Fault> {
    let mut tables = Tables {
        table: Table::new(alloc),
        current: BTreeMap::new(alloc),
        frozen: BTreeMap::new(alloc),
        last: 0,
    };
    push_changes(&mut tables, alloc, count, out)
}
