ghost use Rattle.std.specs.Prelude.{◌≡◌, true, ◌||◌, not, is_some, None, IsSome, IsOk, OnOk, OnErr};
ghost use Rattle.std.specs.FinMap as map;
ghost use Rattle.pm_snap.specs.Kept.{noted, Notes, KeepsNotes};

use crate::Keep;
use pm_types::{NoMemory, Numbered};
use std::alloc::Global;
use std::collections::BTreeMap;

/// Keeps the old value of the key, where the table is frozen and none is kept for it.
pub(crate) fn note<T: Drop>(
    kept: &mut Option<BTreeMap<u64, Option<T>>>,
    key: u64,
    value: Option<T>,
) -> Result<(), NoMemory>
    ensures ok { OnOk result (Notes kept.old kept.new key value) }
    ensures err { OnErr result (KeepsNotes kept.old kept.new) }
    ensures succeeds { (not (is_some kept.old) || is_some (noted kept.old key)) ≡ true → IsOk result }
{
    let Some(old) = kept else {
        return Ok(());
    };
    if old.contains_key(&key) {
        return Ok(());
    }
    old.insert(key, value)?;
    Ok(())
}

/// Keeps the value that the key has now, where the table is frozen and none is kept for it.
pub(crate) fn save<T: Keep + Drop>(
    values: &Numbered<T>,
    kept: &mut Option<BTreeMap<u64, Option<T>>>,
    alloc: Global,
    key: u64,
) -> Result<(), NoMemory>
    requires { IsSome (map.get values.now key) }
    ensures ok { OnOk result (Notes kept.old kept.new key (map.get values.now key)) }
    ensures err { OnErr result (KeepsNotes kept.old kept.new) }
    ensures succeeds { (not (is_some kept.old) || is_some (noted kept.old key)) ≡ true → IsOk result }
{
    if is_ready(kept, key) {
        return Ok(());
    }
    let Some(value) = values.get(key) else {
        unreachable!()
    };
    let value = value.keep(alloc)?;
    note(kept, key, Some(value))
}

// Whether no old value of the key has to be kept.
fn is_ready<T>(kept: &Option<BTreeMap<u64, Option<T>>>, key: u64) -> bool
    ensures { result ≡ (not (is_some kept.now) || is_some (noted kept.now key)) }
{
    match kept {
        Some(old) => old.contains_key(&key),
        None => true,
    }
}
