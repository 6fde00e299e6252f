ghost use Rattle.std.specs.Prelude.{◌≡◌, true, IsSome, IsOk, OnOk, OnErr};
ghost use Rattle.std.specs.FinMap as map;
ghost use Rattle.pm_snap.specs.Snapped.{is_ready, with_value};

use crate::{Keep, Table};
use pm_types::NoMemory;

/// Gives a key that is used now another value. What is frozen stays. At a ready key it succeeds; after
/// want of memory all is as it was.
pub fn put<T: Keep + Drop>(table: &mut Table<T>, key: u64, value: T) -> Result<(), NoMemory>
    requires { IsSome (map.get table.old.current key) }
    ensures ok { OnOk result (table.new ≡ with_value table.old key value) }
    ensures err { OnErr result (table.new ≡ table.old) }
    ensures succeeds { is_ready table.old key ≡ true → IsOk result }
{
    let lent = table.change(key)?;
    *lent = value;
    Ok(())
}
