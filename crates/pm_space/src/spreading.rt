ghost use Rattle.std.specs.Prelude.{◌≡◌, OnOk, OnErr};
ghost use Rattle.pm_view.specs.Rows.{spread, HasValue};
ghost use Rattle.pm_space.specs.Linked.{sets_of, AreHoused};
ghost use Rattle.pm_space.specs.Shown.{view, IsThere, KeepsRest};

use crate::barrier::tell_all;
use crate::parts::Parts;
use crate::room::make_room;
use crate::setting::set;
use crate::sources::stored;
use pm_types::{Addr, NoMemory, RefSource};

/// Sets the source by the write barrier, where parts need not keep the heap law. What is frozen stays. After
/// want of memory all is as it was, but for room in queues.
pub fn spread<F>(parts: &mut Parts<F>, source: RefSource, to: Option<Addr>) -> Result<(), NoMemory>
    requires there { IsThere (view parts.old) source }
    requires value { HasValue source to }
    requires housed { AreHoused (sets_of parts.old.links) parts.old.trains.trains }
    ensures ok { OnOk result (view parts.new ≡ spread (view parts.old) source to) }
    ensures err { OnErr result (view parts.new ≡ view parts.old) }
    ensures rest { KeepsRest parts.old parts.new }
{
    let old = stored(parts, source);
    make_room(&mut parts.links, old, to)?;
    set(parts, source, to)?;
    tell_all(
        &mut parts.links,
        &parts.trains,
        parts.phase,
        source,
        old,
        to,
    );
    Ok(())
}
