ghost use Rattle.std.specs.Prelude.{◌≡◌, IfOk, IfErr, T};
ghost use Rattle.std.specs.FinMap.{is_sorted};
ghost use Rattle.pm_types.specs.Orders.{name_cmp};
ghost use Rattle.pm_roots.specs.Kept.{IsAt, IsGap};

use pm_types::Name;
use std::cmp::Ordering;

/// The place of the name among names that rise, or the place where it would stand.
pub(crate) fn search(names: &[(Name, usize)], name: &Name) -> Result<usize, usize>
    requires { T (is_sorted name_cmp names.now) }
    ensures found { IfOk result (IsAt names.now name.now) }
    ensures absent { IfErr result (IsGap names.now name.now) }
{
    names.binary_search_by(
        |row| -> Ordering
            ensures { result ≡ name_cmp row.now.0 name.entry.now }
        { row.0.cmp(name) },
    )
}
