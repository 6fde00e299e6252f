ghost use Rattle.std.specs.Prelude.{◌≡◌, ◌<◌, ◌≤◌, true, false, IfOk, IfErr, vec_len, vec_capacity};
ghost use Rattle.pm_nursery.specs.Rows.{IsAt, IsGap};
ghost use Rattle.pm_nursery.specs.Turned.{Adds, AreOfId, Exchanges, Rise, Takes, has, holder_cmp};

use pm_types::Id;

/// A register: the number of its client, and its own.
pub(crate) type Place = (u32, u32);

// The place of the pair among those that ascend, or the place for it. One behind all of them is found at once.
fn search(pairs: &[(Id, Place)], pair: (Id, Place)) -> Result<usize, usize>
    requires { Rise pairs.now }
    ensures found { IfOk result (IsAt pairs.now pair) }
    ensures absent { IfErr result (IsGap holder_cmp pairs.now pair) }
{
    if let Some(last) = pairs.last() {
        if *last < pair {
            return Err(pairs.len());
        }
    }
    pairs.binary_search(&pair)
}

/// Puts an identity and a register that holds it among the pairs, where they have no such pair and there is room.
pub(crate) fn add(pairs: &mut Vec<(Id, Place)>, id: Id, place: Place)
    requires ordered { Rise pairs.old.items }
    requires room { vec_len pairs.old < vec_capacity pairs.old }
    requires new { has pairs.old.items (id, place) ≡ false }
    ensures { Adds pairs.old.items (id, place) pairs.new.items }
{
    if let Err(at) = search(pairs, (id, place)) {
        let Ok(()) = pairs.insert(at, (id, place)) else {
            unreachable!()
        };
    }
}

/// Takes the pair of an identity and a register away.
pub(crate) fn take(pairs: &mut Vec<(Id, Place)>, id: Id, place: Place)
    requires ordered { Rise pairs.old.items }
    ensures taken { Takes pairs.old.items (id, place) pairs.new.items }
    ensures len { vec_len pairs.new ≤ vec_len pairs.old }
    ensures capacity { vec_capacity pairs.new ≡ vec_capacity pairs.old }
{
    if let Ok(at) = search(pairs, (id, place)) {
        pairs.remove(at);
    }
}

/// A register that held one identity holds another: its pair is another one. There is room.
pub(crate) fn exchange(pairs: &mut Vec<(Id, Place)>, old: Id, new: Id, place: Place)
    requires ordered { Rise pairs.old.items }
    requires room { vec_len pairs.old < vec_capacity pairs.old }
    requires there { has pairs.old.items (old, place) ≡ true }
    requires new { has pairs.old.items (new, place) ≡ false }
    ensures { Exchanges pairs.old.items (old, place) (new, place) pairs.new.items }
{
    take(pairs, old, place);
    add(pairs, new, place);
}

/// The pairs of an identity, lent.
pub(crate) fn of_id(pairs: &[(Id, Place)], id: Id) -> &[(Id, Place)]
    requires { Rise pairs.now }
    ensures { AreOfId pairs.now id result.now }
{
    let first = pairs.partition_point(|pair| pair.0 < id);
    let last = pairs.partition_point(|pair| pair.0 <= id);
    &pairs[first..last]
}
