ghost use Rattle.std.specs.Prelude.{◌≡◌, not, IfOk, OnOk, OnErr};
ghost use Rattle.std.specs.Option.{is_some};
ghost use Rattle.std.specs.FinMap as map;
ghost use Rattle.pm_remset.specs.Grouped.{group_name, IsIndexedAt, KeepsOthers};

use crate::list::SourceList;
use pm_types::{Addr, NoMemory, RefSource};
use std::collections::BTreeSet;

// So many numbers of roots, registers or slots go into one group.
const SPAN: u32 = 64;

/// The name of the source's group.
pub(crate) fn group_of(source: RefSource) -> RefSource
    ensures { result ≡ group_name source }
{
    match source {
        RefSource::Root(number) => RefSource::Root(number / SPAN as u64),
        RefSource::Handle { client, register } => RefSource::Handle {
            client,
            register: register / SPAN,
        },
        RefSource::Field { at, .. } => RefSource::Field {
            at: Addr {
                car: at.car,
                slot: at.slot / SPAN,
            },
            index: 0,
        },
    }
}

/// Puts the source into the list of its group, and answers whether it is a new one. After want of memory all is as it
/// was.
pub(crate) fn put_in(
    list: &mut SourceList,
    index: &mut BTreeSet<(u32, RefSource)>,
    group: RefSource,
    source: RefSource,
    slot: u32,
) -> Result<bool, NoMemory>
    requires { IsIndexedAt index.old group list.old }
    ensures known { IfOk result (λ more. more ≡ not (is_some (map.get list.old source))) }
    ensures list { OnOk result (list.new ≡ map.insert list.old source slot) }
    ensures listed { OnErr result (list.new ≡ list.old) }
    ensures index { IsIndexedAt index.new group list.new }
    ensures others { KeepsOthers index.old index.new group }
{
    index.insert((slot, group))?;
    match list.exchange(source, slot) {
        Ok(None) => Ok(true),
        Ok(Some(old)) => {
            if !list.names(old) {
                index.remove(&(old, group));
            }
            Ok(false)
        }
        Err(failed) => {
            if !list.names(slot) {
                index.remove(&(slot, group));
            }
            Err(failed)
        }
    }
}

/// Takes the source from the list of its group, and answers the slot that it named.
pub(crate) fn take_from(
    list: &mut SourceList,
    index: &mut BTreeSet<(u32, RefSource)>,
    group: RefSource,
    source: RefSource,
) -> Option<u32>
    requires { IsIndexedAt index.old group list.old }
    ensures value { result ≡ map.get list.old source }
    ensures list { list.new ≡ map.remove list.old source }
    ensures index { IsIndexedAt index.new group list.new }
    ensures others { KeepsOthers index.old index.new group }
{
    let named = list.take(source)?;
    if !list.names(named) {
        index.remove(&(named, group));
    }
    Some(named)
}
