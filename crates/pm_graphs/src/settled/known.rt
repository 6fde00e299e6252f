// What the types say of slots: their numbers are such as they can hold. These functions do nothing.

ghost use Rattle.std.specs.Prelude.{IfSome};
ghost use Rattle.std.specs.List.{AllByRecursion};
ghost use Rattle.pm_types.specs.declared.limits.TheConstants.{FIELDS};
ghost use Rattle.pm_layout.specs.Spelling.{HasSpelling, IsAddress, IsInRange};
ghost use Rattle.pm_graphs.specs.Settled.Packed.{IsRecord};

use pm_types::{Addr, Slot};

fn know_address(to: Addr)
    ensures { IsAddress to }
{}

fn know_field(reference: Option<Addr>)
    ensures { IfSome reference IsAddress }
{
    if let Some(to) = reference {
        know_address(to);
    }
}

fn know_fields(fields: &[Option<Addr>])
    ensures { AllByRecursion (λ reference. IfSome reference IsAddress) fields.now }
{
    for reference in fields {
        know_field(*reference);
    }
}

fn know_slot(slot: &Slot)
    ensures { IsInRange slot.now }
{
    match slot {
        Slot::Live(object) => {
            let _id = object.id;
            know_fields(object.fields.as_slice());
        }
        Slot::Moved(to) => know_address(*to),
    }
}

fn know_record(number: u32, slot: &Slot)
    requires { HasSpelling FIELDS slot.now }
    ensures { IsRecord (number, slot.now) }
{
    know_slot(slot);
}

/// Slots that have a spelling each have a record.
pub(crate) fn know_records(slots: &[(u32, Slot)])
    requires { AllByRecursion (λ entry. HasSpelling FIELDS entry.1) slots.now }
    ensures { AllByRecursion IsRecord slots.now }
{
    for (number, slot) in slots {
        know_record(*number, slot);
    }
}
