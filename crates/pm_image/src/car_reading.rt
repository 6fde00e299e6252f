ghost use Rattle.std.specs.Prelude.{◌≡◌, ◌+◌, ◌≤◌, length, IfOk, OnOk, OnErr, Option, None, Some, Ok, Err};
ghost use Rattle.std.specs.FinSet as set;
ghost use Rattle.pm_types.specs.declared.limits.TheConstants.{FIELDS, PAGE_BYTES, CAR_HEAD_BYTES};
ghost use Rattle.pm_layout.specs.Reading.{number_from};
ghost use Rattle.pm_image.specs.declared.car.CarImage.{CarImage};
ghost use Rattle.pm_image.specs.declared.fault.PageFault.TheVariants.{Memory};
ghost use Rattle.pm_image.specs.Steps.{tested};
ghost use Rattle.pm_image.specs.Answers.{answer, Gives};
ghost use Rattle.pm_image.specs.CarPages.{HasCarPage, car_at, car_spelling, fault_place, is_named, is_short, is_taken, one_car, padded, record_at, records_at, with_identity};
ghost use Rattle.pm_image.specs.CarAnswers.{IsCarInRange, a_car, page_fault};
ghost use Rattle.pm_image.specs.Graphs.{with_identities};
ghost use Rattle.pm_types.specs.Memory.{no_memory};

use crate::car::{MAGIC, RECORDS_AT};
use crate::steps::{check_magic, check_rest};
use crate::{CarImage, NumberSet, PageFault, SlotList};
use pm_layout::{LIVE, LayoutFault, read_slot, u16_at, u32_at, u64_at};
use pm_types::{LAST_SLOT, Slot};
use std::alloc::Global;

// A page by itself is read with each identity that there is: the next one would be this.
const NO_IDENTITY: u64 = 4_294_967_296;

// The slot does not end inside the page.
fn is_short(read: &Result<(Slot, usize), LayoutFault>) -> bool
    ensures { result ≡ is_short read.now }
{
    matches!(read, Err(LayoutFault::Short(_)))
}

// No object can have this identity.
fn is_taken(next: u64, met: &NumberSet, id: u64) -> bool
    ensures { result ≡ is_taken next met.now id }
{
    id == 0 || id >= next || met.contains(id)
}

// A slot that is cut is a fault of its record, which begins at this place.
fn page_fault(place: usize, fault: LayoutFault) -> PageFault
    requires { fault_place place fault ≤ PAGE_BYTES }
    ensures { result ≡ page_fault place fault }
{
    match fault {
        LayoutFault::Short(_) => PageFault::Malformed(place as u32),
        LayoutFault::Kind { at, .. } => PageFault::Malformed(at as u32),
        LayoutFault::Fields { at, .. } => PageFault::Malformed(at as u32),
        LayoutFault::Count { at, .. } => PageFault::Malformed(at as u32),
        LayoutFault::Null(at) => PageFault::Malformed(at as u32),
        LayoutFault::Ident(at) => PageFault::Malformed(at as u32),
        LayoutFault::Memory(refused) => PageFault::Memory(refused),
    }
}

// The record at this place, whose slot is not below the least, and the place after it.
#[tactic(auto, unfolding(crate::specs::CarPages::record_at))]
fn record_at(
    alloc: Global,
    most: u32,
    next: u64,
    met: &NumberSet,
    least: u32,
    page: &[u8],
    place: usize,
) -> Result<((u32, Slot), usize), PageFault>
    requires whole { length page.now ≡ PAGE_BYTES }
    requires inside { place ≤ PAGE_BYTES }
    requires most { most ≤ FIELDS }
    ensures exact { Gives result (record_at (a_car most next None) met.now least page.now place) }
    ensures ends { IfOk result (λ read. read.1 ≤ PAGE_BYTES) }
    ensures last { IfOk result (λ read. read.0.0 ≤ LAST_SLOT) }
{
    if page.len() - place < 5 {
        return Err(PageFault::Malformed(place as u32));
    }
    let number = u32_at(page, place);
    let read = read_slot(alloc, page, place + 4, most);
    if is_short(&read) || number < least || number > LAST_SLOT {
        return Err(PageFault::Malformed(place as u32));
    }
    if page[place + 4] == LIVE && is_taken(next, met, u64_at(page, place + 5)) {
        return Err(PageFault::Malformed(place as u32 + 5));
    }
    match read {
        Ok((slot, end)) => Ok(((number, slot), end)),
        Err(fault) => Err(page_fault(place, fault)),
    }
}

// The identity of the slot is met, if it has one.
fn meet(met: &mut NumberSet, slot: &Slot) -> Result<(), PageFault>
    ensures ok { OnOk result (met.new ≡ with_identity met.old slot.now) }
    ensures err { OnErr result (result ≡ Err (Memory no_memory)) }
{
    match slot {
        Slot::Live(object) => {
            met.insert(object.id as u64)?;
            Ok(())
        }
        Slot::Moved(_) => Ok(()),
    }
}

// So many records, and the place after the last of them.
fn records_at(
    alloc: Global,
    most: u32,
    next: u64,
    met: &mut NumberSet,
    page: &[u8],
    count: u16,
) -> Result<(SlotList, usize), PageFault>
    requires whole { length page.now ≡ PAGE_BYTES }
    requires most { most ≤ FIELDS }
    ensures exact { Gives result (records_at (a_car most next None) met.old 0 page.now count CAR_HEAD_BYTES) }
    ensures ends { IfOk result (λ read. read.1 ≤ PAGE_BYTES) }
    ensures met { IfOk result (λ read. met.new ≡ with_identities met.old read.0) }
{
    let mut records = Vec::with_capacity(alloc, count as usize)?;
    let mut least = 0;
    let mut place = RECORDS_AT;
    for _ in 0..count {
        let (record, end) = record_at(alloc, most, next, met, least, page, place)?;
        meet(met, &record.1)?;
        least = record.0 + 1;
        records.push(record)?;
        place = end;
    }
    Ok((SlotList::from_vec(records), place))
}

// The number is the one that is expected, if one is.
fn check_number(expected: Option<u64>, page: &[u8]) -> Result<(), PageFault>
    requires { length page.now ≡ PAGE_BYTES }
    ensures { result ≡ answer (tested (is_named expected (number_from 8 page.now 4)) 4) }
{
    match expected {
        Some(number) if number != u64_at(page, 4) => Err(PageFault::Malformed(4)),
        _ => Ok(()),
    }
}

// The car that the page spells, or the first fault.
#[tactic(auto, unfolding(crate::specs::CarPages::car_at))]
fn car_at(
    alloc: Global,
    most: u32,
    next: u64,
    expected: Option<u64>,
    page: &[u8],
    met: &mut NumberSet,
) -> Result<CarImage, PageFault>
    requires whole { length page.now ≡ PAGE_BYTES }
    requires most { most ≤ FIELDS }
    ensures exact { Gives result (car_at (a_car most next expected) met.old page.now) }
    ensures met { IfOk result (λ car. met.new ≡ with_identities met.old car.slots) }
{
    check_magic(&MAGIC, page)?;
    check_number(expected, page)?;
    let (slots, end) = records_at(alloc, most, next, met, page, u16_at(page, 12))?;
    check_rest(page, end)?;
    Ok(CarImage {
        number: u64_at(page, 4),
        slots,
    })
}

/// The car of objects of at most so many fields that a page of 16,384 bytes spells. `Malformed` has the place, counted in bytes from the
/// page's first one, of the first byte of the first field at fault, when the page is read from left to
/// right: another magic, at 0; of a record at its slot number where it does not end inside the page, or
/// where the slot is not greater than the one before or over 65,535, at its kind, at its identity where
/// no object can have it or where it was met on this page, at its number of fields or of bytes, at an
/// address without a car; or the first byte after the records that is not 0.
pub fn read_car(alloc: Global, page: &[u8], most: u32) -> Result<CarImage, PageFault>
    requires whole { length page.now ≡ PAGE_BYTES }
    requires most { most ≤ FIELDS }
    // What is read is spelled so, and has a page.
    ensures found { IfOk result (λ car. page.now ≡ padded (car_spelling car)) }
    ensures fits { IfOk result (λ car. HasCarPage (one_car most) set.empty car) }
    // What is spelled so is read, unless memory runs out.
    ensures only { (car : CarImage) → HasCarPage (one_car most) set.empty car → IsCarInRange car
        → page.now ≡ padded (car_spelling car) → Gives result (Ok car) }
    // Which fault it is.
    ensures exact { Gives result (car_at (one_car most) set.empty page.now) }
{
    car_at(
        alloc,
        most,
        NO_IDENTITY,
        None,
        page,
        &mut NumberSet::new(alloc),
    )
}

/// The car of objects of at most so many fields that a page of 16,384 bytes of a store spells. Beside the faults of `read_car`, at 4 where its
/// number is another than this one, and at an identity that is not below the store's next one or was met
/// before. After Ok the identities on the page were met too. After an error it is not said which of
/// them were.
pub fn read_car_in(
    alloc: Global,
    page: &[u8],
    most: u32,
    number: u64,
    next: u64,
    met: &mut NumberSet,
) -> Result<CarImage, PageFault>
    requires whole { length page.now ≡ PAGE_BYTES }
    requires most { most ≤ FIELDS }
    // What is read is spelled so, has a page, and has this number.
    ensures found { IfOk result (λ car. page.now ≡ padded (car_spelling car)) }
    ensures fits { IfOk result (λ car. HasCarPage (a_car most next (Some number)) met.old car) }
    ensures named { IfOk result (λ car. car.number ≡ number) }
    // What is spelled so is read, unless memory runs out.
    ensures only { (car : CarImage) → HasCarPage (a_car most next (Some number)) met.old car → IsCarInRange car
        → car.number ≡ number → page.now ≡ padded (car_spelling car) → Gives result (Ok car) }
    // Which fault it is.
    ensures exact { Gives result (car_at (a_car most next (Some number)) met.old page.now) }
    // The identities that were met since.
    ensures met { IfOk result (λ car. met.new ≡ with_identities met.old car.slots) }
{
    car_at(alloc, most, next, Some(number), page, met)
}
