ghost use Rattle.std.specs.Prelude.{◌≡◌, ◌<◌, ◌≤◌, [], length};
ghost use Rattle.std.specs.Thread.{IsSync};
ghost use Rattle.pm_passes.specs.Passes.{IsAmong, view_of};
ghost use Rattle.pm_passes.specs.contracts.tests.Name as name;

use crate::{Home, Logged, Pass, Served};
use std::alloc::Global;
use std::sync::Wait;
use std::test::Fail;
use std::thread::{Threads, join};

// The name of a book.
#[derive(Clone, Copy, Debug, PartialEq, Eq)]
struct Name(u64);

// A log that is kept, with a name.
#[derive(Drop)]
struct Book {
    name: Name,
    log: Vec<(u64, u64)>,
    next: u64,
}

impl Book {
    fn new(alloc: Global, name: Name) -> Book
        ensures log { result.log.items ≡ [] }
        ensures next { result.next ≡ 1 }
    {
        Book {
            name,
            log: Vec::new(alloc),
            next: 1,
        }
    }

    // How many entries of this number it has.
    fn entries_of(&self, number: u64) -> usize {
        self.log.iter().filter(|entry| entry.0 == number).count()
    }
}

impl Logged for Book {
    type Entry = u64;

    type Tie = Name;

    ghost log = { λ book. book.log.items };

    ghost next = { λ book. book.next };

    ghost numbers = { λ book. record { made = 0; flushed = 0; struck = 0; faults = 0; events = 0 } };

    ghost tie = { λ book. book.name };

    ghost sound = { λ book. Unit {0} };

    fn draw(&mut self) -> Option<u64> {
        let number = self.next;
        self.next = number.checked_add(1)?;
        Some(number)
    }
}

// Its entries are numbered from 0. It refuses where there is no memory.
impl Served for Book {
    ghost refuses = { λ book. Unit {0} };

    fn serve(&mut self, number: u64) -> Option<u64> {
        let place = self.log.len() as u64;
        match self.log.push((number, place)) {
            Ok(()) => Some(self.log.len() as u64),
            Err(_) => None,
        }
    }
}

// So many calls of one caller.
fn work<R: Wait>(rt: &R, home: &Home<Book>, pass: &mut Pass<u64>, calls: u64)
    requires { IsAmong home.now.table.shared.table_id
        (name.the_row.coded.code home.now.table.shared.key.value.name) pass.old }
    ensures { IsAmong home.now.table.shared.table_id
        (name.the_row.coded.code home.now.table.shared.key.value.name) pass.new }
{
    for _ in 0..calls {
        home.call(rt, pass);
    }
}

// So many passes are split from one, each in a thread of its own with so many calls. The last one is met first.
fn spread<R: Threads + Wait + Sync>(
    rt: &R,
    home: &Home<Book>,
    mut pass: Pass<u64>,
    callers: u32,
    calls: u64,
) -> Pass<u64>
    requires pass { IsAmong home.now.table.shared.table_id
        (name.the_row.coded.code home.now.table.shared.key.value.name) pass }
    ensures pass { IsAmong home.now.table.shared.table_id
        (name.the_row.coded.code home.now.table.shared.key.value.name) result }
{
    if callers == 0 || pass.shares() < 2 {
        return pass;
    }
    let Some(mut other) = home.split_pass(rt, &mut pass) else {
        return pass;
    };
    let (mut pass, other) = join(
        rt,
        || -> Pass<u64>
            requires crosses { IsSync R.row }
            requires some { 0 < callers }
            requires pass { IsAmong home.now.table.shared.table_id
                (name.the_row.coded.code home.now.table.shared.key.value.name) pass }
            ensures pass { IsAmong home.entry.now.table.shared.table_id
                (name.the_row.coded.code home.entry.now.table.shared.key.value.name) result }
        { spread(rt, home, pass, callers - 1, calls) },
        || -> Pass<u64>
            requires crosses { IsSync R.row }
            requires pass { IsAmong home.now.table.shared.table_id
                (name.the_row.coded.code home.now.table.shared.key.value.name) other }
            ensures pass { IsAmong home.entry.now.table.shared.table_id
                (name.the_row.coded.code home.entry.now.table.shared.key.value.name) result }
        {
            work(rt, home, &mut other, calls);
            other
        },
    );
    home.meet_pass(&mut pass, other);
    pass
}

// The pass has seen so many entries at least.
fn has_seen<E>(pass: &Pass<E>, count: u64)
    requires { count ≤ length (view_of pass.now).front }
{
    let _ = pass.number();
}

#[test]
fn every_call_of_every_caller_is_made_once(rt: HostRuntime) -> Result<(), Fail> {
    let Ok((home, pass)) = Home::open(rt.alloc(), Book::new(rt.alloc(), Name(7))) else {
        return Err("no memory".into());
    };
    let pass = spread(&rt, &home, pass, 8, 1000);
    assert_eq!(rt; pass.number(), 0);
    assert_eq!(rt; size_of::<Pass<u64>>(), 16);
    assert_eq!(rt; pass.shares(), 4_294_967_296);
    let book = home.close(&rt, pass);
    assert_eq!(rt; book.log.len(), 8000);
    for number in 1..9 {
        assert_eq!(rt; book.entries_of(number), 1000);
    }
    assert_eq!(rt; book.name, Name(7));
    assert_eq!(rt; book.next, 9);
    Ok(())
}

// The second of two passes saw the entry of the first, so the pass that meets it has both at once.
#[test]
fn the_front_of_the_later_one_has_both(rt: HostRuntime) -> Result<(), Fail> {
    let Ok((home, mut pass)) = Home::open(rt.alloc(), Book::new(rt.alloc(), Name(8))) else {
        return Err("no memory".into());
    };
    let Some(mut one) = home.split_pass(&rt, &mut pass) else {
        return Err("no number".into());
    };
    let Some(mut two) = home.split_pass(&rt, &mut pass) else {
        return Err("no number".into());
    };
    assert_eq!(rt; one.shares(), 2_147_483_648);
    assert_eq!(rt; two.shares(), 1_073_741_824);
    assert_eq!(rt; home.call(&rt, &mut one), Some(1));
    let Some(count) = home.call(&rt, &mut two) else {
        return Err("refused".into());
    };
    assert_eq!(rt; count, 2);
    home.meet_pass(&mut pass, two);
    has_seen(&pass, 2);
    home.meet_pass(&mut pass, one);
    has_seen(&pass, 2);
    let book = home.close(&rt, pass);
    assert_eq!(rt; book.log.as_slice(), [(1, 0), (2, 1)].as_slice());
    Ok(())
}
