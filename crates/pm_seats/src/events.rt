//! Events: each is one call of the engine for a caller.

use crate::callers::add_caller;
use crate::{LAST_EVENT, Logbook, SeatFault};
use pm_disk::Disk;
use pm_types::{Cmd, Flushed, Reply, Step};
use std::alloc::Global;

/// What came of a command.
#[derive(Debug, Drop)]
pub struct Seen {
    /// The reply.
    pub reply: Reply,
    /// The place of its entry in the log, from 0 on.
    pub place: u64,
}

impl<D: Disk, F: Drop> Logbook<D, F> {
    ghost use Rattle.std.specs.Prelude.{◌<◌, ◌≤◌};
    ghost use Rattle.pm_types.specs.declared.limits.TheConstants.{CLIENTS};
    ghost use Rattle.pm_engine.specs.Shown.{serving};
    ghost use Rattle.pm_seats.specs.declared.limits.TheConstants.{LAST_EVENT};
    ghost use Rattle.pm_seats.specs.Shown.{engine_in, next_in};
    ghost use Rattle.pm_seats.specs.Events.{CallsClient, CallsFlush};

    /// Answers a client's command, asked by the caller whose pass has this number: one entry more of the log is that
    /// caller's.
    ///
    /// # Errors
    ///
    /// `Spent` once 2^50 - 1 events were made: the engine was not asked. `Engine` as the engine answers it, and the log
    /// stays: `Memory`, `Disk` for `settle` alone, and `Reopen` where an earlier event answered `Disk`.
    pub fn client(
        &mut self,
        alloc: Global,
        number: u64,
        client: u32,
        cmd: &Cmd,
    ) -> Result<Seen, SeatFault>
        requires client { client < CLIENTS }
        requires number { number < next_in self.old }
        ensures call { CallsClient LAST_EVENT number client cmd.now self.old self.new result }
    {
        self.client_within(alloc, number, client, cmd, LAST_EVENT)
    }

    /// The same within so many events.
    pub fn client_within(
        &mut self,
        alloc: Global,
        number: u64,
        client: u32,
        cmd: &Cmd,
        last: u64,
    ) -> Result<Seen, SeatFault>
        requires client { client < CLIENTS }
        requires number { number < next_in self.old }
        requires last { last ≤ LAST_EVENT }
        requires within { (serving (engine_in self.old)).events ≤ last }
        ensures call { CallsClient last number client cmd.now self.old self.new result }
    {
        let events = self.engine.events();
        if events == last {
            return Err(SeatFault::Spent { events });
        }
        self.engine.keep_their_images();
        let place = self.entries();
        let reply = match self.engine.client(alloc, client, cmd) {
            Ok(reply) => reply,
            Err(fault) => return Err(SeatFault::Engine(fault)),
        };
        add_caller(&mut self.callers, number);
        Ok(Seen { reply, place })
    }

    /// Makes an event that writes a page of the copy in progress, if one is left, and answers which. The log stays.
    ///
    /// # Errors
    ///
    /// `Spent` once 2^50 - 1 events were made: the engine was not asked. `Engine` as the engine answers it: `Memory`,
    /// `Disk`, and `Reopen` where an earlier event answered `Disk`.
    pub fn flush(&mut self, alloc: Global) -> Result<Flushed, SeatFault>
        ensures call { CallsFlush LAST_EVENT self.old self.new result }
    {
        self.flush_within(alloc, LAST_EVENT)
    }

    /// The same within so many events.
    pub fn flush_within(&mut self, alloc: Global, last: u64) -> Result<Flushed, SeatFault>
        requires last { last ≤ LAST_EVENT }
        requires within { (serving (engine_in self.old)).events ≤ last }
        ensures call { CallsFlush last self.old self.new result }
    {
        let events = self.engine.events();
        if events == last {
            return Err(SeatFault::Spent { events });
        }
        self.engine.keep_their_images();
        match self.engine.flush(alloc) {
            Ok(flushed) => Ok(flushed),
            Err(fault) => Err(SeatFault::Engine(fault)),
        }
    }
}

impl<D: Disk, F: Fn(&[u64]) -> usize + Drop> Logbook<D, F> {
    ghost use Rattle.std.specs.Prelude.{◌≤◌};
    ghost use Rattle.pm_place.specs.Choosers.{IsChooser};
    ghost use Rattle.pm_engine.specs.Shown.{chooser, serving};
    ghost use Rattle.pm_seats.specs.declared.limits.TheConstants.{LAST_EVENT};
    ghost use Rattle.pm_seats.specs.Shown.{engine_in};
    ghost use Rattle.pm_seats.specs.Events.{CallsCollect};

    /// Makes the next event of the collector, and answers what it did. The log stays.
    ///
    /// # Errors
    ///
    /// `Spent` once 2^50 - 1 events were made: the engine was not asked. `Engine` as the engine answers it: `Memory`,
    /// and `Reopen` where an earlier event answered `Disk`.
    pub fn collect(&mut self, alloc: Global) -> Result<Step, SeatFault>
        requires chooser { IsChooser F.Fn (chooser (engine_in self.old)) }
        ensures call { CallsCollect F.Fn LAST_EVENT self.old self.new result }
    {
        self.collect_within(alloc, LAST_EVENT)
    }

    /// The same within so many events.
    pub fn collect_within(&mut self, alloc: Global, last: u64) -> Result<Step, SeatFault>
        requires chooser { IsChooser F.Fn (chooser (engine_in self.old)) }
        requires last { last ≤ LAST_EVENT }
        requires within { (serving (engine_in self.old)).events ≤ last }
        ensures call { CallsCollect F.Fn last self.old self.new result }
    {
        let events = self.engine.events();
        if events == last {
            return Err(SeatFault::Spent { events });
        }
        self.engine.keep_their_images();
        match self.engine.collect(alloc) {
            Ok(step) => Ok(step),
            Err(fault) => Err(SeatFault::Engine(fault)),
        }
    }
}
