//! Turns: each is one event of a worker.

use crate::Book;
use crate::workers::COLLECTOR;
use pm_disk::Disk;
use pm_engine::events::{ask, collect_once, flush_once};
use pm_turns::Turn;
use pm_types::CLIENTS;
use std::alloc::Global;

impl<D: Disk, F: Fn(&[u64]) -> usize + Drop> Book<D, F> {
    ghost use Rattle.std.specs.Prelude.{◌≡◌, ◌<◌, None};
    ghost use Rattle.pm_types.specs.declared.limits.TheConstants.{CLIENTS};
    ghost use Rattle.pm_turns.specs.declared.limits.TheConstants.{WORKERS};
    ghost use Rattle.pm_place.specs.Choosers.{IsChooser};
    ghost use Rattle.pm_engine.specs.Shown.{chooser};
    ghost use Rattle.pm_lock.specs.Shown.{engine_in, fault_in};
    ghost use Rattle.pm_lock.specs.declared.workers.TheConstants.{COLLECTOR, FLUSHER};
    ghost use Rattle.pm_lock.specs.Turns.{StepsBook};

    // The turn of a client: its next command is asked, and is let go once it is answered.
    fn step_client(&mut self, alloc: Global, client: u32) -> Turn
        requires client { client < CLIENTS }
        requires running { fault_in self.old ≡ None }
        ensures { StepsBook F.Fn client self.old self.new result }
    {
        self.keep_its_engine();
        self.engine.keep_their_images();
        let Some(cmd) = self.parts.front(client) else {
            return Turn::Finished;
        };
        match ask(alloc, &mut self.engine, client, cmd) {
            Ok(reply) => {
                drop(reply);
                drop(self.parts.pop(client));
                Turn::Made
            }
            Err(fault) => {
                self.fault = Some(fault);
                Turn::Stopped
            }
        }
    }

    // The turn of the collector: its next event is made.
    fn step_collector(&mut self, alloc: Global) -> Turn
        requires running { fault_in self.old ≡ None }
        requires chooser { IsChooser F.Fn (chooser (engine_in self.old)) }
        ensures { StepsBook F.Fn COLLECTOR self.old self.new result }
    {
        self.keep_its_engine();
        self.engine.keep_their_images();
        if self.collects == 0 {
            return Turn::Finished;
        }
        match collect_once(alloc, &mut self.engine) {
            Ok(_made) => {
                self.collects -= 1;
                Turn::Made
            }
            Err(short) => {
                self.fault = Some(short);
                Turn::Stopped
            }
        }
    }

    // The turn of the flusher: the next flush event is made.
    fn step_flusher(&mut self, alloc: Global) -> Turn
        requires { fault_in self.old ≡ None }
        ensures { StepsBook F.Fn FLUSHER self.old self.new result }
    {
        self.keep_its_engine();
        self.engine.keep_their_images();
        if self.flushes == 0 {
            return Turn::Finished;
        }
        match flush_once(alloc, &mut self.engine) {
            Ok(_made) => {
                self.flushes -= 1;
                Turn::Made
            }
            Err(fault) => {
                self.fault = Some(fault);
                Turn::Stopped
            }
        }
    }

    /// The next turn of a worker: one event of it, the next command of client 0 to 7, an event of the collector, 8, or a
    /// flush event, 9. It is Finished where the worker has nothing left. It is Stopped where a fault is kept: from now on,
    /// where the engine answers one. A command is let go once it is answered; one that was not stays in its list.
    pub fn step(&mut self, alloc: Global, who: u32) -> Turn
        requires who { who < WORKERS }
        requires chooser { IsChooser F.Fn (chooser (engine_in self.old)) }
        ensures { StepsBook F.Fn who self.old self.new result }
    {
        if self.fault.is_some() {
            return Turn::Stopped;
        }
        if who < CLIENTS {
            return self.step_client(alloc, who);
        }
        if who == COLLECTOR {
            self.step_collector(alloc)
        } else {
            self.step_flusher(alloc)
        }
    }
}
