//! What clients ask.

ghost use Rattle.std.specs.Prelude.{◌≡◌, false, IfOk, OnErr};
ghost use Rattle.pm_model.specs.Frames.{is_settle};

use crate::commands::answer;
use crate::engine::YoungEngine;
use crate::halt::{Halt, HaltCause};
use pm_disk::Disk;
use pm_engine::works::SaveFault;
use pm_types::{Cmd, EngineFault, NoMemory, Reply};
use std::alloc::Global;

// The command that an entry keeps. That of `settle` takes no memory.
fn kept(alloc: Global, cmd: &Cmd) -> Result<Cmd, NoMemory>
    ensures copy { IfOk result (λ kept. kept ≡ cmd.now) }
    ensures short { OnErr result (is_settle cmd.now ≡ false) }
{
    match cmd {
        Cmd::Settle => Ok(Cmd::Settle),
        _ => cmd.copy(alloc),
    }
}

impl<D: Disk, F: Drop> YoungEngine<D, F> {
    ghost use Rattle.std.specs.Prelude.{◌≡◌, ◌<◌, true, false, None};
    ghost use Rattle.pm_types.specs.declared.limits.TheConstants.{CLIENTS};
    ghost use Rattle.pm_model.specs.Frames.{saves, sets_watch};
    ghost use Rattle.pm_view.specs.Commands.{is_act};
    ghost use Rattle.pm_young.specs.Clients.{AnswersYoungClient};
    ghost use Rattle.pm_young.specs.Seen.{KeepsStart, halt_in};

    /// Answers a client's command, each but `watch`: the reply and the next world are those of the world at the journal's
    /// end, and one entry is appended. An object is born young. What a command lets escape comes into cars, in the order
    /// of its identities: what is joined to a young object that a field of an object in a car is set to, to a young object
    /// of which a field is set to an object in a car, or to one that a name is bound to; and, before a birth where 256
    /// objects are young, what registers reach. Only `settle` calls the disk.
    ///
    /// # Errors
    ///
    /// `Memory`: world and journal are as they were; what would have escaped may have come into cars in part, nothing is
    /// young, and every further call answers `Reopen`. `Disk`, for `settle` alone: the disk failed, and no entry is
    /// appended. `Reopen` where an earlier call answered `Disk` or `Memory`, with the disk's count then.
    pub fn client(&mut self, alloc: Global, client: u32, cmd: &Cmd) -> Result<Reply, EngineFault>
        requires client { client < CLIENTS }
        requires no_watch { sets_watch cmd.now ≡ false }
        ensures call { AnswersYoungClient client cmd.now self.old self.new result }
        ensures start { KeepsStart self.old self.new }
    {
        match self.halted {
            Some(halt) => Err(EngineFault::Reopen { count: halt.count }),
            None => match kept(alloc, cmd) {
                Ok(cmd) => self.ask(alloc, client, cmd),
                Err(refused) => {
                    self.nursery.drop_all();
                    self.halted = Some(Halt {
                        cause: HaltCause::Memory,
                        count: self.works.pages.faults(),
                    });
                    Err(EngineFault::Memory(refused))
                }
            },
        }
    }

    /// The same for a command that is given up, and stands in the entry: it is not copied. It is let go where no entry is
    /// appended.
    ///
    /// # Errors
    ///
    /// Those of `client`.
    pub fn give(&mut self, alloc: Global, client: u32, cmd: Cmd) -> Result<Reply, EngineFault>
        requires client { client < CLIENTS }
        requires no_watch { sets_watch cmd ≡ false }
        ensures call { AnswersYoungClient client cmd self.old self.new result }
        ensures start { KeepsStart self.old self.new }
    {
        match self.halted {
            Some(halt) => Err(EngineFault::Reopen { count: halt.count }),
            None => self.ask(alloc, client, cmd),
        }
    }

    // The same, while every call is answered.
    fn ask(&mut self, alloc: Global, client: u32, cmd: Cmd) -> Result<Reply, EngineFault>
        requires client { client < CLIENTS }
        requires no_watch { sets_watch cmd ≡ false }
        requires running { halt_in self.old ≡ None }
        ensures call { AnswersYoungClient client cmd self.old self.new result }
        ensures start { KeepsStart self.old self.new }
    {
        match cmd {
            Cmd::Save | Cmd::Settle | Cmd::Unsave => self.ask_of_copies(alloc, client, cmd),
            _ => self.ask_of_objects(alloc, client, cmd),
        }
    }

    // A command on the space or the nursery.
    fn ask_of_objects(&mut self, alloc: Global, client: u32, cmd: Cmd) -> Result<Reply, EngineFault>
        requires client { client < CLIENTS }
        requires act { is_act cmd ≡ true }
        requires running { halt_in self.old ≡ None }
        ensures call { AnswersYoungClient client cmd self.old self.new result }
        ensures start { KeepsStart self.old self.new }
    {
        self.nursery.sound();
        let answered = answer(
            &mut self.works,
            &mut self.nursery,
            alloc,
            &mut self.entered,
            client,
            cmd,
        );
        match answered {
            Ok(reply) => Ok(reply),
            Err(refused) => {
                self.nursery.drop_all();
                self.halted = Some(Halt {
                    cause: HaltCause::Memory,
                    count: self.works.pages.faults(),
                });
                Err(EngineFault::Memory(refused))
            }
        }
    }

    // A command that begins, settles or drops a copy.
    fn ask_of_copies(&mut self, alloc: Global, client: u32, cmd: Cmd) -> Result<Reply, EngineFault>
        requires client { client < CLIENTS }
        requires saves { saves cmd ≡ true }
        requires running { halt_in self.old ≡ None }
        ensures call { AnswersYoungClient client cmd self.old self.new result }
        ensures start { KeepsStart self.old self.new }
    {
        let before = self.works.pages.faults();
        match self.works.answer(alloc, client, cmd) {
            Ok(reply) => Ok(reply),
            Err(SaveFault::Memory(refused)) => {
                self.nursery.drop_all();
                self.halted = Some(Halt {
                    cause: HaltCause::Memory,
                    count: self.works.pages.faults(),
                });
                Err(EngineFault::Memory(refused))
            }
            Err(SaveFault::Disk) => {
                let after = self.works.pages.faults();
                self.halted = Some(Halt {
                    cause: HaltCause::Disk,
                    count: after,
                });
                Err(EngineFault::Disk { before, after })
            }
        }
    }
}
