//! What clients ask.

ghost use Rattle.std.specs.Prelude.{◌≡◌, false, IfOk, OnErr};
ghost use Rattle.pm_types.specs.declared.limits.TheConstants.{CLIENTS};
ghost use Rattle.pm_model.specs.Frames.{is_settle};

use crate::works::SaveFault;
use crate::{Engine, Unmade};
use pm_disk::Disk;
use pm_types::{Cmd, EngineFault, NoMemory, Reply};
use std::alloc::Global;

// The command that an entry keeps. That of `settle` takes no memory.
fn kept(alloc: Global, cmd: &Cmd) -> Result<Cmd, NoMemory>
    ensures copy { IfOk result (λ kept. kept ≡ cmd.now) }
    ensures short { OnErr result (is_settle cmd.now ≡ false) }
{
    match cmd {
        Cmd::Settle => Ok(Cmd::Settle),
        _ => cmd.copy(alloc),
    }
}

impl<D: Disk, F: Drop> Engine<D, F> {
    ghost use Rattle.std.specs.Prelude.{◌≡◌, ◌<◌, None};
    ghost use Rattle.pm_engine.specs.Shown.{KeepsStart, serving};
    ghost use Rattle.pm_engine.specs.Calls.{AnswersClient};

    /// Answers a client's command: the reply and the next world are those of the world at the journal's end, and one entry
    /// is appended. A command on the space does its row, an accepted `new` adds one object to the open train, and no
    /// command completes a collection. Only `settle` calls the disk.
    ///
    /// # Errors
    ///
    /// `Memory`: world and journal are as they were. `Disk`, for `settle` alone: the disk failed, no entry is appended, and
    /// the engine is stopped. `Reopen` where an earlier call answered `Disk`, with the count then.
    pub fn client(&mut self, alloc: Global, client: u32, cmd: &Cmd) -> Result<Reply, EngineFault>
        requires client { client < CLIENTS }
        ensures call { AnswersClient client cmd.now self.old self.new result }
        ensures start { KeepsStart self.old self.new }
    {
        match self.stopped {
            Some(count) => Err(EngineFault::Reopen { count }),
            None => match kept(alloc, cmd) {
                Ok(cmd) => self.ask(alloc, client, cmd),
                Err(refused) => {
                    self.unmade = Some(Unmade::OfClient(client));
                    Err(EngineFault::Memory(refused))
                }
            },
        }
    }

    /// The same for a command that is given up, and stands in the entry: it is not copied. It is let go where no entry is
    /// appended.
    ///
    /// # Errors
    ///
    /// Those of `client`.
    pub fn give(&mut self, alloc: Global, client: u32, cmd: Cmd) -> Result<Reply, EngineFault>
        requires client { client < CLIENTS }
        ensures call { AnswersClient client cmd self.old self.new result }
        ensures start { KeepsStart self.old self.new }
    {
        match self.stopped {
            Some(count) => Err(EngineFault::Reopen { count }),
            None => self.ask(alloc, client, cmd),
        }
    }

    /// The same, while no call has answered that the disk failed.
    fn ask(&mut self, alloc: Global, client: u32, cmd: Cmd) -> Result<Reply, EngineFault>
        requires client { client < CLIENTS }
        requires running { (serving self.old).stopped ≡ None }
        ensures call { AnswersClient client cmd self.old self.new result }
        ensures start { KeepsStart self.old self.new }
    {
        let before = self.works.pages.faults();
        match self.works.answer(alloc, client, cmd) {
            Ok(reply) => Ok(reply),
            Err(SaveFault::Memory(refused)) => {
                self.unmade = Some(Unmade::OfClient(client));
                Err(EngineFault::Memory(refused))
            }
            Err(SaveFault::Disk) => {
                let after = self.works.pages.faults();
                self.stopped = Some(after);
                Err(EngineFault::Disk { before, after })
            }
        }
    }
}
