//! Copies: beginning one, and giving it up.

ghost use Rattle.std.specs.Prelude.{◌≡◌, ◌<◌, IfOk, OnErr};

use crate::works::works::Works;
use pm_disk::Disk;
use pm_types::{Cmd, LAST_COPY, NoMemory, Reply};
use std::alloc::Global;

impl<D: Disk, F: Drop> Works<D, F> {
    ghost use Rattle.pm_engine.specs.Works.Working.{IsLeft, IsTiedIn, LastsIn, Saves, Unsaves, disk_at, place_in};

    /// `save`: the copy of the space at this moment is begun, where none is in progress and a number is left. After want
    /// of memory all is as it was.
    pub(crate) fn save(&mut self, alloc: Global, client: u32) -> Result<Reply, NoMemory>
        requires tied { IsTiedIn self.old }
        ensures saves { IfOk result (Saves client self.old self.new) }
        ensures tied { IsTiedIn self.new }
        ensures err { OnErr result (IsLeft self.old self.new) }
        ensures pages { self.new.pages ≡ self.old.pages }
        ensures place { place_in self.new ≡ place_in self.old }
    {
        self.journal.reserve(1)?;
        if let Some(number) = self.saver.number() {
            self.append(client, Cmd::Save, Reply::Busy(number));
            return Ok(Reply::Busy(number));
        }
        let settled = self.pages.header().epoch;
        if settled == LAST_COPY {
            self.append(client, Cmd::Save, Reply::SavesSpent);
            return Ok(Reply::SavesSpent);
        }
        self.saver.begin(alloc, &mut self.space, settled + 1)?;
        self.append(client, Cmd::Save, Reply::Begun(settled + 1));
        Ok(Reply::Begun(settled + 1))
    }

    /// `unsave`: the copy in progress is given up, if there is one. After want of memory all is as it was.
    pub(crate) fn unsave(&mut self, client: u32) -> Result<Reply, NoMemory>
        requires tied { IsTiedIn self.old }
        ensures unsaves { IfOk result (Unsaves client self.old self.new) }
        ensures tied { IsTiedIn self.new }
        ensures lasts { LastsIn self.old self.new }
        ensures err { OnErr result (IsLeft self.old self.new) }
        ensures disk { disk_at self.new ≡ disk_at self.old }
        ensures place { place_in self.new ≡ place_in self.old }
    {
        self.journal.reserve(1)?;
        if self.saver.number().is_none() {
            self.append(client, Cmd::Unsave, Reply::Idle);
            return Ok(Reply::Idle);
        }
        let number = self.saver.drop_copy(&mut self.space, &mut self.pages);
        self.append(client, Cmd::Unsave, Reply::Dropped(number));
        Ok(Reply::Dropped(number))
    }
}
