//! Setting a watch.

ghost use Rattle.std.specs.Prelude.{◌≡◌, IfOk, OnErr};

use crate::works::works::Works;
use pm_disk::Disk;
use pm_reclaim::set_watch;
use pm_types::{Cmd, NoMemory, Reply};

impl<D: Disk, F: Drop> Works<D, F> {
    ghost use Rattle.pm_engine.specs.Works.Working.{IsLeft, IsTiedIn, Watches, place_in};

    /// `watch`: one more is set, unless as many are as may be. After want of memory all is as it was.
    pub(crate) fn watch(&mut self, client: u32) -> Result<Reply, NoMemory>
        requires tied { IsTiedIn self.old }
        ensures watches { IfOk result (Watches client self.old self.new) }
        ensures tied { IsTiedIn self.new }
        ensures err { OnErr result (IsLeft self.old self.new) }
        ensures pages { self.new.pages ≡ self.old.pages }
        ensures place { place_in self.new ≡ place_in self.old }
    {
        let position = self.entries();
        self.journal.reserve(1)?;
        if self.watches.is_full() {
            self.append(client, Cmd::Watch, Reply::TooManyWatches);
            return Ok(Reply::TooManyWatches);
        }
        self.watches.push(set_watch(&self.space, position));
        let number = self.watches.len() as u32;
        self.append(client, Cmd::Watch, Reply::Watching(number));
        Ok(Reply::Watching(number))
    }
}
