ghost use Rattle.std.specs.Prelude.{◌≡◌, IfOk, OnErr, true};
ghost use Rattle.pm_types.specs.Replies.{is_shown};

use crate::{Bytes, Id, NoMemory};
use std::alloc::Global;

/// The answer to a command. `Null` answers `load`, and refuses `swap`; every other reply either always
/// refuses or never does. A command that is refused changed nothing.
#[derive(Debug, PartialEq, Eq, Drop)]
pub enum Reply {
    /// Done, and there is nothing to tell.
    Done,
    /// Done, and this is the object's identity.
    Ident(Id),
    /// The field is null. `load` is done, and its register is empty; `swap` is refused.
    Null,
    /// Done, and these are the object's bytes.
    Shown(Bytes),
    /// The copy of this number, 1 to 4,294,967,295, was begun.
    Begun(u32),
    /// The copy of this number settled: it is on the disk.
    Saved(u32),
    /// The watch of this number, 1 to 64, was set.
    Watching(u32),
    /// Refused: the object would have more than 255 fields or more than 4,096 bytes.
    TooLarge,
    /// Refused: identity 4,294,967,295 was given, and there is no further one.
    IdsSpent,
    /// Refused: the register is empty.
    NoHandle,
    /// Refused: the object has no field of this number.
    NoField,
    /// Refused: the bytes would go past the object's last one.
    OutOfRange,
    /// Refused: the name is not bound, and 4,096 names are.
    TooManyRoots,
    /// Refused: the name is not bound.
    NoRoot,
    /// Refused: the copy of this number was begun and has not settled.
    Busy(u32),
    /// Refused: copy 4,294,967,295 settled, and there is no further one.
    SavesSpent,
    /// Refused: no copy is in progress.
    Idle,
    /// Refused: 64 watches are set.
    TooManyWatches,
    /// The copy of this number, which was in progress, was given up.
    Dropped(u32),
    /// Refused: the field holds the object of this identity, which is another one.
    Held(Id),
}

impl Reply {
    /// The same reply again. It takes memory for bytes that are shown alone.
    pub fn copy(&self, alloc: Global) -> Result<Reply, NoMemory>
        ensures same { IfOk result (λ copied. copied ≡ self.now) }
        ensures shown { OnErr result (is_shown self.now ≡ true) }
    {
        Ok(match self {
            Reply::Done => Reply::Done,
            Reply::Ident(id) => Reply::Ident(*id),
            Reply::Null => Reply::Null,
            Reply::Shown(bytes) => Reply::Shown(bytes.copy(alloc)?),
            Reply::Begun(number) => Reply::Begun(*number),
            Reply::Saved(number) => Reply::Saved(*number),
            Reply::Watching(number) => Reply::Watching(*number),
            Reply::TooLarge => Reply::TooLarge,
            Reply::IdsSpent => Reply::IdsSpent,
            Reply::NoHandle => Reply::NoHandle,
            Reply::NoField => Reply::NoField,
            Reply::OutOfRange => Reply::OutOfRange,
            Reply::TooManyRoots => Reply::TooManyRoots,
            Reply::NoRoot => Reply::NoRoot,
            Reply::Busy(number) => Reply::Busy(*number),
            Reply::SavesSpent => Reply::SavesSpent,
            Reply::Idle => Reply::Idle,
            Reply::TooManyWatches => Reply::TooManyWatches,
            Reply::Dropped(number) => Reply::Dropped(*number),
            Reply::Held(id) => Reply::Held(*id),
        })
    }
}
