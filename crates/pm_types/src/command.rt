ghost use Rattle.std.specs.Prelude.{◌≡◌, IfOk};
ghost use Rattle.pm_types.specs.Registers.{HasRegisters};

use crate::{Bytes, Name, NoMemory, Reg};
use std::alloc::Global;

/// What a client asks for. Every register is one of that client's own.
#[derive(Debug, Drop)]
pub enum Cmd {
    /// Make an object of `count` null fields and these bytes, and hold it in `reg`.
    New {
        reg: Reg,
        count: u32,
        bytes: Bytes,
    },
    /// Let `to` hold what field `index` of `reg`'s object holds. A null field leaves `to` empty.
    Load {
        to: Reg,
        reg: Reg,
        index: u32,
    },
    /// Let field `index` of `reg`'s object hold what `value` holds.
    Store {
        reg: Reg,
        index: u32,
        value: Reg,
    },
    /// Let field `index` of `reg`'s object be null.
    Clear {
        reg: Reg,
        index: u32,
    },
    /// Tell the bytes of the object that `reg` holds.
    Show {
        reg: Reg,
    },
    /// Put these bytes into the object that `reg` holds, from byte `at` on, counted from 0.
    Put {
        reg: Reg,
        at: u32,
        bytes: Bytes,
    },
    /// Let `to` hold what `reg` holds.
    Copy {
        to: Reg,
        reg: Reg,
    },
    /// Tell the identity of what `reg` holds.
    IdOf {
        reg: Reg,
    },
    /// Let `reg` be empty.
    Forget {
        reg: Reg,
    },
    /// Bind the name to what `reg` holds, in place of an earlier binding.
    Bind {
        name: Name,
        reg: Reg,
    },
    /// Let the name be bound to nothing.
    Unbind {
        name: Name,
    },
    /// Let `to` hold what the name is bound to.
    Find {
        to: Reg,
        name: Name,
    },
    /// Begin a copy of all that the names reach.
    Save,
    /// Settle the copy that is in progress.
    Settle,
    /// Set a watch.
    Watch,
    /// Let all registers of the client be empty.
    Close,
    /// Let field `index` of `reg`'s object hold what `value` holds, where it holds what `old` holds.
    Swap {
        reg: Reg,
        index: u32,
        old: Reg,
        value: Reg,
    },
    /// Give up the copy that is in progress.
    Unsave,
}

impl Cmd {
    /// A law: each register of a command is one that a client has. The function changes nothing.
    pub fn sound(&self)
        ensures { HasRegisters self.now }
    {
        match self {
            Cmd::New { reg, .. } => reg.sound(),
            Cmd::Load { to, reg, .. } => {
                to.sound();
                reg.sound();
            }
            Cmd::Store { reg, value, .. } => {
                reg.sound();
                value.sound();
            }
            Cmd::Clear { reg, .. } => reg.sound(),
            Cmd::Show { reg } => reg.sound(),
            Cmd::Put { reg, .. } => reg.sound(),
            Cmd::Copy { to, reg } => {
                to.sound();
                reg.sound();
            }
            Cmd::IdOf { reg } => reg.sound(),
            Cmd::Forget { reg } => reg.sound(),
            Cmd::Bind { reg, .. } => reg.sound(),
            Cmd::Find { to, .. } => to.sound(),
            Cmd::Swap {
                reg,
                old,
                value,
                ..
            } => {
                reg.sound();
                old.sound();
                value.sound();
            }
            Cmd::Unbind { .. } | Cmd::Close | Cmd::Save | Cmd::Settle | Cmd::Unsave | Cmd::Watch =>
                {}
        }
    }

    /// The same command again.
    pub fn copy(&self, alloc: Global) -> Result<Cmd, NoMemory>
        ensures { IfOk result (λ copied. copied ≡ self.now) }
    {
        match self {
            Cmd::New { reg, count, bytes } => {
                let bytes = bytes.copy(alloc)?;
                Ok(Cmd::New {
                    reg: *reg,
                    count: *count,
                    bytes,
                })
            }
            Cmd::Load { to, reg, index } => Ok(Cmd::Load {
                to: *to,
                reg: *reg,
                index: *index,
            }),
            Cmd::Store { reg, index, value } => Ok(Cmd::Store {
                reg: *reg,
                index: *index,
                value: *value,
            }),
            Cmd::Clear { reg, index } => Ok(Cmd::Clear {
                reg: *reg,
                index: *index,
            }),
            Cmd::Show { reg } => Ok(Cmd::Show { reg: *reg }),
            Cmd::Put { reg, at, bytes } => {
                let bytes = bytes.copy(alloc)?;
                Ok(Cmd::Put {
                    reg: *reg,
                    at: *at,
                    bytes,
                })
            }
            Cmd::Copy { to, reg } => Ok(Cmd::Copy { to: *to, reg: *reg }),
            Cmd::IdOf { reg } => Ok(Cmd::IdOf { reg: *reg }),
            Cmd::Forget { reg } => Ok(Cmd::Forget { reg: *reg }),
            Cmd::Bind { name, reg } => {
                let name = name.copy(alloc)?;
                Ok(Cmd::Bind { name, reg: *reg })
            }
            Cmd::Unbind { name } => {
                let name = name.copy(alloc)?;
                Ok(Cmd::Unbind { name })
            }
            Cmd::Find { to, name } => {
                let name = name.copy(alloc)?;
                Ok(Cmd::Find { to: *to, name })
            }
            Cmd::Save => Ok(Cmd::Save),
            Cmd::Settle => Ok(Cmd::Settle),
            Cmd::Watch => Ok(Cmd::Watch),
            Cmd::Close => Ok(Cmd::Close),
            Cmd::Swap {
                reg,
                index,
                old,
                value,
            } => Ok(Cmd::Swap {
                reg: *reg,
                index: *index,
                old: *old,
                value: *value,
            }),
            Cmd::Unsave => Ok(Cmd::Unsave),
        }
    }
}
