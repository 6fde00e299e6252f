ghost use Rattle.std.specs.Prelude.{◌≡◌};
ghost use Rattle.pm_shadow.specs.Uses.{is_free, renewed, abandoned};

/// What a page of a store is used for.
#[derive(Clone, Copy, Debug, PartialEq, Eq)]
pub enum PageUse {
    /// It may be claimed.
    Free,
    /// The current copy stands on it, among others: it is not written.
    Current,
    /// It was claimed for the next copy, and may be written.
    Claimed,
    /// The current copy stands on it, and the next one will too: it is not written.
    Kept,
}

impl PageUse {
    /// The page may be claimed.
    pub(crate) fn is_free(self) -> bool
        ensures { result ≡ is_free self }
    {
        match self {
            PageUse::Free => true,
            PageUse::Current | PageUse::Claimed | PageUse::Kept => false,
        }
    }

    /// What it is used for once the next copy is the current one.
    pub(crate) fn renewed(self) -> PageUse
        ensures { result ≡ renewed self }
    {
        match self {
            PageUse::Free | PageUse::Current => PageUse::Free,
            PageUse::Claimed | PageUse::Kept => PageUse::Current,
        }
    }

    /// What it is used for once the next copy is given up.
    pub(crate) fn abandoned(self) -> PageUse
        ensures { result ≡ abandoned self }
    {
        match self {
            PageUse::Free | PageUse::Claimed => PageUse::Free,
            PageUse::Current | PageUse::Kept => PageUse::Current,
        }
    }
}
