ghost use Rattle.std.specs.Prelude.{◌≡◌, true, false, length};
ghost use Rattle.pm_passes.specs.Views.{HasOwn, view_in};

use crate::view::View;
use atomic_table::Badge;

/// What a caller has: a number that no other pass has, a part of the shares, and what it has seen of the log. Its type
/// does not name the value.
#[derive(Drop)]
pub struct Pass<E> {
    /// The seat. For a call it is replaced by a blank one, and comes back behind it.
    pub badge: Badge<View<E>>,
    pub(crate) number: u64,
    pub(crate) shares: u64,
    ghost one: { length badge.views ≡ 1 },
    ghost numbered: { number ≡ (view_in badge.views).number },
    ghost shared: { shares ≡ (view_in badge.views).shares },
    ghost speaks: { (view_in badge.views).speaks ≡ true },
    ghost free: { (view_in badge.views).holds ≡ false },
    ghost still: { length (view_in badge.views).also ≡ 0 },
    ghost own: { ∥ HasOwn (view_in badge.views) ∥₁ },
}

impl<E> Pass<E> {
    ghost use Rattle.pm_passes.specs.Passes.{view_of};

    /// Its number, by which the log has its entries.
    pub fn number(&self) -> u64
        ensures { result ≡ (view_of self.now).number }
    {
        self.number
    }

    /// How many of the 4,294,967,296 shares it has. It can be split while it has two.
    pub fn shares(&self) -> u64
        ensures { result ≡ (view_of self.now).shares }
    {
        self.shares
    }

    /// A law of passes: the entries of its number in its front are those that it made, in order, and the entries of a
    /// pass that was met into it are those that one made.
    pub fn keeps_its_entries(&self)
        ensures { ∥ HasOwn (view_of self.now) ∥₁ }
    {}
}
