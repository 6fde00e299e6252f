//! What a standby has had since it was made.
ghost use Rattle.std.specs.Prelude.{◌≡◌, ℕ, Bool, List, []};
ghost use Rattle.pm_disk.specs.Disk.{LeavesOnly};
ghost use Rattle.pm_disk.specs.declared.disk.Disk as disk;
ghost use Rattle.pm_model.specs.World.{Copy};
ghost use Rattle.pm_image.specs.CarAnswers.{AreBytes};
ghost use Rattle.pm_image.specs.Stands.{Opened, StandsForCopy};
ghost use Rattle.pm_shadow.specs.Attaching.{HasFound};
ghost use Rattle.pm_shadow.specs.State.{State, attached};
ghost use Rattle.pm_saving.specs.Tied.{HasCopy};
ghost use Rattle.pm_ship.specs.Offers.{Offer};
ghost use Rattle.pm_ship.specs.Shipped.{GotIt};
ghost use Rattle.pm_ship.specs.History.{AreShips, Call, IsJustMade, StandsForOne, settled_by};

use pm_disk::Disk;

/// A law of a standby over its history, of `ship` on attached pages: it was made, and then a first store was shipped to it,
/// again and again, while that one settled its copies. At every moment since it was made each image of the standby stands
/// for copy 0 of nothing, or for a copy that the first store had settled by then, whatever the ships answered.
pub fn a_standby_has_a_settled_copy<D: Disk, E: Disk>()
    ensures { (start end : E) (calls : List (Call D.Disk E.Disk)) → IsJustMade E.Disk start
        → AreShips D.Disk E.Disk start [] calls end
        → LeavesOnly E.moment E.since start end (StandsForOne (settled_by D.Disk E.Disk [] calls)) }
{}

/// A law of pages that were attached: they have the copy for which their bytes stand.
pub fn attached_pages_have_their_copy()
    ensures { (s : State) (bytes : List ℕ) (number : ℕ) (copy : Copy) → AreBytes bytes → HasFound s bytes
        → s ≡ attached s.slot s.header s.count s.closed → StandsForCopy bytes number copy → HasCopy s bytes copy }
{}

/// A law of what a standby gets: by what both stores have it is one list of bytes.
pub fn a_ship_leaves_one_store()
    ensures { (offer : Offer) (mine : Opened) (closed : Bool) (was now other : List ℕ) (written again : ℕ)
        → GotIt offer mine closed was now written → GotIt offer mine closed was other again → now ≡ other }
{}
