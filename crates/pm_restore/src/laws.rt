//! What holds of new stores. Each function's contract is a law, and the function does nothing.
ghost use Rattle.std.specs.Prelude.{◌≡◌, ℕ, List, Option};
ghost use Rattle.pm_disk.specs.Disk.{IfTold};
ghost use Rattle.pm_image.specs.Blank.{blank_store};
ghost use Rattle.pm_shadow.specs.State.{new_store};
ghost use Rattle.pm_restore.specs.Restored.{IsNewStore};

/// The pages of a store that was just made are those of a new store: a dump may be settled on them.
pub fn a_made_store_is_new()
    ensures { (contents : Option (List ℕ)) → IfTold contents (λ bytes. bytes ≡ blank_store)
        → IsNewStore new_store contents }
{}
