//! How entries are cut into the pages of a catalog. Each function's contract is a law, and the function does nothing.

ghost use Rattle.std.specs.Prelude.{◌≡◌, ℕ, ◌+◌, ◌<◌, ◌≤◌, List, [], ◌∷◌, ◌++◌, map, length, replicate};
ghost use Rattle.std.specs.List.{AllByRecursion};
ghost use Rattle.pm_types.specs.declared.address.Addr.{Addr};
ghost use Rattle.pm_types.specs.declared.limits.TheConstants.{PAGE_BYTES};
ghost use Rattle.pm_image.specs.declared.catalog.CatEntry.{CatEntry};
ghost use Rattle.pm_image.specs.CatalogPages.{catalog_used, entry_size};
ghost use Rattle.pm_copies.specs.Plans.{CarPlan, cars_in, planned_entries};
ghost use Rattle.pm_copies.specs.Cutting.{FitsAlone, IsCutInto, OnePage, cut};
ghost use Rattle.pm_copies.specs.Laid.{IsCatalogFilled, IsStorePlan};
ghost use Rattle.pm_image.specs.declared.catalog_kind.TheConstants.{CAR_ENTRY_BYTES, ROOT_ENTRY_BYTES};

/// A law of catalogs: entries of which each fits a page are cut into pages, each filled before the next, in one way
/// alone; so a catalog of given entries has one number of pages.
pub fn entries_are_cut_in_one_way()
    // They are cut as `cut` says,
    ensures some { (entries : List CatEntry) → AllByRecursion FitsAlone entries → IsCutInto entries (cut entries) }
    // and in no other way.
    ensures one { (entries : List CatEntry) (pages : List OnePage) → IsCutInto entries pages → pages ≡ cut entries }
    // The entries of a plan that is one of a store may be cut.
    ensures planned { (next most : ℕ) (plan : CarPlan) → IsStorePlan next most plan
        → IsCutInto (planned_entries plan) (cut (planned_entries plan)) }
{}

/// A law of catalogs: entries are cut one after the other. The next one goes on the last page where it has room there,
/// and on a page of its own where it has none; the pages before stay as they are.
pub fn cutting_goes_on_at_the_last_page()
    ensures begins { IsCutInto [] ([] ∷ []) }
    ensures room { (entries : List CatEntry) (pages : List OnePage) (last : OnePage) (entry : CatEntry)
        → IsCutInto entries (pages ++ last ∷ []) → catalog_used last + entry_size entry ≤ PAGE_BYTES
        → IsCutInto (entries ++ entry ∷ []) (pages ++ (last ++ entry ∷ []) ∷ []) }
    ensures full { (entries : List CatEntry) (pages : List OnePage) (last : OnePage) (entry : CatEntry)
        → IsCutInto entries (pages ++ last ∷ []) → FitsAlone entry → PAGE_BYTES < catalog_used last + entry_size entry
        → IsCutInto (entries ++ entry ∷ []) (pages ++ last ∷ (entry ∷ []) ∷ []) }
{}

/// A law of catalogs: how many entries each page has, and so how many pages there are, depends on the sizes of the
/// entries alone; and these of a plan on the number of its cars and the lengths of its names. So the number of pages
/// is known before a page has a number or a digest.
pub fn pages_are_cut_by_sizes()
    ensures sizes { (first second : List CatEntry) → map entry_size first ≡ map entry_size second
        → map (λ (page : OnePage). length page) (cut first) ≡ map (λ (page : OnePage). length page) (cut second) }
    ensures count { (first second : List CatEntry) → map entry_size first ≡ map entry_size second
        → length (cut first) ≡ length (cut second) }
    ensures planned { (plan : CarPlan) → map entry_size (planned_entries plan)
        ≡ replicate (length (cars_in plan)) CAR_ENTRY_BYTES ++ map
        (λ (root : List ℕ × Addr). ROOT_ENTRY_BYTES + length root.0) plan.roots }
    ensures plans { (first second : CarPlan) → IsCatalogFilled first → IsCatalogFilled second
        → length (cars_in first) ≡ length (cars_in second)
        → map (λ (root : List ℕ × Addr). length root.0) first.roots
        ≡ map (λ (root : List ℕ × Addr). length root.0) second.roots
        → length first.catalog ≡ length second.catalog }
{}
