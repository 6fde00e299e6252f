ghost use Rattle.std.specs.Prelude.{◌≡◌, ℕ, ◌<◌, ◌^◌, List, length, slice_index, Option, Ok};
ghost use Rattle.pm_types.specs.declared.limits.TheConstants.{PAGE_BYTES};
ghost use Rattle.pm_image.specs.declared.catalog.CatalogPage.{CatalogPage};
ghost use Rattle.pm_image.specs.declared.catalog_kind.TheConstants.{ENTRIES, CAR_ENTRY_BYTES, ROOT_ENTRY_BYTES};
ghost use Rattle.pm_image.specs.CarPages.{padded};
ghost use Rattle.pm_image.specs.CatalogPages.{Met, catalog_at, catalog_spelling, HasCatalogPage, IsCatalogInRange};

/// A law of limits: the numbers of a catalog page, in bytes. The entry of a root has the bytes of its name besides.
pub fn limits_of_catalogs()
    ensures entries { ENTRIES ≡ 46 }
    ensures car { CAR_ENTRY_BYTES ≡ 57 }
    ensures root { ROOT_ENTRY_BYTES ≡ 14 }
{}

/// The laws of the spelling of catalog pages, in a store of any number of pages or by themselves, whatever was met
/// before.
pub fn catalog_pages_are_read_again()
    // What is written is read again.
    ensures again { (count : Option ℕ) (met : Met) (page : CatalogPage) → HasCatalogPage count met page
        → IsCatalogInRange page → catalog_at count met (padded (catalog_spelling page)) ≡ Ok page }
    // What is read is spelled so, with zeros to the page's end, and may come after what was met.
    ensures found { (count : Option ℕ) (met : Met) (bytes : List ℕ) (page : CatalogPage) → length bytes ≡ PAGE_BYTES
        → ((i : ℕ) → slice_index bytes i < 2 ^ 8) → catalog_at count met bytes ≡ Ok page
        → HasCatalogPage count met page × (bytes ≡ padded (catalog_spelling page)) }
    // Two pages that are spelled alike are one.
    ensures apart { (count : Option ℕ) (met : Met) (a b : CatalogPage) → HasCatalogPage count met a
        → IsCatalogInRange a → HasCatalogPage count met b → IsCatalogInRange b
        → padded (catalog_spelling a) ≡ padded (catalog_spelling b) → a ≡ b }
{}
