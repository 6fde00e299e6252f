//! What a plan lays on pages. Each function's contract is a law, and the function does nothing.

ghost use Rattle.std.specs.Prelude.{◌≡◌, ℕ, ◌<◌, ◌≤◌, ◌^◌, List, map, None, Ok};
ghost use Rattle.std.specs.List.{AllByRecursion};
ghost use Rattle.std.specs.FinSet as set;
ghost use Rattle.pm_types.specs.declared.limits.TheConstants.{FIELDS};
ghost use Rattle.pm_layout.specs.declared.header.Header.{Header};
ghost use Rattle.pm_layout.specs.Headers.{HasHeaderSpelling};
ghost use Rattle.pm_image.specs.declared.catalog.CatalogPage.{CatalogPage};
ghost use Rattle.pm_image.specs.declared.settled.KeptPage.{KeptPage};
ghost use Rattle.pm_image.specs.CarPages.{HasCarPage, one_car};
ghost use Rattle.pm_image.specs.CatalogPages.{HasCatalogPage, nothing_met};
ghost use Rattle.pm_image.specs.Opening.{Current, current, page_count};
ghost use Rattle.pm_image.specs.Graphs.{Graph, Pages, copy_of, entries_of, graph_of, used_pages};
ghost use Rattle.pm_image.specs.Stands.{opened, pages_of};
ghost use Rattle.pm_copies.specs.Listed.{copy_listed};
ghost use Rattle.pm_copies.specs.Opened.{listed_graph};
ghost use Rattle.pm_copies.specs.Spelled.{Spells};
ghost use Rattle.pm_copies.specs.Plans.{CarPlan, PlannedPage, chain_of, graph_of_plan};
ghost use Rattle.pm_copies.specs.Plans.{planned_cars, planned_entries, planned_list, planned_pages, planned_roots};
ghost use Rattle.pm_copies.specs.Cutting.{cut};
ghost use Rattle.pm_copies.specs.Laid.{IsCarHeld, IsPlanHeader, IsLaidBehind, IsCatalogFilled, IsStorePlan};
ghost use Rattle.pm_copies.specs.Writing.{MayBeWritten};

/// A law of layout: what a plan of cars and roots lays on the pages of a store is read again as that plan: its cars,
/// each as it is, in its train and on its page; its roots; and its catalog, page by page.
pub fn what_a_plan_lays_is_read_again()
    // The pages spell the graph of the plan behind the header,
    ensures spelled { (pages : Pages) (header : Header) (plan : CarPlan) → pages.count ≤ 2 ^ 64
        → IsLaidBehind pages header plan → Spells pages header (graph_of_plan plan) }
    // and that graph is found there,
    ensures found { (pages : Pages) (header : Header) (plan : CarPlan) → pages.count ≤ 2 ^ 64
        → IsLaidBehind pages header plan → graph_of pages header ≡ Ok (graph_of_plan plan) }
    // so it is what bytes are opened with, where the header is their current one.
    ensures opened { (bytes : List ℕ) (now : Current) (plan : CarPlan) → page_count bytes ≤ 2 ^ 64
        → current bytes ≡ Ok now → IsLaidBehind (pages_of bytes) now.header plan
        → opened bytes ≡ Ok (record { current = now; graph = graph_of_plan plan }) }
    // The graph stands on the pages of the plan,
    ensures used { (plan : CarPlan) → used_pages (graph_of_plan plan) ≡ planned_pages plan }
    // it lists the plan's entries, and its cars in their trains,
    ensures entries { (plan : CarPlan) → IsCatalogFilled plan
        → entries_of (graph_of_plan plan).catalog ≡ planned_entries plan }
    ensures listed { (plan : CarPlan) → IsCatalogFilled plan → listed_graph (graph_of_plan plan) ≡ planned_list plan }
    // and is the copy that the plan's cars and roots are.
    ensures copy { (plan : CarPlan) (next : ℕ) → IsCatalogFilled plan → copy_of next (graph_of_plan plan)
        ≡ copy_listed (planned_list plan) (planned_roots plan) next }
{}

/// A law of layout: what a plan of a store lays may be written, each car and each page of its catalog by itself, and
/// its header.
pub fn a_plans_pages_may_be_written()
    ensures cars { (next most : ℕ) (plan : CarPlan) → IsStorePlan next most plan
        → AllByRecursion (λ (kept : KeptPage). HasCarPage (one_car FIELDS) set.empty kept.image) (planned_cars plan) }
    // Before the pages of the catalog have numbers, what its entries are cut into may be written,
    ensures parts { (next most : ℕ) (plan : CarPlan) → IsStorePlan next most plan
        → AllByRecursion MayBeWritten (cut (planned_entries plan)) }
    // and with them each page, which names the next one with its digest, may be.
    ensures catalog { (next most : ℕ) (plan : CarPlan) → IsStorePlan next most plan → IsCatalogFilled plan
        → AllByRecursion (λ (page : ℕ). 0 < page) (map (λ (listed : PlannedPage). listed.page) plan.catalog)
        → AllByRecursion (λ (page : ℕ × CatalogPage). HasCatalogPage None nothing_met page.1)
        (chain_of plan.catalog) }
    // The header has a spelling.
    ensures header { (most : ℕ) (header : Header) (plan : CarPlan) → IsStorePlan header.next most plan
        → IsPlanHeader plan header → HasHeaderSpelling header }
{}

/// A law of kept pages: the page of a car that stands behind a header holds that car, so a plan of the next copy may
/// have it; and it holds the car in each store in which it has the same bytes.
pub fn a_kept_page_holds_its_car()
    ensures now { (pages : Pages) (header : Header) (graph : Graph) → Spells pages header graph
        → AllByRecursion (IsCarHeld pages) graph.cars }
    ensures later { (before after : Pages) (kept : KeptPage) → IsCarHeld before kept
        → after.page kept.page ≡ before.page kept.page → IsCarHeld after kept }
{}
