//! Which copy a space is, that what it lists is accepted again, and what opening makes of it. Each function's
//! contract is the law, and the function does nothing.

ghost use Rattle.std.specs.Prelude.{◌≡◌, ◌<◌, ℕ, not, cond, List, map, Some, None, Ok};
ghost use Rattle.std.specs.List.{filter, AllByRecursion};
ghost use Rattle.std.specs.FinSet as set;
ghost use Rattle.std.specs.FinMap.{get};
ghost use Rattle.pm_types.specs.declared.limits.TheConstants.{FIELDS};
ghost use Rattle.pm_types.specs.declared.address.Addr.{Addr};
ghost use Rattle.pm_types.specs.declared.object.Slot.{Slot};
ghost use Rattle.pm_cars.specs.Cars.{Car};
ghost use Rattle.pm_model.specs.World.{World, Copy, begin};
ghost use Rattle.pm_model.specs.Copying.{copy};
ghost use Rattle.pm_trains.specs.Trains.{train_of};
ghost use Rattle.pm_trains.specs.Sound.{all_cars};
ghost use Rattle.pm_image.specs.declared.car.CarImage.{CarImage};
ghost use Rattle.pm_image.specs.declared.catalog.CatEntry.{CatEntry};
ghost use Rattle.pm_image.specs.CarAnswers.{AreBytes};
ghost use Rattle.pm_image.specs.CarPages.{one_car, HasCarPage};
ghost use Rattle.pm_image.specs.Graphs.{slot_named, identity_in, entries_of, copy_of};
ghost use Rattle.pm_image.specs.Stands.{Opened, StandsForCopy, opened};
ghost use Rattle.pm_view.specs.View.{SpaceView};
ghost use Rattle.pm_view.specs.Reading.{slot_at, id_at, is_aside};
ghost use Rattle.pm_view.specs.Law.{HeapLaw};
ghost use Rattle.pm_view.specs.Represents.{Represents};
ghost use Rattle.pm_copies.specs.Listed.{Listed, images, listed, listed_cars, root_entries, copy_listed, copy_in};
ghost use Rattle.pm_copies.specs.Accepted.{IsAccepted, HavePages};
ghost use Rattle.pm_copies.specs.Opened.{IsOpened, listed_graph, IsOpenedStore};
ghost use Rattle.pm_law_copies.specs.Stood.{HasWhatStands};

/// A law of copies: the copy of every world that a space stands for is the one that its listed cars and its
/// roots are.
pub fn a_space_holds_its_worlds_copy()
    ensures { (view : SpaceView) (world : World) → HeapLaw view → Represents view world → copy world ≡ copy_in view }
{}

/// A law of worlds: a space that keeps the heap law stands for some world, whose heap has the objects that stand in the
/// space, and no other. So what is said of every world that a space stands for is never said of none.
pub fn a_space_stands_for_some_world()
    ensures { (view : SpaceView) → HeapLaw view → (world : World) × HasWhatStands view world }
{}

/// A law of lists: what is listed of a space is each slot as it stands, Live or Moved, but for those of cars that
/// are set aside, which are not listed; the cars stand in the order of their trains, each listed with its train; and
/// no rule refuses what is listed.
pub fn a_copys_cars_are_accepted()
    ensures slots { (view : SpaceView) (a : Addr) → HeapLaw view
        → slot_named (listed_cars view) a ≡ cond (is_aside view a.car) None (slot_at view.cars a) }
    ensures numbers { (view : SpaceView) → HeapLaw view
        → map (λ (car : CarImage). car.number) (listed_cars view)
        ≡ filter (λ car. not (is_aside view car)) (all_cars view.trains.trains) }
    ensures trains { (view : SpaceView) → HeapLaw view
        → AllByRecursion (λ (one : Listed). train_of view.trains.trains one.1.number ≡ Some one.0) (listed view) }
    ensures accepted { (view : SpaceView) → HeapLaw view → IsAccepted (listed view) (root_entries view) view.next }
{}

/// A law of pages: each car that is accepted has a page by itself, and has one behind those before it, whose
/// identities were met.
pub fn accepted_cars_have_pages()
    ensures alone { (listed : List Listed) (catalog : List CatEntry) (next : ℕ) → IsAccepted listed catalog next
        → AllByRecursion (HasCarPage (one_car FIELDS) set.empty) (images listed) }
    ensures behind { (listed : List Listed) (catalog : List CatEntry) (next : ℕ) → IsAccepted listed catalog next
        → HavePages FIELDS next set.empty (images listed) }
{}

/// A law of opening: the space that opening makes of cars and roots that no rule refuses keeps the heap law, and
/// stands for the world in which their copy was just opened, under whatever number. It would save that copy again.
pub fn an_opened_space_keeps_the_law()
    ensures law { (listed : List Listed) (catalog : List CatEntry) (next : ℕ) (view : SpaceView)
        → IsAccepted listed catalog next → IsOpened listed catalog next view → HeapLaw view }
    ensures world { (listed : List Listed) (catalog : List CatEntry) (next : ℕ) (view : SpaceView) (number : ℕ)
        → IsAccepted listed catalog next → IsOpened listed catalog next view
        → Represents view (begin number (copy_listed listed catalog next)) }
    ensures copy { (listed : List Listed) (catalog : List CatEntry) (next : ℕ) (view : SpaceView)
        → IsAccepted listed catalog next → IsOpened listed catalog next view
        → copy_in view ≡ copy_listed listed catalog next }
{}

/// A law of opening: each object stays in its slot, and no other slot has one; no slot that was listed comes after the
/// next one of its car.
pub fn opening_leaves_objects_in_their_slots()
    ensures objects { (listed : List Listed) (catalog : List CatEntry) (next : ℕ) (view : SpaceView) (a : Addr)
        → IsAccepted listed catalog next → IsOpened listed catalog next view
        → id_at view a ≡ identity_in (slot_named (images listed) a) }
    ensures next { (listed : List Listed) (catalog : List CatEntry) (next : ℕ) (view : SpaceView) (a : Addr)
        (slot : Slot) (car : Car) → IsAccepted listed catalog next → IsOpened listed catalog next view
        → slot_named (images listed) a ≡ Some slot → get view.cars a.car ≡ Some car → a.slot < car.next }
{}

/// A law of opening: there is a space that it makes of cars and roots that no rule refuses, and one alone but for the
/// numbers of the roots.
pub fn opening_makes_one_space()
    ensures some { (listed : List Listed) (catalog : List CatEntry) (next : ℕ) → IsAccepted listed catalog next
        → (view : SpaceView) × IsOpened listed catalog next view }
    ensures one { (listed : List Listed) (catalog : List CatEntry) (next : ℕ) (view other : SpaceView)
        → IsOpened listed catalog next view → IsOpened listed catalog next other → view.roots ≡ other.roots
        → view ≡ other }
{}

/// A law of stores: where bytes stand for a copy, what they list is accepted and is that copy; and the space that
/// opening makes of them keeps the heap law and stands for the world in which the copy was just opened, under its
/// number.
pub fn a_store_is_opened_as_its_copy()
    ensures accepted { (bytes : List ℕ) (found : Opened) → AreBytes bytes → opened bytes ≡ Ok found
        → IsAccepted (listed_graph found.graph) (entries_of found.graph.catalog) found.current.header.next }
    ensures copy { (bytes : List ℕ) (found : Opened) → opened bytes ≡ Ok found
        → copy_listed (listed_graph found.graph) (entries_of found.graph.catalog) found.current.header.next
        ≡ copy_of found.current.header.next found.graph }
    ensures law { (bytes : List ℕ) (view : SpaceView) → AreBytes bytes → IsOpenedStore bytes view → HeapLaw view }
    ensures world { (bytes : List ℕ) (number : ℕ) (copy : Copy) (view : SpaceView) → AreBytes bytes
        → StandsForCopy bytes number copy → IsOpenedStore bytes view → Represents view (begin number copy) }
{}
