//! The rows that commands and events are made of: each keeps the heap law, and what the space stands for
//! changes as the row says. Each function's contract is the law, and the function does nothing.

ghost use Rattle.std.specs.Prelude.{◌≡◌, ◌<◌, ◌≤◌, ℕ, Bool, true, false, cond, List, length, Option, Some, None, IsSome};
ghost use Rattle.std.specs.FinMap.{get, len};
ghost use Rattle.pm_types.specs.declared.limits.TheConstants.{ROOTS};
ghost use Rattle.pm_types.specs.declared.address.Addr.{Addr};
ghost use Rattle.pm_types.specs.declared.object.Object as kept;
ghost use Rattle.pm_types.specs.declared.source.RefSource.{RefSource};
ghost use Rattle.pm_types.specs.declared.source.RefSource.TheVariants.{Root, Handle, Field};
ghost use Rattle.pm_roots.specs.Bindings.{IsFree};
ghost use Rattle.pm_model.specs.Heap.{Object, with_field, with_bytes};
ghost use Rattle.pm_model.specs.World.{World, empty_world, naming, unbinding, changing};
ghost use Rattle.pm_view.specs.Sources.{same_source, outside, slot_in};
ghost use Rattle.pm_view.specs.View.{SpaceView};
ghost use Rattle.pm_view.specs.Reading.{object_at, stored, is_aside, named_by, SourceStands};
ghost use Rattle.pm_view.specs.Seen.{seen, IsTiedInWords, MayStore};
ghost use Rattle.pm_view.specs.Effective.{effective};
ghost use Rattle.pm_view.specs.Barrier.{barrier, news};
ghost use Rattle.pm_view.specs.Law.{HeapLaw};
ghost use Rattle.pm_view.specs.Represents.{names, meaning, Represents, registered};
ghost use Rattle.pm_view.specs.Rows.{spread, HasValue, with_name, without_name, with_bytes_at, HasBytesAt, born, MayBeBorn, IsVacant, new_space};

/// A law of the write barrier: of a source that stores another address a car hears at most once, and then
/// each effective set of a car that is not set aside gives for it what it stores.
pub fn a_car_hears_at_most_once()
    ensures once { (aside : ℕ → Bool) (x : RefSource) (old new : Option Addr) (car : ℕ)
        → length (news car (barrier aside x old new)) ≤ 1 }
    ensures here { (view : SpaceView) (x : RefSource) (to : Option Addr) (car : ℕ) → HeapLaw view → SourceStands view x
        → HasValue x to → MayStore (seen view) to
        → is_aside view car ≡ false → outside car x ≡ true → effective (spread view x to) car x ≡ slot_in car to }
    ensures others { (view : SpaceView) (x : RefSource) (to : Option Addr) (car : ℕ) (y : RefSource) → HeapLaw view
        → SourceStands view x → HasValue x to → MayStore (seen view) to
        → same_source x y ≡ false → effective (spread view x to) car y ≡ effective view car y }
{}

/// A law of sources: one that is set by the write barrier stores the address, every other one what it stored,
/// and the heap law is kept.
pub fn a_source_is_set()
    ensures stored { (view : SpaceView) (x : RefSource) (to : Option Addr) → SourceStands view x → HasValue x to
        → (y : RefSource) → stored (spread view x to) y ≡ cond (same_source x y) to (stored view y) }
    ensures law { (view : SpaceView) (x : RefSource) (to : Option Addr) → HeapLaw view → SourceStands view x
        → HasValue x to → MayStore (seen view) to
        → HeapLaw (spread view x to) }
{}

/// A law of what a space stands for: where a source is set, the world has the register, the name or the field set.
pub fn a_source_that_is_set_stands_for_it()
    ensures register { (view : SpaceView) (world : World) (client register : ℕ) (to : Option Addr) → HeapLaw view
        → Represents view world
        → SourceStands view (Handle client register) → MayStore (seen view) to
        → ((id : ℕ) → names view to ≡ Some id → IsSome (get world.heap id))
        → Represents (spread view (Handle client register) to) (registered world client register (names view to)) }
    ensures name { (view : SpaceView) (world : World) (name : List ℕ) (number id : ℕ) (old a : Addr) → HeapLaw view
        → Represents view world
        → get view.roots name ≡ Some (number, old) → MayStore (seen view) (Some a) → named_by view a ≡ Some id
        → IsSome (get world.heap id)
        → Represents (spread view (Root number) (Some a)) (naming world name id) }
    ensures field { (view : SpaceView) (world : World) (a : Addr) (index : ℕ) (object : kept.Object) (known : Object)
        (to : Option Addr) → HeapLaw view → Represents view world
        → object_at view.cars a ≡ Some object → SourceStands view (Field a index) → MayStore (seen view) to
        → get world.heap object.id ≡ Some known
        → ((id : ℕ) → names view to ≡ Some id → IsSome (get world.heap id))
        → Represents (spread view (Field a index) to) (changing world object.id
        (with_field known index (names view to))) }
{}

/// A law of names: one that is bound to a number that no name has, and one that is unbound, keep the heap law,
/// and the world has the name bound or unbound.
pub fn a_name_is_bound_or_unbound()
    ensures bound { (view : SpaceView) (name : List ℕ) (number : ℕ) (a : Addr) → HeapLaw view
        → IsFree view.roots number → get view.roots name ≡ None → len view.roots < ROOTS
        → MayStore (seen view) (Some a) → HeapLaw (with_name view name number a) }
    ensures named { (view : SpaceView) (world : World) (name : List ℕ) (number id : ℕ) (a : Addr) → HeapLaw view
        → Represents view world → IsFree view.roots number
        → get view.roots name ≡ None → len view.roots < ROOTS → MayStore (seen view) (Some a)
        → named_by view a ≡ Some id → IsSome (get world.heap id)
        → Represents (with_name view name number a) (naming world name id) }
    ensures unbound { (view : SpaceView) (name : List ℕ) (number : ℕ) (a : Addr) → HeapLaw view
        → get view.roots name ≡ Some (number, a)
        → HeapLaw (without_name view name number a) }
    ensures unnamed { (view : SpaceView) (world : World) (name : List ℕ) (number : ℕ) (a : Addr) → HeapLaw view
        → Represents view world → get view.roots name ≡ Some (number, a)
        → Represents (without_name view name number a) (unbinding world name) }
{}

/// A law of bytes: where those of an object change, the heap law is kept, and the world's object has them changed.
pub fn bytes_are_changed()
    ensures law { (view : SpaceView) (a : Addr) (at : ℕ) (bytes : List ℕ) → HeapLaw view
        → HasBytesAt view.cars a at (length bytes) → HeapLaw (with_bytes_at view a at bytes) }
    ensures world { (view : SpaceView) (world : World) (a : Addr) (at : ℕ) (bytes : List ℕ) (object : kept.Object)
        (known : Object) → HeapLaw view → Represents view world
        → HasBytesAt view.cars a at (length bytes) → object_at view.cars a ≡ Some object
        → is_aside view a.car ≡ false → get world.heap object.id ≡ Some known
        → Represents (with_bytes_at view a at bytes) (changing world object.id (with_bytes known at bytes)) }
{}

/// A law of births: an object that is born, in the tail of the open train, in a new car or in a new open train, keeps
/// the heap law, and the world has it too.
pub fn an_object_is_born()
    ensures law { (view : SpaceView) (number : ℕ) (object : kept.Object) → HeapLaw view → MayBeBorn view object
        → IsVacant view.cars number → HeapLaw (born view number object) }
    ensures world { (view : SpaceView) (world : World) (number : ℕ) (object : kept.Object) → HeapLaw view
        → Represents view world → MayBeBorn view object → IsVacant view.cars number
        → get world.heap object.id ≡ None
        → Represents (born view number object) (changing world object.id (meaning view object)) }
{}

/// A law of new spaces: one keeps the heap law, and stands for the world in which nothing was ever made.
pub fn a_new_space_stands_for_nothing()
    ensures law { HeapLaw new_space }
    ensures world { Represents new_space empty_world }
{}

/// A law of effective sets, as it is spoken: each source that is kept and names a slot of a car outside it is in the
/// car's set, and each entry is such a source. While no car is set aside the set has exactly the sources outside.
pub fn effective_sets_tell_the_sources_outside()
    ensures words { (view : SpaceView) → HeapLaw view → IsTiedInWords (seen view) }
    ensures exactly { (view : SpaceView) → HeapLaw view → ((car : ℕ) → is_aside view car ≡ false)
        → (car : ℕ) (x : RefSource) → effective view car x ≡ cond (outside car x) (slot_in car (stored view x)) None }
{}
