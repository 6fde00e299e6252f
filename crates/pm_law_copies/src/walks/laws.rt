//! That the addresses of a space lead through its copy. The function's contract is the law, and it does nothing.

ghost use Rattle.std.specs.Prelude.{◌≡◌, ℕ, Bool, IsTrue, List, Option, Some, IsSome, IfSome, slice_get, option_and_then};
ghost use Rattle.std.specs.FinMap.{get};
ghost use Rattle.pm_types.specs.declared.address.Addr.{Addr};
ghost use Rattle.pm_types.specs.declared.object.Object.{Object};
ghost use Rattle.pm_model.specs.Heap.{field_of};
ghost use Rattle.pm_view.specs.View.{SpaceView};
ghost use Rattle.pm_view.specs.Reading.{resolve, named_by};
ghost use Rattle.pm_view.specs.Law.{HeapLaw};
ghost use Rattle.pm_view.specs.Represents.{names};
ghost use Rattle.pm_copies.specs.Listed.{copy_in};
ghost use Rattle.pm_law_copies.specs.Walks.Kept.{IsKeptAt};

/// A law of copies: the addresses of a space that keeps the heap law lead from its names through all objects of its
/// copy, and to no other.
pub fn a_copy_is_walked_by_addresses()
    // The copy has the names, each with the identity of the object to which its address leads, and the next identity.
    ensures names { (view : SpaceView) (name : List ℕ) → HeapLaw view
        → get (copy_in view).roots name ≡ option_and_then (λ bound. named_by view bound.1) (get view.roots name) }
    ensures next { (view : SpaceView) → (copy_in view).next ≡ view.next }
    // The address of a name leads to an object of the copy, and so does each field of an object of the copy.
    ensures root { (view : SpaceView) (name : List ℕ) (bound : ℕ × Addr) → HeapLaw view
        → get view.roots name ≡ Some bound → (object : Object) × IsKeptAt view (resolve view bound.1) object }
    ensures field { (view : SpaceView) (a : Addr) (object : Object) (index : ℕ) (to : Addr) → HeapLaw view
        → IsKeptAt view a object → slice_get object.fields index ≡ Some (Some to)
        → (held : Object) × IsKeptAt view (resolve view to) held }
    // An object of the copy holds in each field the identity of the object to which the field leads, or null.
    ensures holds { (view : SpaceView) (a : Addr) (object : Object) (index : ℕ) (field : Option Addr)
        → IsKeptAt view a object → slice_get object.fields index ≡ Some field
        → field_of (get (copy_in view).heap object.id) index ≡ Some (names view field) }
    // Each object of the copy lies at an address.
    ensures lies { (view : SpaceView) (id : ℕ) → HeapLaw view → IsSome (get (copy_in view).heap id)
        → (a : Addr) × (object : Object) × IsKeptAt view a object × (object.id ≡ id) }
    // Identities among which are those to which names lead, and with each one those to which the fields of its object
    // lead, are all of the copy.
    ensures least { (view : SpaceView) (inside : ℕ → Bool) → HeapLaw view
        → ((name : List ℕ) (bound : ℕ × Addr) → get view.roots name ≡ Some bound
        → IfSome (named_by view bound.1) (λ id. IsTrue (inside id)))
        → ((a : Addr) (object : Object) (index : ℕ) (to : Addr) → IsKeptAt view a object → IsTrue (inside object.id)
        → slice_get object.fields index ≡ Some (Some to) → IfSome (named_by view to) (λ id. IsTrue (inside id)))
        → (id : ℕ) → IsSome (get (copy_in view).heap id) → IsTrue (inside id) }
{}
