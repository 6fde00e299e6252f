//! What a reply tells was done. The function's contract is the law, and the function does nothing.

ghost use Rattle.std.specs.Prelude.{◌≡◌, ◌⊎◌, ◌≤◌, ◌<◌, ◌+◌, ℕ, List, length, slice_get, Some, None, IsSomeAnd};
ghost use Rattle.std.specs.FinMap.{get};
ghost use Rattle.pm_types.specs.declared.limits.TheConstants.{WATCHES};
ghost use Rattle.pm_types.specs.declared.command.Cmd.TheVariants.{New, Put, Copy, IdOf, Forget, Find, Watch, Close};
ghost use Rattle.pm_types.specs.declared.reply.Reply.TheVariants.{Done, Ident, Watching};
ghost use Rattle.pm_model.specs.World.{World, held};
ghost use Rattle.pm_model.specs.Answer.{answer, fresh};
ghost use Rattle.pm_model.specs.Lasting.{byte_at};

/// A law of replies: the identity that is told is that of the object that was made, copied or found, and
/// the register holds it. A register that was dropped or closed is empty. Bytes that were put stand in
/// their places, and every other byte is as before. A watch has the number after the ones before it.
pub fn replies_tell_what_was_done()
    ensures new { (world : World) (client reg count id : ℕ) (bytes : List ℕ)
        → (answer world client (New reg count bytes)).0 ≡ Ident id
        → (id ≡ world.next) × ((answer world client (New reg count bytes)).1.next ≡ id + 1)
        × (held (answer world client (New reg count bytes)).1 client reg ≡ Some id)
        × (get (answer world client (New reg count bytes)).1.heap id ≡ Some (fresh count bytes)) }
    ensures copied { (world : World) (client to reg id : ℕ) → (answer world client (Copy to reg)).0 ≡ Ident id
        → (held world client reg ≡ Some id) × (held (answer world client (Copy to reg)).1 client to ≡ Some id) }
    ensures found { (world : World) (client to id : ℕ) (name : List ℕ)
        → (answer world client (Find to name)).0 ≡ Ident id
        → (get world.roots name ≡ Some id) × (held (answer world client (Find to name)).1 client to ≡ Some id) }
    ensures told { (world : World) (client reg id : ℕ) → (answer world client (IdOf reg)).0 ≡ Ident id
        → held world client reg ≡ Some id }
    ensures dropped { (world : World) (client reg : ℕ) → (answer world client (Forget reg)).0 ≡ Done
        → held (answer world client (Forget reg)).1 client reg ≡ None }
    ensures closed { (world : World) (client register : ℕ) → held (answer world client Close).1 client register ≡ None }
    ensures put { (world : World) (client reg at : ℕ) (bytes : List ℕ)
        → (answer world client (Put reg at bytes)).0 ≡ Done
        → IsSomeAnd (held world client reg) (λ id. ((j : ℕ) → j < length bytes
        → byte_at (answer world client (Put reg at bytes)).1 id (at + j) ≡ slice_get bytes j)
        × ((k : ℕ) → (k < at) ⊎ (at + length bytes ≤ k)
        → byte_at (answer world client (Put reg at bytes)).1 id k ≡ byte_at world id k)) }
    ensures watching { (world : World) (client number : ℕ) → (answer world client Watch).0 ≡ Watching number
        → (number ≡ world.watches + 1) × (number ≤ WATCHES) × ((answer world client Watch).1.watches ≡ number) }
{}
