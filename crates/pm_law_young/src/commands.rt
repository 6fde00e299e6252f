//! Laws of commands of a young world: which part of it answers, and what the whole answers then.

ghost use Rattle.std.specs.Prelude.{◌≡◌, ◌⊎◌, ℕ, Bool, true, false, None, Some, IsSome, slice_get};
ghost use Rattle.std.specs.FinMap.{get};
ghost use Rattle.pm_types.specs.declared.command.Cmd.{Cmd};
ghost use Rattle.pm_types.specs.declared.command.Cmd.TheVariants.{Store, Swap};
ghost use Rattle.pm_types.specs.declared.reply.Reply.TheVariants.{Held, NoField, NoHandle, Null};
ghost use Rattle.pm_model.specs.Answer.{answer};
ghost use Rattle.pm_model.specs.Frames.{makes_object};
ghost use Rattle.pm_model.specs.Heap.{Object};
ghost use Rattle.pm_model.specs.World.{World};
ghost use Rattle.pm_nursery.specs.Young.{NurseryView, IsNursery, IsYoung};
ghost use Rattle.pm_nursery.specs.Answering.{held_in_either, is_of_objects, nursery_of, object_in_either};
ghost use Rattle.pm_nursery.specs.Answering.{reads_register, unset, young_alone};

/// A law of commands: where no register that a command reads is in the nursery, and it makes no object, the world
/// within answers it. The reply is the world's; and the next world within stands, with the nursery without the
/// registers that the command sets unless it is refused, for the next world.
pub fn a_command_is_answered_within()
    ensures reply { (within world : World) (nursery : NurseryView) (client : ℕ) (cmd : Cmd)
        → IsYoung within nursery world → makes_object cmd ≡ false
        → ((register : ℕ) → reads_register cmd register ≡ true → get nursery.registers (client, register) ≡ None)
        → (answer within client cmd).0 ≡ (answer world client cmd).0 }
    ensures world { (within world : World) (nursery : NurseryView) (client : ℕ) (cmd : Cmd)
        → IsYoung within nursery world → makes_object cmd ≡ false
        → ((register : ℕ) → reads_register cmd register ≡ true → get nursery.registers (client, register) ≡ None)
        → IsYoung (answer within client cmd).1
        (record nursery { registers = unset nursery.registers client cmd (answer within client cmd).0 })
        (answer world client cmd).1 }
{}

/// A law of commands: where each register that a command reads is in the nursery, and it is one of registers and
/// objects alone, the young objects answer it, as if they were a world of their own with the next identity of the
/// world. The reply is the world's; and the world within, without the registers that the command sets unless it is
/// refused, stands with the next young objects and their registers for the next world. It holds of births too, since
/// they read no register.
pub fn a_command_is_answered_young()
    ensures reply { (within world : World) (nursery : NurseryView) (client : ℕ) (cmd : Cmd)
        → IsYoung within nursery world → IsNursery nursery → is_of_objects cmd ≡ true → get world.heap world.next ≡ None
        → ((register : ℕ) → reads_register cmd register ≡ true → IsSome (get nursery.registers (client, register)))
        → (answer (young_alone world nursery) client cmd).0 ≡ (answer world client cmd).0 }
    ensures world { (within world : World) (nursery : NurseryView) (client : ℕ) (cmd : Cmd)
        → IsYoung within nursery world → IsNursery nursery → is_of_objects cmd ≡ true → get world.heap world.next ≡ None
        → ((register : ℕ) → reads_register cmd register ≡ true → IsSome (get nursery.registers (client, register)))
        → IsYoung (record within {
          registers = unset within.registers client cmd (answer (young_alone world nursery) client cmd).0;
          next = (answer world client cmd).1.next;
        }) (nursery_of (answer (young_alone world nursery) client cmd).1) (answer world client cmd).1 }
{}

/// A law of refusals: `store` and `swap` read registers on both sides, and what they read there tells each refusal.
pub fn a_command_of_both_sides_is_refused()
    ensures store_no_handle { (within world : World) (nursery : NurseryView) (client reg index value : ℕ)
        → IsYoung within nursery world
        → ((held_in_either within nursery client reg ≡ None) ⊎ (held_in_either within nursery client value ≡ None))
        → answer world client (Store reg index value) ≡ (NoHandle, world) }
    ensures store_no_field { (within world : World) (nursery : NurseryView) (client reg index value id other : ℕ)
        (object : Object) → IsYoung within nursery world → held_in_either within nursery client reg ≡ Some id
        → held_in_either within nursery client value ≡ Some other → object_in_either within nursery id ≡ Some object
        → slice_get object.fields index ≡ None → answer world client (Store reg index value) ≡ (NoField, world) }
    ensures swap_no_handle { (within world : World) (nursery : NurseryView) (client reg index old value : ℕ)
        → IsYoung within nursery world
        → ((held_in_either within nursery client reg ≡ None)
        ⊎ ((held_in_either within nursery client old ≡ None) ⊎ (held_in_either within nursery client value ≡ None)))
        → answer world client (Swap reg index old value) ≡ (NoHandle, world) }
    ensures swap_no_field { (within world : World) (nursery : NurseryView) (client reg index old value id was other : ℕ)
        (object : Object) → IsYoung within nursery world → held_in_either within nursery client reg ≡ Some id
        → held_in_either within nursery client old ≡ Some was → held_in_either within nursery client value ≡ Some other
        → object_in_either within nursery id ≡ Some object → slice_get object.fields index ≡ None
        → answer world client (Swap reg index old value) ≡ (NoField, world) }
    ensures swap_null { (within world : World) (nursery : NurseryView) (client reg index old value id was other : ℕ)
        (object : Object) → IsYoung within nursery world → held_in_either within nursery client reg ≡ Some id
        → held_in_either within nursery client old ≡ Some was → held_in_either within nursery client value ≡ Some other
        → object_in_either within nursery id ≡ Some object → slice_get object.fields index ≡ Some None
        → answer world client (Swap reg index old value) ≡ (Null, world) }
    ensures swap_held { (within world : World) (nursery : NurseryView)
        (client reg index old value id was other found : ℕ) (object : Object)
        → IsYoung within nursery world → held_in_either within nursery client reg ≡ Some id
        → held_in_either within nursery client old ≡ Some was → held_in_either within nursery client value ≡ Some other
        → object_in_either within nursery id ≡ Some object → slice_get object.fields index ≡ Some (Some found)
        → (found ≡ was → ⊥) → answer world client (Swap reg index old value) ≡ (Held found, world) }
{}
