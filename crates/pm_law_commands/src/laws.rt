//! What the rows of commands keep and answer. Each function's contract is the law, and the function does
//! nothing.

ghost use Rattle.std.specs.Prelude.{◌≡◌, ◌<◌, ℕ, List, true, false};
ghost use Rattle.pm_types.specs.declared.limits.TheConstants.{CLIENTS, REGISTERS};
ghost use Rattle.pm_types.specs.declared.command.Cmd.{Cmd};
ghost use Rattle.pm_types.specs.declared.command.Cmd.TheVariants.{New};
ghost use Rattle.pm_types.specs.declared.reply.Reply.TheVariants.{Ident};
ghost use Rattle.pm_model.specs.World.{World};
ghost use Rattle.pm_model.specs.Answer.{answer, is_refusal};
ghost use Rattle.pm_view.specs.View.{SpaceView};
ghost use Rattle.pm_view.specs.Law.{HeapLaw};
ghost use Rattle.pm_view.specs.Represents.{Represents};
ghost use Rattle.pm_view.specs.Rows.{spent, birthplace};
ghost use Rattle.pm_view.specs.Objects.{KeepsObjects, AddsObject};
ghost use Rattle.pm_types.specs.Registers.{HasRegisters};
ghost use Rattle.pm_view.specs.Commands.{row, fresh, is_act, is_new, Picks, ArePicked};
ghost use Rattle.pm_law_commands.specs.Served.{IsServed};

/// A law of commands: the row of each keeps the heap law.
pub fn a_command_keeps_the_heap_law()
    ensures { (view : SpaceView) (client : ℕ) (cmd : Cmd) (picks : Picks) → HeapLaw view → client < CLIENTS
        → HasRegisters cmd → ArePicked view picks
        → HeapLaw (row view client cmd picks).1 }
{}

/// A law of commands: for every world that a space stands for, the reply of the row is the world's answer, and the space
/// after it stands for the world after it.
pub fn a_command_is_answered_as_by_the_world()
    ensures { (view : SpaceView) (world : World) (client : ℕ) (cmd : Cmd) (picks : Picks) → HeapLaw view
        → Represents view world
        → is_act cmd ≡ true → client < CLIENTS → HasRegisters cmd → ArePicked view picks
        → IsServed (row view client cmd picks) (answer world client cmd) }
{}

/// A law of commands: one that is refused leaves the space as it is.
pub fn a_refused_command_leaves_the_space()
    ensures { (view : SpaceView) (client : ℕ) (cmd : Cmd) (picks : Picks)
        → is_refusal cmd (row view client cmd picks).0 ≡ true → (row view client cmd picks).1 ≡ view }
{}

/// A law of commands: every one but `new` leaves each object where it stands, in its train.
pub fn every_command_but_new_leaves_objects_where_they_stand()
    ensures { (view : SpaceView) (client : ℕ) (cmd : Cmd) (picks : Picks) → is_new cmd ≡ false
        → KeepsObjects view (row view client cmd picks).1 }
{}

/// A law of births: a `new` that is not refused adds one object, in the open train, which is a new one exactly where
/// 1,024 objects were born in the one before; every other object stays where it stands, in its train.
pub fn new_adds_one_object_in_the_open_train()
    ensures { (view : SpaceView) (client reg count : ℕ) (bytes : List ℕ) (picks : Picks) → HeapLaw view
        → client < CLIENTS → reg < REGISTERS → ArePicked view picks
        → (row view client (New reg count bytes) picks).0 ≡ Ident view.next
        → AddsObject view (row view client (New reg count bytes) picks).1 view.next
        (birthplace (spent view) picks.car (fresh view count bytes)) }
{}
