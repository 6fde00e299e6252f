//! Where objects are born while a train is collected. Each function's contract is a law, and the function does
//! nothing.

ghost use Rattle.std.specs.Prelude.{◌≡◌, ◌≢◌, ◌<◌, ℕ, true, false, List, Some};
ghost use Rattle.pm_types.specs.declared.limits.TheConstants.{CLIENTS, REGISTERS};
ghost use Rattle.pm_types.specs.declared.command.Cmd.{Cmd};
ghost use Rattle.pm_types.specs.declared.command.Cmd.TheVariants.{New};
ghost use Rattle.pm_types.specs.declared.reply.Reply.TheVariants.{Ident};
ghost use Rattle.pm_trains.specs.Trains.{youngest};
ghost use Rattle.pm_view.specs.View.{SpaceView};
ghost use Rattle.pm_view.specs.Law.{HeapLaw};
ghost use Rattle.pm_view.specs.Counts.{IsPlaced};
ghost use Rattle.pm_view.specs.Events.{Row, after};
ghost use Rattle.pm_types.specs.Registers.{HasRegisters};
ghost use Rattle.pm_view.specs.Commands.{row, Picks, ArePicked};
ghost use Rattle.pm_law_course.specs.Course.{opens, IsOpened, collected, IsPlacedInOpen};

/// A law of births: no command lets an object begin to stand in the train that is collected, and none changes which
/// train that is. What is born stands in the open train, which is another one.
pub fn no_command_adds_to_the_train_that_is_collected()
    ensures same { (view : SpaceView) (client : ℕ) (cmd : Cmd) (picks : Picks) → HeapLaw view → client < CLIENTS
        → HasRegisters cmd → ArePicked view picks
        → collected (row view client cmd picks).1 ≡ collected view }
    ensures none { (view : SpaceView) (client id train : ℕ) (cmd : Cmd) (picks : Picks) → HeapLaw view
        → client < CLIENTS → HasRegisters cmd → ArePicked view picks
        → collected view ≡ Some train → IsPlaced (row view client cmd picks).1 id train → IsPlaced view id train }
    ensures born { (view : SpaceView) (client reg count : ℕ) (bytes : List ℕ) (picks : Picks) → HeapLaw view
        → client < CLIENTS → reg < REGISTERS → ArePicked view picks
        → (row view client (New reg count bytes) picks).0 ≡ Ident view.next
        → IsPlacedInOpen (row view client (New reg count bytes) picks).1 view.next }
    ensures apart { (view : SpaceView) (train : ℕ) → HeapLaw view → collected view ≡ Some train
        → youngest view.trains.trains ≢ train }
{}

/// A law of the open train: an event opens a new one just where it selects the train that is open, and every other
/// event leaves the open train and the births in it as they are.
pub fn an_event_opens_a_train_where_it_selects_the_open_one()
    ensures opened { (view : SpaceView) (row : Row) (picked number : ℕ) → opens view row ≡ true
        → IsOpened view (after view picked number row) }
    ensures same { (view : SpaceView) (row : Row) (picked number : ℕ) → opens view row ≡ false
        → youngest (after view picked number row).trains.trains ≡ youngest view.trains.trains }
    ensures births { (view : SpaceView) (row : Row) (picked number : ℕ) → opens view row ≡ false
        → (after view picked number row).trains.births ≡ view.trains.births }
{}
