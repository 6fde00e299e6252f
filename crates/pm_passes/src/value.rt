/// A value with a log, which many callers share. Each entry has the number of the pass whose caller made it.
pub trait Logged {
    ghost use Rattle.std.specs.Prelude.{◌≡◌, ℕ, suc, List, IfSome, IfNone};
    ghost use Rattle.pm_passes.specs.Numbering.{last_number};
    ghost use Rattle.pm_passes.specs.declared.view.Numbers.{Numbers};

    /// An entry of the log.
    type Entry;

    /// What is known of a value wherever it goes. No value of this type is made.
    type Tie;

    /// The entries so far, each with its number.
    ghost log: { Self → List (ℕ × Self.Entry) };

    /// The number of the next pass.
    ghost next: { Self → ℕ };

    /// What is counted.
    ghost numbers: { Self → Numbers };

    /// The tie of a value. No call changes it.
    ghost tie: { Self → Self.Tie };

    /// What is true of a value between two calls.
    ghost sound: { Self → Type 0 };

    /// Draws the number of the next pass: 1 is the first that is drawn. There is none behind 2^64 - 2.
    fn draw(&mut self) -> Option<u64>
        requires sound { sound self.old }
        ensures sound { sound self.new }
        ensures tie { tie self.new ≡ tie self.old }
        ensures log { log self.new ≡ log self.old }
        ensures numbers { numbers self.new ≡ numbers self.old }
        ensures number { IfSome result (λ number. number ≡ next self.old) }
        ensures drawn { IfSome result (λ number. next self.new ≡ suc number) }
        ensures last { IfNone result (next self.old ≡ last_number) }
        ensures stays { IfNone result (next self.new ≡ next self.old) };
}

/// A value whose callers make calls of one kind: an entry comes of a call, or the value refuses.
pub trait Served: Logged {
    ghost use Rattle.std.specs.Prelude.{◌≡◌, ◌<◌, IfSome, IfNone};
    ghost use Rattle.pm_passes.specs.Numbering.{KeepsCounts};
    ghost use Rattle.pm_passes.specs.Views.{AddsEntry};

    /// It makes no entry.
    ghost refuses: { Self → Type 0 };

    /// Makes an entry of the caller of this number, and answers how many entries the log has then.
    fn serve(&mut self, number: u64) -> Option<u64>
        requires sound { Self.sound self.old }
        requires number { number < Self.next self.old }
        ensures sound { Self.sound self.new }
        ensures tie { Self.tie self.new ≡ Self.tie self.old }
        ensures next { Self.next self.new ≡ Self.next self.old }
        ensures numbers { KeepsCounts (Self.numbers self.old) (Self.numbers self.new) }
        ensures entered { IfSome result (AddsEntry number (Self.log self.old) (Self.log self.new)) }
        ensures refused { IfNone result (refuses self.new) }
        ensures none { IfNone result (Self.log self.new ≡ Self.log self.old) };
}
