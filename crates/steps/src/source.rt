ghost use Rattle.std.specs.Prelude.{◌≡◌, ℕ, List};
ghost use Rattle.steps.specs.Steps.{Step, first, rest};
ghost use Rattle.steps.specs.Below.{Below, Drew, fault_of};

use crate::answer::Answer;
use crate::fault::Fault;

/// A source means a finite list of steps ahead, each an item or a fault; adapters, tees and groups
/// stand on one, and an adapter is one again.
///
/// With an empty list a call says end and the list stays empty; otherwise the call answers the
/// first step and the others stay ahead. `Steps` goes over one in a `for`, and `collect` gives all
/// that it has ahead.
pub trait Source {
    /// The kind of its items.
    type Item;

    ghost ahead: { Self → List (Step Self.Item) };

    // The names of the loans that it draws through. As they stay the same, the owner of what was
    // lent goes on where this source was left.
    ghost loans: { Self → List ℕ };

    // what the sources at the bottom have ahead
    ghost bottom: { Self → Below };

    /// Answers the first of the steps ahead: its item, or its fault as `Err`; with none ahead the
    /// end. Over a list of 5 and 9 three calls answer `Item(5)`, `Item(9)` and `End`. After a fault
    /// it may be called again, for the steps behind the fault.
    fn next(&mut self) -> Result<Answer<Self::Item>, Fault>
        ensures gives { result ≡ first (ahead self.old) }
        ensures leaves { ahead self.new ≡ rest (ahead self.old) }
        ensures keeps_loans { loans self.new ≡ loans self.old }
        // a fault drawn at the bottom is the last drawn by the call, and answered as it is; any
        // other fault is an adapter's own
        ensures draws { Drew (bottom self.old) (bottom self.new) (fault_of result) };
}
