ghost use Rattle.rules.specs.Joining.{larger as larger_of, sum as sum_of};
ghost use Rattle.std.proofs.Common.{rules};

use steps::{Fault, Joining};

/// Joins two numbers to the larger one, as Python's `max`: 9 and 5 to 9. It meets no fault.
#[derive(Clone, Copy, PartialEq, Eq, Debug)]
pub struct Larger;

impl Joining<u64> for Larger {
    ghost joins = { λ _ a b. larger_of a b };

    ghost origin = { Prim.search rules };

    fn join(&self, total: u64, item: u64) -> Result<u64, Fault> {
        Ok(total.max(item))
    }
}

/// Joins two numbers to their sum, as Python's `operator.add`: 9 and 5 to 14. A sum above 2^64 - 1
/// is the fault 4, 1, 0.
#[derive(Clone, Copy, PartialEq, Eq, Debug)]
pub struct Sum;

impl Joining<u64> for Sum {
    ghost joins = { λ _ a b. sum_of a b };

    ghost origin = { Prim.search rules };

    fn join(&self, total: u64, item: u64) -> Result<u64, Fault> {
        total.checked_add(item).ok_or(Fault {
            origin: Fault::JOINING,
            cause: 1,
            place: 0,
        })
    }
}
