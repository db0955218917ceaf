// A predicate of the benchmark's own.
ghost use Rattle.std.specs.Prelude.{Ok, nat_eq, ◌%◌};
ghost use Rattle.std.proofs.Common.{rules};

use steps::{Fault, Predicate};

/// Accepts the odd numbers.
#[derive(Clone, Copy)]
pub(crate) struct Odd;

impl Predicate<u64> for Odd {
    ghost says = { λ _ n. Ok (nat_eq (n % 2) 1) };

    ghost origin = { Prim.search rules };

    fn test(&self, item: u64) -> Result<bool, Fault> {
        Ok(item % 2 == 1)
    }
}
