ghost use Rattle.std.specs.Prelude.{Ok};
ghost use Rattle.rules.specs.Predicate.{below, at_least, non_zero, same_as, lasts};
ghost use Rattle.std.proofs.Common.{rules};

use sources::Block;
use steps::{Fault, Predicate};

/// Accepts the numbers below a limit: with 8 it accepts 7 and denies 8. It meets no fault.
#[derive(Clone, Copy, PartialEq, Eq, Debug)]
pub struct Below {
    /// The first number that is denied.
    pub limit: u64,
}

impl Predicate<u64> for Below {
    ghost says = { λ p n. below p.limit n };

    ghost origin = { Prim.search rules };

    fn test(&self, item: u64) -> Result<bool, Fault> {
        Ok(item < self.limit)
    }
}

/// Accepts a limit and the numbers above it: with 8 it accepts 8 and denies 7. It meets no fault.
#[derive(Clone, Copy, PartialEq, Eq, Debug)]
pub struct AtLeast {
    /// The first number that is accepted.
    pub limit: u64,
}

impl Predicate<u64> for AtLeast {
    ghost says = { λ p n. at_least p.limit n };

    ghost origin = { Prim.search rules };

    fn test(&self, item: u64) -> Result<bool, Fault> {
        Ok(item >= self.limit)
    }
}

/// Accepts the numbers other than 0, as Python's truth of a number does: it keeps the data of
/// compress whose selectors are not 0. It meets no fault.
#[derive(Clone, Copy, PartialEq, Eq, Debug)]
pub struct NonZero;

impl Predicate<u64> for NonZero {
    ghost says = { λ _ n. non_zero n };

    ghost origin = { Prim.search rules };

    fn test(&self, item: u64) -> Result<bool, Fault> {
        Ok(item != 0)
    }
}

/// Accepts what is true: it keeps the data of compress whose selectors are true. It meets no fault.
#[derive(Clone, Copy, PartialEq, Eq, Debug)]
pub struct IsTrue;

impl Predicate<bool> for IsTrue {
    ghost says = { λ _ b. Ok b };

    ghost origin = { Prim.search rules };

    fn test(&self, item: bool) -> Result<bool, Fault> {
        Ok(item)
    }
}

/// Accepts the items that equal one item, by the equality of their type: `Equals { to: 7 }` accepts
/// 7 alone. It meets no fault.
#[derive(Clone, Copy, PartialEq, Eq, Debug)]
pub struct Equals<T> {
    /// The item that is accepted.
    pub to: T,
}

impl<T: Eq + Drop> Predicate<T> for Equals<T> {
    ghost says = { λ p a. same_as T.eq p.to a };

    ghost origin = { Prim.search rules };

    fn test(&self, item: T) -> Result<bool, Fault> {
        Ok(item == self.to)
    }
}

/// Accepts the blocks that last so many minutes or more: with 10 it accepts a block from minute 360
/// to 370 and denies one to 369. It meets no fault.
#[derive(Clone, Copy, PartialEq, Eq, Debug)]
pub struct LastsAtLeast {
    /// The fewest minutes that are accepted.
    pub minutes: u16,
}

impl Predicate<Block> for LastsAtLeast {
    ghost says = { λ p b. lasts p.minutes b };

    ghost origin = { Prim.search rules };

    fn test(&self, item: Block) -> Result<bool, Fault> {
        Ok(item.lasts_at_least(self.minutes))
    }
}
