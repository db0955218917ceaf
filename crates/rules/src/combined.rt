ghost use Rattle.rules.specs.Combined.{turned, both, either};
ghost use Rattle.std.proofs.Common.{rules};

use steps::{Fault, Predicate};

/// Accepts what another predicate denies, as Python's `not`: `Not(Below { limit: 8 })` accepts 8.
/// The other's fault stays as it is.
#[derive(Clone, Copy, PartialEq, Eq, Debug)]
pub struct Not<P>(pub P);

impl<T, P: Predicate<T>> Predicate<T> for Not<P> {
    ghost says = { λ p a. turned (P.Predicate.says p.0 a) };

    ghost origin = { Prim.search (rules, P.Predicate.origin) };

    fn test(&self, item: T) -> Result<bool, Fault> {
        Ok(!self.0.test(item)?)
    }
}

/// Accepts what two predicates accept, as Python's `and`:
/// `Both(AtLeast { limit: 5 }, Below { limit: 8 })` accepts 5, 6 and 7. The second is asked only
/// where the first accepts. A fault of the one that is asked stays as it is.
#[derive(Clone, Copy, PartialEq, Eq, Debug)]
pub struct Both<P, Q>(pub P, pub Q);

impl<T: Copy, P: Predicate<T>, Q: Predicate<T>> Predicate<T> for Both<P, Q> {
    ghost says = { λ p a. both (P.Predicate.says p.0 a) (Q.Predicate.says p.1 a) };

    ghost origin = { Prim.search (rules, P.Predicate.origin, Q.Predicate.origin) };

    fn test(&self, item: T) -> Result<bool, Fault> {
        Ok(self.0.test(item)? && self.1.test(item)?)
    }
}

/// Accepts what one of two predicates accepts, as Python's `or`:
/// `Either(Below { limit: 5 }, AtLeast { limit: 8 })` accepts 4 and 8, and denies 5. The second is
/// asked only where the first denies. A fault of the one that is asked stays as it is.
#[derive(Clone, Copy, PartialEq, Eq, Debug)]
pub struct Either<P, Q>(pub P, pub Q);

impl<T: Copy, P: Predicate<T>, Q: Predicate<T>> Predicate<T> for Either<P, Q> {
    ghost says = { λ p a. either (P.Predicate.says p.0 a) (Q.Predicate.says p.1 a) };

    ghost origin = { Prim.search (rules, P.Predicate.origin, Q.Predicate.origin) };

    fn test(&self, item: T) -> Result<bool, Fault> {
        Ok(self.0.test(item)? || self.1.test(item)?)
    }
}
