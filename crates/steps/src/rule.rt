ghost use Rattle.std.specs.Prelude.{◌≡◌, Bool, Err, Result as AResult};
ghost use Rattle.steps.specs.declared.fault.Fault.{Fault as AFault};
ghost use Rattle.steps.specs.Fault.{OfPredicate, OfKey, OfJoining};

use crate::fault::Fault;

/// Yes, no or a fault for each item, by a meaning that never changes: `says`.
///
/// takewhile, dropwhile and compress ask one. Its faults have origin 2 and place 0.
pub trait Predicate<T> {
    ghost says: { Self → T → AResult Bool AFault };

    /// Whether it accepts the item, or its fault. The same item gets the same answer each time.
    fn test(&self, item: T) -> Result<bool, Fault>
        ensures { result ≡ says self.now item };

    ghost origin: { (s : Self) (a : T) (f : AFault) → says s a ≡ Err f → OfPredicate f };
}

/// A key or a fault for each item, by a meaning that never changes: `key`.
///
/// A groupby asks one. Two keys are the same by the equality of their type, which is reflexive,
/// symmetric and transitive. Its faults have origin 3 and place 0.
pub trait Keying<T> {
    /// The kind of its keys.
    type Key: Eq;

    ghost key: { Self → T → AResult Self.Key AFault };

    /// The key of the item, or its fault. The same item gets the same answer each time.
    fn key_of(&self, item: T) -> Result<Self::Key, Fault>
        ensures { result ≡ key self.now item };

    ghost origin: { (s : Self) (a : T) (f : AFault) → key s a ≡ Err f → OfKey f };
}

/// A value or a fault for two values, by a meaning that never changes: `joins`.
///
/// accumulate asks one, as Python's asks its `func`. Its faults have origin 4 and place 0.
pub trait Joining<T> {
    ghost joins: { Self → T → T → AResult T AFault };

    /// The total so far joined with the item that comes to it, or a fault.
    fn join(&self, total: T, item: T) -> Result<T, Fault>
        ensures { result ≡ joins self.now total item };

    ghost origin: { (s : Self) (a b : T) (f : AFault) → joins s a b ≡ Err f → OfJoining f };
}
