ghost use Rattle.std.specs.Prelude.{◌≡◌, map, []};
ghost use Rattle.std.specs.Slice.Iter.{iter_rest};
ghost use Rattle.steps.specs.Below.{lone};
ghost use Rattle.steps.specs.Steps.{item};

use std::slice;
use steps::{Answer, Fault, Source};

/// The elements of a lent list, in order: over 5 and 9 the steps 5 and 9, and then the end. It
/// meets no fault.
#[derive(Drop)]
pub struct List<'a, T> {
    rest: slice::Iter<'a, T>,
}

impl<'a, T: Copy> List<'a, T> {
    /// A source of all elements of the list, of any copyable kind.
    pub fn new(list: &'a [T]) -> Self
        ensures ahead { ⟦<List<'a, T> as Source>⟧.ahead result ≡ map item list.now }
    {
        List { rest: list.iter() }
    }
}

impl<'a, T: Copy> Source for List<'a, T> {
    type Item = T;

    ghost ahead = { λ s. map item (iter_rest s.rest) };

    ghost loans = { λ _. [] };

    ghost bottom = { λ s. lone (map item (iter_rest s.rest)) };

    #[tactic(auto, using(steps::proofs::Below::lone_drew))]
    fn next(&mut self) -> Result<Answer<T>, Fault> {
        Ok(self.rest.next().copied().into())
    }
}
