ghost use Rattle.std.specs.Prelude.{◌≡◌, length, []};
ghost use Rattle.std.specs.Slice.Iter.{iter_rest};
ghost use Rattle.steps.specs.Below.{lone};

use std::slice;
use steps::{Answer, Fault, Source, Step};

/// The steps of a lent list, items and faults as they stand there: what a test feeds to a rule.
#[derive(Drop)]
pub struct Script<'a, T> {
    rest: slice::Iter<'a, Step<T>>,
}

impl<'a, T: Copy> Script<'a, T> {
    /// A source of all steps of the list: over `Ok(5)` and `Err(fault)` it answers 5, the fault and
    /// the end.
    pub fn new(steps: &'a [Step<T>]) -> Self
        ensures ahead { ⟦<Script<'a, T> as Source>⟧.ahead result ≡ steps.now }
    {
        Script { rest: steps.iter() }
    }

    /// How many steps are still ahead, faults too.
    pub fn left(&self) -> usize
        ensures { result ≡ length (⟦<Script<'a, T> as Source>⟧.ahead self.now) }
    {
        self.rest.len()
    }
}

impl<'a, T: Copy> Source for Script<'a, T> {
    type Item = T;

    ghost ahead = { λ s. iter_rest s.rest };

    ghost loans = { λ _. [] };

    ghost bottom = { λ s. lone (iter_rest s.rest) };

    fn next(&mut self) -> Result<Answer<T>, Fault> {
        self.rest.next().copied().transpose().map(Answer::from)
    }
}
