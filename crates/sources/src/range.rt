ghost use Rattle.std.specs.Prelude.{◌≡◌, []};
ghost use Rattle.steps.specs.Below.{lone};
ghost use Rattle.sources.specs.Range.{numbers, EachBelow};

use std::ops;
use steps::{Answer, Fault, Source};

/// The numbers from a start to below a stop, as Python's `range(start, stop)`: from 2 to 5 they are
/// 2, 3, 4. It meets no fault.
#[derive(Drop)]
pub struct Range {
    numbers: ops::Range<u32>,
}

impl Range {
    /// The numbers are 32-bit and the items 64-bit. A stop that is not above the start gives none.
    #[tactic(auto, using(crate::proofs::RangeLemmas::each_below))]
    pub fn new(start: u32, stop: u32) -> Self
        ensures ahead { ⟦<Range as Source>⟧.ahead result ≡ numbers start stop }
        ensures law { EachBelow start stop (⟦<Range as Source>⟧.ahead result) }
        ensures holds { (result.numbers.start ≡ start) × (result.numbers.end ≡ stop) }
    {
        Range {
            numbers: start..stop,
        }
    }
}

impl Source for Range {
    type Item = u64;

    ghost ahead = { λ s. numbers s.numbers.start s.numbers.end };

    ghost loans = { λ _. [] };

    ghost bottom = { λ s. lone (numbers s.numbers.start s.numbers.end) };

    #[tactic(auto, using(steps::proofs::Below::lone_drew))]
    fn next(&mut self) -> Result<Answer<u64>, Fault> {
        Ok(self.numbers.next().map(u64::from).into())
    }
}
