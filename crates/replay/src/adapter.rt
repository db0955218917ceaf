// Scenarios of adapters, each over sources that are lists of steps.

use crate::flaw::Flaw;
use crate::form::{entries, number, optional, steps};
use crate::play::{Player, play};
use crate::rule;
use crate::show::{BothLeft, Left, Show};
use adapters::{Accumulate, Chain, Compress, DropWhile, Islice, Pairwise, TakeWhile, ZipLongest};
use rules::{Larger, Sum};
use sources::Script;

impl Player {
    /// `takewhile P ; STEPS`
    pub fn takewhile(&mut self, rule: &str, ahead: &str) -> Result<(), Flaw> {
        let predicate = rule::read_below(rule)?;
        self.over(ahead, |source, out| {
            play(&mut TakeWhile::new(predicate, source), out)
        })
    }

    /// `dropwhile P ; STEPS`
    pub fn dropwhile(&mut self, rule: &str, ahead: &str) -> Result<(), Flaw> {
        let predicate = rule::read_below(rule)?;
        self.over(ahead, |source, out| {
            play(&mut DropWhile::new(predicate, source), out)
        })
    }

    /// `chain ; STEPS ; STEPS`
    pub fn chain(&mut self, first: &str, second: &str) -> Result<(), Flaw> {
        self.over_both(first, second, |first, second, out| {
            play(&mut Chain::new(first, second), out)
        })
    }

    // not by `over`, since after a refusal nothing is said of the steps left
    /// `islice A1,A2,.. ; STEPS`
    pub fn islice(&mut self, arguments: &str, ahead: &str) -> Result<(), Flaw> {
        let arguments = entries(self.alloc, arguments)?;
        let ahead = steps(self.alloc, ahead)?;
        let mut source = Script::new(ahead.as_slice());
        match Islice::new(&mut source, arguments.as_slice()) {
            Ok(mut slice) => play(&mut slice, &mut self.out)?,
            Err(error) => return error.refusal.show(&mut self.out),
        }
        Left(source.left()).show(&mut self.out)
    }

    /// `compress P ; STEPS ; STEPS`, the data and the selectors
    pub fn compress(&mut self, rule: &str, items: &str, selectors: &str) -> Result<(), Flaw> {
        let predicate = rule::read_nonzero(rule)?;
        self.over_both(items, selectors, |items, selectors, out| {
            play(&mut Compress::new(items, selectors, predicate), out)
        })
    }

    /// `accumulate J I ; STEPS`
    pub fn accumulate(&mut self, joining: &str, initial: &str, ahead: &str) -> Result<(), Flaw> {
        let initial = optional(initial, "-")?;
        self.over(ahead, |source, out| match joining {
            "max" => play(&mut Accumulate::new(source, Larger, initial), out),
            "sum" => play(&mut Accumulate::new(source, Sum, initial), out),
            _ => Err(Flaw::Form),
        })
    }

    /// `pairwise ; STEPS`
    pub fn pairwise(&mut self, ahead: &str) -> Result<(), Flaw> {
        self.over(ahead, |source, out| play(&mut Pairwise::new(source), out))
    }

    /// `zip_longest F G ; STEPS ; STEPS`, the left and the right fill
    pub fn zip_longest(
        &mut self,
        left_fill: &str,
        right_fill: &str,
        left: &str,
        right: &str,
    ) -> Result<(), Flaw> {
        let left_fill = number(left_fill)?;
        let right_fill = number(right_fill)?;
        self.over_both(left, right, |left, right, out| {
            play(
                &mut ZipLongest::new(left, right, left_fill, right_fill),
                out,
            )
        })
    }

    // Plays over a source with these steps, and says how many of them it still has ahead.
    fn over<F>(&mut self, ahead: &str, played: F) -> Result<(), Flaw>
    where
        F: FnOnce(&mut Script<'_, u64>, &mut String) -> Result<(), Flaw>,
        requires { F.IsAlwaysCallable played }
    {
        let ahead = steps(self.alloc, ahead)?;
        let mut source = Script::new(ahead.as_slice());
        played(&mut source, &mut self.out)?;
        Left(source.left()).show(&mut self.out)
    }

    // The same over two sources, of each of which it says how many steps are left.
    fn over_both<F>(&mut self, first: &str, second: &str, played: F) -> Result<(), Flaw>
    where
        F: FnOnce(&mut Script<'_, u64>, &mut Script<'_, u64>, &mut String) -> Result<(), Flaw>,
        requires { F.IsAlwaysCallable played }
    {
        let first = steps(self.alloc, first)?;
        let second = steps(self.alloc, second)?;
        let mut first = Script::new(first.as_slice());
        let mut second = Script::new(second.as_slice());
        played(&mut first, &mut second, &mut self.out)?;
        BothLeft(first.left(), second.left()).show(&mut self.out)
    }
}
