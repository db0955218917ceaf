ghost use Rattle.std.specs.Prelude.{◌≡◌, ◌++◌, map, Ok};
ghost use Rattle.steps.specs.Steps.{first as first_answer, rest as rest_of};
ghost use Rattle.steps.specs.Below.{Drew, fault_of, Two};
ghost use Rattle.laws.specs.Items.{faults, items as items_of};
ghost use Rattle.laws.specs.Run.{Follows};
ghost use Rattle.laws.specs.Faults.{Woven, NoneOwn, unlost};
ghost use Rattle.laws.specs.ZipLongest.{zipped, right_left, LongestZip, OneOfEach};
ghost use Rattle.adapters.specs.ZipLongest.{
  zip_left,
  zip_right,
  zip_left_fill,
  zip_right_fill,
  zip_ahead,
  zip_run,
  zip_below,
  zip_end,
};

use steps::{Answer, Fault, Source};

/// Gives an item of each source as a pair, until both have ended; the one that ended first gives
/// its fill: `1 2` with `5` give `(1, 5) (2, 0)` where the right's fill is 0.
///
/// A fault of the left is answered with nothing drawn on the right; a fault of the right loses the
/// left item of its call.
#[derive(Drop)]
pub struct ZipLongest<L: Source, R: Source> {
    left: L,
    right: R,
    left_fill: L::Item,
    right_fill: R::Item,
}

impl<L: Source, R: Source> ZipLongest<L, R>
where
    L::Item: Copy,
    R::Item: Copy,
{
    /// Takes over two sources, and draws nothing.
    #[tactic(auto, using(laws::proofs::ZipLongest::longest_zip, laws::proofs::ZipLongest::zip_woven, laws::proofs::ZipLongest::zip_items, laws::proofs::ZipLongest::one_of_each))]
    pub fn new(left: L, right: R, left_fill: L::Item, right_fill: R::Item) -> Self
        ensures ahead { ⟦<ZipLongest<L, R> as Source>⟧.ahead result
            ≡ zipped left_fill right_fill (L.Source.ahead left) (R.Source.ahead right) }
        ensures law { LongestZip left_fill right_fill (L.Source.ahead left) (R.Source.ahead right)
            (⟦<ZipLongest<L, R> as Source>⟧.ahead result) }
        ensures holds { (zip_left result ≡ left) × (zip_right result ≡ right)
            × (zip_left_fill result ≡ left_fill) × (zip_right_fill result ≡ right_fill) }
        ensures faults_given { Woven NoneOwn (faults (L.Source.ahead left))
            (faults (R.Source.ahead right)) (faults (⟦<ZipLongest<L, R> as Source>⟧.ahead result)) }
        ensures items_given { items_of (⟦<ZipLongest<L, R> as Source>⟧.ahead result)
            ≡ items_of (zipped left_fill right_fill
            (map Ok (unlost (items_of (L.Source.ahead left)) (R.Source.ahead right)))
            (map Ok (items_of (R.Source.ahead right)))) }
        ensures drawn_over_run { OneOfEach (L.Source.ahead left) (R.Source.ahead right)
            (zip_run L.Source.ahead R.Source.ahead result) }
    {
        ZipLongest {
            left,
            right,
            left_fill,
            right_fill,
        }
    }
}

impl<L: Source, R: Source> Source for ZipLongest<L, R>
where
    L::Item: Copy,
    R::Item: Copy,
{
    type Item = (L::Item, R::Item);

    ghost ahead = { λ s. zip_ahead L.Source.ahead R.Source.ahead s };

    ghost loans = { λ s. L.Source.loans (zip_left s) ++ R.Source.loans (zip_right s) };

    ghost bottom = { λ s. Two (L.Source.bottom (zip_left s)) (R.Source.bottom (zip_right s)) };

    #[tactic(auto, using(laws::proofs::ZipLongest::zip_call))]
    fn next(&mut self) -> Result<Answer<(L::Item, R::Item)>, Fault>
        ensures gives { result ≡ first_answer (⟦<ZipLongest<L, R> as Source>⟧.ahead self.old) }
        ensures leaves { ⟦<ZipLongest<L, R> as Source>⟧.ahead self.new
            ≡ rest_of (⟦<ZipLongest<L, R> as Source>⟧.ahead self.old) }
        ensures keeps_loans { ⟦<ZipLongest<L, R> as Source>⟧.loans self.exit.now
            ≡ ⟦<ZipLongest<L, R> as Source>⟧.loans self.entry.now }
        ensures draws { Drew (⟦<ZipLongest<L, R> as Source>⟧.bottom self.old)
            (⟦<ZipLongest<L, R> as Source>⟧.bottom self.new) (fault_of result) }
        ensures follows { Follows (zip_run L.Source.ahead R.Source.ahead self.old) zip_end result
            (zip_below L.Source.ahead R.Source.ahead self.new)
            (zip_run L.Source.ahead R.Source.ahead self.new) zip_end }
        ensures below_left { L.Source.ahead (zip_left self.new)
            ≡ rest_of (L.Source.ahead (zip_left self.old)) }
        ensures below_right { R.Source.ahead (zip_right self.new)
            ≡ right_left (L.Source.ahead (zip_left self.old))
            (R.Source.ahead (zip_right self.old)) }
        ensures keeps { (zip_left_fill self.new ≡ zip_left_fill self.old)
            × (zip_right_fill self.new ≡ zip_right_fill self.old) }
    {
        let left = self.left.next()?;
        let right = self.right.next()?;
        Ok(match (left, right) {
            (Answer::Item(a), Answer::Item(b)) => Answer::Item((a, b)),
            (Answer::Item(a), Answer::End) => Answer::Item((a, self.right_fill)),
            (Answer::End, Answer::Item(b)) => Answer::Item((self.left_fill, b)),
            (Answer::End, Answer::End) => Answer::End,
        })
    }
}
