ghost use Rattle.std.specs.Prelude.{◌≡◌, false, map, Ok, []};
ghost use Rattle.steps.specs.Steps.{first as first_answer, rest as rest_of};
ghost use Rattle.steps.specs.Below.{Drew, fault_of};
ghost use Rattle.steps.specs.Fault.{OfPredicate};
ghost use Rattle.laws.specs.Items.{faults, items as items_of};
ghost use Rattle.laws.specs.Faults.{Woven};
ghost use Rattle.laws.specs.DropWhile.{dropped, BehindFront};
ghost use Rattle.adapters.specs.DropWhile.{
  dropwhile_source,
  dropwhile_predicate,
  dropwhile_started,
  dropwhile_ahead,
  dropwhile_after,
};

use steps::{Answer, Fault, Predicate, Source};

/// Loses the items of its source that come before the first that the predicate denies, and gives
/// all from that one on: below 3, the items `1 2 5 1` give `5 1`.
///
/// A fault of the source is answered as it is; a predicate's takes its item's place and does not
/// start it.
#[derive(Drop)]
pub struct DropWhile<S, P> {
    predicate: P,
    source: S,
    start_flag: bool,
}

impl<S: Source, P: Predicate<S::Item>> DropWhile<S, P>
where
    S::Item: Copy,
{
    /// Takes over a source, and draws nothing.
    #[tactic(auto, using(laws::proofs::DropWhile::behind_front, laws::proofs::DropWhile::dropwhile_woven, laws::proofs::DropWhile::dropwhile_items))]
    pub fn new(predicate: P, source: S) -> Self
        ensures ahead { ⟦<DropWhile<S, P> as Source>⟧.ahead result
            ≡ dropped (P.Predicate.says predicate) (S.Source.ahead source) }
        ensures law { BehindFront (P.Predicate.says predicate) (S.Source.ahead source)
            (⟦<DropWhile<S, P> as Source>⟧.ahead result) }
        ensures holds { (dropwhile_predicate result ≡ predicate)
            × (dropwhile_source result ≡ source) × (dropwhile_started result ≡ false) }
        ensures faults_given { Woven OfPredicate (faults (S.Source.ahead source)) []
            (faults (⟦<DropWhile<S, P> as Source>⟧.ahead result)) }
        ensures items_given { items_of (⟦<DropWhile<S, P> as Source>⟧.ahead result)
            ≡ items_of (dropped (P.Predicate.says predicate)
            (map Ok (items_of (S.Source.ahead source)))) }
    {
        DropWhile {
            predicate,
            source,
            start_flag: false,
        }
    }
}

impl<S: Source, P: Predicate<S::Item>> Source for DropWhile<S, P>
where
    S::Item: Copy,
{
    type Item = S::Item;

    ghost ahead = { λ s. dropwhile_ahead P.Predicate.says S.Source.ahead s };

    ghost loans = { λ s. S.Source.loans (dropwhile_source s) };

    ghost bottom = { λ s. S.Source.bottom (dropwhile_source s) };

    fn next(&mut self) -> Result<Answer<S::Item>, Fault>
        ensures gives { result ≡ first_answer (⟦<DropWhile<S, P> as Source>⟧.ahead self.old) }
        ensures leaves { ⟦<DropWhile<S, P> as Source>⟧.ahead self.new
            ≡ rest_of (⟦<DropWhile<S, P> as Source>⟧.ahead self.old) }
        ensures keeps_loans { ⟦<DropWhile<S, P> as Source>⟧.loans self.exit.now
            ≡ ⟦<DropWhile<S, P> as Source>⟧.loans self.entry.now }
        ensures draws { Drew (⟦<DropWhile<S, P> as Source>⟧.bottom self.old)
            (⟦<DropWhile<S, P> as Source>⟧.bottom self.new) (fault_of result) }
        ensures below { S.Source.ahead (dropwhile_source self.new)
            ≡ (dropwhile_after P.Predicate.says S.Source.ahead self.old).left }
        ensures stands { dropwhile_started self.new
            ≡ (dropwhile_after P.Predicate.says S.Source.ahead self.old).started }
        ensures keeps { dropwhile_predicate self.new ≡ dropwhile_predicate self.old }
    {
        while let Answer::Item(item) = self.source.next()? {
            if self.start_flag || !self.predicate.test(item)? {
                self.start_flag = true;
                return Ok(Answer::Item(item));
            }
        }
        Ok(Answer::End)
    }
}
