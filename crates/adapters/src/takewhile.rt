ghost use Rattle.std.specs.Prelude.{◌≡◌, false, map, Ok};
ghost use Rattle.steps.specs.Steps.{first as first_answer, rest as rest_of};
ghost use Rattle.steps.specs.Below.{Drew, fault_of};
ghost use Rattle.steps.specs.Fault.{OfPredicate};
ghost use Rattle.laws.specs.Items.{items as items_of};
ghost use Rattle.laws.specs.Run.{Follows};
ghost use Rattle.laws.specs.Faults.{Handed};
ghost use Rattle.laws.specs.TakeWhile.{taken, takes_left, takes_stopped, LongestFront, DeniedLast};
ghost use Rattle.adapters.specs.TakeWhile.{
  takewhile_source,
  takewhile_predicate,
  takewhile_stopped,
  takewhile_ahead,
  takewhile_run,
  takewhile_end,
};

use steps::{Answer, Fault, Predicate, Source};

/// Gives the items of its source while the predicate accepts them, and ends at the first that it
/// denies: below 3, the items `1 2 5 1` give `1 2`.
///
/// A fault of the source is answered as it is; a predicate's takes its item's place, and both leave
/// the adapter going on. The denied item is drawn, and no step after it.
#[derive(Drop)]
pub struct TakeWhile<S, P> {
    predicate: P,
    source: S,
    stop_flag: bool,
}

impl<S: Source, P: Predicate<S::Item>> TakeWhile<S, P>
where
    S::Item: Copy,
{
    /// Takes over a source, and draws nothing.
    #[tactic(auto, using(laws::proofs::TakeWhile::longest_front, laws::proofs::TakeWhile::takewhile_handed, laws::proofs::TakeWhile::takewhile_items))]
    pub fn new(predicate: P, source: S) -> Self
        ensures ahead { ⟦<TakeWhile<S, P> as Source>⟧.ahead result
            ≡ taken (P.Predicate.says predicate) (S.Source.ahead source) }
        ensures law { LongestFront (P.Predicate.says predicate) (S.Source.ahead source)
            (⟦<TakeWhile<S, P> as Source>⟧.ahead result) }
        ensures holds { (takewhile_predicate result ≡ predicate)
            × (takewhile_source result ≡ source) × (takewhile_stopped result ≡ false) }
        ensures faults_given { Handed OfPredicate (S.Source.ahead source)
            (takewhile_end P.Predicate.says S.Source.ahead result)
            (⟦<TakeWhile<S, P> as Source>⟧.ahead result) }
        ensures items_given { items_of (⟦<TakeWhile<S, P> as Source>⟧.ahead result)
            ≡ items_of (taken (P.Predicate.says predicate)
            (map Ok (items_of (S.Source.ahead source)))) }
        ensures drawn_over_run { DeniedLast (P.Predicate.says predicate) (S.Source.ahead source)
            (takewhile_run P.Predicate.says S.Source.ahead result)
            (takewhile_end P.Predicate.says S.Source.ahead result) }
    {
        TakeWhile {
            predicate,
            source,
            stop_flag: false,
        }
    }
}

impl<S: Source, P: Predicate<S::Item>> Source for TakeWhile<S, P>
where
    S::Item: Copy,
{
    type Item = S::Item;

    ghost ahead = { λ s. takewhile_ahead P.Predicate.says S.Source.ahead s };

    ghost loans = { λ s. S.Source.loans (takewhile_source s) };

    ghost bottom = { λ s. S.Source.bottom (takewhile_source s) };

    #[tactic(auto, using(steps::proofs::Below::drew_still, laws::proofs::TakeWhile::takes_call))]
    fn next(&mut self) -> Result<Answer<S::Item>, Fault>
        ensures gives { result ≡ first_answer (⟦<TakeWhile<S, P> as Source>⟧.ahead self.old) }
        ensures leaves { ⟦<TakeWhile<S, P> as Source>⟧.ahead self.new
            ≡ rest_of (⟦<TakeWhile<S, P> as Source>⟧.ahead self.old) }
        ensures keeps_loans { ⟦<TakeWhile<S, P> as Source>⟧.loans self.exit.now
            ≡ ⟦<TakeWhile<S, P> as Source>⟧.loans self.entry.now }
        ensures draws { Drew (⟦<TakeWhile<S, P> as Source>⟧.bottom self.old)
            (⟦<TakeWhile<S, P> as Source>⟧.bottom self.new) (fault_of result) }
        ensures follows { Follows (takewhile_run P.Predicate.says S.Source.ahead self.old)
            (takewhile_end P.Predicate.says S.Source.ahead self.old) result
            (S.Source.ahead (takewhile_source self.new))
            (takewhile_run P.Predicate.says S.Source.ahead self.new)
            (takewhile_end P.Predicate.says S.Source.ahead self.new) }
        ensures below { S.Source.ahead (takewhile_source self.new)
            ≡ takes_left (takewhile_stopped self.old)
            (S.Source.ahead (takewhile_source self.old)) }
        ensures stands { takewhile_stopped self.new
            ≡ takes_stopped (P.Predicate.says (takewhile_predicate self.old))
            (takewhile_stopped self.old) (S.Source.ahead (takewhile_source self.old)) }
        ensures keeps { takewhile_predicate self.new ≡ takewhile_predicate self.old }
    {
        if self.stop_flag {
            return Ok(Answer::End);
        }
        let Answer::Item(item) = self.source.next()? else {
            return Ok(Answer::End);
        };
        if self.predicate.test(item)? {
            Ok(Answer::Item(item))
        } else {
            self.stop_flag = true;
            Ok(Answer::End)
        }
    }
}
