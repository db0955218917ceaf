ghost use Rattle.std.specs.Prelude.{◌≡◌, ◌++◌, true, false, map, Ok};
ghost use Rattle.steps.specs.Steps.{first as first_answer, rest as rest_of};
ghost use Rattle.steps.specs.Below.{Drew, Ran, fault_of, Two};
ghost use Rattle.steps.specs.Fault.{OfPredicate};
ghost use Rattle.laws.specs.Items.{items as items_of, first_fault};
ghost use Rattle.laws.specs.Run.{Follows};
ghost use Rattle.laws.specs.Faults.{HandedTwo, unlost};
ghost use Rattle.laws.specs.Compress.{CompressDraws, compressed, KeepsAccepted, EachDatum};
ghost use Rattle.adapters.specs.Compress.{
  compress_items,
  compress_selectors,
  compress_predicate,
  compress_ended,
  compress_ahead,
  compress_next,
  compress_run,
  compress_end,
  compress_left,
};

use crate::finish::keep_first;
use steps::{Answer, Fault, Predicate, Source};

/// Gives the items whose selectors the predicate accepts: `7 8 9` with `0 5 0` give `7 9` where
/// numbers below 1 are accepted.
///
/// A datum is drawn, then its selector. A fault of the data is answered with no selector drawn; a
/// selector's and a predicate's lose the datum. Once it has said end it draws nothing.
#[derive(Drop)]
pub struct Compress<D, S, P> {
    items: D,
    selectors: S,
    predicate: P,
    ended: bool,
}

impl<D: Source, S: Source, P: Predicate<S::Item>> Compress<D, S, P>
where
    D::Item: Drop,
{
    /// Takes over two sources, and draws nothing.
    #[tactic(auto, using(laws::proofs::Compress::keeps_accepted, laws::proofs::Compress::compress_handed, laws::proofs::Compress::compress_unlost))]
    pub fn new(items: D, selectors: S, predicate: P) -> Self
        ensures ahead { ⟦<Compress<D, S, P> as Source>⟧.ahead result
            ≡ compressed (P.Predicate.says predicate) (D.Source.ahead items)
            (S.Source.ahead selectors) }
        ensures law { KeepsAccepted (P.Predicate.says predicate) (D.Source.ahead items)
            (S.Source.ahead selectors) (⟦<Compress<D, S, P> as Source>⟧.ahead result) }
        ensures holds { (compress_items result ≡ items) × (compress_selectors result ≡ selectors)
            × (compress_predicate result ≡ predicate) × (compress_ended result ≡ false) }
        ensures faults_given { HandedTwo OfPredicate (D.Source.ahead items)
            (S.Source.ahead selectors)
            (compress_end D.Source.ahead S.Source.ahead result).data_left
            (compress_end D.Source.ahead S.Source.ahead result).selectors_left
            (⟦<Compress<D, S, P> as Source>⟧.ahead result) }
        ensures items_given { items_of (⟦<Compress<D, S, P> as Source>⟧.ahead result)
            ≡ items_of (compressed (P.Predicate.says predicate)
            (map Ok (unlost (items_of (D.Source.ahead items)) (S.Source.ahead selectors)))
            (map Ok (items_of (S.Source.ahead selectors)))) }
        ensures drawn_over_run { EachDatum (D.Source.ahead items) (S.Source.ahead selectors)
            (compress_run P.Predicate.says D.Source.ahead S.Source.ahead result)
            (compress_end D.Source.ahead S.Source.ahead result) }
    {
        Compress {
            items,
            selectors,
            predicate,
            ended: false,
        }
    }
}

impl<D: Source, S: Source, P: Predicate<S::Item>> Source for Compress<D, S, P>
where
    D::Item: Drop,
{
    type Item = D::Item;

    ghost ahead = { λ s. compress_ahead P.Predicate.says D.Source.ahead S.Source.ahead s };

    ghost loans = { λ s. D.Source.loans (compress_items s)
        ++ S.Source.loans (compress_selectors s) };

    ghost bottom = { λ s. Two (D.Source.bottom (compress_items s))
        (S.Source.bottom (compress_selectors s)) };

    #[tactic(auto, using(laws::proofs::Compress::compress_call))]
    fn next(&mut self) -> Result<Answer<D::Item>, Fault>
        ensures gives { result ≡ first_answer (⟦<Compress<D, S, P> as Source>⟧.ahead self.old) }
        ensures leaves { ⟦<Compress<D, S, P> as Source>⟧.ahead self.new
            ≡ rest_of (⟦<Compress<D, S, P> as Source>⟧.ahead self.old) }
        ensures keeps_loans { ⟦<Compress<D, S, P> as Source>⟧.loans self.exit.now
            ≡ ⟦<Compress<D, S, P> as Source>⟧.loans self.entry.now }
        ensures draws { Drew (⟦<Compress<D, S, P> as Source>⟧.bottom self.old)
            (⟦<Compress<D, S, P> as Source>⟧.bottom self.new) (fault_of result) }
        ensures follows { Follows
            (compress_run P.Predicate.says D.Source.ahead S.Source.ahead self.old)
            (compress_end D.Source.ahead S.Source.ahead self.old) result
            (compress_left D.Source.ahead S.Source.ahead self.new)
            (compress_run P.Predicate.says D.Source.ahead S.Source.ahead self.new)
            (compress_end D.Source.ahead S.Source.ahead self.new) }
        ensures below_items { D.Source.ahead (compress_items self.new)
            ≡ (compress_next P.Predicate.says D.Source.ahead S.Source.ahead self.old).data_left }
        ensures below_selectors { S.Source.ahead (compress_selectors self.new)
            ≡ (compress_next P.Predicate.says D.Source.ahead S.Source.ahead
            self.old).selectors_left }
        ensures stands { compress_ended self.new
            ≡ (compress_next P.Predicate.says D.Source.ahead S.Source.ahead self.old).ended }
        ensures keeps { compress_predicate self.new ≡ compress_predicate self.old }
    {
        while !self.ended {
            let Answer::Item(item) = self.items.next()? else {
                self.ended = true;
                return Ok(Answer::End);
            };
            let Answer::Item(selector) = self.selectors.next()? else {
                self.ended = true;
                return Ok(Answer::End);
            };
            if self.predicate.test(selector)? {
                return Ok(Answer::Item(item));
            }
        }
        Ok(Answer::End)
    }
}

impl<D: Source, S: Source, P: Predicate<S::Item>> Compress<D, S, P>
where
    D::Item: Drop,
{
    // The same loop stands in islice; what each leaves below differs.
    /// Steps the compress until it says end, and answers the first fault that it met, if any.
    #[tactic(auto, using(steps::proofs::RunLemmas::ran_start))]
    pub fn finish(&mut self) -> Option<Fault>
        ensures meets { result ≡ first_fault (⟦<Compress<D, S, P> as Source>⟧.ahead self.old) }
        ensures stands { compress_ended self.new ≡ true }
        ensures below_items { D.Source.ahead (compress_items self.new)
            ≡ (compress_end D.Source.ahead S.Source.ahead self.old).data_left }
        ensures below_selectors { S.Source.ahead (compress_selectors self.new)
            ≡ (compress_end D.Source.ahead S.Source.ahead self.old).selectors_left }
        ensures law { compress_ended self.old ≡ false
            → CompressDraws (D.Source.ahead (compress_items self.old))
            (S.Source.ahead (compress_selectors self.old))
            (D.Source.ahead (compress_items self.new))
            (S.Source.ahead (compress_selectors self.new)) }
        ensures keeps { compress_predicate self.new ≡ compress_predicate self.old }
        ensures ran { Ran (⟦<Compress<D, S, P> as Source>⟧.bottom self.old)
            (⟦<Compress<D, S, P> as Source>⟧.bottom self.new)
            (⟦<Compress<D, S, P> as Source>⟧.ahead self.old) }
    {
        let mut met = None;
        loop {
            let answer = self.next();
            if let Ok(Answer::End) = answer {
                return met;
            }
            met = keep_first(met, answer);
        }
    }
}
