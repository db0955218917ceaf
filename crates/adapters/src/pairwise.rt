ghost use Rattle.std.specs.Prelude.{◌≡◌, map, Ok, []};
ghost use Rattle.steps.specs.Steps.{first as first_answer, rest as rest_of};
ghost use Rattle.steps.specs.Below.{Drew, fault_of};
ghost use Rattle.laws.specs.Items.{faults, items as items_of};
ghost use Rattle.laws.specs.Run.{Follows};
ghost use Rattle.laws.specs.Pairwise.{
  paired,
  next_old,
  unpaired,
  pairs_left,
  pairs_old,
  from_pair,
  Neighbours,
  PairsDrawn,
};
ghost use Rattle.adapters.specs.Pairwise.{
  pairwise_source,
  pairwise_old,
  pairwise_ahead,
  pairwise_run,
};

use steps::{Answer, Fault, Source};

/// Gives each item with the one before it, as a pair: `1 2 3` give `(1, 2) (2, 3)`.
///
/// A fault of the source is answered as it is. Before the first pair it loses the item drawn in its
/// call: `1 ! 2 3` give the fault and `(2, 3)`; later it loses nothing.
#[derive(Drop)]
pub struct Pairwise<S: Source> {
    source: S,
    old: Option<S::Item>,
}

impl<S: Source> Pairwise<S> {
    // what is ahead is told by a word, since a pairwise is a source only where its items can be
    // copied
    /// Takes over a source, and draws nothing.
    #[tactic(auto, using(laws::proofs::Pairwise::neighbours, laws::proofs::Pairwise::pairwise_faults, laws::proofs::Pairwise::pairwise_items))]
    pub fn new(source: S) -> Self
        ensures ahead { pairwise_ahead S.Source.ahead result ≡ unpaired (S.Source.ahead source) }
        ensures law { Neighbours (S.Source.ahead source) (pairwise_ahead S.Source.ahead result) }
        ensures holds { (pairwise_source result ≡ source) × (pairwise_old result ≡ None) }
        ensures faults_given { faults (pairwise_ahead S.Source.ahead result)
            ≡ faults (S.Source.ahead source) }
        ensures items_given { items_of (pairwise_ahead S.Source.ahead result)
            ≡ items_of (unpaired (map Ok (items_of (from_pair (S.Source.ahead source))))) }
        ensures drawn_over_run { PairsDrawn (S.Source.ahead source)
            (pairwise_run S.Source.ahead result) }
    {
        Pairwise { source, old: None }
    }

    /// Gives back its source as it stands.
    pub fn back(self) -> S
    where
        S::Item: Drop,
        ensures { result ≡ pairwise_source self }
    {
        let Pairwise { source, old: _ } = self;
        source
    }

    // The next item with the one that came before it.
    fn pair_with(&mut self, old: S::Item) -> Result<Answer<(S::Item, S::Item)>, Fault>
    where
        S::Item: Copy,
        ensures gives { result
            ≡ first_answer (paired old (S.Source.ahead (pairwise_source self.entry.now))) }
        ensures keeps_loans { S.Source.loans (pairwise_source self.exit.now)
            ≡ S.Source.loans (pairwise_source self.entry.now) }
        ensures draws { Drew (S.Source.bottom (pairwise_source self.entry.now))
            (S.Source.bottom (pairwise_source self.exit.now)) (fault_of result) }
        ensures below { S.Source.ahead (pairwise_source self.exit.now)
            ≡ rest_of (S.Source.ahead (pairwise_source self.entry.now)) }
        ensures stands { pairwise_old self.exit.now
            ≡ next_old (pairwise_old self.entry.now)
            (S.Source.ahead (pairwise_source self.entry.now)) }
    {
        let Answer::Item(new) = self.source.next()? else {
            return Ok(Answer::End);
        };
        self.old = Some(new);
        Ok(Answer::Item((old, new)))
    }
}

impl<S: Source> Source for Pairwise<S>
where
    S::Item: Copy,
{
    type Item = (S::Item, S::Item);

    ghost ahead = { λ s. pairwise_ahead S.Source.ahead s };

    ghost loans = { λ s. S.Source.loans (pairwise_source s) };

    ghost bottom = { λ s. S.Source.bottom (pairwise_source s) };

    #[tactic(auto, using(laws::proofs::Pairwise::pairs_call))]
    fn next(&mut self) -> Result<Answer<(S::Item, S::Item)>, Fault>
        ensures gives { result ≡ first_answer (⟦<Pairwise<S> as Source>⟧.ahead self.entry.now) }
        ensures leaves { ⟦<Pairwise<S> as Source>⟧.ahead self.exit.now
            ≡ rest_of (⟦<Pairwise<S> as Source>⟧.ahead self.entry.now) }
        ensures keeps_loans { ⟦<Pairwise<S> as Source>⟧.loans self.exit.now
            ≡ ⟦<Pairwise<S> as Source>⟧.loans self.entry.now }
        ensures draws { Drew (⟦<Pairwise<S> as Source>⟧.bottom self.entry.now)
            (⟦<Pairwise<S> as Source>⟧.bottom self.exit.now) (fault_of result) }
        ensures follows { Follows (pairwise_run S.Source.ahead self.entry.now) [] result
            (S.Source.ahead (pairwise_source self.exit.now))
            (pairwise_run S.Source.ahead self.exit.now) [] }
        ensures below { S.Source.ahead (pairwise_source self.exit.now)
            ≡ pairs_left (pairwise_old self.entry.now)
            (S.Source.ahead (pairwise_source self.entry.now)) }
        ensures stands { pairwise_old self.exit.now
            ≡ pairs_old (pairwise_old self.entry.now)
            (S.Source.ahead (pairwise_source self.entry.now)) }
    {
        match self.old {
            Some(old) => self.pair_with(old),
            None => match self.source.next()? {
                Answer::Item(old) => self.pair_with(old),
                Answer::End => Ok(Answer::End),
            },
        }
    }
}
