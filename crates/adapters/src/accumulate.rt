ghost use Rattle.std.specs.Prelude.{◌≡◌, map, Ok, []};
ghost use Rattle.steps.specs.Steps.{first as first_answer, rest as rest_of};
ghost use Rattle.steps.specs.Below.{Drew, fault_of};
ghost use Rattle.steps.specs.Fault.{OfJoining};
ghost use Rattle.laws.specs.Items.{faults, items as items_of};
ghost use Rattle.laws.specs.Faults.{Woven, TotalsGiven};
ghost use Rattle.laws.specs.Accumulate.{from_initial, accumulate_left, total_after, RunningTotals};
ghost use Rattle.adapters.specs.Accumulate.{
  accumulate_source,
  accumulate_joining,
  accumulate_initial,
  accumulate_total,
  accumulate_ahead,
};

use steps::{Answer, Fault, Joining, Source};

/// Gives the initial value, if there is one, and then each item joined to the total so far: by
/// sums, `1 2 3` give `1 3 6`.
///
/// A fault of the source is answered as it is; a joining's takes its item's place. Both leave the
/// total.
#[derive(Drop)]
pub struct Accumulate<S: Source, J> {
    source: S,
    joining: J,
    initial: Option<S::Item>,
    total: Option<S::Item>,
}

impl<S: Source, J: Joining<S::Item>> Accumulate<S, J>
where
    S::Item: Copy,
{
    /// Takes over a source, and draws nothing.
    #[tactic(auto, using(laws::proofs::Accumulate::running_totals, laws::proofs::Accumulate::accumulate_woven, laws::proofs::Accumulate::totals_given, laws::proofs::Accumulate::accumulate_items))]
    pub fn new(source: S, joining: J, initial: Option<S::Item>) -> Self
        ensures ahead { ⟦<Accumulate<S, J> as Source>⟧.ahead result
            ≡ from_initial (J.Joining.joins joining) initial (S.Source.ahead source) }
        ensures law { RunningTotals (J.Joining.joins joining) initial (S.Source.ahead source)
            (⟦<Accumulate<S, J> as Source>⟧.ahead result) }
        ensures holds { (accumulate_source result ≡ source) × (accumulate_joining result ≡ joining)
            × (accumulate_initial result ≡ initial) × (accumulate_total result ≡ None) }
        ensures faults_given { Woven OfJoining (faults (S.Source.ahead source)) []
            (faults (⟦<Accumulate<S, J> as Source>⟧.ahead result)) }
        ensures totals_given { TotalsGiven (J.Joining.joins joining) initial (S.Source.ahead source)
            (⟦<Accumulate<S, J> as Source>⟧.ahead result) }
        ensures items_given { items_of (⟦<Accumulate<S, J> as Source>⟧.ahead result)
            ≡ items_of (from_initial (J.Joining.joins joining) initial
            (map Ok (items_of (S.Source.ahead source)))) }
    {
        Accumulate {
            source,
            joining,
            initial,
            total: None,
        }
    }
}

impl<S: Source, J: Joining<S::Item>> Source for Accumulate<S, J>
where
    S::Item: Copy,
{
    type Item = S::Item;

    ghost ahead = { λ s. accumulate_ahead J.Joining.joins S.Source.ahead s };

    ghost loans = { λ s. S.Source.loans (accumulate_source s) };

    ghost bottom = { λ s. S.Source.bottom (accumulate_source s) };

    #[tactic(auto, using(steps::proofs::Below::drew_still))]
    fn next(&mut self) -> Result<Answer<S::Item>, Fault>
        ensures gives { result ≡ first_answer (⟦<Accumulate<S, J> as Source>⟧.ahead self.old) }
        ensures leaves { ⟦<Accumulate<S, J> as Source>⟧.ahead self.new
            ≡ rest_of (⟦<Accumulate<S, J> as Source>⟧.ahead self.old) }
        ensures keeps_loans { ⟦<Accumulate<S, J> as Source>⟧.loans self.exit.now
            ≡ ⟦<Accumulate<S, J> as Source>⟧.loans self.entry.now }
        ensures draws { Drew (⟦<Accumulate<S, J> as Source>⟧.bottom self.old)
            (⟦<Accumulate<S, J> as Source>⟧.bottom self.new) (fault_of result) }
        ensures below { S.Source.ahead (accumulate_source self.new)
            ≡ accumulate_left (accumulate_initial self.old) (accumulate_total self.old)
            (S.Source.ahead (accumulate_source self.old)) }
        ensures stands { accumulate_total self.new
            ≡ total_after (J.Joining.joins (accumulate_joining self.old))
            (accumulate_initial self.old) (accumulate_total self.old)
            (S.Source.ahead (accumulate_source self.old)) }
        ensures keeps { (accumulate_joining self.new ≡ accumulate_joining self.old)
            × (accumulate_initial self.new ≡ accumulate_initial self.old) }
    {
        if let (None, Some(initial)) = (self.total, self.initial) {
            self.total = Some(initial);
            return Ok(Answer::Item(initial));
        }
        let Answer::Item(item) = self.source.next()? else {
            return Ok(Answer::End);
        };
        let total = match self.total {
            Some(total) => self.joining.join(total, item)?,
            None => item,
        };
        self.total = Some(total);
        Ok(Answer::Item(total))
    }
}
