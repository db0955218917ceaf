ghost use Rattle.std.specs.Prelude.{◌≡◌, ◌++◌};
ghost use Rattle.steps.specs.Steps.{first as first_answer, rest as rest_of};
ghost use Rattle.steps.specs.Below.{Drew, fault_of, Two};
ghost use Rattle.laws.specs.Items.{faults};
ghost use Rattle.laws.specs.Run.{Follows};
ghost use Rattle.laws.specs.Chain.{until_fault, OneAfterOther, CutAtFault};
ghost use Rattle.adapters.specs.Chain.{
  first_left,
  second_left,
  stage_after,
  chain_first,
  chain_second,
  chain_stage,
  chain_ahead,
  chain_run,
  chain_end,
  chain_below,
};
ghost use Rattle.adapters.specs.declared.chain.Stage.TheVariants.{First as at_first};

use steps::{Answer, Fault, Source};

/// Which source a chain draws from.
#[derive(Clone, Copy, PartialEq, Eq, Debug)]
pub enum Stage {
    /// The first, as long as it gives items.
    First,
    /// The second, once the first has ended and an item of the second was given.
    Second,
    /// Neither: both have ended, or a fault was met.
    Over,
}

/// Gives the steps of one source and then those of another: `1 2` and `3` give `1 2 3`.
///
/// A fault of either is answered as it is, and is the last step: `1 !` and `3` give `1 !`. Nothing
/// of the second source is drawn before the first has ended.
#[derive(Drop)]
pub struct Chain<A, B> {
    first: A,
    second: B,
    stage: Stage,
}

impl<A: Source, B: Source<Item = A::Item>> Chain<A, B> {
    // what is ahead is told by a word, since a chain is a source only where its items can be
    // dropped
    /// Takes over two sources, and draws nothing.
    #[tactic(auto, using(laws::proofs::Chain::one_after_other, laws::proofs::Chain::chain_faults))]
    pub fn new(first: A, second: B) -> Self
        ensures ahead { chain_ahead A.Source.ahead B.Source.ahead result
            ≡ until_fault (A.Source.ahead first ++ B.Source.ahead second) }
        ensures law { OneAfterOther (A.Source.ahead first) (B.Source.ahead second)
            (chain_ahead A.Source.ahead B.Source.ahead result) }
        ensures holds { (chain_first result ≡ first) × (chain_second result ≡ second)
            × (chain_stage result ≡ at_first) }
        ensures faults_given { faults (chain_ahead A.Source.ahead B.Source.ahead result)
            ++ (faults (chain_end A.Source.ahead B.Source.ahead result).first
            ++ faults (chain_end A.Source.ahead B.Source.ahead result).second)
            ≡ faults (A.Source.ahead first) ++ faults (B.Source.ahead second) }
        ensures drawn_over_run { CutAtFault (A.Source.ahead first) (B.Source.ahead second)
            (chain_ahead A.Source.ahead B.Source.ahead result)
            (chain_run A.Source.ahead B.Source.ahead result)
            (chain_end A.Source.ahead B.Source.ahead result) }
    {
        Chain {
            first,
            second,
            stage: Stage::First,
        }
    }
}

impl<A: Source, B: Source<Item = A::Item>> Source for Chain<A, B>
where
    A::Item: Drop,
{
    type Item = A::Item;

    ghost ahead = { λ s. chain_ahead A.Source.ahead B.Source.ahead s };

    ghost loans = { λ s. A.Source.loans (chain_first s) ++ B.Source.loans (chain_second s) };

    ghost bottom = { λ s. Two (A.Source.bottom (chain_first s))
        (B.Source.bottom (chain_second s)) };

    #[tactic(auto, using(crate::proofs::ChainLemmas::chain_call))]
    fn next(&mut self) -> Result<Answer<A::Item>, Fault>
        ensures gives { result ≡ first_answer (⟦<Chain<A, B> as Source>⟧.ahead self.old) }
        ensures leaves { ⟦<Chain<A, B> as Source>⟧.ahead self.new
            ≡ rest_of (⟦<Chain<A, B> as Source>⟧.ahead self.old) }
        ensures keeps_loans { ⟦<Chain<A, B> as Source>⟧.loans self.exit.now
            ≡ ⟦<Chain<A, B> as Source>⟧.loans self.entry.now }
        ensures draws { Drew (⟦<Chain<A, B> as Source>⟧.bottom self.old)
            (⟦<Chain<A, B> as Source>⟧.bottom self.new) (fault_of result) }
        ensures follows { Follows (chain_run A.Source.ahead B.Source.ahead self.old)
            (chain_end A.Source.ahead B.Source.ahead self.old) result
            (chain_below A.Source.ahead B.Source.ahead self.new)
            (chain_run A.Source.ahead B.Source.ahead self.new)
            (chain_end A.Source.ahead B.Source.ahead self.new) }
        ensures below_first { A.Source.ahead (chain_first self.new)
            ≡ first_left (chain_stage self.old) (A.Source.ahead (chain_first self.old)) }
        ensures below_second { B.Source.ahead (chain_second self.new)
            ≡ second_left (chain_stage self.old) (A.Source.ahead (chain_first self.old))
            (B.Source.ahead (chain_second self.old)) }
        ensures stands { chain_stage self.new
            ≡ stage_after (chain_stage self.old) (A.Source.ahead (chain_first self.old))
            (B.Source.ahead (chain_second self.old)) }
    {
        let stage = self.stage;
        // a fault leaves by `?` with nothing ahead
        self.stage = Stage::Over;
        if let Stage::First = stage {
            if let Answer::Item(item) = self.first.next()? {
                self.stage = Stage::First;
                return Ok(Answer::Item(item));
            }
        }
        if let Stage::Over = stage {
            return Ok(Answer::End);
        }
        let Answer::Item(item) = self.second.next()? else {
            return Ok(Answer::End);
        };
        self.stage = Stage::Second;
        Ok(Answer::Item(item))
    }
}
