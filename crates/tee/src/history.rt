// Histories of steps and copies of one tee, and the law of all of them.
ghost use Rattle.std.specs.Prelude.{◌≡◌, ◌≤◌, ◌<◌, length, MatchResult};
ghost use Rattle.steps.specs.Refusals.{refusal_number};
ghost use Rattle.laws.specs.Tee.{
  asked_for,
  Transition,
  Ran,
  EveryHistory,
  EveryRefusedUnfelt,
  SameAnswers,
};
ghost use Rattle.tee.specs.Tee.{marks_of, source_of};
ghost use Rattle.tee.specs.History.{memory, memories};

use crate::tee::Tee;
use steps::{Answer, CallError, MakingError, Refusal, Source};

/// What a call asks of a tee: a step of a branch, lent the tee's own store as the calls before left
/// it; a step of a branch, lent another store; or a copy of a branch.
#[derive(Clone, Copy, PartialEq, Eq, Debug)]
pub enum Ask {
    /// A step of this branch, lent the tee's own store.
    Step(usize),
    /// A step of this branch, lent the other store.
    StepElsewhere(usize),
    /// A copy of this branch.
    Copy(usize),
}

/// What a call told.
#[derive(Clone, Copy, PartialEq, Eq, Debug)]
pub enum Told<T> {
    /// An item, the end, a refusal or a fault, by a step.
    Stepped(Result<Answer<T>, CallError>),
    /// The number of the new branch, or a refusal, by a copy.
    Copied(Result<usize, Refusal>),
}

/// A call with the other store that it may lend; once it was made, with what it told.
#[derive(Drop)]
pub struct Call<T> {
    /// What it asks.
    pub ask: Ask,
    /// The store that a step elsewhere lends.
    pub other: Vec<T>,
    /// What it told, once it was made.
    pub told: Option<Told<T>>,
}

// Makes one call, and keeps what it told.
fn make<S: Source>(tee: &mut Tee<S>, store: &mut [S::Item], call: &mut Call<S::Item>)
where
    S::Item: Copy,
    ensures transition { Transition marks_of (λ t. S.Source.ahead (source_of t))
        (record { tee = tee.old; store = store.old }) (memory call.old)
        (memory call.new) (record { tee = tee.new; store = store.new }) }
    ensures keeps_loans { S.Source.loans (source_of tee.new) ≡ S.Source.loans (source_of tee.old) }
{
    let told = match call.ask {
        Ask::Step(branch) => Told::Stepped(tee.step(branch, store)),
        Ask::StepElsewhere(branch) => Told::Stepped(tee.step(branch, call.other.as_mut_slice())),
        Ask::Copy(branch) => Told::Copied(tee.copy(branch)),
    };
    call.told = Some(told);
}

/// Makes a tee over the source, and then all the calls on it, one after another, each step of its
/// own store as the calls before left it. Gives the tee, and how many calls were made.
///
/// Refused as the making is, by 8: then no call is made. A call that is refused or meets a fault is
/// one of the history, with what it told, and the next one is made.
///
/// Over 1, 2, 3 with a store of 2 places, the calls step 0, copy 0, step 2 tell 1, number 2 and 2.
pub fn run<S: Source>(
    source: S,
    branches: Option<usize>,
    store: &mut [S::Item],
    calls: &mut [Call<S::Item>],
) -> Result<(Tee<S>, usize), MakingError<S>>
where
    S::Item: Copy,
    ensures { MatchResult result
        (λ p. (asked_for branches ≤ 16) × (p.1 ≡ length calls.old)
        × (S.Source.loans (source_of p.0) ≡ S.Source.loans source)
        × Ran marks_of (λ t. S.Source.ahead (source_of t)) (asked_for branches)
        (S.Source.ahead source) store.old (memories calls.old) (memories calls.new)
        (record { tee = p.0; store = store.new }))
        (λ e. (16 < asked_for branches) × (refusal_number e.refusal ≡ 8) × (e.source ≡ source)
        × (store.new ≡ store.old) × (calls.new ≡ calls.old)) }
{
    let mut tee = Tee::new(source, branches, store.len())?;
    for call in calls.iter_mut() {
        make(&mut tee, store, call);
    }
    Ok((tee, calls.len()))
}

/// Whatever calls lead on from a making, each by the contract of `step` or `copy`: the law of
/// histories holds of them, without the refused ones the others lead to the same with the same
/// answers, and two branches that were stepped equally often, of equal tees, have the same answers.
pub fn every_history<S: Source>() -> u8
where
    S::Item: Copy,
    ensures result { result ≡ 0 }
    ensures law { EveryHistory {S = Tee S} marks_of S.Item }
    ensures unfelt { EveryRefusedUnfelt {S = Tee S} marks_of S.Item }
    ensures same { SameAnswers S.Item }
{
    0
}
