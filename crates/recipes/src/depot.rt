ghost use Rattle.std.specs.Prelude.{◌≡◌, ◌+◌, ◌^◌, ◌≤◌, length, None, Some, IfOk};
ghost use Rattle.std.proofs.Common.{rules};
ghost use Rattle.laws.specs.Accumulate.{from_initial};
ghost use Rattle.laws.specs.Items.{items as items_of, faults};
ghost use Rattle.laws.specs.ZipLongest.{zipped};
ghost use Rattle.rules.specs.Joining.{sum};
ghost use Rattle.rules.specs.Predicate.{lasts};
ghost use Rattle.recipes.specs.Answers.{first_of, above};
ghost use Rattle.recipes.specs.Lists.{
  refusal_of,
  OverItems,
  OnFault,
  FirstOf,
  EachThird,
  differing,
};

use crate::answers::first_true;
use crate::lists::list_of;
use crate::rule_error::RuleError;
use adapters::{Accumulate, DropWhile, Islice, Pairwise, ZipLongest};
use groups::{GroupBy, Grouper};
use rules::{Bay, LastsAtLeast, Not, Sum};
use sources::Block;
use std::alloc::Global;
use steps::{Answer, Fault, Predicate, Source, Steps};

/// The gaps of ten minutes or more between neighbours of a bay, each with its bay.
///
/// ```python
/// def long_gaps(blocks):
///     return [(bay, b.start - a.end)
///             for bay, mine in groupby(blocks, key=attrgetter("bay"))
///             for a, b in pairwise(mine)
///             if b.start - a.end >= 10]
/// ```
///
/// A fault ends it, and is handed on.
pub fn long_gaps<S: Source<Item = Block> + Drop>(
    alloc: Global,
    blocks: S,
) -> Result<Vec<(u16, u16)>, RuleError> {
    let mut gaps = Vec::new(alloc);
    let mut bays = GroupBy::new(blocks, Bay);
    for _ in 0..u64::MAX {
        let Answer::Item((bay, number)) = bays.group()? else {
            break;
        };
        for pair in Steps(Pairwise::new(Grouper::new(&mut bays, number))) {
            let (a, b) = pair?;
            if let Some(minutes @ 10..) = a.minutes_until(&b) {
                gaps.push((bay, minutes))?;
            }
        }
    }
    Ok(gaps)
}

/// The first block that lasts an hour or more, if there is one.
///
/// ```python
/// def first_long(blocks):
///     return next(dropwhile(lambda b: b.end - b.start < 60, blocks), None)
/// ```
///
/// A fault in front of it is handed on.
#[tactic(auto, using(crate::proofs::AnswerLemmas::first_item, crate::proofs::AnswerLemmas::first_broken))]
pub fn first_long<S: Source<Item = Block> + Drop>(blocks: S) -> Result<Option<Block>, Fault>
where
    ensures answer { result ≡ first_of (lasts 60) (S.Source.ahead blocks) }
{
    let shorter = Not(LastsAtLeast { minutes: 60 });
    match DropWhile::new(shorter, blocks).next() {
        Ok(answer) => Ok(answer.item()),
        Err(fault) => Err(fault),
    }
}

/// Accepts the numbers above a limit. It meets no fault.
#[derive(Clone, Copy, PartialEq, Eq, Debug)]
pub struct Above {
    /// The last number that is denied.
    pub limit: u64,
}

impl Predicate<u64> for Above {
    ghost says = { λ p n. above p.limit n };

    ghost origin = { Prim.search rules };

    fn test(&self, item: u64) -> Result<bool, Fault> {
        Ok(item > self.limit)
    }
}

/// The first running charge, from a base load, that is above the limit, if there is one.
///
/// ```python
/// def first_over(loads, base, limit):
///     return next((t for t in accumulate(loads, initial=base) if t > limit), None)
/// ```
///
/// A fault in front of it is handed on, as is the joining's of a charge that 64 bits do not hold.
pub fn first_over<S: Source<Item = u64> + Drop>(
    loads: S,
    base: u64,
    limit: u64,
) -> Result<Option<u64>, Fault>
where
    ensures answer { result
        ≡ first_of (above limit) (from_initial sum (Some base) (S.Source.ahead loads)) }
{
    first_true(Accumulate::new(loads, Sum, Some(base)), Above { limit })
}

/// Every third slot from the second.
///
/// ```python
/// def third_slots(slots):
///     return list(islice(slots, 1, None, 3))
/// ```
///
/// A fault ends it, and is handed on.
pub fn third_slots<S: Source<Item = u64> + Drop>(
    alloc: Global,
    slots: S,
) -> Result<Vec<u64>, RuleError>
where
    ensures answer { IfOk result (λ v. length (items_of (S.Source.ahead slots)) + 3 ≤ 2 ^ 64 →
        OverItems (S.Source.ahead slots) (λ xs. EachThird xs v.items)) }
    ensures number { refusal_of result ≡ None }
    ensures fault { OnFault result (FirstOf (faults (S.Source.ahead slots))) }
{
    list_of(alloc, Islice::new(slots, &[Some(1), None, Some(3)])?)
}

/// What differs between a plan and what was charged, side by side; where one is longer, `None`
/// stands on the other side.
///
/// ```python
/// def deviations(plan, actual):
///     return [(p, a) for p, a in zip_longest(plan, actual) if p != a]
/// ```
///
/// A fault ends it, and is handed on.
pub fn deviations<P, A>(
    alloc: Global,
    plan: P,
    actual: A,
) -> Result<Vec<(Option<Block>, Option<Block>)>, RuleError>
where
    P: Source<Item = Option<Block>> + Drop,
    A: Source<Item = Option<Block>> + Drop,
    ensures answer { IfOk result (λ v. OverItems
        (zipped None None (P.Source.ahead plan) (A.Source.ahead actual))
        (λ ps. v.items ≡ differing ⟦<Option<Block> as PartialEq>⟧.eq ps)) }
    ensures number { refusal_of result ≡ None }
    ensures fault { OnFault result (FirstOf (faults
        (zipped None None (P.Source.ahead plan) (A.Source.ahead actual)))) }
{
    let mut differ = Vec::new(alloc);
    let mut sides = ZipLongest::new(plan, actual, None, None);
    while let Answer::Item((planned, actual)) = sides.next()? {
        if planned != actual {
            differ.push((planned, actual))?;
        }
    }
    Ok(differ)
}
