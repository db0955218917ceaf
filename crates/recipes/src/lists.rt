ghost use Rattle.std.specs.Prelude.{
  ◌≡◌,
  ◌++◌,
  ◌-◌,
  ◌^◌,
  cond,
  nat_lt,
  length,
  map,
  take as front_of,
  drop as past_first,
  Some,
  None,
  Ok,
  IfOk,
  IsOkAnd,
  [],
  ◌<◌,
};
ghost use Rattle.laws.specs.Islice.{maxsize};
ghost use Rattle.laws.specs.GroupBy.{keyed, most_groups};
ghost use Rattle.laws.specs.Items.{Decided, faults};
ghost use Rattle.rules.specs.Combined.{turned};
ghost use Rattle.recipes.specs.Answers.{kept_of};
ghost use Rattle.recipes.specs.Lists.{
  refusal_of,
  OverItems,
  OnFault,
  FirstOf,
  triples_of,
  times,
  places_of,
  InRuns,
  FirstOfEachRun,
};

use crate::rule_error::RuleError;
use adapters::{Chain, Islice, Pairwise};
use groups::GroupBy;
use rules::Sum;
use std::alloc::Global;
use steps::{Answer, Joining, Keying, Predicate, Source};

/// All items of a source as a list.
///
/// ```python
/// def list_of(iterable):
///     return list(iterable)
/// ```
///
/// A fault ends it, and is handed on.
#[tactic(auto, using(crate::proofs::ListLemmas::listed_more, crate::proofs::ListLemmas::listed_all))]
pub fn list_of<S: Source + Drop>(alloc: Global, mut source: S) -> Result<Vec<S::Item>, RuleError>
where
    S::Item: Drop,
    ensures answer { IfOk result (λ v. S.Source.ahead source ≡ map Ok v.items) }
    ensures number { refusal_of result ≡ None }
    ensures fault { OnFault result (FirstOf (faults (S.Source.ahead source))) }
{
    let mut items = Vec::new(alloc);
    while let Answer::Item(item) = source.next()? {
        items.push(item)?;
    }
    Ok(items)
}

/// The first n items.
///
/// ```python
/// def take(n, iterable):
///     return list(islice(iterable, n))
/// ```
///
/// Refused by 5 where n passes 2^63 - 1. A fault in front of the end is handed on.
pub fn take<S: Source + Drop>(alloc: Global, n: u64, source: S) -> Result<Vec<S::Item>, RuleError>
where
    S::Item: Drop,
    ensures answer { IfOk result (λ v. front_of n (S.Source.ahead source) ≡ map Ok v.items) }
    ensures number { refusal_of result ≡ cond (nat_lt maxsize n) (Some 5) None }
    ensures fault { OnFault result (FirstOf (faults (front_of n (S.Source.ahead source)))) }
{
    list_of(alloc, Islice::new(source, &[Some(n)])?)
}

/// The last n items.
///
/// ```python
/// def tail(n, iterable):
///     return iter(deque(iterable, maxlen=n))
/// ```
///
/// It wants memory for all items. A fault is handed on.
pub fn tail<S: Source + Drop>(alloc: Global, n: usize, source: S) -> Result<Vec<S::Item>, RuleError>
where
    S::Item: Drop,
    ensures answer { IfOk result (λ v. OverItems (S.Source.ahead source)
        (λ xs. v.items ≡ past_first (length xs - n) xs)) }
    ensures number { refusal_of result ≡ None }
    ensures fault { OnFault result (FirstOf (faults (S.Source.ahead source))) }
{
    let mut items = list_of(alloc, source)?;
    let from = items.len().saturating_sub(n);
    Ok(items.split_off(from)?)
}

/// The items of three sources, one source after another.
///
/// ```python
/// def flatten(list_of_lists):
///     return chain.from_iterable(list_of_lists)
/// ```
///
/// A fault ends it, and is handed on.
pub fn flatten<A, B, C, T>(alloc: Global, a: A, b: B, c: C) -> Result<Vec<T>, RuleError>
where
    A: Source<Item = T> + Drop,
    B: Source<Item = T> + Drop,
    C: Source<Item = T> + Drop,
    T: Drop,
    ensures answer { IfOk result (λ v. A.Source.ahead a ++ (B.Source.ahead b ++ C.Source.ahead c)
        ≡ map Ok v.items) }
    ensures number { refusal_of result ≡ None }
    ensures fault { OnFault result (FirstOf (faults
        (A.Source.ahead a ++ (B.Source.ahead b ++ C.Source.ahead c)))) }
{
    list_of(alloc, Chain::new(a, Chain::new(b, c)))
}

/// The items without those that have the key of the item before them.
///
/// ```python
/// def unique_justseen(iterable, key=None):
///     return map(next, map(itemgetter(1), groupby(iterable, key)))
/// ```
///
/// A fault ends it, and is handed on, the key's too.
pub fn unique_justseen<S: Source + Drop, K: Keying<S::Item> + Drop>(
    alloc: Global,
    source: S,
    keys: K,
) -> Result<Vec<S::Item>, RuleError>
where
    S::Item: Copy,
    K::Key: Copy,
    ensures answer { IfOk result (λ v. OverItems (S.Source.ahead source)
        (λ xs. FirstOfEachRun (K.Keying.key keys) K.Key.eq xs v.items)) }
    ensures number { length (S.Source.ahead source) < most_groups → refusal_of result ≡ None }
    ensures fault { OnFault result
        (FirstOf (faults (keyed (K.Keying.key keys) (S.Source.ahead source)))) }
{
    let mut firsts = Vec::new(alloc);
    let mut groups = GroupBy::new(source, keys);
    while let Answer::Item((_, number)) = groups.group()? {
        if let Answer::Item(first) = groups.item(number)? {
            firsts.push(first)?;
        }
    }
    Ok(firsts)
}

/// The places of the items that equal a value, counted from 0.
///
/// ```python
/// def iter_index(iterable, value):
///     for i, element in enumerate(iterable):
///         if element is value or element == value:
///             yield i
/// ```
///
/// A fault ends it, and is handed on; so does the joining's of a place that 64 bits do not hold.
#[tactic(auto, using(crate::proofs::ListLemmas::kept_more))]
pub fn iter_index<S: Source + Drop>(
    alloc: Global,
    mut source: S,
    value: S::Item,
) -> Result<Vec<u64>, RuleError>
where
    S::Item: Eq + Drop,
    ensures answer { IfOk result (λ v. OverItems (S.Source.ahead source)
        (λ xs. v.items ≡ places_of S.Item.eq value 0 xs)) }
    ensures number { refusal_of result ≡ None }
    ensures fault { length (S.Source.ahead source) < 2 ^ 64
        → OnFault result (FirstOf (faults (S.Source.ahead source))) }
{
    let mut places = Vec::new(alloc);
    let mut place = 0;
    while let Answer::Item(item) = source.next()? {
        if item == value {
            places.push(place)?;
        }
        place = Sum.join(place, 1)?;
    }
    Ok(places)
}

/// The items in runs of n, the last filled up: one list, of which each n items in a row are a run.
/// With n = 0 there are none.
///
/// ```python
/// def grouper(iterable, n, fillvalue):
///     args = [iter(iterable)] * n
///     return zip_longest(*args, fillvalue=fillvalue)
/// ```
///
/// A fault ends it, and is handed on.
pub fn grouper<S: Source + Drop>(
    alloc: Global,
    source: S,
    n: usize,
    fill: S::Item,
) -> Result<Vec<S::Item>, RuleError>
where
    S::Item: Copy,
    ensures none { n ≡ 0 → IsOkAnd result (λ v. v.items ≡ []) }
    ensures answer { 0 < n → IfOk result (λ v. OverItems (S.Source.ahead source)
        (λ xs. InRuns n fill xs v.items)) }
    ensures number { refusal_of result ≡ None }
    ensures fault { OnFault result (FirstOf (faults (S.Source.ahead source))) }
{
    if n == 0 {
        return Ok(Vec::new(alloc));
    }
    let mut items = list_of(alloc, source)?;
    let over = items.len() % n;
    if over > 0 {
        for _ in over..n {
            items.push(fill)?;
        }
    }
    Ok(items)
}

/// Each three items in a row.
///
/// ```python
/// def triplewise(iterable):
///     for (a, _), (b, c) in pairwise(pairwise(iterable)):
///         yield a, b, c
/// ```
///
/// A fault ends it, and is handed on.
pub fn triplewise<S: Source + Drop>(
    alloc: Global,
    source: S,
) -> Result<Vec<(S::Item, S::Item, S::Item)>, RuleError>
where
    S::Item: Copy,
    ensures answer { IfOk result (λ v. OverItems (S.Source.ahead source)
        (λ xs. v.items ≡ triples_of xs)) }
    ensures number { refusal_of result ≡ None }
    ensures fault { OnFault result (FirstOf (faults (S.Source.ahead source))) }
{
    let mut triples = Vec::new(alloc);
    let mut pairs = Pairwise::new(Pairwise::new(source));
    while let Answer::Item(neighbours) = pairs.next()? {
        let ((a, _), (b, c)) = neighbours;
        triples.push((a, b, c))?;
    }
    Ok(triples)
}

/// The items n times over, one pass after another.
///
/// ```python
/// def ncycles(iterable, n):
///     return chain.from_iterable(repeat(tuple(iterable), n))
/// ```
///
/// A fault ends it, and is handed on.
#[tactic(auto, using(crate::proofs::ListLemmas::once_more))]
pub fn ncycles<S: Source + Drop>(
    alloc: Global,
    source: S,
    n: usize,
) -> Result<Vec<S::Item>, RuleError>
where
    S::Item: Copy,
    ensures answer { IfOk result (λ v. OverItems (S.Source.ahead source)
        (λ xs. v.items ≡ times n xs)) }
    ensures number { refusal_of result ≡ None }
    ensures fault { OnFault result (FirstOf (faults (S.Source.ahead source))) }
{
    let once = list_of(alloc, source)?;
    let mut all = Vec::new(alloc);
    for _ in 0..n {
        all.extend_from_slice(once.as_slice())?;
    }
    Ok(all)
}

/// The items that a predicate denies, and those that it accepts.
///
/// ```python
/// def partition(pred, iterable):
///     t1, t2 = tee(iterable)
///     return filterfalse(pred, t1), filter(pred, t2)
/// ```
///
/// A fault ends it, and is handed on, the predicate's too.
#[tactic(auto, using(crate::proofs::ListLemmas::kept_more))]
pub fn partition<S: Source + Drop, P: Predicate<S::Item> + Drop>(
    alloc: Global,
    predicate: P,
    mut source: S,
) -> Result<(Vec<S::Item>, Vec<S::Item>), RuleError>
where
    S::Item: Copy,
    ensures answer { IfOk result (λ r. OverItems (S.Source.ahead source)
        (λ xs. Decided (P.Predicate.says predicate) xs
        × (r.0.items ≡ kept_of (λ a. turned (P.Predicate.says predicate a)) xs)
        × (r.1.items ≡ kept_of (P.Predicate.says predicate) xs))) }
    ensures number { refusal_of result ≡ None }
    ensures fault { OnFault result
        (FirstOf (faults (keyed (P.Predicate.says predicate) (S.Source.ahead source)))) }
{
    let mut denied = Vec::new(alloc);
    let mut accepted = Vec::new(alloc);
    while let Answer::Item(item) = source.next()? {
        if predicate.test(item)? {
            accepted.push(item)?;
        } else {
            denied.push(item)?;
        }
    }
    Ok((denied, accepted))
}
