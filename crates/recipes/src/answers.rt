ghost use Rattle.std.specs.Prelude.{◌≡◌, MatchResult, Some, [], ◌∷◌, Ok, true, false};
ghost use Rattle.steps.specs.Refusals.{refusal_number};
ghost use Rattle.laws.specs.Islice.{Consumed, bounds};
ghost use Rattle.laws.specs.Items.{past};
ghost use Rattle.laws.specs.ZipLongest.{zipped};
ghost use Rattle.recipes.specs.Answers.{
  nth_of,
  first_of,
  count_of,
  dot_of,
  alike_of,
  EachNth,
  EachFirst,
  EachCount,
  EachDot,
  EachAlike,
  HandsOn,
  above,
  nth_left,
};

use adapters::{DropWhile, ZipLongest};
use groups::GroupBy;
use rules::{Itself, Not, Sum};
use steps::{Answer, CallError, Fault, Joining, MakingError, Predicate, Source};

/// The item number n of what is ahead, counted from 0, if there is one.
///
/// ```python
/// def nth(iterable, n, default=None):
///     return next(islice(iterable, n, None), default)
/// ```
///
/// A fault in front of it is handed on. The owner goes on behind that item, or behind that fault.
pub fn nth<S: Source>(source: &mut S, n: u64) -> Result<Option<S::Item>, Fault>
where
    S::Item: Drop,
    ensures answer { result ≡ nth_of n (S.Source.ahead source.old) }
    ensures leaves { S.Source.ahead source.new ≡ nth_left n (S.Source.ahead source.old) }
    ensures keeps_loans { S.Source.loans source.new ≡ S.Source.loans source.old }
{
    let mut left = n;
    while let Answer::Item(item) = source.next()? {
        if left == 0 {
            return Ok(Some(item));
        }
        left -= 1;
    }
    Ok(None)
}

/// The first item that a predicate accepts, if there is one.
///
/// ```python
/// def first_true(iterable, default=False, pred=None):
///     return next(filter(pred, iterable), default)
/// ```
///
/// A fault in front of it is handed on, the predicate's too.
#[tactic(auto, using(crate::proofs::AnswerLemmas::first_item, crate::proofs::AnswerLemmas::first_broken))]
pub fn first_true<S: Source + Drop, P: Predicate<S::Item> + Drop>(
    source: S,
    predicate: P,
) -> Result<Option<S::Item>, Fault>
where
    S::Item: Copy,
    ensures answer { result ≡ first_of (P.Predicate.says predicate) (S.Source.ahead source) }
{
    match DropWhile::new(Not(predicate), source).next() {
        Ok(answer) => Ok(answer.item()),
        Err(fault) => Err(fault),
    }
}

/// How many items a predicate accepts.
///
/// ```python
/// def quantify(iterable, pred=bool):
///     return sum(map(pred, iterable))
/// ```
///
/// A fault is handed on, the predicate's too; so is the joining's of a number that 64 bits do not
/// hold.
pub fn quantify<S: Source, P: Predicate<S::Item>>(mut source: S, predicate: P) -> Result<u64, Fault>
where
    S: Drop,
    P: Drop,
    S::Item: Copy,
    ensures answer { result ≡ count_of (P.Predicate.says predicate) 0 (S.Source.ahead source) }
{
    let mut count = 0;
    while let Answer::Item(item) = source.next()? {
        if predicate.test(item)? {
            count = Sum.join(count, 1)?;
        }
    }
    Ok(count)
}

/// Whether all items are equal; they are where there is none.
///
/// ```python
/// def all_equal(iterable):
///     g = groupby(iterable)
///     return next(g, True) and not next(g, False)
/// ```
///
/// Steps are drawn up to the first item that differs. A fault in front of it is handed on.
pub fn all_equal<S: Source + Drop>(source: S) -> Result<bool, CallError>
where
    S::Item: Copy + Eq,
    ensures answer { result ≡ alike_of S.Item.eq (S.Source.ahead source) }
{
    let mut groups = GroupBy::new(source, Itself);
    Ok(groups.group()?.item().is_none() || groups.group()?.item().is_none())
}

/// The sum of the products, item by item; the items that one source has more count nothing.
///
/// ```python
/// def dotproduct(vec1, vec2):
///     return sum(map(mul, vec1, vec2))
/// ```
///
/// A fault is handed on. A product or a sum that 64 bits do not hold is the fault of a joining.
pub fn dotproduct<A, B>(one: A, other: B) -> Result<u64, Fault>
where
    A: Source<Item = u64> + Drop,
    B: Source<Item = u64> + Drop,
    ensures answer { result ≡ dot_of 0 (zipped 0 0 (A.Source.ahead one) (B.Source.ahead other)) }
{
    let mut total = 0;
    let mut sides = ZipLongest::new(one, other, 0, 0);
    while let Answer::Item((a, b)) = sides.next()? {
        let Some(product) = a.checked_mul(b) else {
            return Err(Fault {
                origin: Fault::JOINING,
                cause: 1,
                place: 0,
            });
        };
        total = Sum.join(total, product)?;
    }
    Ok(total)
}

/// The source behind its first n items, with the first fault that was passed over, if any.
///
/// ```python
/// def consume(iterator, n):
///     next(islice(iterator, n, n), None)
/// ```
///
/// Refused by 5 where n passes 2^63 - 1; then the source is handed back as it was.
pub fn consume<S: Source>(source: S, n: u64) -> Result<(S, Option<Fault>), MakingError<S>>
where
    S::Item: Drop,
    ensures answer { MatchResult result
        (λ p. Consumed (Some n ∷ (Some n ∷ [])) (S.Source.ahead source) (S.Source.ahead p.0) p.1
        × (S.Source.ahead p.0 ≡ past n (S.Source.ahead source)))
        (λ e. (bounds (Some n ∷ (Some n ∷ [])) ≡ None) × (refusal_number e.refusal ≡ 5)
        × (e.source ≡ source)) }
{
    adapters::consume(source, &[Some(n), Some(n)])
}

/// What the definitions of the answers mean, in words of the lists: the item number n is the
/// element of the list at that place; the first item that is accepted has none but denied ones in
/// front of it; the number of accepted items is the length of the list of them; the sum of products
/// is that of the two lists, where 64 bits hold it; and items are alike just where each equals the
/// first.
pub fn every_answer<T>() -> u8
where
    ensures result { result ≡ 0 }
    ensures nth { EachNth T }
    ensures first { EachFirst T }
    ensures count { EachCount T }
    ensures dot { EachDot }
    ensures alike { EachAlike T }
    ensures faults { HandsOn T }
    ensures edges { (above 8 8 ≡ Ok false) × (above 8 9 ≡ Ok true) }
{
    0
}
