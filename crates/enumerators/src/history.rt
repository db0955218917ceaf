// Histories of next calls.
ghost use Rattle.std.specs.Prelude.{◌≡◌, length};
ghost use Rattle.row_laws.specs.History.{Transition, TraceLaw, EveryHistory, EveryMixedHistory};
ghost use Rattle.enumerators.specs.History.{memory, memories};

use crate::enumerator::Enumerator;
use steps::{Answer, Refusal};

/// A call of `next` with a pool and buffers of its own, right or wrong; once it was made, with what
/// it answered.
#[derive(Drop)]
pub struct Call<T> {
    /// The pool that is lent.
    pub pool: Vec<T>,
    /// The buffer for the places of a row.
    pub places: Vec<u16>,
    /// The buffer for the elements of a row.
    pub elements: Vec<T>,
    /// What the call answered; what stood here before does not count.
    pub answer: Option<Result<Answer<()>, Refusal>>,
}

// Makes one call, with what it is lent, and keeps its answer.
fn make<E: Enumerator, T: Copy>(enumerator: &mut E, call: &mut Call<T>)
    ensures { Transition E.shown enumerator.old (memory call.old) (memory call.new) enumerator.new }
{
    let answer = enumerator.next(
        call.pool.as_slice(),
        call.places.as_mut_slice(),
        call.elements.as_mut_slice(),
    );
    call.answer = Some(answer);
}

/// Makes all the calls, one after another, and tells how many they were.
///
/// Of the calls that are not refused the k-th gives the k-th row ahead, or says end where there are
/// fewer; a refused call answers its number, and neither writes nor changes anything. Three calls
/// on `combinations 3 2`, of which the second is lent a pool of two elements, give `0 1`, are
/// refused by 3, and give `0 2`.
pub fn run<E: Enumerator, T: Copy>(enumerator: &mut E, calls: &mut [Call<T>]) -> usize
    ensures count { result ≡ length calls.old }
    ensures law { TraceLaw E.shown enumerator.old (memories calls.old) (memories calls.new)
        enumerator.new }
{
    for call in calls.iter_mut() {
        make(enumerator, call);
    }
    calls.len()
}

/// Whatever calls lead from one state of an enumerator to another, each by the contract of `next`:
/// the law of histories holds of them. The k-th of those that are not refused answers by the k-th
/// row ahead, and a refused one is not felt. The answer is always 0.
pub fn every_history<E: Enumerator, T: Copy>() -> u8
    ensures result { result ≡ 0 }
    ensures law { EveryHistory E.shown T }
{
    0
}

/// The same where each call is of a kind of element of its own: numbers, then blocks, then numbers
/// again. The answer is always 0.
pub fn every_mixed_history<E: Enumerator, T: Copy>() -> u8
    ensures result { result ≡ 0 }
    ensures law { EveryMixedHistory E.shown T }
{
    0
}
