// The enumerators of this library, by `next`, with lent buffers.
use crate::job::{Kind, Rows, first};
use crate::setting::Setting;
use crate::tally::Tally;
use combinations::{Combinations, CombinationsWithReplacement};
use enumerators::Enumerator;
use permutations::Permutations;
use products::Product;
use steps::{Answer, Refusal};

/// The rows of a job, each by its last element.
pub(crate) fn play(setting: &mut Setting, job: Rows) -> Tally {
    match job.kind {
        Kind::Product => product(setting, job),
        Kind::Combinations => combinations(setting, job),
        Kind::Replacement => replacement(setting, job),
        Kind::Permutations => permutations(setting, job),
    }
}

#[inline(never)]
fn product(setting: &mut Setting, job: Rows) -> Tally {
    rows(Product::new(&[job.pool as usize], job.places), setting, job)
}

#[inline(never)]
fn combinations(setting: &mut Setting, job: Rows) -> Tally {
    rows(
        Combinations::new(job.pool as usize, job.places as usize),
        setting,
        job,
    )
}

#[inline(never)]
fn replacement(setting: &mut Setting, job: Rows) -> Tally {
    let made = CombinationsWithReplacement::new(job.pool as usize, job.places as usize);
    rows(made, setting, job)
}

#[inline(never)]
fn permutations(setting: &mut Setting, job: Rows) -> Tally {
    rows(
        Permutations::new(job.pool as usize, Some(job.places as usize)),
        setting,
        job,
    )
}

// The first rows of an enumerator; none where it was refused.
#[inline(always)]
fn rows<E: Enumerator + Drop>(made: Result<E, Refusal>, setting: &mut Setting, job: Rows) -> Tally {
    let mut tally = Tally::new();
    let Ok(mut enumerator) = made else {
        return tally;
    };
    let pool = first(setting.numbers, job.pool as usize);
    let (places, elements) = (&mut setting.places, &mut setting.elements);
    let last = enumerator.row_len().wrapping_sub(1);
    for _ in 0..job.most {
        let Ok(Answer::Item(())) = enumerator.next(pool, places, elements) else {
            break;
        };
        tally.add(elements.get(last).copied().unwrap_or(0));
    }
    tally
}
