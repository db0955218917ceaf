// The enumerators of the kit's `itertools`, which make a `Vec` for each row.
ghost use Rattle.std.specs.Iterator.{IsFinite};

use crate::job::{Kind, Rows};
use crate::tally::Tally;
use itertools::Itertools;
use std::alloc::{AllocError, Global};

/// The rows of a job, each by its last element.
pub(crate) fn play(alloc: Global, job: Rows) -> Tally {
    match job.kind {
        Kind::Product => product(alloc, job),
        Kind::Combinations => combinations(alloc, job),
        Kind::Replacement => replacement(alloc, job),
        Kind::Permutations => permutations(alloc, job),
    }
}

#[inline(never)]
fn product(alloc: Global, job: Rows) -> Tally {
    let stop = u64::from(job.pool);
    let pools = (0..job.places).map(move |_| 0..stop);
    match pools.multi_cartesian_product(alloc) {
        Ok(made) => rows(made, job.most),
        Err(_) => Tally::new(),
    }
}

#[inline(never)]
fn combinations(alloc: Global, job: Rows) -> Tally {
    match (0..u64::from(job.pool)).combinations(alloc, job.places as usize) {
        Ok(made) => rows(made, job.most),
        Err(_) => Tally::new(),
    }
}

#[inline(never)]
fn replacement(alloc: Global, job: Rows) -> Tally {
    match (0..u64::from(job.pool)).combinations_with_replacement(alloc, job.places as usize) {
        Ok(made) => rows(made, job.most),
        Err(_) => Tally::new(),
    }
}

#[inline(never)]
fn permutations(alloc: Global, job: Rows) -> Tally {
    match (0..u64::from(job.pool)).permutations(alloc, job.places as usize) {
        Ok(made) => rows(made, job.most),
        Err(_) => Tally::new(),
    }
}

// The first rows, up to `most` of them.
#[inline(always)]
fn rows<I: Iterator<Item = Result<Vec<u64>, AllocError>> + Drop>(rows: I, most: u64) -> Tally
    requires can { I.can_next rows }
    requires finite { IsFinite (I.remaining rows) }
{
    let mut tally = Tally::new();
    for row in rows {
        let Ok(row) = row else {
            break;
        };
        tally.add(row.as_slice().last().copied().unwrap_or(0));
        if tally.units >= most {
            break;
        }
    }
    tally
}
