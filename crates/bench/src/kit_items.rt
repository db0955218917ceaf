// std's iterators and those of the kit's `itertools`, over ranges and over lists.
ghost use Rattle.std.specs.Iterator.{IsFinite};

use crate::job::{Adapter, Items, first};
use crate::tally::Tally;
use itertools::{EitherOrBoth, Itertools};
use std::iter::Copied;
use std::ops::Range;
use std::slice;

// What gives iterators over the numbers from 0 to below a stop.
trait Origin {
    type Numbers: Iterator<Item = u64> + Drop;

    fn to(&self, stop: u32) -> Self::Numbers
        ensures can { Self.Numbers.can_next result }
        ensures finite { IsFinite (Self.Numbers.remaining result) };
}

#[derive(Clone, Copy)]
struct Ranges;

impl Origin for Ranges {
    type Numbers = Range<u64>;

    fn to(&self, stop: u32) -> Range<u64> {
        0..u64::from(stop)
    }
}

#[derive(Clone, Copy)]
struct Lists<'a> {
    numbers: &'a [u64],
}

impl<'a> Origin for Lists<'a> {
    type Numbers = Copied<slice::Iter<'a, u64>>;

    fn to(&self, stop: u32) -> Copied<slice::Iter<'a, u64>> {
        first(self.numbers, stop as usize).iter().copied()
    }
}

/// The items of a job over a range.
pub(crate) fn over_ranges(job: Items) -> Tally {
    play(&Ranges, job)
}

/// The same over a list.
pub(crate) fn over_lists(numbers: &[u64], job: Items) -> Tally {
    play(&Lists { numbers }, job)
}

fn play<O: Origin>(origin: &O, job: Items) -> Tally {
    let count = job.count;
    match job.adapter {
        Adapter::Alone => alone(origin, count),
        Adapter::TakeWhile => takewhile(origin, count),
        Adapter::DropWhile => dropwhile(origin, count),
        Adapter::Islice => islice(origin, count),
        Adapter::Compress => compress(origin, count),
        Adapter::Accumulate => accumulate(origin, count),
        Adapter::Chain => chain(origin, count),
        Adapter::ZipLongest => zip_longest(origin, count),
        Adapter::Pairwise => pairwise(origin, count),
        Adapter::Six => six(origin, count),
    }
}

// Every item of an iterator of numbers.
#[inline(always)]
fn total<I: Iterator<Item = u64> + Drop>(items: I) -> Tally
    requires can { I.can_next items }
    requires finite { IsFinite (I.remaining items) }
{
    let mut tally = Tally::new();
    for item in items {
        tally.add(item);
    }
    tally
}

// Every pair of an iterator of pairs.
#[inline(always)]
fn pairs<I: Iterator<Item = (u64, u64)> + Drop>(items: I) -> Tally
    requires can { I.can_next items }
    requires finite { IsFinite (I.remaining items) }
{
    let mut tally = Tally::new();
    for (left, right) in items {
        tally.add(left ^ right);
    }
    tally
}

// Both sides of a pair, 0 for one that is not there.
fn filled(sides: EitherOrBoth<u64, u64>) -> (u64, u64) {
    match sides {
        EitherOrBoth::Both(left, right) => (left, right),
        EitherOrBoth::Left(left) => (left, 0),
        EitherOrBoth::Right(right) => (0, right),
    }
}

#[inline(never)]
fn alone<O: Origin>(origin: &O, count: u32) -> Tally {
    total(origin.to(count))
}

#[inline(never)]
fn takewhile<O: Origin>(origin: &O, count: u32) -> Tally {
    let limit = u64::from(count);
    total(
        origin
            .to(count.saturating_add(1))
            .take_while(|item| *item < limit),
    )
}

#[inline(never)]
fn dropwhile<O: Origin>(origin: &O, count: u32) -> Tally {
    let limit = u64::from(count / 100);
    total(origin.to(count).skip_while(|item| *item < limit))
}

#[inline(never)]
fn islice<O: Origin>(origin: &O, count: u32) -> Tally {
    total(origin.to(count.saturating_mul(3)).step_by(3))
}

#[inline(never)]
fn compress<O: Origin>(origin: &O, count: u32) -> Tally {
    let selected = origin.to(count).zip(origin.to(count));
    total(selected.filter(|pair| pair.1 % 2 == 1).map(|pair| pair.0))
}

#[inline(never)]
fn accumulate<O: Origin>(origin: &O, count: u32) -> Tally {
    total(
        origin.to(count).scan(0u64, |sum: &mut u64, item: u64| {
            *sum = sum.wrapping_add(item);
            Some(*sum)
        }),
    )
}

#[inline(never)]
fn chain<O: Origin>(origin: &O, count: u32) -> Tally {
    total(origin.to(count).chain(origin.to(count)))
}

#[inline(never)]
fn zip_longest<O: Origin>(origin: &O, count: u32) -> Tally {
    pairs(
        origin
            .to(count)
            .zip_longest(origin.to(count / 2))
            .map(filled),
    )
}

#[inline(never)]
fn pairwise<O: Origin>(origin: &O, count: u32) -> Tally {
    pairs(origin.to(count).tuple_windows::<(u64, u64)>())
}

// Six adapters, one over another.
#[inline(never)]
fn six<O: Origin>(origin: &O, count: u32) -> Tally {
    let stop = u64::from(count);
    let both = origin.to(count).chain(origin.to(count));
    let selected = both.zip(origin.to(count.saturating_mul(2)));
    let odd = selected.filter(|pair| pair.1 % 2 == 1).map(|pair| pair.0);
    let behind = odd
        .take(count as usize)
        .skip_while(|item| *item < stop / 100);
    let before = behind.take_while(|item| *item < stop);
    total(before.scan(0u64, |sum: &mut u64, item: u64| {
        *sum = sum.wrapping_add(item);
        Some(*sum)
    }))
}
