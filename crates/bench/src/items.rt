// The adapters of this library, by `next`, over its ranges and lists.
use crate::job::{Adapter, Items, first};
use crate::odd::Odd;
use crate::tally::Tally;
use adapters::{Accumulate, Chain, Compress, DropWhile, Islice, Pairwise, TakeWhile, ZipLongest};
use rules::{Below, Sum};
use sources::{List, Range};
use steps::{Answer, Source};

// What gives sources of the numbers from 0 to below a stop.
trait Origin {
    type Numbers: Source<Item = u64> + Drop;

    fn to(&self, stop: u32) -> Self::Numbers;
}

#[derive(Clone, Copy)]
struct Ranges;

impl Origin for Ranges {
    type Numbers = Range;

    fn to(&self, stop: u32) -> Range {
        Range::new(0, stop)
    }
}

#[derive(Clone, Copy)]
struct Lists<'a> {
    numbers: &'a [u64],
}

impl<'a> Origin for Lists<'a> {
    type Numbers = List<'a, u64>;

    fn to(&self, stop: u32) -> List<'a, u64> {
        List::new(first(self.numbers, stop as usize))
    }
}

/// The items of a job over a range. It is a function of its own, by which bench/hot_loops.py finds
/// those that are timed.
#[inline(never)]
pub(crate) fn over_ranges(job: Items) -> Tally {
    play(&Ranges, job)
}

/// The same over a list.
#[inline(never)]
pub(crate) fn over_lists(numbers: &[u64], job: Items) -> Tally {
    play(&Lists { numbers }, job)
}

fn play<O: Origin>(origin: &O, job: Items) -> Tally {
    let count = job.count;
    match job.adapter {
        Adapter::Alone => alone(origin, count),
        Adapter::TakeWhile => takewhile(origin, count),
        Adapter::DropWhile => dropwhile(origin, count),
        Adapter::Islice => islice(origin, count),
        Adapter::Compress => compress(origin, count),
        Adapter::Accumulate => accumulate(origin, count),
        Adapter::Chain => chain(origin, count),
        Adapter::ZipLongest => zip_longest(origin, count),
        Adapter::Pairwise => pairwise(origin, count),
        Adapter::Six => six(origin, count),
    }
}

// Every item of a source of numbers.
#[inline(always)]
fn total<S: Source<Item = u64>>(source: &mut S) -> Tally {
    let mut tally = Tally::new();
    while let Ok(Answer::Item(item)) = source.next() {
        tally.add(item);
    }
    tally
}

// Every pair of a source of pairs.
#[inline(always)]
fn pairs<S: Source<Item = (u64, u64)>>(source: &mut S) -> Tally {
    let mut tally = Tally::new();
    while let Ok(Answer::Item((left, right))) = source.next() {
        tally.add(left ^ right);
    }
    tally
}

#[inline(never)]
fn alone<O: Origin>(origin: &O, count: u32) -> Tally {
    total(&mut origin.to(count))
}

#[inline(never)]
fn takewhile<O: Origin>(origin: &O, count: u32) -> Tally {
    let limit = u64::from(count);
    total(&mut TakeWhile::new(Below { limit }, origin.to(count.saturating_add(1))))
}

#[inline(never)]
fn dropwhile<O: Origin>(origin: &O, count: u32) -> Tally {
    let limit = u64::from(count / 100);
    total(&mut DropWhile::new(Below { limit }, origin.to(count)))
}

#[inline(never)]
fn islice<O: Origin>(origin: &O, count: u32) -> Tally {
    let stop = count.saturating_mul(3);
    let entries = [Some(0), Some(u64::from(stop)), Some(3)];
    match Islice::new(origin.to(stop), &entries) {
        Ok(mut slice) => total(&mut slice),
        Err(_) => Tally::new(),
    }
}

#[inline(never)]
fn compress<O: Origin>(origin: &O, count: u32) -> Tally {
    total(&mut Compress::new(origin.to(count), origin.to(count), Odd))
}

#[inline(never)]
fn accumulate<O: Origin>(origin: &O, count: u32) -> Tally {
    total(&mut Accumulate::new(origin.to(count), Sum, None))
}

#[inline(never)]
fn chain<O: Origin>(origin: &O, count: u32) -> Tally {
    total(&mut Chain::new(origin.to(count), origin.to(count)))
}

#[inline(never)]
fn zip_longest<O: Origin>(origin: &O, count: u32) -> Tally {
    pairs(&mut ZipLongest::new(origin.to(count), origin.to(count / 2), 0, 0))
}

#[inline(never)]
fn pairwise<O: Origin>(origin: &O, count: u32) -> Tally {
    pairs(&mut Pairwise::new(origin.to(count)))
}

// Six adapters, one over another.
#[inline(never)]
fn six<O: Origin>(origin: &O, count: u32) -> Tally {
    let stop = u64::from(count);
    let both = Chain::new(origin.to(count), origin.to(count));
    let odd = Compress::new(both, origin.to(count.saturating_mul(2)), Odd);
    match Islice::new(odd, &[Some(0), Some(stop), Some(1)]) {
        Ok(slice) => {
            let behind = DropWhile::new(Below { limit: stop / 100 }, slice);
            let before = TakeWhile::new(Below { limit: stop }, behind);
            total(&mut Accumulate::new(before, Sum, None))
        }
        Err(_) => Tally::new(),
    }
}
