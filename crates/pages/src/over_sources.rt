// The eight adapters.

use crate::stopped::Stopped;
use adapters::{Accumulate, Chain, Compress, DropWhile, Islice, Pairwise, TakeWhile, ZipLongest};
use rules::{Below, Larger, NonZero, Sum};
use sources::{List, Range};
use steps::{Source, Steps};

pub(crate) fn accumulate(rt: &HostRuntime) -> Result<(), Stopped> {
    for total in Steps(Accumulate::new(List::new(&[10, 20, 30]), Sum, None)) {
        println!(rt; "{}", total?)?;
    }
    for longest in Steps(Accumulate::new(List::new(&[3, 9, 4]), Larger, Some(5))) {
        println!(rt; "longest {}", longest?)?;
    }
    Ok(())
}

pub(crate) fn accumulate_fault(rt: &HostRuntime) -> Result<(), Stopped> {
    let most = [u64::MAX, 1, 0];
    for total in Steps(Accumulate::new(List::new(&most), Sum, None)) {
        match total {
            Ok(total) => println!(rt; "{total}")?,
            Err(fault) => println!(rt; "{fault}")?,
        }
    }
    Ok(())
}

pub(crate) fn chain(rt: &HostRuntime) -> Result<(), Stopped> {
    for start in Steps(Chain::new(List::new(&[360, 370]), List::new(&[400]))) {
        println!(rt; "{}", start?)?;
    }
    Ok(())
}

pub(crate) fn compress(rt: &HostRuntime) -> Result<(), Stopped> {
    let buses = List::new(&[7, 8, 9]);
    let selectors = List::new(&[1, 0, 1]);
    for bus in Steps(Compress::new(buses, selectors, NonZero)) {
        println!(rt; "{}", bus?)?;
    }
    Ok(())
}

pub(crate) fn dropwhile(rt: &HostRuntime) -> Result<(), Stopped> {
    for minute in Steps(DropWhile::new(Below { limit: 5 }, List::new(&[1, 4, 6, 3, 8]))) {
        println!(rt; "{}", minute?)?;
    }
    Ok(())
}

pub(crate) fn islice(rt: &HostRuntime) -> Result<(), Stopped> {
    let mut numbers = Range::new(0, 10);
    for number in Steps(Islice::new(&mut numbers, &[Some(2), Some(8), Some(3)])?) {
        println!(rt; "{}", number?)?;
    }
    if let Some(number) = numbers.next()?.item() {
        println!(rt; "then {number}")?;
    }
    Ok(())
}

pub(crate) fn pairwise(rt: &HostRuntime) -> Result<(), Stopped> {
    for pair in Steps(Pairwise::new(List::new(&[360, 370, 400]))) {
        let (start, following) = pair?;
        println!(rt; "{start} {following}")?;
    }
    Ok(())
}

pub(crate) fn takewhile(rt: &HostRuntime) -> Result<(), Stopped> {
    for minute in Steps(TakeWhile::new(Below { limit: 5 }, List::new(&[1, 4, 6, 3, 8]))) {
        println!(rt; "{}", minute?)?;
    }
    Ok(())
}

pub(crate) fn zip_longest(rt: &HostRuntime) -> Result<(), Stopped> {
    let bays = List::new(&[1, 2, 3]);
    let buses = List::new(&[7, 8]);
    for pair in Steps(ZipLongest::new(bays, buses, 0, 0)) {
        let (bay, bus) = pair?;
        println!(rt; "{bay} {bus}")?;
    }
    Ok(())
}
