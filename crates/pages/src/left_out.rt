// What stands for the functions of the Python page that are not here.

use crate::stopped::Stopped;
use adapters::{Compress, Islice, ZipLongest};
use rules::{Below, Not};
use sources::{List, Range};
use steps::{Source, Steps};

pub(crate) fn batched(rt: &HostRuntime) -> Result<(), Stopped> {
    let mut buses = List::new(&[7, 8, 9]);
    for number in 0..2 {
        for bus in Steps(Islice::new(&mut buses, &[Some(2)])?) {
            println!(rt; "batch {number}: {}", bus?)?;
        }
    }
    Ok(())
}

pub(crate) fn chain_of_many(rt: &HostRuntime) -> Result<(), Stopped> {
    for starts in [[360, 370], [400, 410]] {
        for start in Steps(List::new(&starts)) {
            println!(rt; "{}", start?)?;
        }
    }
    Ok(())
}

pub(crate) fn count(rt: &HostRuntime) -> Result<(), Stopped> {
    let numbers = Range::new(10, u32::MAX);
    for number in Steps(Islice::new(numbers, &[Some(3)])?) {
        println!(rt; "{}", number?)?;
    }
    Ok(())
}

pub(crate) fn cycle(rt: &HostRuntime) -> Result<(), Stopped> {
    let bays = [1, 2];
    for _ in 0..2 {
        for bay in Steps(List::new(&bays)) {
            println!(rt; "{}", bay?)?;
        }
    }
    Ok(())
}

pub(crate) fn filterfalse(rt: &HostRuntime) -> Result<(), Stopped> {
    let minutes = [1, 4, 6, 3, 8];
    let (items, selectors) = (List::new(&minutes), List::new(&minutes));
    for minute in Steps(Compress::new(items, selectors, Not(Below { limit: 5 }))) {
        println!(rt; "{}", minute?)?;
    }
    Ok(())
}

pub(crate) fn repeat(rt: &HostRuntime) -> Result<(), Stopped> {
    let nothing = List::new(&[]);
    for pair in Steps(ZipLongest::new(Range::new(0, 3), nothing, 0, 7)) {
        let (number, bus) = pair?;
        println!(rt; "{number} {bus}")?;
    }
    Ok(())
}

pub(crate) fn starmap(rt: &HostRuntime) -> Result<(), Stopped> {
    let blocks: [(u16, u16); 2] = [(360, 370), (370, 400)];
    for block in Steps(List::new(&blocks)) {
        let (start, end) = block?;
        println!(rt; "{}", end.saturating_sub(start))?;
    }
    Ok(())
}
