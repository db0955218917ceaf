// Rules of a depot and recipes of the itertools page, each a small function over the library with
// its Python beside it; docs/RECIPES.md has them all. What each gives on a small input is printed.

#![tactic(auto)]

mod answers;
mod depot;
mod lists;
mod rule_error;
mod subsets;

use crate::answers::{all_equal, consume, dotproduct, first_true, nth, quantify};
use crate::depot::{deviations, first_long, first_over, long_gaps, third_slots};
use crate::lists::{
    flatten, grouper, iter_index, list_of, ncycles, partition, tail, take, triplewise,
    unique_justseen,
};
use crate::subsets::powerset;
use adapters::Keys;
use rules::{AtLeast, Bay, Itself, Minutes};
use sources::{Block, List, Range};

fn block(bus: u16, bay: u16, start: u16, end: u16) -> Block {
    Block {
        bus,
        bay,
        start,
        end,
    }
}

fn main(rt: HostRuntime) -> anyhow::Result<()> {
    let blocks = [
        block(7, 2, 360, 370),
        block(12, 2, 379, 480),
        block(30, 2, 495, 555),
        block(1, 3, 0, 10),
    ];
    depot_rules(&rt, &blocks)?;
    answers_of_the_page(&rt)?;
    lists_of_the_page(&rt, &blocks)?;
    subsets_of_the_page(&rt)?;
    Ok(())
}

// The five rules of a depot.
fn depot_rules(rt: &HostRuntime, blocks: &[Block; 4]) -> anyhow::Result<()> {
    let alloc = rt.alloc();
    let gaps = long_gaps(alloc, List::new(blocks))?;
    println!(rt; "long_gaps {:?}", gaps.as_slice())?;
    println!(rt; "first_long {:?}", first_long(List::new(blocks))?)?;
    println!(rt;
        "first_over {:?}",
        first_over(List::new(&[5, 9, 30]), 10, 20)?
    )?;
    let slots = third_slots(alloc, Range::new(0, 10))?;
    println!(rt; "third_slots {:?}", slots.as_slice())?;
    let [first, second, third, _] = *blocks;
    let plan = [Some(first), Some(second)];
    let actual = [Some(first), Some(third), Some(second)];
    let differ = deviations(alloc, List::new(&plan), List::new(&actual))?;
    println!(rt; "deviations {:?}", differ.as_slice())?;
    Ok(())
}

// The recipes of the page that answer one value.
fn answers_of_the_page(rt: &HostRuntime) -> anyhow::Result<()> {
    let alloc = rt.alloc();
    println!(rt; "nth {:?}", nth(&mut Range::new(0, 10), 3)?)?;
    println!(rt;
        "first_true {:?}",
        first_true(Range::new(0, 10), AtLeast { limit: 3 })?
    )?;
    println!(rt;
        "quantify {}",
        quantify(Range::new(0, 10), AtLeast { limit: 3 })?
    )?;
    println!(rt; "all_equal {}", all_equal(List::new(&[5, 5, 6]))?)?;
    println!(rt;
        "dotproduct {}",
        dotproduct(List::new(&[1, 2, 3]), List::new(&[4, 5, 6]))?
    )?;
    if let Ok((rest, _)) = consume(Range::new(0, 6), 3) {
        println!(rt; "consume {:?}", list_of(alloc, rest)?.as_slice())?;
    }
    Ok(())
}

// The recipes of the page that make lists.
fn lists_of_the_page(rt: &HostRuntime, blocks: &[Block; 4]) -> anyhow::Result<()> {
    let alloc = rt.alloc();
    let minutes = Keys::new(List::new(blocks), Minutes);
    println!(rt; "list_of {:?}", list_of(alloc, minutes)?.as_slice())?;
    println!(rt; "take {:?}", take(alloc, 3, Range::new(0, 10))?.as_slice())?;
    println!(rt; "tail {:?}", tail(alloc, 3, Range::new(0, 10))?.as_slice())?;
    let flat = flatten(alloc, Range::new(0, 2), Range::new(5, 5), Range::new(7, 9))?;
    println!(rt; "flatten {:?}", flat.as_slice())?;
    let bays = unique_justseen(alloc, Keys::new(List::new(blocks), Bay), Itself)?;
    println!(rt; "unique_justseen {:?}", bays.as_slice())?;
    let places = iter_index(alloc, List::new(&[5, 6, 5, 7, 5]), 5)?;
    println!(rt; "iter_index {:?}", places.as_slice())?;
    let runs = grouper(alloc, Range::new(0, 7), 3, 99)?;
    println!(rt; "grouper {:?}", runs.as_slice())?;
    let triples = triplewise(alloc, Range::new(0, 5))?;
    println!(rt; "triplewise {:?}", triples.as_slice())?;
    println!(rt;
        "ncycles {:?}",
        ncycles(alloc, Range::new(0, 3), 2)?.as_slice()
    )?;
    let (denied, accepted) = partition(alloc, AtLeast { limit: 3 }, Range::new(0, 6))?;
    println!(rt;
        "partition {:?} {:?}",
        denied.as_slice(),
        accepted.as_slice()
    )?;
    Ok(())
}

// The recipe of the page over an enumerator.
fn subsets_of_the_page(rt: &HostRuntime) -> anyhow::Result<()> {
    let subsets = powerset(rt.alloc(), &[1, 2, 3])?;
    println!(rt; "powerset {:?}", subsets.as_slice())?;
    Ok(())
}
