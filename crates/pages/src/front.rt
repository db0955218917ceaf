// How sources, predicates and refusals are used: the section in front of the page.
ghost use Rattle.std.specs.Prelude.{Ok, nat_eq};
ghost use Rattle.std.proofs.Common.{rules};

use crate::stopped::Stopped;
use adapters::{DropWhile, Pairwise, TakeWhile};
use rules::Below;
use sources::{Block, List, Range, Records};
use steps::{CallError, Fault, Predicate, Source, Steps};
use tee::Tee;

pub(crate) fn one_call(rt: &HostRuntime) -> Result<(), Stopped> {
    let starts = [360, 370];
    let mut source = List::new(&starts);
    println!(rt; "{:?}", source.next())?;
    println!(rt; "{:?}", source.next())?;
    println!(rt; "{:?}", source.next())?;
    Ok(())
}

pub(crate) fn a_loop(rt: &HostRuntime) -> Result<(), Stopped> {
    let starts = [360, 370, 400];
    for start in Steps(List::new(&starts)) {
        println!(rt; "{}", start?)?;
    }
    Ok(())
}

pub(crate) fn a_stack(rt: &HostRuntime) -> Result<(), Stopped> {
    let starts = [300, 360, 370, 400];
    let from_six = DropWhile::new(Below { limit: 360 }, List::new(&starts));
    for pair in Steps(Pairwise::new(from_six)) {
        let (start, following) = pair?;
        println!(rt; "{start} {following}")?;
    }
    Ok(())
}

pub(crate) fn a_lent_source(rt: &HostRuntime) -> Result<(), Stopped> {
    let mut numbers = Range::new(0, 6);
    for number in Steps(TakeWhile::new(Below { limit: 2 }, &mut numbers)) {
        println!(rt; "{}", number?)?;
    }
    if let Some(number) = numbers.next()?.item() {
        println!(rt; "then {number}")?;
    }
    Ok(())
}

pub(crate) fn a_fault(rt: &HostRuntime) -> Result<(), Stopped> {
    // a record of another kind, and then bus 7 at bay 2 from minute 360 to 370
    let plan = [0, 0, 17, 0, 8, 0, 16, 0, 7, 0, 2, 0, 104, 1, 114, 1];
    for step in Steps(Records::new(&plan)) {
        match step {
            Ok(block) => println!(rt; "bus {} at bay {}", block.bus, block.bay)?,
            Err(fault) => println!(rt; "{fault}")?,
        }
    }
    Ok(())
}

/// Accepts the blocks of one bay.
#[derive(Clone, Copy)]
pub(crate) struct AtBay {
    bay: u16,
}

impl Predicate<Block> for AtBay {
    ghost says = { λ rule block. Ok (nat_eq block.bay rule.bay) };

    ghost origin = { Prim.search rules };

    fn test(&self, block: Block) -> Result<bool, Fault> {
        Ok(block.bay == self.bay)
    }
}

pub(crate) fn a_predicate(rt: &HostRuntime) -> Result<(), Stopped> {
    let plan = [8, 0, 16, 0, 7, 0, 2, 0, 104, 1, 114, 1];
    for block in Steps(TakeWhile::new(AtBay { bay: 2 }, Records::new(&plan))) {
        println!(rt; "bus {}", block?.bus)?;
    }
    Ok(())
}

/// The first item of a source; a store of two keeps it for the other branch.
fn first<S: Source + Drop>(source: S, store: &mut [S::Item]) -> Result<Option<S::Item>, CallError>
where
    S::Item: Copy,
{
    let mut branches = Tee::new(source, None, store.len())?;
    Ok(branches.step(0, store)?.item())
}

pub(crate) fn a_refusal(rt: &HostRuntime) -> Result<(), Stopped> {
    let starts = [360, 370, 400];
    println!(rt; "{:?}", first(List::new(&starts), &mut [0; 2]))?;
    println!(rt; "{:?}", first(List::new(&starts), &mut [0; 0]))?;
    if let Err(error) = Tee::new(List::new(&starts), Some(17), 2) {
        println!(rt; "{}", error.refusal)?;
    }
    Ok(())
}
