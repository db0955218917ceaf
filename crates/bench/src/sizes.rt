// How many bytes the states take, which stand where their owner puts them.
use crate::odd::Odd;
use adapters::{Accumulate, Chain, Compress, DropWhile, Islice, Pairwise, TakeWhile, ZipLongest};
use combinations::{Combinations, CombinationsWithReplacement};
use permutations::Permutations;
use products::Product;
use rules::{Below, Sum};
use sources::{Block, List, Range, Records, Script};
use std::io;
use std::mem::size_of;
use steps::{Answer, Fault, Refusal};

type Numbers = List<'static, u64>;

// The stack of six that is timed.
type Odds = Compress<Chain<Numbers, Numbers>, Numbers, Odd>;

type Six = Accumulate<TakeWhile<DropWhile<Islice<Odds>, Below>, Below>, Sum>;

fn show(rt: &HostRuntime, name: &str, size: usize) -> io::Result<()> {
    println!(rt; "{name}\t{size}")?;
    Ok(())
}

/// Prints a line for each state: what it is and its bytes.
pub(crate) fn show_all(rt: &HostRuntime) -> io::Result<()> {
    show_enumerators(rt)?;
    show_sources(rt)?;
    show_adapters(rt)?;
    show_answers(rt)
}

fn show_enumerators(rt: &HostRuntime) -> io::Result<()> {
    show(rt, "Product", size_of::<Product>())?;
    show(rt, "Combinations", size_of::<Combinations>())?;
    show(
        rt,
        "CombinationsWithReplacement",
        size_of::<CombinationsWithReplacement>(),
    )?;
    show(rt, "Permutations", size_of::<Permutations>())
}

fn show_sources(rt: &HostRuntime) -> io::Result<()> {
    show(rt, "Range", size_of::<Range>())?;
    show(rt, "List<u64>", size_of::<Numbers>())?;
    show(rt, "Records", size_of::<Records<'static>>())?;
    show(rt, "Script<u64>", size_of::<Script<'static, u64>>())
}

// Each over lists, so that what it adds to them is seen.
fn show_adapters(rt: &HostRuntime) -> io::Result<()> {
    show(
        rt,
        "TakeWhile over a List<u64>",
        size_of::<TakeWhile<Numbers, Below>>(),
    )?;
    show(
        rt,
        "DropWhile over a List<u64>",
        size_of::<DropWhile<Numbers, Below>>(),
    )?;
    show(rt, "Islice over a List<u64>", size_of::<Islice<Numbers>>())?;
    show(
        rt,
        "Compress over two List<u64>",
        size_of::<Compress<Numbers, Numbers, Odd>>(),
    )?;
    show(
        rt,
        "Accumulate over a List<u64>",
        size_of::<Accumulate<Numbers, Sum>>(),
    )?;
    show(
        rt,
        "Chain over two List<u64>",
        size_of::<Chain<Numbers, Numbers>>(),
    )?;
    show(
        rt,
        "ZipLongest over two List<u64>",
        size_of::<ZipLongest<Numbers, Numbers>>(),
    )?;
    show(
        rt,
        "Pairwise over a List<u64>",
        size_of::<Pairwise<Numbers>>(),
    )?;
    show(
        rt,
        "Pairwise over Records",
        size_of::<Pairwise<Records<'static>>>(),
    )?;
    show(rt, "six over three List<u64>", size_of::<Six>())
}

fn show_answers(rt: &HostRuntime) -> io::Result<()> {
    show(
        rt,
        "answer of an enumerator",
        size_of::<Result<Answer<()>, Refusal>>(),
    )?;
    show(
        rt,
        "answer of a source of u64",
        size_of::<Result<Answer<u64>, Fault>>(),
    )?;
    show(
        rt,
        "answer of a source of pairs of u64",
        size_of::<Result<Answer<(u64, u64)>, Fault>>(),
    )?;
    show(
        rt,
        "answer of a source of blocks",
        size_of::<Result<Answer<Block>, Fault>>(),
    )?;
    show(
        rt,
        "answer of a source of pairs of blocks",
        size_of::<Result<Answer<(Block, Block)>, Fault>>(),
    )
}
