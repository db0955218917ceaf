// The examples of docs/ITERTOOLS.md, in the page's order. What they print is what the page shows:
// tools/pages.py compares the page with these files and with `stdout`.

#![tactic(auto)]

mod branches;
mod enumerations;
mod front;
mod left_out;
mod over_sources;
mod runs;
mod stopped;

use crate::stopped::Stopped;
use std::io;

fn main(rt: HostRuntime) -> io::Result<()> {
    match play_all(&rt) {
        Ok(()) => Ok(()),
        Err(Stopped::Output(error)) => Err(error),
        Err(Stopped::Call(error)) => {
            println!(rt; "{error}")?;
            Ok(())
        }
    }
}

fn play_all(rt: &HostRuntime) -> Result<(), Stopped> {
    play_front(rt)?;
    play_page(rt)?;
    play_left_out(rt)
}

fn play_front(rt: &HostRuntime) -> Result<(), Stopped> {
    front::one_call(rt)?;
    front::a_loop(rt)?;
    front::a_stack(rt)?;
    front::a_lent_source(rt)?;
    front::a_fault(rt)?;
    front::a_predicate(rt)?;
    front::a_refusal(rt)
}

fn play_page(rt: &HostRuntime) -> Result<(), Stopped> {
    over_sources::accumulate(rt)?;
    over_sources::accumulate_fault(rt)?;
    over_sources::chain(rt)?;
    enumerations::combinations(rt)?;
    enumerations::combinations_refused(rt)?;
    enumerations::combinations_with_replacement(rt)?;
    over_sources::compress(rt)?;
    over_sources::dropwhile(rt)?;
    runs::groupby(rt)?;
    over_sources::islice(rt)?;
    over_sources::pairwise(rt)?;
    enumerations::permutations(rt)?;
    enumerations::product(rt)?;
    enumerations::product_without_a_pool(rt)?;
    over_sources::takewhile(rt)?;
    branches::tee(rt)?;
    branches::tee_refused(rt)?;
    over_sources::zip_longest(rt)
}

fn play_left_out(rt: &HostRuntime) -> Result<(), Stopped> {
    left_out::batched(rt)?;
    left_out::chain_of_many(rt)?;
    left_out::count(rt)?;
    left_out::cycle(rt)?;
    left_out::filterfalse(rt)?;
    left_out::repeat(rt)?;
    left_out::starmap(rt)
}
