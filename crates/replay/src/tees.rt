// Scenarios of tees: steps of branches, each lent a store, and copies of branches.

use crate::flaw::Flaw;
use crate::form::{number, optional, steps};
use crate::play::Player;
use crate::show::{Left, Show, Store, show_calls};
use sources::Script;
use std::alloc::Global;
use tee::{Ask, Call, MOST_BRANCHES, run};

// What stands in a store before a call.
const UNTOUCHED: u64 = 7777;

impl Player {
    /// `tee N C ; STEPS ; CALLS`, where N may be `-`
    pub fn tee(
        &mut self,
        branches: &str,
        places: &str,
        ahead: &str,
        calls: &str,
    ) -> Result<(), Flaw> {
        let branches = optional(branches, "-")?.map(|branches| branches as usize);
        let places = number(places)? as usize;
        // a tee that is refused wants no store, however long it would be
        let refused = branches.is_some_and(|branches| branches > MOST_BRANCHES);
        let places = if refused { 0 } else { places };
        let ahead = steps(self.alloc, ahead)?;
        let mut calls = read_calls(self.alloc, calls, places)?;
        let mut source = Script::new(ahead.as_slice());
        let mut store = vec![in self.alloc; UNTOUCHED; places]?;
        let made = run(
            &mut source,
            branches,
            store.as_mut_slice(),
            calls.as_mut_slice(),
        );
        if let Err(error) = made {
            return error.refusal.show(&mut self.out);
        }
        show_calls(calls.as_slice(), &mut self.out)?;
        Left(source.left()).show(&mut self.out)?;
        Store(store.as_slice()).show(&mut self.out)
    }
}

// The calls, one to a word, on a tee whose store has so many places.
fn read_calls(alloc: Global, part: &str, places: usize) -> Result<Vec<Call<u64>>, Flaw> {
    part.split(' ')
        .map(|word| read_call(alloc, word, places))
        .try_collect(alloc)
}

// `sB`, `sB:L` or `cB`.
fn read_call(alloc: Global, word: &str, places: usize) -> Result<Call<u64>, Flaw> {
    if let Some(branch) = word.strip_prefix('c') {
        return lend(alloc, Ask::Copy(number(branch)? as usize), 0);
    }
    let step = word.strip_prefix('s').ok_or(Flaw::Form)?;
    match step.split_once(':') {
        Some((branch, lent)) => {
            let branch = number(branch)? as usize;
            // a store longer than the tee's is cut one place behind that, since it is refused
            // whatever its length
            let lent = (number(lent)? as usize).min(places.saturating_add(1));
            lend(alloc, Ask::StepElsewhere(branch), lent)
        }
        None => lend(alloc, Ask::Step(number(step)? as usize), 0),
    }
}

// A call that is still to be made, with another store of so many places.
fn lend(alloc: Global, ask: Ask, lent: usize) -> Result<Call<u64>, Flaw> {
    Ok(Call {
        ask,
        other: vec![in alloc; UNTOUCHED; lent]?,
        told: None,
    })
}
