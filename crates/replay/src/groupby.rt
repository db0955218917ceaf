// Scenarios of groups: group calls, and item calls with the number of a group.

use crate::flaw::Flaw;
use crate::form::{number, steps};
use crate::play::Player;
use crate::rule;
use crate::show::{Left, Show, show_calls};
use groups::{Ask, Call, run};
use rules::Itself;
use sources::Script;
use std::alloc::Global;
use steps::Keying;

impl Player {
    /// `groupby K ; STEPS ; CALLS`
    pub fn groupby(&mut self, key: &str, ahead: &str, calls: &str) -> Result<(), Flaw> {
        match key {
            "self" => self.group_calls(Itself, ahead, calls),
            _ => self.group_calls(rule::read_remainder(key)?, ahead, calls),
        }
    }

    // Makes the calls on the groups by these keys, and writes a line for each.
    fn group_calls<K: Keying<u64, Key = u64> + Drop>(
        &mut self,
        keys: K,
        ahead: &str,
        calls: &str,
    ) -> Result<(), Flaw> {
        let ahead = steps(self.alloc, ahead)?;
        let mut calls = read_calls(self.alloc, calls)?;
        let mut source = Script::new(ahead.as_slice());
        run(&mut source, keys, calls.as_mut_slice());
        show_calls(calls.as_slice(), &mut self.out)?;
        Left(source.left()).show(&mut self.out)
    }
}

// The calls, one to a word.
fn read_calls(alloc: Global, part: &str) -> Result<Vec<Call<u64, u64>>, Flaw> {
    part.split(' ').map(read_call).try_collect(alloc)
}

// `g` or `iN`. A number of more than 32 bits is no group's, as 0 is none.
fn read_call(word: &str) -> Result<Call<u64, u64>, Flaw> {
    let ask = match word.strip_prefix('i') {
        Some(group) => Ask::Item(u32::try_from(number(group)?).unwrap_or(0)),
        None if word == "g" => Ask::Group,
        None => return Err(Flaw::Form),
    };
    Ok(Call { ask, told: None })
}
