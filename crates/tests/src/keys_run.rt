ghost use Rattle.std.specs.Prelude.{cond, nat_lt, Ok, Err, ◌-◌};
ghost use Rattle.std.proofs.Common.{rules};
ghost use Rattle.tests.specs.Keys.{no_key};

use crate::faults::{BROKEN, NO_KEY};
use adapters::{Accumulate, Keys, Pairwise};
use rules::{Bay, Sum};
use sources::{Block, List, Script};
use steps::{Answer, Fault, Keying, Source};

// How many minutes lie between a block's start and its end; there is no key where the end comes
// first.
#[derive(Clone, Copy)]
struct Between;

impl Keying<Block> for Between {
    type Key = u64;

    ghost key = { λ _ b. cond (nat_lt b.end b.start) (Err no_key) (Ok (b.end - b.start)) };

    ghost origin = { Prim.search rules };

    fn key_of(&self, item: Block) -> Result<u64, Fault> {
        if item.end < item.start {
            return Err(NO_KEY);
        }
        Ok(u64::from(item.end - item.start))
    }
}

fn block(bay: u16, start: u16, end: u16) -> Block {
    Block {
        bus: 7,
        bay,
        start,
        end,
    }
}

#[test]
fn a_key_for_each_item(rt: HostRuntime) {
    let blocks = [block(2, 0, 9), block(4, 0, 9)];
    let mut bays = Keys::new(List::new(&blocks), Bay);
    assert_eq!(rt; bays.next(), Ok(Answer::Item(2)));
    assert_eq!(rt; bays.next(), Ok(Answer::Item(4)));
    assert_eq!(rt; bays.next(), Ok(Answer::End));
    assert_eq!(rt; bays.next(), Ok(Answer::End));
}

#[test]
fn faults_stand_where_they_are_met(rt: HostRuntime) {
    let steps = [
        Ok(block(2, 0, 9)),
        Err(BROKEN),
        Ok(block(2, 9, 0)),
        Ok(block(2, 9, 29)),
    ];
    let mut script = Script::new(&steps);
    let mut minutes = Keys::new(&mut script, Between);
    assert_eq!(rt; minutes.next(), Ok(Answer::Item(9)));
    assert_eq!(rt; minutes.next(), Err(BROKEN));
    assert_eq!(rt; minutes.next(), Err(NO_KEY));
    assert_eq!(rt; minutes.next(), Ok(Answer::Item(20)));
    assert_eq!(rt; minutes.next(), Ok(Answer::End));
    assert_eq!(rt; script.left(), 0);
}

#[test]
fn adapters_over_keys(rt: HostRuntime) {
    let blocks = [block(2, 0, 9), block(2, 9, 29), block(2, 30, 35)];
    let mut totals = Accumulate::new(Keys::new(List::new(&blocks), Between), Sum, None);
    assert_eq!(rt; totals.next(), Ok(Answer::Item(9)));
    assert_eq!(rt; totals.next(), Ok(Answer::Item(29)));
    assert_eq!(rt; totals.next(), Ok(Answer::Item(34)));
    assert_eq!(rt; totals.next(), Ok(Answer::End));
    let mut pairs = Pairwise::new(Keys::new(List::new(&blocks), Bay));
    assert_eq!(rt; pairs.next(), Ok(Answer::Item((2, 2))));
}
