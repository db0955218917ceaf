ghost use Rattle.tests.specs.Keys.{key_unless, key_unless_origin};

use crate::faults::{BROKEN, NO_KEY};
use adapters::Pairwise;
use groups::{Ask, Call, GroupBy, Grouper, Told, run};
use rules::{Bay, Itself};
use sources::{Block, List, Script};
use steps::{Answer, CallError, Fault, Keying, Source, Step};

// The item itself is the key, but for one item, at which it meets a fault.
#[derive(Clone, Copy)]
struct Unless {
    bad: u64,
}

impl Keying<u64> for Unless {
    type Key = u64;

    ghost key = { λ s n. key_unless s.bad n };

    ghost origin = { λ s n f e. key_unless_origin s.bad n f e };

    fn key_of(&self, item: u64) -> Result<u64, Fault> {
        if self.bad == item {
            return Err(NO_KEY);
        }
        Ok(item)
    }
}

#[test]
fn groups_of_equal_numbers(rt: HostRuntime) {
    let mut groups = GroupBy::new(List::new(&[5u64, 5, 6, 5]), Itself);
    assert_eq!(rt; groups.group(), Ok(Answer::Item((5, 1))));
    assert_eq!(rt; groups.group(), Ok(Answer::Item((6, 2))));
    assert_eq!(rt; groups.group(), Ok(Answer::Item((5, 3))));
    assert_eq!(rt; groups.group(), Ok(Answer::End));
    assert_eq!(rt; groups.group(), Ok(Answer::End));
}

#[test]
fn items_of_the_current_group(rt: HostRuntime) {
    let mut groups = GroupBy::new(List::new(&[5u64, 5, 6, 5]), Itself);
    assert_eq!(rt; groups.item(1), Ok(Answer::End));
    assert_eq!(rt; groups.group(), Ok(Answer::Item((5, 1))));
    assert_eq!(rt; groups.item(1), Ok(Answer::Item(5)));
    assert_eq!(rt; groups.item(0), Ok(Answer::End));
    assert_eq!(rt; groups.item(2), Ok(Answer::End));
    assert_eq!(rt; groups.item(1), Ok(Answer::Item(5)));
    assert_eq!(rt; groups.item(1), Ok(Answer::End));
    assert_eq!(rt; groups.item(1), Ok(Answer::End));
    assert_eq!(rt; groups.group(), Ok(Answer::Item((6, 2))));
    assert_eq!(rt; groups.item(1), Ok(Answer::End));
    assert_eq!(rt; groups.item(2), Ok(Answer::Item(6)));
    assert_eq!(rt; groups.group(), Ok(Answer::Item((5, 3))));
    assert_eq!(rt; groups.item(2), Ok(Answer::End));
    assert_eq!(rt; groups.group(), Ok(Answer::End));
    assert_eq!(rt; groups.item(3), Ok(Answer::End));
}

#[test]
fn groups_by_bay(rt: HostRuntime) {
    let block = |bus: u16, bay: u16| Block {
        bus,
        bay,
        start: 360,
        end: 370,
    };
    let blocks = [block(7, 2), block(12, 2), block(7, 3)];
    let mut groups = GroupBy::new(List::new(&blocks), Bay);
    assert_eq!(rt; groups.group(), Ok(Answer::Item((2, 1))));
    assert_eq!(rt; groups.item(1), Ok(Answer::Item(block(7, 2))));
    assert_eq!(rt; groups.item(1), Ok(Answer::Item(block(12, 2))));
    assert_eq!(rt; groups.item(1), Ok(Answer::End));
    assert_eq!(rt; groups.group(), Ok(Answer::Item((3, 2))));
    assert_eq!(rt; groups.item(2), Ok(Answer::Item(block(7, 3))));
    assert_eq!(rt; groups.item(2), Ok(Answer::End));
    assert_eq!(rt; groups.group(), Ok(Answer::End));
}

fn opened(key: u64, number: u32) -> Told<u64, u64> {
    Told::Opened(Ok(Answer::Item((key, number))))
}

fn unopened(fault: Fault) -> Told<u64, u64> {
    Told::Opened(Err(CallError::Broken(fault)))
}

fn gave(item: u64) -> Told<u64, u64> {
    Told::Given(Ok(Answer::Item(item)))
}

fn broken(fault: Fault) -> Told<u64, u64> {
    Told::Given(Err(fault))
}

const NONE_OPENED: Told<u64, u64> = Told::Opened(Ok(Answer::End));

const NONE_GIVEN: Told<u64, u64> = Told::Given(Ok(Answer::End));

// What these eight calls tell: a group call, three of its items, a group call, two of its items, a
// group call.
fn told<K: Keying<u64, Key = u64> + Drop>(
    steps: &[Step<u64>],
    keys: K,
) -> [Option<Told<u64, u64>>; 8] {
    let call = |ask| Call { ask, told: None };
    let mut calls = [
        call(Ask::Group),
        call(Ask::Item(1)),
        call(Ask::Item(1)),
        call(Ask::Item(1)),
        call(Ask::Group),
        call(Ask::Item(2)),
        call(Ask::Item(2)),
        call(Ask::Group),
    ];
    let _ = run(Script::new(steps), keys, &mut calls);
    let [a, b, c, d, e, f, g, h] = calls;
    [
        a.told, b.told, c.told, d.told, e.told, f.told, g.told, h.told,
    ]
}

#[test]
fn a_run_without_faults(rt: HostRuntime) {
    let [a, b, c, d, e, f, g, h] = told(&[Ok(1), Ok(1), Ok(2)], Itself);
    assert_eq!(rt;
        [a, b, c, d],
        [
            Some(opened(1, 1)),
            Some(gave(1)),
            Some(gave(1)),
            Some(NONE_GIVEN)
        ]
    );
    assert_eq!(rt;
        [e, f, g, h],
        [
            Some(opened(2, 2)),
            Some(gave(2)),
            Some(NONE_GIVEN),
            Some(NONE_OPENED)
        ]
    );
}

#[test]
fn a_fault_before_the_first_group(rt: HostRuntime) {
    let [a, b, c, d, e, f, g, h] = told(&[Err(BROKEN), Ok(1), Ok(1), Ok(2)], Itself);
    assert_eq!(rt;
        [a, b, c, d],
        [
            Some(unopened(BROKEN)),
            Some(NONE_GIVEN),
            Some(NONE_GIVEN),
            Some(NONE_GIVEN)
        ]
    );
    assert_eq!(rt;
        [e, f, g, h],
        [
            Some(opened(1, 1)),
            Some(NONE_GIVEN),
            Some(NONE_GIVEN),
            Some(opened(2, 2))
        ]
    );
}

#[test]
fn a_fault_in_an_item_call_leaves_its_number(rt: HostRuntime) {
    let [a, b, c, d, e, f, g, h] = told(&[Ok(1), Err(BROKEN), Ok(1), Ok(2)], Itself);
    assert_eq!(rt;
        [a, b, c, d],
        [
            Some(opened(1, 1)),
            Some(gave(1)),
            Some(broken(BROKEN)),
            Some(gave(1))
        ]
    );
    assert_eq!(rt;
        [e, f, g, h],
        [
            Some(opened(2, 2)),
            Some(gave(2)),
            Some(NONE_GIVEN),
            Some(NONE_OPENED)
        ]
    );
}

#[test]
fn a_fault_between_two_runs(rt: HostRuntime) {
    let [a, b, c, d, e, f, g, h] = told(&[Ok(1), Ok(1), Err(BROKEN), Ok(2)], Itself);
    assert_eq!(rt;
        [a, b, c, d],
        [
            Some(opened(1, 1)),
            Some(gave(1)),
            Some(gave(1)),
            Some(broken(BROKEN))
        ]
    );
    assert_eq!(rt;
        [e, f, g, h],
        [
            Some(opened(2, 2)),
            Some(gave(2)),
            Some(NONE_GIVEN),
            Some(NONE_OPENED)
        ]
    );
}

#[test]
fn a_fault_after_all_items(rt: HostRuntime) {
    let [a, b, c, d, e, f, g, h] = told(&[Ok(1), Ok(1), Ok(2), Err(BROKEN)], Itself);
    assert_eq!(rt;
        [a, b, c, d],
        [
            Some(opened(1, 1)),
            Some(gave(1)),
            Some(gave(1)),
            Some(NONE_GIVEN)
        ]
    );
    assert_eq!(rt;
        [e, f, g, h],
        [
            Some(opened(2, 2)),
            Some(gave(2)),
            Some(broken(BROKEN)),
            Some(NONE_OPENED)
        ]
    );
}

#[test]
fn a_fault_of_a_key_loses_its_item(rt: HostRuntime) {
    let [a, b, c, d, e, f, g, h] = told(&[Ok(9), Ok(1), Ok(9), Ok(2)], Unless { bad: 9 });
    assert_eq!(rt;
        [a, b, c, d],
        [
            Some(unopened(NO_KEY)),
            Some(NONE_GIVEN),
            Some(NONE_GIVEN),
            Some(NONE_GIVEN)
        ]
    );
    assert_eq!(rt;
        [e, f, g, h],
        [
            Some(opened(1, 1)),
            Some(NONE_GIVEN),
            Some(NONE_GIVEN),
            Some(unopened(NO_KEY))
        ]
    );
}

#[test]
fn a_fault_while_a_run_is_skipped(rt: HostRuntime) {
    let steps = [Ok(1), Ok(1), Err(BROKEN), Ok(1), Ok(2)];
    let mut groups = GroupBy::new(Script::new(&steps), Itself);
    assert_eq!(rt; groups.group(), Ok(Answer::Item((1u64, 1))));
    assert_eq!(rt; groups.group(), Err(CallError::Broken(BROKEN)));
    assert_eq!(rt; groups.item(1), Ok(Answer::End));
    assert_eq!(rt; groups.group(), Ok(Answer::Item((2, 2))));
    assert_eq!(rt; groups.item(2), Ok(Answer::Item(2)));
}

#[test]
fn pairs_over_each_group(rt: HostRuntime) {
    let mut groups = GroupBy::new(List::new(&[5u64, 5, 5, 6, 7, 7]), Itself);
    assert_eq!(rt; groups.group(), Ok(Answer::Item((5, 1))));
    {
        let mut pairs = Pairwise::new(Grouper::new(&mut groups, 1));
        assert_eq!(rt; pairs.next(), Ok(Answer::Item((5, 5))));
        assert_eq!(rt; pairs.next(), Ok(Answer::Item((5, 5))));
        assert_eq!(rt; pairs.next(), Ok(Answer::End));
    }
    assert_eq!(rt; groups.group(), Ok(Answer::Item((6, 2))));
    {
        let mut pairs = Pairwise::new(Grouper::new(&mut groups, 2));
        assert_eq!(rt; pairs.next(), Ok(Answer::End));
    }
    assert_eq!(rt; groups.group(), Ok(Answer::Item((7, 3))));
    {
        let mut pairs = Pairwise::new(Grouper::new(&mut groups, 3));
        assert_eq!(rt; pairs.next(), Ok(Answer::Item((7, 7))));
        assert_eq!(rt; pairs.next(), Ok(Answer::End));
    }
    assert_eq!(rt; groups.group(), Ok(Answer::End));
}

#[test]
fn a_groupby_goes_on_behind_its_items(rt: HostRuntime) {
    let mut groups = GroupBy::new(List::new(&[5u64, 5, 5, 6]), Itself);
    assert_eq!(rt; groups.group(), Ok(Answer::Item((5, 1))));
    {
        let mut items = Grouper::new(&mut groups, 1);
        assert_eq!(rt; items.next(), Ok(Answer::Item(5)));
    }
    {
        let mut stale = Grouper::new(&mut groups, 7);
        assert_eq!(rt; stale.next(), Ok(Answer::End));
    }
    assert_eq!(rt; groups.item(1), Ok(Answer::Item(5)));
    assert_eq!(rt; groups.group(), Ok(Answer::Item((6, 2))));
}

#[test]
fn a_lent_source_goes_on_for_its_owner(rt: HostRuntime) {
    let steps = [Ok(1), Ok(1), Ok(2), Ok(3), Ok(3)];
    let mut source = Script::new(&steps);
    {
        let mut groups = GroupBy::new(&mut source, Itself);
        assert_eq!(rt; groups.group(), Ok(Answer::Item((1u64, 1))));
        assert_eq!(rt; groups.group(), Ok(Answer::Item((2, 2))));
    }
    assert_eq!(rt; source.left(), 2);
    assert_eq!(rt; source.next(), Ok(Answer::Item(3)));
}
