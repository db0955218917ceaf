use crate::faults::BROKEN;
use adapters::{
    Accumulate, Chain, Compress, DropWhile, Islice, Pairwise, TakeWhile, ZipLongest, consume,
};
use rules::{Below, LastsAtLeast, Sum};
use sources::{Block, List, Range, Records, Script};
use std::test::Fail;
use steps::{Answer, Fault, Refusal, Source};

// The refusal of a slice, if it is refused.
fn refusal(arguments: &[Option<u64>]) -> Option<u8> {
    match Islice::new(Range::new(0, 9), arguments) {
        Ok(_) => None,
        Err(error) => Some(error.refusal.number()),
    }
}

#[test]
fn a_slice_draws_up_to_its_stop(rt: HostRuntime) -> Result<(), Fail> {
    let mut numbers = Range::new(0, 10);
    let Ok(mut slice) = Islice::new(&mut numbers, &[Some(0), Some(5), Some(3)]) else {
        return Err(Fail::new("refused"));
    };
    assert_eq!(rt; slice.next(), Ok(Answer::Item(0)));
    assert_eq!(rt; slice.next(), Ok(Answer::Item(3)));
    assert_eq!(rt; slice.next(), Ok(Answer::End));
    assert_eq!(rt; numbers.next(), Ok(Answer::Item(5)));
    Ok(())
}

#[test]
fn a_start_past_the_stop_draws_up_to_the_start(rt: HostRuntime) -> Result<(), Fail> {
    let Ok((mut rest, met)) = consume(Range::new(0, 10), &[Some(3), Some(1)]) else {
        return Err(Fail::new("refused"));
    };
    assert_eq!(rt; met, None);
    assert_eq!(rt; rest.next(), Ok(Answer::Item(3)));
    Ok(())
}

#[test]
fn slices_that_are_refused(rt: HostRuntime) {
    assert_eq!(rt; refusal(&[]), Some(5));
    assert_eq!(rt; refusal(&[None, None, None, None]), Some(5));
    assert_eq!(rt; refusal(&[None, None, Some(0)]), Some(5));
    assert_eq!(rt; refusal(&[Some(9_223_372_036_854_775_808)]), Some(5));
    assert_eq!(rt; refusal(&[Some(9_223_372_036_854_775_807)]), None);
    assert_eq!(rt; refusal(&[None]), None);
}

#[test]
fn a_datum_is_drawn_before_its_selector(rt: HostRuntime) {
    let mut items = Script::new(&[Ok(7), Ok(8), Ok(9)]);
    let selectors = [0u64, 5];
    let mut kept = Compress::new(&mut items, List::new(&selectors), Below { limit: 1 });
    assert_eq!(rt; kept.next(), Ok(Answer::Item(7)));
    assert_eq!(rt; kept.next(), Ok(Answer::End));
    assert_eq!(rt; kept.next(), Ok(Answer::End));
    assert_eq!(rt; items.left(), 0);
}

#[test]
fn a_joining_that_fails_leaves_the_total(rt: HostRuntime) {
    let numbers = [u64::MAX, 1, 0];
    let mut totals = Accumulate::new(List::new(&numbers), Sum, None);
    assert_eq!(rt; totals.next(), Ok(Answer::Item(u64::MAX)));
    let overflow = Fault {
        origin: Fault::JOINING,
        cause: 1,
        place: 0,
    };
    assert_eq!(rt; totals.next(), Err(overflow));
    assert_eq!(rt; totals.next(), Ok(Answer::Item(u64::MAX)));
}

#[test]
fn a_chain_is_cut_after_a_fault(rt: HostRuntime) {
    let mut first = Script::new(&[Ok(1), Err(BROKEN), Ok(2)]);
    let mut both = Chain::new(&mut first, Range::new(5, 7));
    assert_eq!(rt; both.next(), Ok(Answer::Item(1)));
    assert_eq!(rt; both.next(), Err(BROKEN));
    assert_eq!(rt; both.next(), Ok(Answer::End));
    assert_eq!(rt; first.left(), 1);
}

#[test]
fn a_fill_stands_for_the_side_that_ended(rt: HostRuntime) {
    let mut pairs = ZipLongest::new(Range::new(0, 1), Range::new(5, 7), 100, 200);
    assert_eq!(rt; pairs.next(), Ok(Answer::Item((0, 5))));
    assert_eq!(rt; pairs.next(), Ok(Answer::Item((100, 6))));
    assert_eq!(rt; pairs.next(), Ok(Answer::End));
}

// A good record, a record of another kind at byte 12, and two good ones.
const PLAN: [u8; 40] = [
    8, 0, 0x10, 0, 7, 0, 2, 0, 0x68, 1, 0x72, 1, 0, 0, 0x11, 0, 8, 0, 0x10, 0, 8, 0, 2, 0, 0x72, 1,
    0x90, 1, 8, 0, 0x10, 0, 9, 0, 2, 0, 0x90, 1, 0xa0, 1,
];

#[test]
fn six_adapters_bring_a_record_fault_up_unchanged(rt: HostRuntime) -> Result<(), Fail> {
    let dropped = DropWhile::new(LastsAtLeast { minutes: 1000 }, Records::new(&PLAN));
    let taken = TakeWhile::new(LastsAtLeast { minutes: 1 }, dropped);
    let chained = Chain::new(taken, Records::new(&[]));
    let Ok(sliced) = Islice::new(chained, &[None]) else {
        return Err(Fail::new("refused"));
    };
    let kept = Compress::new(sliced, Range::new(0, 9), Below { limit: 9 });
    let mut paired = Pairwise::new(kept);
    let place_12 = Fault {
        origin: Fault::SOURCE,
        cause: 3,
        place: 12,
    };
    assert_eq!(rt; paired.next(), Err(place_12));
    assert_eq!(rt; paired.next(), Ok(Answer::End));
    Ok(())
}
