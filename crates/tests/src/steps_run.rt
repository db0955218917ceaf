use adapters::Accumulate;
use rules::Sum;
use sources::{List, Range, Script};
use steps::{Answer, Fault, Source, Steps};

#[test]
fn the_item_of_an_answer(rt: HostRuntime) {
    assert_eq!(rt; Answer::Item(5u64).item(), Some(5));
    assert!(rt; Answer::<u64>::End.item().is_none());
}

#[test]
fn steps_one_after_another(rt: HostRuntime) {
    let fault = Fault {
        origin: Fault::SOURCE,
        cause: 9,
        place: 4,
    };
    let given = [Ok(1u64), Err(fault), Ok(3)];
    let (mut items, mut faults) = (0u64, 0u64);
    for step in Steps(Script::new(&given)) {
        match step {
            Ok(item) => items = items.wrapping_mul(10).wrapping_add(item),
            Err(met) => {
                faults = faults.wrapping_add(1);
                assert_eq!(rt; met, fault);
            }
        }
    }
    assert_eq!(rt; items, 13);
    assert_eq!(rt; faults, 1);
}

#[test]
fn methods_of_iterators(rt: HostRuntime) {
    let loads = [5u64, 9, 30];
    let totals = Steps(Accumulate::new(List::new(&loads), Sum, None));
    assert_eq!(rt;
        totals
            .filter(|s| matches!(s, Ok(total) if *total > 10))
            .count(),
        2
    );
}

#[test]
fn a_lent_source_goes_on(rt: HostRuntime) {
    let mut numbers = Range::new(0, 5);
    let mut seen = 0u64;
    for step in Steps(&mut numbers) {
        if step == Ok(2) {
            break;
        }
        seen = seen.wrapping_add(1);
    }
    assert_eq!(rt; seen, 2);
    assert_eq!(rt; numbers.next(), Ok(Answer::Item(3)));
}
