use crate::faults::BROKEN;
use crate::owners::one_step;
use sources::{Block, List, Range, Records, Script};
use std::alloc::Global;
use std::test::Fail;
use steps::{Answer, CallError, Fault, Refusal, Source, Step};
use tee::{Ask, Call, MOST_BRANCHES, Tee, Told, run};

type Stepped = Result<Answer<u64>, CallError>;

const NO_STORE: Stepped = Err(CallError::Refused(Refusal::OtherStore));

const NO_BRANCH: Stepped = Err(CallError::Refused(Refusal::NoBranch));

const FULL: Stepped = Err(CallError::Refused(Refusal::StoreFull));

const END: Stepped = Ok(Answer::End);

const FAULT: Stepped = Err(CallError::Broken(BROKEN));

fn item(number: u64) -> Stepped {
    Ok(Answer::Item(number))
}

// What steps of these branches tell, one after another.
fn told<S: Source<Item = u64>, const N: usize>(
    tee: &mut Tee<S>,
    branches: [usize; N],
    store: &mut [u64],
) -> [Stepped; N] {
    branches.map(|branch| tee.step(branch, store))
}

// The number of the refusal of a making, if it is refused.
fn refusal(branches: Option<usize>) -> Option<u8> {
    match Tee::new(Range::new(0, 9), branches, 4) {
        Ok(_) => None,
        Err(error) => Some(error.refusal.number()),
    }
}

#[test]
fn a_store_of_two(rt: HostRuntime) -> Result<(), Fail> {
    let numbers = [1, 2, 3];
    let mut store = [9u64; 2];
    let Ok(mut tee) = Tee::new(List::new(&numbers), None, 2) else {
        return Err(Fail::new("refused"));
    };
    let told = told(&mut tee, [0, 0, 0, 1], &mut store);
    assert_eq!(rt; told, [item(1), item(2), FULL, item(1)]);
    assert_eq!(rt; store, [1, 2]);
    let mut numbers = tee.into_inner();
    assert_eq!(rt; numbers.next(), Ok(Answer::Item(3)));
    Ok(())
}

#[test]
fn makings_of_a_tee(rt: HostRuntime) -> Result<(), Fail> {
    assert_eq!(rt; refusal(None), None);
    assert_eq!(rt; refusal(Some(0)), None);
    assert_eq!(rt; refusal(Some(16)), None);
    assert_eq!(rt; refusal(Some(17)), Some(8));
    assert_eq!(rt; refusal(Some(usize::MAX)), Some(8));
    let Err(mut error) = Tee::new(Range::new(5, 9), Some(MOST_BRANCHES + 1), 4) else {
        return Err(Fail::new("made"));
    };
    assert_eq!(rt; error.source.next(), Ok(Answer::Item(5)));
    Ok(())
}

#[test]
fn two_branches_unless_it_is_said(rt: HostRuntime) -> Result<(), Fail> {
    let mut store = [9u64; 2];
    let Ok(mut tee) = Tee::new(Range::new(5, 9), None, 2) else {
        return Err(Fail::new("refused"));
    };
    assert_eq!(rt;
        told(&mut tee, [2, 1, 0], &mut store),
        [NO_BRANCH, item(5), item(5)]
    );
    let Ok(mut none) = Tee::new(Range::new(5, 9), Some(0), 2) else {
        return Err(Fail::new("refused"));
    };
    assert_eq!(rt; told(&mut none, [0], &mut store), [NO_BRANCH]);
    assert_eq!(rt; none.copy(0), Err(Refusal::NoBranch));
    assert_eq!(rt; none.into_inner().next(), Ok(Answer::Item(5)));
    Ok(())
}

#[test]
fn the_store_is_looked_at_before_the_branch_and_the_branch_before_the_place(
    rt: HostRuntime,
) -> Result<(), Fail> {
    let mut store = [9u64; 1];
    let mut longer = [7u64; 2];
    let Ok(mut tee) = Tee::new(Range::new(5, 9), Some(1), 1) else {
        return Err(Fail::new("refused"));
    };
    assert_eq!(rt; told(&mut tee, [1, 0], &mut longer), [NO_STORE, NO_STORE]);
    assert_eq!(rt;
        told(&mut tee, [0, 1, 0], &mut store),
        [item(5), NO_BRANCH, FULL]
    );
    assert_eq!(rt; told(&mut tee, [0], &mut []), [NO_STORE]);
    assert_eq!(rt; longer, [7, 7]);
    assert_eq!(rt; tee.into_inner().next(), Ok(Answer::Item(6)));
    Ok(())
}

#[test]
fn full_or_the_end(rt: HostRuntime) -> Result<(), Fail> {
    let Ok(mut as_many) = Tee::new(Range::new(5, 7), Some(1), 2) else {
        return Err(Fail::new("refused"));
    };
    let as_many = told(&mut as_many, [0, 0, 0], &mut [0; 2]);
    assert_eq!(rt; as_many, [item(5), item(6), FULL]);
    let Ok(mut one_more) = Tee::new(Range::new(5, 7), Some(1), 3) else {
        return Err(Fail::new("refused"));
    };
    let one_more = told(&mut one_more, [0, 0, 0, 0], &mut [0; 3]);
    assert_eq!(rt; one_more, [item(5), item(6), END, END]);
    let Ok(mut no_place) = Tee::new(Range::new(5, 5), Some(1), 0) else {
        return Err(Fail::new("refused"));
    };
    assert_eq!(rt; told(&mut no_place, [0], &mut []), [FULL]);
    Ok(())
}

#[test]
fn copies_stand_where_their_originals_stand(rt: HostRuntime) -> Result<(), Fail> {
    let mut store = [9u64; 4];
    let Ok(mut tee) = Tee::new(Range::new(5, 8), None, 4) else {
        return Err(Fail::new("refused"));
    };
    assert_eq!(rt; told(&mut tee, [0, 0], &mut store), [item(5), item(6)]);
    assert_eq!(rt; tee.copy(0), Ok(2));
    assert_eq!(rt; tee.copy(1), Ok(3));
    assert_eq!(rt; tee.copy(4), Err(Refusal::NoBranch));
    let told = told(&mut tee, [2, 3, 2, 0, 3, 3, 3], &mut store);
    assert_eq!(rt;
        told,
        [item(7), item(5), END, item(7), item(6), item(7), END]
    );
    for number in 4..16 {
        assert_eq!(rt; tee.copy(1), Ok(number));
    }
    assert_eq!(rt; tee.copy(1), Err(Refusal::NoBranch));
    Ok(())
}

// What four steps of two branches tell over these steps, and what their store of two then holds: a
// fault goes to the branch that drew it, and takes no place.
fn with_a_fault(steps: &[Step<u64>], branches: [usize; 4]) -> Option<([Stepped; 4], [u64; 2])> {
    let mut store = [9u64; 2];
    let mut tee = Tee::new(Script::new(steps), None, 2).ok()?;
    Some((told(&mut tee, branches, &mut store), store))
}

#[test]
fn a_fault_at_every_place(rt: HostRuntime) {
    let first = with_a_fault(&[Err(BROKEN), Ok(1), Ok(2)], [0, 1, 0, 0]);
    assert_eq!(rt; first, Some(([FAULT, item(1), item(1), item(2)], [1, 2])));
    let second = with_a_fault(&[Ok(1), Err(BROKEN), Ok(2)], [0, 0, 1, 1]);
    assert_eq!(rt; second, Some(([item(1), FAULT, item(1), item(2)], [1, 2])));
    let last = with_a_fault(&[Ok(1), Ok(2), Err(BROKEN)], [0, 1, 1, 1]);
    assert_eq!(rt; last, Some(([item(1), item(1), item(2), FULL], [1, 2])));
    let at_the_end = with_a_fault(&[Ok(1), Err(BROKEN)], [0, 0, 0, 1]);
    assert_eq!(rt; at_the_end, Some(([item(1), FAULT, END, item(1)], [1, 9])));
    let alone = with_a_fault(&[Err(BROKEN), Err(BROKEN)], [0, 1, 1, 0]);
    assert_eq!(rt; alone, Some(([FAULT, FAULT, END, END], [9, 9])));
}

#[test]
fn an_owner_goes_on_behind_a_tee(rt: HostRuntime) {
    let mut numbers = Range::new(5, 9);
    let mut store = [0u64; 3];
    assert_eq!(rt; one_step(&mut numbers, &mut store), Ok(Answer::Item(5)));
    assert_eq!(rt; one_step(&mut numbers, &mut store), Ok(Answer::Item(6)));
    assert_eq!(rt; one_step(&mut numbers, &mut []), FULL);
    assert_eq!(rt; numbers.next(), Ok(Answer::Item(7)));
    assert_eq!(rt; store, [6, 0, 0]);
}

// Bus 7 at bay 2, 06:00 to 06:10, and a header of another kind behind it.
const RECORDS: [u8; 16] = [8, 0, 0x10, 0, 7, 0, 2, 0, 0x68, 1, 0x72, 1, 0, 0, 0x11, 0];

// The second branch's steps over records, behind the first one's: by `?` all the way.
fn over_records(store: &mut [Block]) -> Result<Answer<Block>, CallError> {
    let mut tee = Tee::new(Records::new(&RECORDS), None, store.len())?;
    tee.step(0, store)?;
    let third = tee.copy(1)?;
    tee.step(third, store)?;
    tee.step(third, store)
}

#[test]
fn blocks_by_branches(rt: HostRuntime) {
    let none = Block {
        bus: 0,
        bay: 0,
        start: 0,
        end: 0,
    };
    let block = Block {
        bus: 7,
        bay: 2,
        start: 360,
        end: 370,
    };
    let other_kind = Fault {
        origin: Fault::SOURCE,
        cause: 3,
        place: 12,
    };
    let mut store = [none; 2];
    assert_eq!(rt;
        over_records(&mut store),
        Err(CallError::Broken(other_kind))
    );
    assert_eq!(rt; store, [block, none]);
    assert_eq!(rt;
        over_records(&mut []),
        Err(CallError::Refused(Refusal::StoreFull))
    );
}

// A source or a tee over one, as a program holds what a plan names.
#[derive(Drop)]
enum Played<'a> {
    Plain(List<'a, u64>),
    Several(Tee<List<'a, u64>>),
}

fn play(played: &mut Played<'_>, store: &mut [u64]) -> Stepped {
    match played {
        Played::Plain(list) => Ok(list.next()?),
        Played::Several(tee) => tee.step(0, store),
    }
}

#[test]
fn tees_in_a_vector(rt: HostRuntime) -> Result<(), Fail> {
    let numbers = [3, 4];
    let mut store = [0u64; 2];
    let mut all: Vec<Played> = Vec::new(rt.alloc());
    all.push(Played::Plain(List::new(&numbers)))?;
    if let Ok(tee) = Tee::new(List::new(&numbers), None, 2) {
        all.push(Played::Several(tee))?;
    }
    for played in &mut all {
        assert_eq!(rt; play(played, &mut store), item(3));
    }
    assert_eq!(rt; all.len(), 2);
    assert_eq!(rt; store, [3, 0]);
    Ok(())
}

fn call(alloc: Global, ask: Ask) -> Call<u64> {
    Call {
        ask,
        other: Vec::new(alloc),
        told: None,
    }
}

#[test]
fn a_history_is_run(rt: HostRuntime) -> Result<(), Fail> {
    let mut store = [9u64; 2];
    let mut calls: Vec<Call<u64>> = Vec::new(rt.alloc());
    for ask in [
        Ask::Step(0),
        Ask::Copy(0),
        Ask::StepElsewhere(7),
        Ask::Step(2),
        Ask::Step(1),
    ] {
        calls.push(call(rt.alloc(), ask))?;
    }
    let Ok((tee, count)) = run(Range::new(1, 4), None, &mut store, calls.as_mut_slice()) else {
        return Err(Fail::new("refused"));
    };
    assert_eq!(rt; count, 5);
    assert_eq!(rt; store, [1, 2]);
    assert_eq!(rt; calls[0].told, Some(Told::Stepped(item(1))));
    assert_eq!(rt; calls[1].told, Some(Told::Copied(Ok(2))));
    assert_eq!(rt; calls[2].told, Some(Told::Stepped(NO_STORE)));
    assert_eq!(rt; calls[3].told, Some(Told::Stepped(item(2))));
    assert_eq!(rt; calls[4].told, Some(Told::Stepped(item(1))));
    assert_eq!(rt; tee.into_inner().next(), Ok(Answer::Item(3)));
    Ok(())
}

#[test]
fn a_refused_making_runs_no_call(rt: HostRuntime) -> Result<(), Fail> {
    let mut calls: Vec<Call<u64>> = Vec::new(rt.alloc());
    calls.push(call(rt.alloc(), Ask::Step(0)))?;
    let Err(error) = run(
        Range::new(1, 4),
        Some(17),
        &mut [9; 2],
        calls.as_mut_slice(),
    ) else {
        return Err(Fail::new("made"));
    };
    assert_eq!(rt; error.refusal.number(), 8);
    assert_eq!(rt; calls[0].told, None);
    Ok(())
}
