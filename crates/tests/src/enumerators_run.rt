use combinations::{Combinations, CombinationsWithReplacement};
use enumerators::{Call, Enumerator};
use permutations::Permutations;
use products::Product;
use sources::Block;
use std::process::Abort;
use std::test::Fail;
use steps::{Answer, Refusal};

// All that is seen of a call: its answer, and what both buffers hold after it.
#[derive(Clone, Copy, PartialEq, Eq, Debug)]
struct Seen {
    answer: Result<Answer<()>, Refusal>,
    places: [u16; 4],
    elements: [u64; 4],
}

// A call whose buffers hold 7 in each of their four places before it.
fn call<E: Enumerator>(enumerator: &mut E, pool: &[u64]) -> Seen {
    let mut places = [7; 4];
    let mut elements = [7; 4];
    let answer = enumerator.next(pool, &mut places, &mut elements);
    Seen {
        answer,
        places,
        elements,
    }
}

fn row(places: [u16; 4], elements: [u64; 4]) -> Seen {
    Seen {
        answer: Ok(Answer::Item(())),
        places,
        elements,
    }
}

// A call that wrote nothing.
fn nothing(answer: Result<Answer<()>, Refusal>) -> Seen {
    Seen {
        answer,
        places: [7; 4],
        elements: [7; 4],
    }
}

// Checks that these rows of two places come with these elements, and then the end.
fn check_rows<E: Enumerator>(
    rt: &impl Abort,
    enumerator: &mut E,
    pool: &[u64],
    rows: &[([u16; 2], [u64; 2])],
) {
    for expected in rows {
        let ([p, q], [a, b]) = *expected;
        assert_eq!(rt; call(enumerator, pool), row([p, q, 7, 7], [a, b, 7, 7]));
    }
    assert_eq!(rt; call(enumerator, pool), nothing(Ok(Answer::End)));
}

#[test]
fn rows_in_their_order(rt: HostRuntime) -> Result<(), Fail> {
    check_rows(
        &rt,
        &mut Product::new(&[2, 2], 1)?,
        &[10, 11, 20, 21],
        &[
            ([0, 0], [10, 20]),
            ([0, 1], [10, 21]),
            ([1, 0], [11, 20]),
            ([1, 1], [11, 21]),
        ],
    );
    check_rows(
        &rt,
        &mut Combinations::new(3, 2)?,
        &[10, 11, 12],
        &[([0, 1], [10, 11]), ([0, 2], [10, 12]), ([1, 2], [11, 12])],
    );
    check_rows(
        &rt,
        &mut CombinationsWithReplacement::new(2, 2)?,
        &[10, 11],
        &[([0, 0], [10, 10]), ([0, 1], [10, 11]), ([1, 1], [11, 11])],
    );
    check_rows(
        &rt,
        &mut Permutations::new(3, Some(2))?,
        &[10, 11, 12],
        &[
            ([0, 1], [10, 11]),
            ([0, 2], [10, 12]),
            ([1, 0], [11, 10]),
            ([1, 2], [11, 12]),
            ([2, 0], [12, 10]),
            ([2, 1], [12, 11]),
        ],
    );
    Ok(())
}

#[test]
fn no_rows_and_a_row_of_no_places(rt: HostRuntime) -> Result<(), Fail> {
    check_rows(&rt, &mut Product::new(&[3, 0], 1)?, &[10, 11, 12], &[]);
    check_rows(&rt, &mut Combinations::new(2, 3)?, &[10, 11], &[]);
    check_rows(&rt, &mut CombinationsWithReplacement::new(0, 1)?, &[], &[]);
    let mut rows = Product::new(&[], 1)?;
    assert_eq!(rt; call(&mut rows, &[]), row([7; 4], [7; 4]));
    check_rows(&rt, &mut rows, &[], &[]);
    let mut rows = Permutations::new(0, Some(0))?;
    assert_eq!(rt; call(&mut rows, &[]), row([7; 4], [7; 4]));
    check_rows(&rt, &mut rows, &[], &[]);
    Ok(())
}

fn block(bus: u16) -> Block {
    Block {
        bus,
        bay: 2,
        start: 360,
        end: 370,
    }
}

#[test]
fn elements_may_be_blocks(rt: HostRuntime) -> Result<(), Fail> {
    let pool = [block(5), block(6), block(8)];
    let mut places = [7; 3];
    let mut elements = [block(1); 2];
    let mut rows = Combinations::new(3, 2)?;
    assert_eq!(rt;
        rows.next(&pool, &mut places, &mut elements),
        Ok(Answer::Item(()))
    );
    assert_eq!(rt; places, [0, 1, 7]);
    assert_eq!(rt; elements, [block(5), block(6)]);
    assert_eq!(rt;
        rows.next(&pool, &mut places, &mut elements),
        Ok(Answer::Item(()))
    );
    assert_eq!(rt; places, [0, 2, 7]);
    assert_eq!(rt; elements, [block(5), block(8)]);
    Ok(())
}

#[test]
fn a_refused_call_changes_nothing(rt: HostRuntime) -> Result<(), Fail> {
    let pool = [10, 11, 12];
    let mut short = [7; 1];
    let mut wide = [7; 2];
    let mut rows = Permutations::new(3, Some(2))?;
    assert_eq!(rt; call(&mut rows, &pool), row([0, 1, 7, 7], [10, 11, 7, 7]));
    assert_eq!(rt;
        call(&mut rows, &[10, 11]),
        nothing(Err(Refusal::OtherPool))
    );
    assert_eq!(rt;
        rows.next(&pool, &mut short, &mut wide),
        Err(Refusal::ShortBuffer)
    );
    // the pool is looked at before the buffers
    assert_eq!(rt;
        rows.next(&[10], &mut short, &mut wide),
        Err(Refusal::OtherPool)
    );
    assert_eq!(rt; short, [7]);
    assert_eq!(rt; wide, [7, 7]);
    assert_eq!(rt; call(&mut rows, &pool), row([0, 2, 7, 7], [10, 12, 7, 7]));
    Ok(())
}

#[test]
fn makings_that_are_refused(rt: HostRuntime) {
    // every pool is looked at before the row
    assert_eq!(rt;
        Product::new(&[1, 257], 0).err(),
        Some(Refusal::PoolTooLong)
    );
    assert_eq!(rt; Product::new(&[1; 65], 0).err(), Some(Refusal::RowTooLong));
    assert_eq!(rt;
        Product::new(&[1, 1], 1 << 31).err(),
        Some(Refusal::RowTooLong)
    );
    assert_eq!(rt; Product::new(&[256], 64).err(), None);
    assert_eq!(rt;
        Combinations::new(257, 65).err(),
        Some(Refusal::PoolTooLong)
    );
    assert_eq!(rt; Combinations::new(3, 65).err(), Some(Refusal::RowTooLong));
    assert_eq!(rt;
        CombinationsWithReplacement::new(0, 65).err(),
        Some(Refusal::RowTooLong)
    );
    assert_eq!(rt;
        Permutations::new(65, None).err(),
        Some(Refusal::RowTooLong)
    );
    assert_eq!(rt; Permutations::new(64, None).err(), None);
}

#[test]
fn blocks_of_two_pools_through_the_runner(rt: HostRuntime) -> Result<(), Fail> {
    let alloc = rt.alloc();
    let call = Call {
        pool: vec![in alloc; block(5), block(6), block(8)]?,
        places: vec![in alloc; 7; 3]?,
        elements: vec![in alloc; block(1); 3]?,
        answer: None,
    };
    let mut calls = vec![in alloc; call]?;
    let made = Product::run_calls(&[2, 1], 1, calls.as_mut_slice())?;
    assert_eq!(rt; made, 1);
    assert_eq!(rt; calls[0].answer, Some(Ok(Answer::Item(()))));
    assert_eq!(rt; calls[0].places.as_slice(), [0, 0, 7].as_slice());
    assert_eq!(rt;
        calls[0].elements.as_slice(),
        [block(5), block(8), block(1)].as_slice()
    );
    Ok(())
}

#[test]
fn one_enumerator_serves_elements_of_any_kind(rt: HostRuntime) -> Result<(), Fail> {
    let mut rows = Product::new(&[2, 1], 1)?;
    let mut places = [7; 2];
    let mut numbers = [0; 2];
    let mut blocks = [block(1); 2];
    assert_eq!(rt;
        rows.next(&[10, 11, 20], &mut places, &mut numbers),
        Ok(Answer::Item(()))
    );
    assert_eq!(rt; (places, numbers), ([0, 0], [10, 20]));
    // a call of another kind goes on where the numbers stopped, a refused one too
    assert_eq!(rt;
        rows.next(&[block(5)], &mut places, &mut blocks),
        Err(Refusal::OtherPool)
    );
    let pool = [block(5), block(6), block(8)];
    assert_eq!(rt;
        rows.next(&pool, &mut places, &mut blocks),
        Ok(Answer::Item(()))
    );
    assert_eq!(rt; places, [1, 0]);
    assert_eq!(rt; blocks, [block(6), block(8)]);
    assert_eq!(rt;
        rows.next(&[10, 11, 20], &mut places, &mut numbers),
        Ok(Answer::End)
    );
    assert_eq!(rt; (places, numbers), ([1, 0], [10, 20]));
    Ok(())
}
