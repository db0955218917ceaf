use combinations::{Combinations, CombinationsWithReplacement};
use enumerators::{Enumerator, list};
use permutations::Permutations;
use products::Product;
use steps::Refusal;

// The least buffer for rows of one place is 405 bytes, of two places 805.
const MARK: u8 = 42;

#[test]
fn combinations_of_two_from_three(rt: HostRuntime) {
    let mut buffer = [MARK; 805];
    let count = list(Combinations::new(3, 2).expect(&rt, "made"), &mut buffer);
    assert_eq!(rt; count, Ok(16));
    assert_eq!(rt; &buffer[0..16], b"0 1\n0 2\n1 2\nend\n".as_slice());
    assert!(rt; buffer[16..805].iter().all(|byte| *byte == MARK));
}

#[test]
fn a_row_of_no_places_is_a_line_feed(rt: HostRuntime) {
    let mut buffer = [MARK; 105];
    let count = list(Product::new(&[], 1).expect(&rt, "made"), &mut buffer);
    assert_eq!(rt; count, Ok(5));
    assert_eq!(rt; &buffer[0..5], b"\nend\n".as_slice());
    assert_eq!(rt; buffer[5], MARK);
}

#[test]
fn no_rows_are_the_end(rt: HostRuntime) {
    let mut buffer = [MARK; 405];
    let count = list(
        CombinationsWithReplacement::new(0, 1).expect(&rt, "made"),
        &mut buffer,
    );
    assert_eq!(rt; count, Ok(4));
    assert_eq!(rt; &buffer[0..4], b"end\n".as_slice());
}

#[test]
fn a_hundred_rows_end_and_one_more_is_told(rt: HostRuntime) {
    let mut buffer = [MARK; 405];
    let count = list(Product::new(&[100], 1).expect(&rt, "made"), &mut buffer);
    assert_eq!(rt; count, Ok(294));
    assert_eq!(rt; &buffer[287..294], b"99\nend\n".as_slice());
    let count = list(Product::new(&[101], 1).expect(&rt, "made"), &mut buffer);
    assert_eq!(rt; count, Ok(295));
    assert_eq!(rt; &buffer[287..295], b"99\nmore\n".as_slice());
}

#[test]
fn the_longest_rows_fit(rt: HostRuntime) {
    let mut buffer = [MARK; 25_605];
    let mut rows = Permutations::new(256, Some(64)).expect(&rt, "made");
    rows.advance();
    assert!(rt; list(rows, &mut buffer).is_ok());
}

#[test]
fn a_short_buffer_is_refused_and_left(rt: HostRuntime) {
    let mut buffer = [MARK; 804];
    let count = list(Combinations::new(3, 2).expect(&rt, "made"), &mut buffer);
    assert_eq!(rt; count, Err(Refusal::ShortBuffer));
    assert!(rt; buffer.iter().all(|byte| *byte == MARK));
}
