use jobs::{MOST_INPUT, MOST_TEXT, answer};

// What stands in the buffer where nothing was written.
const MARK: u8 = 42;

// Whether the input is answered by the text, with the rest of the buffer as it was.
fn is_answered(input: &[u8], wanted: &[u8]) -> bool {
    let mut text = [MARK; MOST_TEXT];
    let count = answer(input, &mut text);
    &text[0..count] == wanted && text[count..MOST_TEXT].iter().all(|byte| *byte == MARK)
}

#[test]
fn the_four_kinds(rt: HostRuntime) {
    assert!(rt; is_answered(&[4, 0, 2, 0, 3, 0, 2, 0], b"0 1\n0 2\n1 2\nend\n"));
    assert!(rt; is_answered(&[4, 0, 3, 0, 2, 0, 2, 0], b"0 0\n0 1\n1 1\nend\n"));
    assert!(rt; is_answered(&[4, 0, 4, 0, 2, 0, 2, 0], b"0 1\n1 0\nend\n"));
    assert!(rt;
        is_answered(
            &[6, 0, 1, 0, 1, 0, 2, 0, 2, 0],
            b"0 0\n0 1\n1 0\n1 1\nend\n"
        )
    );
    assert!(rt; is_answered(&[4, 0, 1, 0, 2, 0, 2, 0], b"0 0\n0 1\n1 0\n1 1\nend\n"));
}

#[test]
fn no_rows_one_row_and_more_than_a_hundred(rt: HostRuntime) {
    assert!(rt; is_answered(&[4, 0, 2, 0, 2, 0, 3, 0], b"end\n"));
    assert!(rt; is_answered(&[2, 0, 1, 0, 7, 0], b"\nend\n"));
    assert!(rt; is_answered(&[4, 0, 4, 0, 0, 0, 0, 0], b"\nend\n"));
    let mut text = [MARK; MOST_TEXT];
    let count = answer(&[4, 0, 2, 0, 101, 0, 1, 0], &mut text);
    assert_eq!(rt; count, 295);
    assert_eq!(rt; &text[0..8], b"0\n1\n2\n3\n".as_slice());
    assert_eq!(rt; &text[287..295], b"99\nmore\n".as_slice());
}

#[test]
fn bytes_behind_the_record_are_not_looked_at(rt: HostRuntime) {
    assert!(rt; is_answered(&[4, 0, 2, 0, 3, 0, 2, 0, 9, 9, 9], b"0 1\n0 2\n1 2\nend\n"));
}

#[test]
fn every_cut_of_a_job(rt: HostRuntime) {
    let job = [4, 0, 2, 0, 3, 0, 2, 0];
    for end in 0..4 {
        assert!(rt; is_answered(&job[0..end], b"fault 1\n"));
    }
    for end in 4..8 {
        assert!(rt; is_answered(&job[0..end], b"fault 2\n"));
    }
}

#[test]
fn other_kinds_come_before_other_lengths(rt: HostRuntime) {
    assert!(rt; is_answered(&[4, 0, 0, 0, 3, 0, 2, 0], b"fault 3\n"));
    assert!(rt; is_answered(&[4, 0, 5, 0, 3, 0, 2, 0], b"fault 3\n"));
    assert!(rt; is_answered(&[4, 0, 2, 1, 3, 0, 2, 0], b"fault 3\n"));
    assert!(rt; is_answered(&[0, 0, 5, 0], b"fault 3\n"));
}

#[test]
fn other_lengths(rt: HostRuntime) {
    assert!(rt; is_answered(&[0, 0, 1, 0], b"fault 4\n"));
    assert!(rt; is_answered(&[1, 0, 1, 0, 2], b"fault 4\n"));
    assert!(rt; is_answered(&[3, 0, 1, 0, 2, 0, 2], b"fault 4\n"));
    assert!(rt; is_answered(&[0, 0, 2, 0], b"fault 4\n"));
    assert!(rt; is_answered(&[3, 0, 3, 0, 2, 0, 2], b"fault 4\n"));
    assert!(rt; is_answered(&[6, 0, 4, 0, 2, 0, 2, 0, 2, 0], b"fault 4\n"));
}

#[test]
fn refusals(rt: HostRuntime) {
    assert!(rt; is_answered(&[4, 0, 2, 0, 1, 1, 65, 0], b"refused 1\n"));
    assert!(rt; is_answered(&[4, 0, 2, 0, 0, 1, 65, 0], b"refused 2\n"));
    assert!(rt; is_answered(&[4, 0, 1, 0, 1, 0, 1, 1], b"refused 1\n"));
    assert!(rt; is_answered(&[4, 0, 1, 0, 65, 0, 2, 0], b"refused 2\n"));
}

#[test]
fn what_is_behind_the_most_bytes_is_cut_off(rt: HostRuntime) {
    let mut input = [0; MOST_INPUT + 2];
    input[0] = 254;
    input[1] = 15;
    input[2] = 1;
    assert!(rt; is_answered(&input, b"fault 2\n"));
    input[0] = 252;
    assert!(rt; is_answered(&input, b"refused 2\n"));
}
