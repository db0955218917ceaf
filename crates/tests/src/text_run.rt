use steps::Refusal;
use text::{write_bytes, write_number, write_padded};

#[test]
fn bytes_are_written_at_a_place(rt: HostRuntime) {
    let mut buffer = *b"......";
    assert_eq!(rt; write_bytes(&mut buffer, 0, b"end\n"), Ok(4));
    assert_eq!(rt; &buffer, b"end\n..");
    assert_eq!(rt; write_bytes(&mut buffer, 4, b"ab"), Ok(6));
    assert_eq!(rt; &buffer, b"end\nab");
}

#[test]
fn a_number_is_written_in_decimal(rt: HostRuntime) {
    let mut buffer = *b"......";
    assert_eq!(rt; write_number(&mut buffer, 1, 205), Ok(4));
    assert_eq!(rt; &buffer, b".205..");
    assert_eq!(rt; write_number(&mut buffer, 4, 0), Ok(5));
    assert_eq!(rt; &buffer, b".2050.");
    let mut longest = *b"....................";
    assert_eq!(rt; write_number(&mut longest, 0, u64::MAX), Ok(20));
    assert_eq!(rt; &longest, b"18446744073709551615");
}

#[test]
fn a_number_is_padded_to_a_width(rt: HostRuntime) {
    let mut buffer = *b"......";
    assert_eq!(rt; write_padded(&mut buffer, 1, 3, 7), Ok(4));
    assert_eq!(rt; &buffer, b".  7..");
    assert_eq!(rt; write_padded(&mut buffer, 0, 2, 2050), Ok(4));
    assert_eq!(rt; &buffer, b"2050..");
    assert_eq!(rt; write_padded(&mut buffer, 4, 0, 9), Ok(5));
    assert_eq!(rt; &buffer, b"20509.");
}

#[test]
fn a_buffer_one_byte_short_is_refused_and_left(rt: HostRuntime) {
    let mut buffer = *b"...";
    assert_eq!(rt;
        write_bytes(&mut buffer, 0, b"end\n"),
        Err(Refusal::ShortBuffer)
    );
    assert_eq!(rt;
        write_number(&mut buffer, 1, 205),
        Err(Refusal::ShortBuffer)
    );
    assert_eq!(rt;
        write_padded(&mut buffer, 1, 3, 7),
        Err(Refusal::ShortBuffer)
    );
    assert_eq!(rt;
        write_padded(&mut buffer, 0, 2, 2050),
        Err(Refusal::ShortBuffer)
    );
    assert_eq!(rt; &buffer, b"...");
}

#[test]
fn a_place_behind_the_end_is_refused(rt: HostRuntime) {
    let mut buffer = *b"...";
    assert_eq!(rt; write_bytes(&mut buffer, 3, b""), Ok(3));
    assert_eq!(rt;
        write_padded(&mut buffer, 3, 0, 7),
        Err(Refusal::ShortBuffer)
    );
    assert_eq!(rt; write_bytes(&mut buffer, 4, b""), Err(Refusal::ShortBuffer));
    assert_eq!(rt; write_number(&mut buffer, 4, 7), Err(Refusal::ShortBuffer));
    assert_eq!(rt; &buffer, b"...");
}

#[test]
fn no_sum_of_a_place_and_a_size_wraps(rt: HostRuntime) {
    let mut buffer = *b"...";
    let last = usize::MAX;
    assert_eq!(rt;
        write_bytes(&mut buffer, last, b"end\n"),
        Err(Refusal::ShortBuffer)
    );
    assert_eq!(rt;
        write_number(&mut buffer, last, 7),
        Err(Refusal::ShortBuffer)
    );
    assert_eq!(rt;
        write_padded(&mut buffer, 1, last, 7),
        Err(Refusal::ShortBuffer)
    );
    assert_eq!(rt;
        write_padded(&mut buffer, last, last, 7),
        Err(Refusal::ShortBuffer)
    );
    assert_eq!(rt; &buffer, b"...");
}
