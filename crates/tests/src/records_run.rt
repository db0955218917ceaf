use sources::{Block, Records};
use steps::{Answer, Fault, Source};

// Bus 7 at bay 2, 06:00 to 06:10.
const BLOCK: [u8; 12] = [8, 0, 0x10, 0, 7, 0, 2, 0, 0x68, 1, 0x72, 1];

fn broken(cause: u16, place: u64) -> Result<Answer<Block>, Fault> {
    Err(Fault {
        origin: Fault::SOURCE,
        cause,
        place,
    })
}

// A block with other minutes.
fn with_minutes(start: u16, end: u16) -> [u8; 12] {
    let [s0, s1] = start.to_le_bytes();
    let [e0, e1] = end.to_le_bytes();
    [8, 0, 0x10, 0, 7, 0, 2, 0, s0, s1, e0, e1]
}

fn first(bytes: &[u8]) -> Result<Answer<Block>, Fault> {
    Records::new(bytes).next()
}

#[test]
fn one_block_is_read(rt: HostRuntime) {
    let mut records = Records::new(&BLOCK);
    let block = Block {
        bus: 7,
        bay: 2,
        start: 360,
        end: 370,
    };
    assert_eq!(rt; records.next(), Ok(Answer::Item(block)));
    assert_eq!(rt; records.next(), Ok(Answer::End));
    assert_eq!(rt; records.next(), Ok(Answer::End));
}

#[test]
fn a_record_cut_at_each_byte(rt: HostRuntime) {
    assert_eq!(rt; first(&BLOCK[0..0]), Ok(Answer::End));
    for end in 1..4usize {
        assert_eq!(rt; first(&BLOCK[0..end]), broken(1, 0));
    }
    for end in 4..12usize {
        let mut records = Records::new(&BLOCK[0..end]);
        assert_eq!(rt; records.next(), broken(2, 0));
        assert_eq!(rt; records.next(), Ok(Answer::End));
    }
}

#[test]
fn minutes_at_each_edge(rt: HostRuntime) {
    assert_eq!(rt; first(&with_minutes(0, 0)), broken(5, 0));
    assert!(rt; first(&with_minutes(0, 1)).is_ok());
    assert_eq!(rt; first(&with_minutes(360, 360)), broken(5, 0));
    assert_eq!(rt; first(&with_minutes(361, 360)), broken(5, 0));
    assert!(rt; first(&with_minutes(1439, 1440)).is_ok());
    assert_eq!(rt; first(&with_minutes(1439, 1441)), broken(5, 0));
    assert_eq!(rt; first(&with_minutes(0, 65535)), broken(5, 0));
}

#[test]
fn reading_goes_on_after_a_bad_record(rt: HostRuntime) {
    // another kind, another length, and a block that starts at byte 9
    let bytes = [
        0, 0, 0x11, 0, 1, 0, 0x10, 0, 99, 8, 0, 0x10, 0, 7, 0, 2, 0, 0x68, 1, 0x72, 1, 8, 0,
    ];
    let mut records = Records::new(&bytes);
    assert_eq!(rt; records.next(), broken(3, 0));
    assert_eq!(rt; records.next(), broken(4, 4));
    assert!(rt; records.next().is_ok());
    assert_eq!(rt; records.next(), broken(1, 21));
    assert_eq!(rt; records.next(), Ok(Answer::End));
}
