use plan::{Unreported, check as check_plan, passes, report, report_from, verdict};
use std::alloc::Global;
use std::io;
use std::io::{Read, Write};
use std::test::Fail;

// The verdict on a plan of these records, each four numbers: bus, bay, start, end.
fn verdict_on(alloc: Global, bytes: &[u8]) -> Result<String, Fail> {
    let account = check_plan(alloc, bytes)?;
    Ok(verdict(alloc, account)?)
}

fn add_block(bytes: &mut Vec<u8>, bay: u16, start: u16, end: u16) -> Result<(), Fail> {
    bytes.extend_from_slice(&[8, 0, 0x10, 0, 7, 0])?;
    bytes.extend_from_slice(&bay.to_le_bytes())?;
    bytes.extend_from_slice(&start.to_le_bytes())?;
    bytes.extend_from_slice(&end.to_le_bytes())?;
    Ok(())
}

// The verdict on two blocks.
fn verdict_on_two(
    alloc: Global,
    first: (u16, u16, u16),
    second: (u16, u16, u16),
) -> Result<String, Fail> {
    let mut bytes = Vec::new(alloc);
    add_block(&mut bytes, first.0, first.1, first.2)?;
    add_block(&mut bytes, second.0, second.1, second.2)?;
    verdict_on(alloc, bytes.as_slice())
}

#[test]
fn plans_of_two_blocks(rt: HostRuntime) -> Result<(), Fail> {
    let alloc = rt.alloc();
    assert_eq!(rt;
        verdict_on_two(alloc, (2, 360, 370), (2, 370, 400))?.as_str(),
        "plan passed"
    );
    assert_eq!(rt;
        verdict_on_two(alloc, (2, 360, 370), (2, 379, 400))?.as_str(),
        "plan passed"
    );
    assert_eq!(rt;
        verdict_on_two(alloc, (2, 360, 370), (2, 380, 400))?.as_str(),
        "plan failed: gaps of ten minutes or more 1"
    );
    assert_eq!(rt;
        verdict_on_two(alloc, (2, 360, 370), (2, 369, 400))?.as_str(),
        "plan failed: overlaps 1"
    );
    assert_eq!(rt;
        verdict_on_two(alloc, (2, 360, 370), (1, 380, 400))?.as_str(),
        "plan failed: bays out of order 1"
    );
    assert_eq!(rt;
        verdict_on_two(alloc, (2, 360, 370), (3, 100, 200))?.as_str(),
        "plan passed"
    );
    assert_eq!(rt;
        verdict_on_two(alloc, (2, 360, 370), (2, 400, 400))?.as_str(),
        "plan failed: faulty records 1"
    );
    Ok(())
}

#[test]
fn plans_of_few_bytes(rt: HostRuntime) -> Result<(), Fail> {
    let alloc = rt.alloc();
    assert_eq!(rt; verdict_on(alloc, &[])?.as_str(), "plan passed");
    assert_eq!(rt;
        verdict_on(alloc, &[8, 0, 0x10])?.as_str(),
        "plan failed: faulty records 1"
    );
    assert_eq!(rt;
        verdict_on(alloc, &[0, 0, 9, 9, 1])?.as_str(),
        "plan failed: faulty records 2"
    );
    Ok(())
}

// Blocks of bay 2 with one of bay 3 and a faulty record between them, the second within the first.
const FAILING: &str = "plan: a.plan, 76 bytes
blocks: 6
  bay     2  bus     7  06:00-08:00
  bay     3  bus     7  01:40-03:20
  bay     2  bus     7  06:30-07:00
  bay     2  bus     7  08:12-09:00
  bay     2  bus     7  09:05-10:00
  bay     1  bus     7  01:40-03:20
faulty records: 1
  byte      24  cause 3: another kind of record
neighbours
  bay     3  is followed by bay 2: out of order
  bay     2  bus     7  06:00-08:00  then bus     7  06:30-07:00  starts 90 min too early
  bay     2  bus     7  06:30-07:00  then bus     7  08:12-09:00    12 min unassigned (bay taken until 08:00)
  bay     2  bus     7  08:12-09:00  then bus     7  09:05-10:00     5 min unassigned
  bay     2  is followed by bay 1: out of order
pairs: 3
plan failed: faulty records 1, overlaps 1, bays out of order 2, gaps of ten minutes or more 1
";

fn failing_plan(alloc: Global) -> Result<Vec<u8>, Fail> {
    let mut bytes = Vec::new(alloc);
    add_block(&mut bytes, 2, 360, 480)?;
    add_block(&mut bytes, 3, 100, 200)?;
    bytes.extend_from_slice(&[0, 0, 0x11, 0])?;
    add_block(&mut bytes, 2, 390, 420)?;
    add_block(&mut bytes, 2, 492, 540)?;
    add_block(&mut bytes, 2, 545, 600)?;
    add_block(&mut bytes, 1, 100, 200)?;
    Ok(bytes)
}

// Two blocks of bay 2 with a faulty record between them, the second too early, and one of bay 1.
const OVERLAPPING: &str = "plan: b.plan, 40 bytes
blocks: 3
  bay     2  bus     7  06:00-06:10
  bay     2  bus     7  06:09-06:40
  bay     1  bus     7  01:40-03:20
faulty records: 1
  byte      12  cause 3: another kind of record
neighbours
  bay     2  bus     7  06:00-06:10  then bus     7  06:09-06:40  starts 1 min too early
  bay     2  is followed by bay 1: out of order
pairs: 1
plan failed: faulty records 1, overlaps 1, bays out of order 1
";

fn overlapping_plan(alloc: Global) -> Result<Vec<u8>, Fail> {
    let mut bytes = Vec::new(alloc);
    add_block(&mut bytes, 2, 360, 370)?;
    bytes.extend_from_slice(&[0, 0, 0x11, 0])?;
    add_block(&mut bytes, 2, 369, 400)?;
    add_block(&mut bytes, 1, 100, 200)?;
    Ok(bytes)
}

#[test]
fn a_failing_plan_is_told_in_full(rt: HostRuntime) -> Result<(), Fail> {
    let alloc = rt.alloc();
    let bytes = failing_plan(alloc)?;
    let mut out = Vec::new(alloc);
    let account = report(alloc, &mut out, "a.plan", bytes.as_slice())?;
    assert_eq!(rt; out.as_slice(), FAILING.as_bytes());
    assert_eq!(rt; account.passed(), false);
    let bytes = overlapping_plan(alloc)?;
    let mut out = Vec::new(alloc);
    let account = report(alloc, &mut out, "b.plan", bytes.as_slice())?;
    assert_eq!(rt; out.as_slice(), OVERLAPPING.as_bytes());
    assert_eq!(rt; account.passed(), false);
    Ok(())
}

const EMPTY: &str = "plan: empty.plan, 0 bytes
no blocks
faulty records: 0
neighbours
pairs: 0
plan passed
";

#[test]
fn a_plan_without_blocks_is_told_so(rt: HostRuntime) -> Result<(), Fail> {
    let alloc = rt.alloc();
    let mut out = Vec::new(alloc);
    let account = report(alloc, &mut out, "empty.plan", &[])?;
    assert_eq!(rt; out.as_slice(), EMPTY.as_bytes());
    assert_eq!(rt; account.passed(), true);
    Ok(())
}

#[test]
fn whether_a_plan_passes_wants_no_memory(rt: HostRuntime) -> Result<(), Fail> {
    let alloc = rt.alloc();
    let mut bytes = Vec::new(alloc);
    assert_eq!(rt; passes(bytes.as_slice()), true);
    add_block(&mut bytes, 2, 360, 370)?;
    add_block(&mut bytes, 2, 379, 400)?;
    assert_eq!(rt; passes(bytes.as_slice()), true);
    add_block(&mut bytes, 2, 410, 420)?;
    assert_eq!(rt; passes(bytes.as_slice()), false);
    assert_eq!(rt; passes(&[8, 0, 0x10]), false);
    Ok(())
}

// A reader that fails after four bytes, and a writer that takes so many bytes and no more.
#[derive(Drop)]
struct Failing {
    given: bool,
}

impl Read for Failing {
    fn read(&mut self, buf: &mut [u8]) -> io::Result<usize> {
        if self.given || buf.len() < 4 {
            return Err(io::Error::from(io::ErrorKind::ConnectionReset));
        }
        self.given = true;
        Ok(4)
    }
}

#[derive(Drop)]
struct Narrow {
    room: usize,
}

impl Write for Narrow {
    fn write(&mut self, buf: &[u8]) -> io::Result<usize> {
        if self.room == 0 {
            return Err(io::Error::from(io::ErrorKind::BrokenPipe));
        }
        let size = buf.len().min(self.room);
        self.room -= size;
        Ok(size)
    }

    fn flush(&mut self) -> io::Result<()> {
        Ok(())
    }
}

#[test]
fn a_plan_is_read_to_its_end_and_reported(rt: HostRuntime) -> Result<(), Fail> {
    let alloc = rt.alloc();
    let bytes = failing_plan(alloc)?;
    let mut out = Vec::new(alloc);
    let told = report_from(alloc, &mut out, "a.plan", &mut bytes.as_slice());
    assert_eq!(rt; matches!(told, Ok(account) if !account.passed()), true);
    assert_eq!(rt; out.as_slice(), FAILING.as_bytes());
    Ok(())
}

#[test]
fn a_reader_or_writer_that_fails_is_told(rt: HostRuntime) -> Result<(), Fail> {
    let alloc = rt.alloc();
    let mut out = Vec::new(alloc);
    let told = report_from(alloc, &mut out, "a.plan", &mut Failing { given: false });
    assert_eq!(rt; matches!(told, Err(Unreported::Unread(_))), true);
    assert_eq!(rt; out.is_empty(), true);
    let bytes = failing_plan(alloc)?;
    for room in 0..FAILING.len() {
        let told = report_from(alloc, &mut Narrow { room }, "a.plan", &mut bytes.as_slice());
        assert_eq!(rt; matches!(told, Err(Unreported::Unwritten(_))), true);
    }
    Ok(())
}
