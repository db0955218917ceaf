// All eight adapters in one stack over records: a fault of the records comes up with its three
// numbers, and what is given around it is what the rules say.

ghost use Rattle.std.specs.Prelude.{Ok};
ghost use Rattle.std.proofs.Common.{rules};

use adapters::{Accumulate, Chain, Compress, DropWhile, Islice, Pairwise, TakeWhile, ZipLongest};
use rules::{Below, LastsAtLeast};
use sources::{Block, List, Records};
use std::alloc::Global;
use std::test::Fail;
use steps::{Fault, Joining, collect};

// Two neighbours, with a number beside them.
type Row = ((Block, Block), u64);

// Joins two rows to the later one.
#[derive(Clone, Copy)]
struct Later;

impl Joining<Row> for Later {
    ghost joins = { λ _ a b. Ok b };

    ghost origin = { Prim.search rules };

    fn join(&self, _total: Row, item: Row) -> Result<Row, Fault> {
        Ok(item)
    }
}

// A block of bay 2 that begins at this minute of the first four hours and lasts so many.
fn record(bus: u8, start: u8, minutes: u8) -> [u8; 12] {
    [
        8,
        0,
        0x10,
        0,
        bus,
        0,
        2,
        0,
        start,
        0,
        start.saturating_add(minutes),
        0,
    ]
}

fn block(bus: u16, start: u16, minutes: u16) -> Block {
    Block {
        bus,
        bay: 2,
        start,
        end: start.saturating_add(minutes),
    }
}

// A long block, three others, one that is too short to be taken, and one behind it.
fn plan() -> [[u8; 12]; 6] {
    [
        record(1, 0, 35),
        record(2, 40, 20),
        record(3, 70, 30),
        record(4, 110, 10),
        record(5, 125, 3),
        record(6, 130, 30),
    ]
}

// What the stack gives over these bytes: behind the long blocks in front, the blocks before the
// first short one, each with the one before it and a number beside them; and then one row more.
fn run(alloc: Global, bytes: &[u8]) -> Result<Vec<Result<Row, Fault>>, Fail> {
    let end = [((block(9, 0, 9), block(9, 9, 9)), 9)];
    let selectors = [0, 0, 0, 0, 0, 0];
    let numbers = [1, 2, 3];
    let lasting = DropWhile::new(LastsAtLeast { minutes: 30 }, Records::new(bytes));
    let taken = TakeWhile::new(LastsAtLeast { minutes: 5 }, lasting);
    let Ok(some) = Islice::new(taken, &[Some(0), Some(9), Some(1)]) else {
        return Err(Fail::new("refused"));
    };
    let kept = Compress::new(some, List::new(&selectors), Below { limit: 1 });
    let pairs = Pairwise::new(kept);
    let none = (block(0, 0, 1), block(0, 0, 1));
    let wide = ZipLongest::new(pairs, List::new(&numbers), none, 0);
    let totals = Accumulate::new(wide, Later, None);
    let mut stack = Chain::new(totals, List::new(&end));
    Ok(collect(alloc, &mut stack)?)
}

fn bytes_of(alloc: Global, records: &[[u8; 12]]) -> Result<Vec<u8>, Fail> {
    let mut bytes = Vec::new(alloc);
    for one in records {
        bytes.extend_from_slice(one)?;
    }
    Ok(bytes)
}

#[test]
fn a_stack_of_eight_over_records(rt: HostRuntime) -> Result<(), Fail> {
    let alloc = rt.alloc();
    let bytes = bytes_of(alloc, &plan())?;
    let rows = run(alloc, bytes.as_slice())?;
    let first = ((block(2, 40, 20), block(3, 70, 30)), 1);
    let second = ((block(3, 70, 30), block(4, 110, 10)), 2);
    let third = ((block(0, 0, 1), block(0, 0, 1)), 3);
    let last = ((block(9, 0, 9), block(9, 9, 9)), 9);
    assert_eq!(rt;
        rows.as_slice(),
        [Ok(first), Ok(second), Ok(third), Ok(last)].as_slice()
    );
    Ok(())
}

#[test]
fn a_fault_comes_up_through_eight(rt: HostRuntime) -> Result<(), Fail> {
    let alloc = rt.alloc();
    let mut records = plan();
    records[3] = record(4, 110, 0);
    let bytes = bytes_of(alloc, &records)?;
    let rows = run(alloc, bytes.as_slice())?;
    let fault = Fault {
        origin: Fault::SOURCE,
        cause: 5,
        place: 36,
    };
    let first = ((block(2, 40, 20), block(3, 70, 30)), 1);
    assert_eq!(rt; rows.as_slice(), [Ok(first), Err(fault)].as_slice());
    Ok(())
}
