ghost use Rattle.std.specs.Prelude.{◌≡◌, ◌↔◌, IsTrue, IfOk};
ghost use Rattle.sources.specs.Records.{records_from};
ghost use Rattle.plan.specs.Pass.{Passes};
ghost use Rattle.plan.specs.Account.{account_of, all_clear, nothing_counted, one_block, HasRoom};

use crate::bays::{Bays, Laid};
use sources::Records;
use std::alloc::{AllocError, Global};
use steps::{Answer, Source};

/// How often each thing was found in a plan: blocks, faulty records, pairs of neighbours in a bay,
/// overlaps, bays out of order, and gaps of ten minutes or more. Only `check` makes one.
#[derive(Clone, Copy, PartialEq, Eq, Debug)]
pub struct Account {
    // blocks, and faulty records
    pub(crate) blocks: usize,
    pub(crate) faults: usize,
    // neighbours in a bay, and those of them that overlap
    pub(crate) pairs: usize,
    pub(crate) overlaps: usize,
    // blocks at a lower bay than the block before them
    pub(crate) out_of_order: usize,
    // neighbours with a gap of ten minutes or more
    pub(crate) long_gaps: usize,
}

impl Account {
    fn new() -> Account
        ensures { result ≡ nothing_counted }
    {
        Account {
            blocks: 0,
            faults: 0,
            pairs: 0,
            overlaps: 0,
            out_of_order: 0,
            long_gaps: 0,
        }
    }

    // One more block, and what it was laid beside.
    fn with_block(self, laid: Laid) -> Account
        requires { HasRoom self }
        ensures { result ≡ one_block self laid }
    {
        let Laid { descent, pair } = laid;
        Account {
            blocks: self.blocks + 1,
            faults: self.faults,
            pairs: self.pairs + usize::from(pair.is_some()),
            overlaps: self.overlaps
                + usize::from(pair.is_some_and(|joint| joint.seam.is_overlap())),
            out_of_order: self.out_of_order + usize::from(descent.is_some()),
            long_gaps: self.long_gaps
                + usize::from(pair.is_some_and(|joint| joint.seam.is_long_gap())),
        }
    }

    /// Whether the plan passes: no record is faulty, no block overlaps the blocks before it in its
    /// bay, no bay is out of order and no gap is of ten minutes or more. A plan without a block and
    /// without a faulty record passes.
    pub fn passed(self) -> bool
        ensures { result ≡ all_clear self }
    {
        self.faults == 0 && self.overlaps == 0 && self.out_of_order == 0 && self.long_gaps == 0
    }
}

/// Counts what a plan holds, from its record bytes: blocks, faulty records, pairs of neighbours in
/// a bay, and what a plan fails for. Two neighbours of a bay are a pair whatever lies between them
/// in the plan.
///
/// Of bus 7 at bay 2 from 06:00 to 08:00 and bus 12 there from 06:30 to 07:00 it counts two blocks
/// and one pair, which overlaps, so that the plan does not pass. It wants memory for each bay, not
/// for each block; an error is want of memory alone.
pub fn check(alloc: Global, bytes: &[u8]) -> Result<Account, AllocError>
    ensures counts { IfOk result (λ a. a ≡ account_of (records_from bytes.now 0)) }
    ensures verdict { IfOk result (λ a. IsTrue (all_clear a) ↔ Passes (records_from bytes.now 0)) }
{
    let mut records = Records::new(bytes);
    let mut bays = Bays::new(alloc);
    let mut account = Account::new();
    loop {
        match records.next() {
            Ok(Answer::Item(block)) => account = account.with_block(bays.lay(block)?),
            Ok(Answer::End) => return Ok(account),
            Err(_) => account.faults += 1,
        }
    }
}
