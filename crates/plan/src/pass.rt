ghost use Rattle.std.specs.Prelude.{◌≡◌, ◌↔◌, IsTrue};
ghost use Rattle.laws.specs.Items.{items as items_of};
ghost use Rattle.sources.specs.Records.{records_from};
ghost use Rattle.plan.specs.Pass.{may_follow as may_stand, NoTenMinutes, Passes};

use crate::seam::LONG_GAP;
use sources::{Block, Records};
use steps::{Answer, Source};

// Whether a block may stand behind the one before it in the plan.
fn may_follow(before: Option<Block>, next: Block) -> bool
    ensures { result ≡ may_stand before next }
{
    match before {
        None => true,
        Some(block) if next.bay != block.bay => block.bay < next.bay,
        Some(block) => block.end <= next.start && next.start - block.end < LONG_GAP,
    }
}

/// Whether a plan passes, from its record bytes: no record is faulty, bays rise, and in every bay
/// each block starts when the one before it has ended, in less than ten minutes. So from the start
/// of any block of a bay to the end of any block of it every ten minutes in a row meet a block of
/// that bay.
///
/// It wants no memory, and always has an answer: bus 7 at bay 2 from 06:00 to 06:10 and bus 12 from
/// 06:19 on pass, and from 06:20 on they do not.
pub fn passes(bytes: &[u8]) -> bool
    ensures verdict { IsTrue result ↔ Passes (records_from bytes.now 0) }
    ensures minutes { IsTrue result → NoTenMinutes (items_of (records_from bytes.now 0)) }
{
    let mut records = Records::new(bytes);
    let mut last = None;
    loop {
        match records.next() {
            Ok(Answer::Item(block)) => {
                if !may_follow(last, block) {
                    return false;
                }
                last = Some(block);
            }
            Ok(Answer::End) => return true,
            Err(_) => return false,
        }
    }
}
