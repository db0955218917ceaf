ghost use Rattle.std.specs.Prelude.{◌≡◌, ℕ, None, Some, IfOk, OnOk, nat_eq};
ghost use Rattle.std.specs.HashMap.{get};
ghost use Rattle.plan.specs.Bays.{after, beside, descent, laid_of, nothing_yet, one_further};

use crate::seam::{Joint, Seam};
use sources::Block;
use std::alloc::{AllocError, Global};
use std::collections::HashMap;

/// How a bay stands after some blocks of it.
#[derive(Clone, Copy)]
pub struct Standing {
    /// Its last block in the order of the plan.
    pub last: Block,
    /// The latest end of its blocks, in minutes of the day.
    pub until: u16,
}

/// What one more block is laid beside.
#[derive(Clone, Copy)]
pub struct Laid {
    /// The block before it in the plan, where that is at a higher bay.
    pub descent: Option<Joint>,
    /// The block before it of its bay, where there is one.
    pub pair: Option<Joint>,
}

/// How the bays of a plan stand after some of its blocks. It holds an entry for each bay and no
/// block more.
#[derive(Drop)]
pub struct Bays {
    /// The last block in the order of the plan.
    pub last: Option<Block>,
    /// How each bay stands of which there was a block, by its number.
    pub standings: HashMap<u16, Standing>,
}

impl Standing {
    // How the bay stands with one more block.
    fn after(before: Option<Standing>, block: Block) -> Standing
        ensures { result ≡ after before block }
    {
        match before {
            None => Standing {
                last: block,
                until: block.end,
            },
            Some(standing) => Standing {
                last: block,
                until: if standing.until < block.end {
                    block.end
                } else {
                    standing.until
                },
            },
        }
    }

    // The last block and the next one of the bay.
    fn beside(before: Option<Standing>, block: Block) -> Option<Joint>
        ensures { result ≡ beside before block }
    {
        let Standing { last, until } = before?;
        Some(Joint {
            first: last,
            second: block,
            until,
            seam: Seam::from(until, block),
        })
    }
}

// A block beside the one before it in the plan, where that is at a higher bay.
fn descent_from(before: Option<Block>, block: Block) -> Option<Joint>
    ensures { result ≡ descent before block }
{
    match before {
        Some(first) if block.bay < first.bay => Some(Joint {
            first,
            second: block,
            until: first.end,
            seam: Seam::BayOutOfOrder,
        }),
        _ => None,
    }
}

impl Bays {
    /// The bays before the first block of a plan.
    pub fn new(alloc: Global) -> Bays
        ensures first { result.last ≡ None }
        ensures empty { (bay : ℕ) → get nat_eq result.standings bay ≡ nothing_yet bay }
    {
        Bays {
            last: None,
            standings: HashMap::new(alloc),
        }
    }

    /// Lays one more block beside those before it: bus 12 at bay 2 from 06:19 makes a pair with bus
    /// 7 at bay 2 from 06:00 to 06:10. An error is want of memory alone.
    pub fn lay(&mut self, block: Block) -> Result<Laid, AllocError>
        ensures laid { IfOk result (λ l.
            l ≡ laid_of self.old.last (get nat_eq self.old.standings block.bay) block) }
        ensures last { OnOk result (self.new.last ≡ Some block) }
        ensures stands { OnOk result ((bay : ℕ) → get nat_eq self.new.standings bay
            ≡ one_further (get nat_eq self.old.standings) block bay) }
    {
        let before = self.standings.get(&block.bay).copied();
        self.standings
            .insert(block.bay, Standing::after(before, block))?;
        let descent = descent_from(self.last, block);
        self.last = Some(block);
        Ok(Laid {
            descent,
            pair: Standing::beside(before, block),
        })
    }
}
