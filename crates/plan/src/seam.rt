ghost use Rattle.std.specs.Prelude.{◌≡◌};
ghost use Rattle.plan.specs.Seam.{seam_from, is_overlap as overlaps, is_long_gap as gapes};

use sources::Block;

/// The least minutes without a block that a plan may not have between two blocks of a bay.
pub const LONG_GAP: u16 = 10;

/// How a block lies beside the one that it is laid beside, in whole minutes.
#[derive(Clone, Copy, PartialEq, Eq, Debug)]
pub enum Seam {
    /// It is at a lower bay than the block before it in the plan.
    BayOutOfOrder,
    /// It starts so many minutes, at least one, before the latest end so far in its bay.
    Overlap(u16),
    /// So many minutes from that end to its start are unassigned; 0 where it starts at that end.
    Gap(u16),
}

/// Two blocks that were laid side by side: two of a bay, or a block and the one before it in the
/// plan at a higher bay.
#[derive(Clone, Copy, PartialEq, Eq, Debug)]
pub struct Joint {
    /// The one that stands first in the plan.
    pub first: Block,
    /// The one that is laid beside it.
    pub second: Block,
    /// The minute of the day until which the bay of the first is taken: the latest end of its
    /// blocks so far. Where bays are out of order, the end of the first.
    pub until: u16,
    /// How the second lies.
    pub seam: Seam,
}

impl Seam {
    /// How a block lies in a bay that is taken until a minute of the day: one from minute 365 in a
    /// bay taken until 360 leaves a gap of 5, in one taken until 370 it overlaps by 5.
    pub fn from(until: u16, block: Block) -> Seam
        ensures { result ≡ seam_from until block }
    {
        if block.start < until {
            Seam::Overlap(until - block.start)
        } else {
            Seam::Gap(block.start - until)
        }
    }

    /// Whether the block starts too early.
    pub fn is_overlap(self) -> bool
        ensures { result ≡ overlaps self }
    {
        matches!(self, Seam::Overlap(_))
    }

    /// Whether it is a gap that a plan may not have: of ten minutes or more.
    pub fn is_long_gap(self) -> bool
        ensures { result ≡ gapes self }
    {
        matches!(self, Seam::Gap(minutes) if minutes >= LONG_GAP)
    }
}
