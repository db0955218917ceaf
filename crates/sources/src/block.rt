ghost use Rattle.std.specs.Prelude.{◌≡◌, ◌+◌, ◌≤◌, IfSome};

/// A charging block of a plan: a bus at a bay from a minute of the day to a later one.
///
/// Bus 7 at bay 2 from 06:00 to 06:10 has the minutes 360 and 370. Any four numbers make a block;
/// `Records` gives those whose minutes are right.
#[derive(Clone, Copy, PartialEq, Eq, Debug)]
pub struct Block {
    /// The number of the bus.
    pub bus: u16,
    /// The number of the bay.
    pub bay: u16,
    /// The minute of the day that it starts at, from 0.
    pub start: u16,
    /// The minute of the day that it ends at, up to 1,440, which is midnight.
    pub end: u16,
}

// The last minute that a block may end at.
const DAY: u16 = 1440;

impl Block {
    ghost use Rattle.sources.specs.Block.{right_minutes, lasts_at_least, minutes_of, gap_until};

    /// Whether the end comes after the start and not after midnight: 360 to 370 does, 370 to 360
    /// does not.
    pub fn has_right_minutes(&self) -> bool
        ensures { result ≡ right_minutes self.now }
    {
        self.start < self.end && self.end <= DAY
    }

    /// Whether the end is at least the start and so many minutes: 360 to 370 lasts at least 10
    /// minutes, and not 11.
    pub fn lasts_at_least(&self, minutes: u16) -> bool
        ensures { result ≡ lasts_at_least self.now minutes }
    {
        u32::from(self.start) + u32::from(minutes) <= u32::from(self.end)
    }

    /// How long it lasts, in minutes: 10 from 360 to 370. It is 0 where the end is not after the
    /// start.
    pub fn minutes(&self) -> u16
        ensures answer { result ≡ minutes_of self.now }
        ensures law { self.now.start ≤ self.now.end → self.now.start + result ≡ self.now.end }
    {
        self.end.saturating_sub(self.start)
    }

    /// The minutes from its end to the start of a later block: 9 from a block that ends at 370 to
    /// one that starts at 379, and 0 where it starts at 370. `None` where the other starts before
    /// the end. Neither bay is looked at.
    pub fn minutes_until(&self, next: &Block) -> Option<u16>
        ensures answer { result ≡ gap_until self.now next.now }
        ensures law { IfSome result (λ n. self.now.end + n ≡ next.now.start) }
    {
        next.start.checked_sub(self.end)
    }
}
