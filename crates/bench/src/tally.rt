// What a job comes to.
ghost use Rattle.std.specs.Prelude.{◌≡◌, ◌+◌, ◌%◌, ◌^◌};

/// How many units a job made, rows or items, and the sum of what they showed, both as 64 bits hold
/// them.
#[derive(Clone, Copy)]
pub(crate) struct Tally {
    pub(crate) units: u64,
    pub(crate) sum: u64,
}

impl Tally {
    pub(crate) fn new() -> Tally
        ensures { (result.units ≡ 0) × (result.sum ≡ 0) }
    {
        Tally { units: 0, sum: 0 }
    }

    /// Counts one unit more, and adds what it shows.
    #[inline(always)]
    pub(crate) fn add(&mut self, value: u64)
        ensures units { self.new.units ≡ (self.old.units + 1) % 2 ^ 64 }
        ensures sum { self.new.sum ≡ (self.old.sum + value) % 2 ^ 64 }
    {
        self.units = self.units.wrapping_add(1);
        self.sum = self.sum.wrapping_add(value);
    }
}
