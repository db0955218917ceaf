// Scenarios of sources that stand on no other.

use crate::flaw::Flaw;
use crate::form::{bytes, number32};
use crate::play::{Player, play, play_in_pages};
use sources::{Range, Records};

impl Player {
    /// `range A B`: the numbers from A to below B, of which a short line may ask for many.
    pub fn range<R: Print>(&mut self, rt: &R, start: &str, stop: &str) -> Result<(), Flaw> {
        let mut source = Range::new(number32(start)?, number32(stop)?);
        play_in_pages(rt, &mut source, &mut self.out)
    }

    /// `records HEX`: the blocks in record bytes.
    pub fn records(&mut self, digits: &str) -> Result<(), Flaw> {
        let bytes = bytes(self.alloc, digits)?;
        let mut source = Records::new(bytes.as_slice());
        play(&mut source, &mut self.out)
    }
}
