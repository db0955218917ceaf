// Scenarios of listings: the text of the rows of a new enumerator, in a lent buffer.
ghost use Rattle.std.specs.Prelude.{◌≡◌, ◌≤◌};
ghost use Rattle.row_laws.specs.Listing.{least_buffer as least_buffer_of};

use crate::enumerator::{make_combinations, make_permutations, make_product, make_replacement};
use crate::flaw::Flaw;
use crate::form::optional;
use crate::play::Player;
use crate::show::{BLANK, Listed, Rest, Show, Text};
use enumerators::{Enumerator, MOST_LISTED, list};
use steps::Refusal;

// The bytes of the longest buffer that a scenario lends.
const LONGEST_BUFFER: u64 = 32_768;

impl Player {
    /// `listing MAKING ; SIZE`, with the making as an enumerator's scenario begins
    pub fn listing(&mut self, making: &[&str], size: &str) -> Result<(), Flaw> {
        let size = read_size(size)?;
        match making {
            ["product", repeat, pools] => self.list_rows(
                make_product(self.alloc, repeat, pools)?,
                size,
            ),
            ["combinations", n, r] => self.list_rows(make_combinations(n, r)?, size),
            ["replacement", n, r] => self.list_rows(make_replacement(n, r)?, size),
            ["permutations", n, r] => self.list_rows(make_permutations(n, r)?, size),
            _ => Err(Flaw::Form),
        }
    }

    // Lists what was made, and writes the text, and whether the rest of the buffer was kept.
    fn list_rows<E: Enumerator + Drop>(
        &mut self,
        made: Result<E, Refusal>,
        size: Option<usize>,
    ) -> Result<(), Flaw> {
        let enumerator = match made {
            Ok(enumerator) => enumerator,
            Err(refusal) => return refusal.show(&mut self.out),
        };
        let size = size.unwrap_or(least_buffer(enumerator.row_len()));
        let mut buffer = vec![in self.alloc; BLANK; size]?;
        let listed = list(enumerator, buffer.as_mut_slice());
        let (text, rest) = buffer.as_slice().split_at(listed.unwrap_or(0));
        listed.map(Listed).show(&mut self.out)?;
        Text(text).show(&mut self.out)?;
        Rest(rest).show(&mut self.out)
    }
}

// The bytes of the least buffer for rows of so many places.
fn least_buffer(width: usize) -> usize
    requires { width ≤ 64 }
    ensures { result ≡ least_buffer_of width }
{
    MOST_LISTED * (4 * width).max(1) + 5
}

// The bytes of a buffer, or `-` for as few as are not refused.
fn read_size(part: &str) -> Result<Option<usize>, Flaw> {
    match optional(part, "-")? {
        None => Ok(None),
        Some(size @ ..=LONGEST_BUFFER) => Ok(Some(size as usize)),
        Some(_) => Err(Flaw::Form),
    }
}
