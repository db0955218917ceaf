// A line of input, and the text that answers it.
ghost use Rattle.std.specs.Prelude.{◌≡◌};
ghost use Rattle.replay.specs.Forms.{silent};

use crate::flaw::Flaw;
use crate::form::{parts, words};
use crate::play::Player;
use std::alloc::{AllocError, Global};
use std::io;

/// Whether a line is no scenario, but empty or a comment.
pub fn is_silent(line: &[u8]) -> bool
    ensures { result ≡ silent line.now }
{
    matches!(line, [] | [b'#', ..])
}

/// Prints the answers to a scenario and the line that closes them.
pub fn replay<R: Print>(rt: &R, alloc: Global, line: &[u8]) -> io::Result<()> {
    let mut player = Player {
        alloc,
        out: String::new(alloc),
    };
    match player.play_line(rt, line) {
        Ok(()) => {}
        Err(Flaw::Form) => {
            player.out.clear();
            player.out.push_str("bad scenario\n")?;
        }
        Err(Flaw::Memory) => return Err(AllocError.into()),
        Err(Flaw::Output(error)) => return Err(error),
    }
    player.out.push_str(".\n")?;
    rt.print(player.out.as_str())
}

impl Player {
    fn play_line<R: Print>(&mut self, rt: &R, line: &[u8]) -> Result<(), Flaw> {
        let Ok(text) = std::str::from_utf8(line) else {
            return Err(Flaw::Form);
        };
        let parts = parts(self.alloc, text)?;
        let [head, steps @ ..] = parts.as_slice() else {
            return Err(Flaw::Form);
        };
        let words = words(self.alloc, head)?;
        self.play_parts(rt, words.as_slice(), steps)
    }

    // One arm for each form: the words of the first part, and the parts behind it.
    fn play_parts<R: Print>(&mut self, rt: &R, head: &[&str], parts: &[&str]) -> Result<(), Flaw> {
        match (head, parts) {
            (["range", start, stop], []) => self.range(rt, start, stop),
            (["records", digits], []) => self.records(digits),
            (["takewhile", rule], [steps]) => self.takewhile(rule, steps),
            (["dropwhile", rule], [steps]) => self.dropwhile(rule, steps),
            (["chain"], [first, second]) => self.chain(first, second),
            (["islice", entries], [steps]) => self.islice(entries, steps),
            (["compress", rule], [items, selectors]) => self.compress(rule, items, selectors),
            (["accumulate", joining, initial], [steps]) => self.accumulate(joining, initial, steps),
            (["pairwise"], [steps]) => self.pairwise(steps),
            (["zip_longest", left_fill, right_fill], [left, right]) => {
                self.zip_longest(left_fill, right_fill, left, right)
            }
            _ => self.play_calls(head, parts),
        }
    }

    // The forms of enumerators, tees and groups, whose last part is a list of calls; and listings.
    fn play_calls(&mut self, head: &[&str], parts: &[&str]) -> Result<(), Flaw> {
        match (head, parts) {
            (["product", repeat, pools], [calls]) => self.product(repeat, pools, calls),
            (["combinations", n, r], [calls]) => self.combinations(n, r, calls),
            (["replacement", n, r], [calls]) => self.replacement(n, r, calls),
            (["permutations", n, r], [calls]) => self.permutations(n, r, calls),
            (["tee", branches, store], [steps, calls]) => self.tee(branches, store, steps, calls),
            (["groupby", key], [steps, calls]) => self.groupby(key, steps, calls),
            (["listing", making @ ..], [size]) => self.listing(making, size),
            _ => Err(Flaw::Form),
        }
    }
}
