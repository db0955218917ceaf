// The text of answers, each on a line of its own.
ghost use Rattle.std.specs.Prelude.{
  ◌≡◌,
  ℕ,
  List,
  ◌++◌,
  Some,
  true,
  string_bytes,
  decimal,
  MatchResult,
  refl,
  ◌==◌,
};
ghost use Rattle.std.specs.List.{list_all};
ghost use Rattle.replay.specs.declared.flaw.Flaw.TheVariants.{Memory};
ghost use Rattle.replay.specs.Lines.{
  item_line,
  pair_line,
  block_line,
  fault_line,
  refused_line,
  given_line,
  error_line,
  result_line,
  group_line,
  branch_line,
  tee_line,
  groups_line,
  store_line,
  listed_line,
  marked,
  rest_line,
  left_line,
  both_left_line,
  row_word,
  each,
  spaced,
  call_line,
};
ghost use Rattle.steps.specs.Refusals.{refusal_number};

use crate::flaw::Flaw;
use enumerators::Call;
use sources::Block;
use std::fmt;
use std::fmt::Write;
use steps::{Answer, CallError, Fault, Refusal};

// no `Display`, which cannot be written here for numbers, pairs and what other crates declare
/// What has a line of its own among the answers.
pub trait Show {
    ghost line: { Self → List ℕ };

    /// Writes the line behind the text so far.
    fn show(&self, out: &mut String) -> Result<(), Flaw>
        ensures unless_out_of_memory { MatchResult result
            (λ _. string_bytes out.new ≡ string_bytes out.old ++ line self.now)
            (λ flaw. flaw ≡ Memory) };
}

impl Show for u64 {
    ghost line = { item_line };

    fn show(&self, out: &mut String) -> Result<(), Flaw> {
        let item = *self;
        Ok(writeln!(out, "item {item}")?)
    }
}

impl Show for (u64, u64) {
    ghost line = { pair_line };

    fn show(&self, out: &mut String) -> Result<(), Flaw> {
        let (a, b) = *self;
        Ok(writeln!(out, "item {a} {b}")?)
    }
}

impl Show for Block {
    ghost line = { block_line };

    fn show(&self, out: &mut String) -> Result<(), Flaw> {
        let Block {
            bus,
            bay,
            start,
            end,
        } = *self;
        Ok(writeln!(out, "block {bus} {bay} {start} {end}")?)
    }
}

impl Show for Fault {
    ghost line = { fault_line };

    fn show(&self, out: &mut String) -> Result<(), Flaw> {
        let Fault {
            origin,
            cause,
            place,
        } = *self;
        Ok(writeln!(out, "fault {origin} {cause} {place}")?)
    }
}

impl Show for Refusal {
    ghost line = { λ r. refused_line (refusal_number r) };

    fn show(&self, out: &mut String) -> Result<(), Flaw> {
        let number = self.number();
        Ok(writeln!(out, "refused {number}")?)
    }
}

impl<T: Show> Show for Answer<T> {
    ghost line = { given_line T.line };

    fn show(&self, out: &mut String) -> Result<(), Flaw> {
        match self {
            Answer::Item(item) => item.show(out),
            Answer::End => Ok(out.push_str("end\n")?),
        }
    }
}

impl Show for CallError {
    ghost line = { error_line };

    fn show(&self, out: &mut String) -> Result<(), Flaw> {
        match self {
            CallError::Refused(refusal) => refusal.show(out),
            CallError::Broken(fault) => fault.show(out),
        }
    }
}

impl<T: Show, E: Show> Show for Result<T, E> {
    ghost line = { result_line T.line E.line };

    fn show(&self, out: &mut String) -> Result<(), Flaw> {
        match self {
            Ok(answer) => answer.show(out),
            Err(error) => error.show(out),
        }
    }
}

// The key of a group and its number.
impl Show for (u64, u32) {
    ghost line = { group_line };

    fn show(&self, out: &mut String) -> Result<(), Flaw> {
        let (key, number) = *self;
        Ok(writeln!(out, "group {key} {number}")?)
    }
}

// The number of the branch that a copy made.
#[derive(Clone, Copy)]
struct Branch(usize);

impl Show for Branch {
    ghost line = { λ b. branch_line b.0 };

    fn show(&self, out: &mut String) -> Result<(), Flaw> {
        let number = self.0;
        Ok(writeln!(out, "branch {number}")?)
    }
}

/// What the places of a store hold.
#[derive(Clone, Copy)]
pub struct Store<'a>(pub &'a [u64]);

impl Show for Store<'_> {
    ghost line = { λ s. store_line s.0.now };

    fn show(&self, out: &mut String) -> Result<(), Flaw> {
        let places = Spaced(self.0);
        Ok(writeln!(out, "store{places}")?)
    }
}

/// How many bytes a listing wrote.
#[derive(Clone, Copy)]
pub struct Listed(pub usize);

impl Show for Listed {
    ghost line = { λ l. listed_line l.0 };

    fn show(&self, out: &mut String) -> Result<(), Flaw> {
        let written = self.0;
        Ok(writeln!(out, "listed {written}")?)
    }
}

/// The text of a listing, each of its lines behind a mark. Each byte is taken as a character.
#[derive(Clone, Copy)]
pub struct Text<'a>(pub &'a [u8]);

impl Show for Text<'_> {
    ghost line = { λ t. marked true t.0.now };

    fn show(&self, out: &mut String) -> Result<(), Flaw> {
        let mut begins = true;
        for byte in self.0 {
            if begins {
                out.push_str("| ")?;
            }
            out.push(char::from(*byte))?;
            begins = *byte == b'\n';
        }
        Ok(())
    }
}

/// What a listing's buffer holds before it.
pub const BLANK: u8 = 42;

/// Whether what a listing did not write of its buffer is as it was.
#[derive(Clone, Copy)]
pub struct Rest<'a>(pub &'a [u8]);

impl Show for Rest<'_> {
    ghost line = { λ r. rest_line r.0.now };

    fn show(&self, out: &mut String) -> Result<(), Flaw> {
        let kept = is_blank(self.0);
        Ok(out.push_str(if kept {
            "rest kept\n"
        } else {
            "rest changed\n"
        })?)
    }
}

// Whether each byte is as it was before a listing.
fn is_blank(bytes: &[u8]) -> bool
    ensures { result ≡ list_all (λ byte. byte == 42) bytes.now }
{
    bytes.iter().all(|byte| *byte == BLANK)
}

/// How many steps the source below an adapter still has ahead.
#[derive(Clone, Copy)]
pub struct Left(pub usize);

impl Show for Left {
    ghost line = { λ l. left_line l.0 };

    fn show(&self, out: &mut String) -> Result<(), Flaw> {
        let left = self.0;
        Ok(writeln!(out, "left {left}")?)
    }
}

/// The same of the two sources below an adapter.
#[derive(Clone, Copy)]
pub struct BothLeft(pub usize, pub usize);

impl Show for BothLeft {
    ghost line = { λ l. both_left_line l.0 l.1 };

    fn show(&self, out: &mut String) -> Result<(), Flaw> {
        let first = self.0;
        let second = self.1;
        Ok(writeln!(out, "left {first} {second}")?)
    }
}

// The line of a call on an enumerator: its answer, and what both of its buffers hold.
impl Show for Call<u64> {
    ghost line = { call_line };

    fn show(&self, out: &mut String) -> Result<(), Flaw> {
        let answer = RowWord(self.answer);
        let places = Spaced(self.places.as_slice());
        let elements = Spaced(self.elements.as_slice());
        Ok(writeln!(out, "{answer} places{places} elements{elements}")?)
    }
}

// The line of a call on a tee: its answer.
impl Show for tee::Call<u64> {
    ghost line = { λ c. tee_line c.told };

    fn show(&self, out: &mut String) -> Result<(), Flaw> {
        match self.told {
            Some(tee::Told::Stepped(answer)) => answer.show(out),
            Some(tee::Told::Copied(Ok(number))) => Branch(number).show(out),
            Some(tee::Told::Copied(Err(refusal))) => refusal.show(out),
            None => Ok(()),
        }
    }
}

// The line of a call on groups: its answer.
impl Show for groups::Call<u64, u64> {
    ghost line = { λ c. groups_line c.told };

    fn show(&self, out: &mut String) -> Result<(), Flaw> {
        match self.told {
            Some(groups::Told::Opened(answer)) => answer.show(out),
            Some(groups::Told::Given(answer)) => answer.show(out),
            None => Ok(()),
        }
    }
}

/// The calls that were made, a line for each.
pub fn show_calls<C: Show>(calls: &[C], out: &mut String) -> Result<(), Flaw>
    ensures unless_out_of_memory { MatchResult result
        (λ _. string_bytes out.new ≡ string_bytes out.old ++ each C.line calls.now)
        (λ flaw. flaw ≡ Memory) }
{
    for call in calls {
        call.show(out)?;
    }
    Ok(())
}

// The word for an answer of an enumerator, and for a call that was not made none.
#[derive(Clone, Copy)]
struct RowWord(Option<Result<Answer<()>, Refusal>>);

impl fmt::Display for RowWord {
    ghost output = { λ w. Some (row_word w.0) };

    fn fmt<W: fmt::Write>(&self, f: &mut fmt::Formatter<W>) -> fmt::Result {
        match self.0 {
            Some(Ok(Answer::Item(()))) => f.write_str("row"),
            Some(Ok(Answer::End)) => f.write_str("end"),
            Some(Err(refusal)) => {
                let number = refusal.number();
                write!(f, "refused {number}")
            }
            None => Ok(()),
        }
    }
}

// What is printed as a number in decimal digits.
trait Number: fmt::Display {
    ghost value: { Self → ℕ };

    ghost digits: { (n : Self) → Self.Display.output n ≡ Some (decimal (value n)) };
}

impl Number for u16 {
    ghost value = { λ n. n };

    ghost digits = { λ n. refl };
}

impl Number for u64 {
    ghost value = { λ n. n };

    ghost digits = { λ n. refl };
}

// Numbers, each behind a space.
#[derive(Drop)]
struct Spaced<'a, T>(&'a [T]);

impl<T: Number> fmt::Display for Spaced<'_, T> {
    ghost output = { λ s. Some (each (λ n. spaced (T.value n)) s.0.now) };

    fn fmt<W: fmt::Write>(&self, f: &mut fmt::Formatter<W>) -> fmt::Result {
        for number in self.0 {
            write!(f, " {number}")?;
        }
        Ok(())
    }
}
