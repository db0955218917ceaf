// The calls of a scenario on a source.
ghost use Rattle.std.specs.Prelude.{◌≡◌, ◌++◌, MatchResult, string_bytes};
ghost use Rattle.replay.specs.declared.flaw.Flaw.TheVariants.{Memory};
ghost use Rattle.replay.specs.Lines.{says_end, answer_line, transcript};
ghost use Rattle.steps.specs.Steps.{first, rest};

use crate::flaw::Flaw;
use crate::show::Show;
use std::alloc::Global;
use steps::{Answer, Source};

// How often a source is to say end before it is left.
const ENDS: u8 = 3;

// How many bytes of text are kept before they are printed, where there may be many more.
const PAGE: usize = 4096;

/// What a scenario is played with.
#[derive(Drop)]
pub struct Player {
    /// For what is read of the scenario.
    pub alloc: Global,
    /// The text of the answers so far.
    pub out: String,
}

// Makes one call, writes its answer, and tells whether that was the end.
fn call<S: Source>(source: &mut S, out: &mut String) -> Result<bool, Flaw>
where
    S::Item: Show + Drop,
    ensures unless_out_of_memory { MatchResult result
        (λ ended. (ended ≡ says_end (first (S.Source.ahead source.old)))
        × (string_bytes out.new ≡ string_bytes out.old
        ++ answer_line S.Item.Show.line (first (S.Source.ahead source.old))))
        (λ flaw. flaw ≡ Memory) }
    ensures leaves { S.Source.ahead source.new ≡ rest (S.Source.ahead source.old) }
{
    match source.next() {
        Ok(Answer::Item(item)) => item.show(out)?,
        Ok(Answer::End) => {
            out.push_str("end\n")?;
            return Ok(true);
        }
        Err(fault) => fault.show(out)?,
    }
    Ok(false)
}

/// Calls a source until it has said end three times in all, and writes every answer: a line for
/// each step that it has ahead, and then the ends.
pub fn play<S: Source>(source: &mut S, out: &mut String) -> Result<(), Flaw>
where
    S::Item: Show + Drop,
    ensures unless_out_of_memory { MatchResult result
        (λ _. string_bytes out.new
        ≡ string_bytes out.old ++ transcript S.Item.Show.line 3 (S.Source.ahead source.old))
        (λ flaw. flaw ≡ Memory) }
{
    for _ in 0..ENDS {
        while !call(source, out)? {}
    }
    Ok(())
}

// a loop of its own, since what is printed is in no contract and `play` says the whole text
/// The same where the text may be too long to be kept: it is printed a page at a time, and `out`
/// has the last one.
pub fn play_in_pages<S: Source, R: Print>(
    rt: &R,
    source: &mut S,
    out: &mut String,
) -> Result<(), Flaw>
where
    S::Item: Show + Drop,
{
    for _ in 0..ENDS {
        while !call(source, out)? {
            if out.len() >= PAGE {
                rt.print(out.as_str())?;
                out.clear();
            }
        }
    }
    Ok(())
}
