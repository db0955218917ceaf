ghost use Rattle.std.specs.Prelude.{◌≡◌, [], ◌++◌, map, IfOk, MatchResult};
ghost use Rattle.steps.specs.Steps.{first as first_answer, rest as rest_of};
ghost use Rattle.steps.specs.Refusals.{refusal_number};
ghost use Rattle.steps.specs.Below.{Drew, Ran, fault_of};
ghost use Rattle.laws.specs.Items.{first_fault, faults, items as items_of};
ghost use Rattle.laws.specs.Run.{Follows};
ghost use Rattle.laws.specs.Islice.{
  Bounds as TheBounds,
  Consumed,
  small,
  checked,
  bounds,
  reached,
  until,
  slices,
  sliced,
  SliceMade,
};
ghost use Rattle.adapters.specs.Islice.{
  bounds_of,
  islice_source,
  islice_drawn,
  islice_number,
  islice_stop,
  islice_step,
  islice_ahead,
  islice_after,
  islice_run,
  islice_end,
};

use crate::finish::keep_first;
use steps::{Answer, Fault, MakingError, Refusal, Source};

/// The largest number that an argument of islice may be.
pub const MAXSIZE: u64 = 9_223_372_036_854_775_807;

/// Gives the items at start, start + step and so on below stop, counted from 0: of `0 1 2 3 4`,
/// start 1, stop 4 and step 2 give `1 3`.
///
/// A fault on the way is answered as it is, and not counted. When item number n is given, n + 1
/// items are drawn; by the end they are the larger of start and stop.
#[derive(Drop)]
pub struct Islice<S> {
    source: S,
    // how many items were drawn, as long as there is a next one to give, and else 0
    cur: u64,
    // the number of the next item to give, unless it passes 64 bits
    next: Option<u64>,
    // how many items are drawn by the end
    stop: Option<u64>,
    step: u64,
}

// What the arguments say: where to start, where to stop, and by how much to step.
#[derive(Clone, Copy)]
struct Bounds {
    start: u64,
    stop: Option<u64>,
    step: u64,
}

// An argument that is there may not pass the limit.
fn is_small(entry: Option<u64>) -> bool
    ensures { result ≡ small entry }
{
    entry.is_none_or(|number| number <= MAXSIZE)
}

// The arguments are stop; start and stop; or start, stop and step. An absent one is start 0, no
// stop, step 1.
fn read_bounds(arguments: &[Option<u64>]) -> Option<Bounds>
    ensures { bounds_of result ≡ bounds arguments.now }
{
    match arguments {
        [stop] => check_bounds(None, *stop, None),
        [start, stop] => check_bounds(*start, *stop, None),
        [start, stop, step] => check_bounds(*start, *stop, *step),
        _ => None,
    }
}

fn check_bounds(start: Option<u64>, stop: Option<u64>, step: Option<u64>) -> Option<Bounds>
    ensures { bounds_of result ≡ checked start stop step }
{
    let start_at = start.unwrap_or(0);
    let step_by = step.unwrap_or(1);
    if !is_small(start) || !is_small(stop) || !is_small(step) || step_by == 0 {
        return None;
    }
    Some(Bounds {
        start: start_at,
        stop,
        step: step_by,
    })
}

// Whether as many items were drawn as there are to draw.
fn is_reached(stop: Option<u64>, cur: u64) -> bool
    ensures { result ≡ reached stop cur }
{
    stop.is_some_and(|stop| stop <= cur)
}

// How many items are drawn by the end: up to the stop, and those before the start in any case.
fn drawn_until(start: u64, stop: Option<u64>) -> Option<u64>
    ensures { result ≡ until start stop }
{
    stop.map(|stop| stop.max(start))
}

impl<S: Source> Islice<S> {
    /// Takes over a source, and draws nothing. Arguments that are not one to three entries, a step
    /// of 0 and a number above MAXSIZE are refused (5), and the source is handed back.
    #[tactic(auto, using(laws::proofs::Islice::faults_kept, laws::proofs::Islice::items_kept))]
    pub fn new(source: S, arguments: &[Option<u64>]) -> Result<Self, MakingError<S>>
        ensures made { MatchResult result
            (λ s. (islice_source s ≡ source) × SliceMade arguments.now (S.Source.ahead source)
            (islice_drawn s) (islice_number s) (islice_stop s) (islice_step s))
            (λ e. (bounds arguments.now ≡ None) × (refusal_number e.refusal ≡ 5)
            × (e.source ≡ source)) }
        ensures faults_given { IfOk result (λ s. faults (islice_ahead S.Source.ahead s)
            ++ faults (islice_end S.Source.ahead s) ≡ faults (S.Source.ahead source)) }
        ensures items_given { IfOk result (λ s. items_of (islice_ahead S.Source.ahead s)
            ≡ items_of (slices (islice_stop s) (islice_step s) (islice_number s) (islice_drawn s)
            (map Ok (items_of (S.Source.ahead source))))) }
    {
        let Some(bounds) = read_bounds(arguments) else {
            return Err(MakingError {
                refusal: Refusal::SliceArguments,
                source,
            });
        };
        let stop = drawn_until(bounds.start, bounds.stop);
        Ok(Islice {
            source,
            cur: 0,
            next: Some(bounds.start),
            stop,
            step: bounds.step,
        })
    }
}

impl<S: Source> Source for Islice<S>
where
    S::Item: Drop,
{
    type Item = S::Item;

    ghost ahead = { λ s. islice_ahead S.Source.ahead s };

    ghost loans = { λ s. S.Source.loans (islice_source s) };

    ghost bottom = { λ s. S.Source.bottom (islice_source s) };

    #[tactic(auto, using(laws::proofs::Islice::slice_call))]
    fn next(&mut self) -> Result<Answer<S::Item>, Fault>
        ensures gives { result ≡ first_answer (⟦<Islice<S> as Source>⟧.ahead self.old) }
        ensures leaves { ⟦<Islice<S> as Source>⟧.ahead self.new
            ≡ rest_of (⟦<Islice<S> as Source>⟧.ahead self.old) }
        ensures keeps_loans { ⟦<Islice<S> as Source>⟧.loans self.exit.now
            ≡ ⟦<Islice<S> as Source>⟧.loans self.entry.now }
        ensures draws { Drew (⟦<Islice<S> as Source>⟧.bottom self.old)
            (⟦<Islice<S> as Source>⟧.bottom self.new) (fault_of result) }
        ensures follows { Follows (islice_run S.Source.ahead self.old)
            (islice_end S.Source.ahead self.old) result (S.Source.ahead (islice_source self.new))
            (islice_run S.Source.ahead self.new) (islice_end S.Source.ahead self.new) }
        ensures below { S.Source.ahead (islice_source self.new)
            ≡ (islice_after S.Source.ahead self.old).left }
        ensures stands { (islice_number self.new ≡ (islice_after S.Source.ahead self.old).next)
            × (islice_drawn self.new ≡ (islice_after S.Source.ahead self.old).cur) }
        ensures keeps { (islice_stop self.new ≡ islice_stop self.old)
            × (islice_step self.new ≡ islice_step self.old) }
    {
        let Some(next) = self.next else {
            return Ok(Answer::End);
        };
        while self.cur < next && !is_reached(self.stop, self.cur) {
            let Answer::Item(_lost) = self.source.next()? else {
                return Ok(Answer::End);
            };
            self.cur += 1;
        }
        if is_reached(self.stop, self.cur) {
            return Ok(Answer::End);
        }
        let Answer::Item(item) = self.source.next()? else {
            return Ok(Answer::End);
        };
        let raised = next.wrapping_add(self.step);
        if raised > next {
            self.cur = next + 1;
            self.next = Some(raised);
        } else {
            // from a start of 0 by a step of 1 both counts are then the same in every state, and
            // the compiler drops the loop above
            self.cur = 0;
            self.next = None;
        }
        Ok(Answer::Item(item))
    }
}

impl<S: Source> Islice<S>
where
    S::Item: Drop,
{
    /// Steps the islice until it says end, and answers the first fault that it met, if any.
    #[tactic(auto, using(steps::proofs::RunLemmas::ran_start))]
    pub fn finish(&mut self) -> Option<Fault>
        ensures meets { result ≡ first_fault (⟦<Islice<S> as Source>⟧.ahead self.old) }
        ensures ended { ⟦<Islice<S> as Source>⟧.ahead self.new ≡ [] }
        ensures below { S.Source.ahead (islice_source self.new)
            ≡ islice_end S.Source.ahead self.old }
        ensures stays { (islice_after S.Source.ahead self.new).left
            ≡ S.Source.ahead (islice_source self.new) }
        ensures keeps { (islice_stop self.new ≡ islice_stop self.old)
            × (islice_step self.new ≡ islice_step self.old) }
        ensures ran { Ran (⟦<Islice<S> as Source>⟧.bottom self.old)
            (⟦<Islice<S> as Source>⟧.bottom self.new)
            (⟦<Islice<S> as Source>⟧.ahead self.old) }
    {
        let mut met = None;
        loop {
            let answer = self.next();
            if let Ok(Answer::End) = answer {
                return met;
            }
            met = keep_first(met, answer);
        }
    }
}

/// Draws from a source what an islice of these arguments draws, and hands it back with the first
/// fault that was met, if any. Refused as an islice is.
pub fn consume<S: Source>(
    source: S,
    arguments: &[Option<u64>],
) -> Result<(S, Option<Fault>), MakingError<S>>
where
    S::Item: Drop,
    ensures consumed { MatchResult result
        (λ p. Consumed arguments.now (S.Source.ahead source) (S.Source.ahead p.0) p.1)
        (λ e. (bounds arguments.now ≡ None) × (refusal_number e.refusal ≡ 5)
        × (e.source ≡ source)) }
    ensures ran { IfOk result (λ p. (b : TheBounds) × (bounds arguments.now ≡ Some b)
        × Ran (S.Source.bottom source) (S.Source.bottom p.0) (sliced b (S.Source.ahead source))) }
{
    let mut slice = Islice::new(source, arguments)?;
    let met = slice.finish();
    let Islice { source, .. } = slice;
    Ok((source, met))
}
