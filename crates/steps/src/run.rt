ghost use Rattle.std.specs.Prelude.{◌≡◌, List, [], ◌++◌, IfOk};
ghost use Rattle.steps.specs.Steps.{Step, answered};
ghost use Rattle.steps.specs.Below.{Ran};

use crate::answer::{Answer, Step};
use crate::fault::Fault;
use crate::source::Source;
use std::alloc::{AllocError, Global};

// The step that an answer stands for; the end stands for none.
fn step_of<T: Drop>(answer: Result<Answer<T>, Fault>) -> Option<Step<T>>
    ensures { result ≡ answered answer }
{
    match answer {
        Ok(Answer::Item(item)) => Some(Ok(item)),
        Ok(Answer::End) => None,
        Err(fault) => Some(Err(fault)),
    }
}

/// Steps a source to its end, and gives all that it had ahead, faults included, as Python's `list`
/// gives all items: over 5, a fault and 9 it gives `Ok(5)`, the fault as `Err`, `Ok(9)`.
///
/// Where memory runs out it fails with `AllocError`, and the source stands behind what was drawn.
/// The source is lent, so its owner has it afterwards.
#[tactic(auto, using(crate::proofs::RunLemmas::ran_none))]
pub fn collect<S: Source>(alloc: Global, source: &mut S) -> Result<Vec<Step<S::Item>>, AllocError>
where
    S::Item: Drop,
    ensures gives { IfOk result (λ v. (v.items ≡ S.Source.ahead source.old)
        × (S.Source.ahead source.new ≡ [])) }
    // at any height: each fault drawn at the bottom is given, as it is and in order, and no other
    // but an adapter's own
    ensures ran { IfOk result (λ v. Ran (S.Source.bottom source.old) (S.Source.bottom source.new)
        v.items) }
    ensures described_without_memory { (front : List (Step S.Item))
        × (S.Source.ahead source.old ≡ front ++ S.Source.ahead source.new) }
{
    let mut steps = Vec::new(alloc);
    while let Some(step) = step_of(source.next()) {
        steps.push(step)?;
    }
    Ok(steps)
}
