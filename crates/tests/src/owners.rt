// What the owner of a source knows of it, once it was lent and has come back.
ghost use Rattle.std.specs.Prelude.{◌≡◌, length};
ghost use Rattle.steps.specs.Steps.{answered, first as first_of, rest as rest_of};
ghost use Rattle.laws.specs.Tee.{fresh, stepped};

use steps::{Answer, CallError, Source, Step, Steps};
use tee::Tee;

/// A step of a tee of one branch over a lent source. Behind it the owner goes on where the tee left
/// the source: with what was not drawn.
///
/// Refused by 6 where the store has no place; a fault of the source comes up as it came.
///
/// Over 5, 6 it answers 5, and the owner has 6 ahead.
pub fn one_step<S: Source>(
    source: &mut S,
    store: &mut [S::Item],
) -> Result<Answer<S::Item>, CallError>
where
    S::Item: Copy,
    ensures answer { result
        ≡ (stepped (fresh 1 (length store.old)) 0 (S.Source.ahead source.old) store.old).answer }
    ensures left { S.Source.ahead source.new
        ≡ (stepped (fresh 1 (length store.old)) 0 (S.Source.ahead source.old) store.old).ahead }
{
    let mut tee = Tee::new(source, Some(1), store.len())?;
    tee.step(0, store)
}

/// One step of a lent source, by an iterator. Behind it the owner goes on with what was not drawn.
///
/// Over 5, 6 it gives `Ok(5)`, and the owner has 6 ahead; at the end it gives `None`.
pub fn one_of_steps<S: Source>(source: &mut S) -> Option<Step<S::Item>>
where
    S::Item: Drop,
    ensures answer { result ≡ answered (first_of (S.Source.ahead source.old)) }
    ensures left { S.Source.ahead source.new ≡ rest_of (S.Source.ahead source.old) }
{
    let mut steps = Steps(source);
    steps.next()
}
