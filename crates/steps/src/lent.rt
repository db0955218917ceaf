ghost use Rattle.std.specs.Prelude.{◌∷◌};

use crate::answer::Answer;
use crate::fault::Fault;
use crate::source::Source;

/// A source that is lent is a source too: it goes on where it stands, and so does its owner
/// afterwards.
impl<'a, S: Source> Source for &'a mut S {
    type Item = S::Item;

    ghost ahead = { λ s. S.Source.ahead s.now };

    ghost loans = { λ s. s.ghost_name ∷ S.Source.loans s.now };

    ghost bottom = { λ s. S.Source.bottom s.now };

    fn next(&mut self) -> Result<Answer<S::Item>, Fault> {
        (**self).next()
    }
}
