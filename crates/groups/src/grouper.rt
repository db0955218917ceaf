ghost use Rattle.std.specs.Prelude.{◌≡◌, ◌∷◌, false};
ghost use Rattle.steps.specs.Steps.{first as first_answer, rest as rest_of};
ghost use Rattle.steps.specs.Below.{Drew, fault_of};
ghost use Rattle.laws.specs.GroupBy.{is_number};
ghost use Rattle.groups.specs.GroupBy.{standing, below, keying, taking, items_ahead};

use crate::groupby::GroupBy;
use steps::{Answer, Fault, Keying, Source};

/// The items of a group, as a source: a groupby that is lent, with the number of the group. Its
/// steps are what item calls with that number answer, and the groupby goes on where this source was
/// left.
///
/// Over the items 5 5 6 5, by the item itself, a pairwise over the first group gives (5, 5) and
/// then says end.
#[derive(Drop)]
pub struct Grouper<'a, S: Source, K: Keying<S::Item>> {
    groups: &'a mut GroupBy<S, K>,
    number: u32,
}

impl<'a, S: Source, K: Keying<S::Item>> Grouper<'a, S, K>
where
    S::Item: Copy,
    K::Key: Copy,
{
    ghost use Rattle.groups.specs.Grouper.{lent, loan, number_of};

    /// Lends the groupby for the items of the group with this number; nothing is drawn.
    pub fn new(groups: &'a mut GroupBy<S, K>, number: u32) -> Grouper<'a, S, K>
        ensures same_reference { loan result ≡ groups.entry.ghost_name }
        ensures holds { (lent result ≡ groups.old) × (number_of result ≡ number) }
        ensures ahead { ⟦<Grouper<'a, S, K> as Source>⟧.ahead result
            ≡ items_ahead K.Keying.key S.Source.ahead K.Key.eq groups.old number }
    {
        Grouper { groups, number }
    }
}

impl<'a, S: Source, K: Keying<S::Item>> Source for Grouper<'a, S, K>
where
    S::Item: Copy,
    K::Key: Copy,
{
    ghost use Rattle.groups.specs.Grouper.{lent, loan, number_of};

    type Item = S::Item;

    ghost ahead = { λ s. items_ahead K.Keying.key S.Source.ahead K.Key.eq (lent s) (number_of s) };

    // The number of the group stays as the loan does, and is told beside it.
    ghost loans = { λ s. loan s ∷ (number_of s ∷ S.Source.loans (below (lent s))) };

    ghost bottom = { λ s. S.Source.bottom (below (lent s)) };

    fn next(&mut self) -> Result<Answer<S::Item>, Fault>
        ensures gives { result ≡ first_answer (⟦<Grouper<'a, S, K> as Source>⟧.ahead self.old) }
        ensures leaves { ⟦<Grouper<'a, S, K> as Source>⟧.ahead self.new
            ≡ rest_of (⟦<Grouper<'a, S, K> as Source>⟧.ahead self.old) }
        ensures keeps_loans { ⟦<Grouper<'a, S, K> as Source>⟧.loans self.new
            ≡ ⟦<Grouper<'a, S, K> as Source>⟧.loans self.old }
        ensures draws { Drew (⟦<Grouper<'a, S, K> as Source>⟧.bottom self.old)
            (⟦<Grouper<'a, S, K> as Source>⟧.bottom self.new) (fault_of result) }
        ensures same_reference { loan self.new ≡ loan self.old }
        ensures holds { number_of self.new ≡ number_of self.old }
        ensures stands { standing (lent self.new)
            ≡ (taking K.Keying.key S.Source.ahead K.Key.eq (lent self.old)
            (number_of self.old)).standing }
        ensures below { S.Source.ahead (below (lent self.new))
            ≡ (taking K.Keying.key S.Source.ahead K.Key.eq (lent self.old)
            (number_of self.old)).left }
        ensures keeps { keying (lent self.new) ≡ keying (lent self.old) }
        ensures rests { is_number (standing (lent self.old)).grouper (number_of self.old) ≡ false
            → lent self.new ≡ lent self.old }
    {
        self.groups.item(self.number)
    }
}
