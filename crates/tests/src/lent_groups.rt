// What the owner of a groupby knows of it, where a group's items were lent as a source and are let
// go again.
ghost use Rattle.std.specs.Prelude.{◌≡◌};
ghost use Rattle.groups.specs.GroupBy.{standing, below, keying, taking};

use groups::{GroupBy, Grouper};
use steps::{Answer, Fault, Keying, Source};

/// The next item of a group, by a step of its items as a source: the groupby goes on as after an
/// item call.
pub fn item_of_group<S: Source + Drop, K: Keying<S::Item> + Drop>(
    groups: &mut GroupBy<S, K>,
    number: u32,
) -> Result<Answer<S::Item>, Fault>
where
    S::Item: Copy,
    K::Key: Copy,
    ensures answer { result
        ≡ (taking K.Keying.key S.Source.ahead K.Key.eq groups.old number).answer }
    ensures stands { standing groups.new
        ≡ (taking K.Keying.key S.Source.ahead K.Key.eq groups.old number).standing }
    ensures below { S.Source.ahead (below groups.new)
        ≡ (taking K.Keying.key S.Source.ahead K.Key.eq groups.old number).left }
    ensures keeps { keying groups.new ≡ keying groups.old }
{
    let mut items = Grouper::new(groups, number);
    items.next()
}
