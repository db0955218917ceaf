// Histories of group calls and item calls.
ghost use Rattle.std.specs.Prelude.{◌≡◌, List, Result as AResult, length};
ghost use Rattle.steps.specs.declared.fault.Fault.{Fault as AFault};
ghost use Rattle.laws.specs.Runs.{HasKeys, OneDivision};
ghost use Rattle.laws.specs.GroupBy.{Grouping, Transition, EveryHistory, Life};
ghost use Rattle.groups.specs.GroupBy.{below, shown};
ghost use Rattle.groups.specs.History.{memory, memories};

use crate::groupby::GroupBy;
use steps::{Answer, CallError, Fault, Keying, Source};

/// What a call asks of a groupby: the next group, or the next item of the group with this number.
#[derive(Clone, Copy, PartialEq, Eq, Debug)]
pub enum Ask {
    /// The next group.
    Group,
    /// The next item of the group with this number.
    Item(u32),
}

/// What a call answered.
#[derive(Clone, Copy, PartialEq, Eq, Debug)]
pub enum Told<T, Q> {
    /// The key of a group and its number, or the end, by a group call.
    Opened(Result<Answer<(Q, u32)>, CallError>),
    /// An item of a group, or the end, by an item call.
    Given(Result<Answer<T>, Fault>),
}

/// A group call or an item call; once it was made, with what it answered.
#[derive(Clone, Copy, PartialEq, Eq, Debug)]
pub struct Call<T, Q> {
    /// What it asks.
    pub ask: Ask,
    /// What it answered, once it was made.
    pub told: Option<Told<T, Q>>,
}

// Makes one call, and keeps what it answered.
fn make<S: Source, K: Keying<S::Item>>(groups: &mut GroupBy<S, K>, call: &mut Call<S::Item, K::Key>)
where
    S::Item: Copy,
    K::Key: Copy,
    ensures transition { Transition K.Key.eq (shown K.Keying.key S.Source.ahead) groups.old
        (memory call.old) (memory call.new) groups.new }
    ensures keeps_loans { S.Source.loans (below groups.new) ≡ S.Source.loans (below groups.old) }
{
    let told = match call.ask {
        Ask::Group => Told::Opened(groups.group()),
        Ask::Item(number) => Told::Given(groups.item(number)),
    };
    call.told = Some(told);
}

/// Makes a groupby over the source, and all the calls on it, one after another; each call keeps
/// what it answered.
///
/// Nothing is refused but group calls, by 7, where 4,294,967,295 groups were given.
pub fn run<S: Source, K: Keying<S::Item>>(
    source: S,
    keys: K,
    calls: &mut [Call<S::Item, K::Key>],
) -> GroupBy<S, K>
where
    S::Item: Copy,
    K::Key: Copy,
    ensures law { Life K.Key.eq (shown K.Keying.key S.Source.ahead) (K.Keying.key keys)
        (S.Source.ahead source) (memories calls.old) (memories calls.new) result }
    ensures keeps_loans { S.Source.loans (below result) ≡ S.Source.loans source }
{
    let mut groups = GroupBy::new(source, keys);
    for call in calls.iter_mut() {
        make(&mut groups, call);
    }
    groups
}

/// Whatever calls lead from one state of a groupby to another, each by the contract of the group
/// call or the item call: the law of histories holds of them. And every list of items with a key
/// for each divides into runs in just one way.
pub fn every_history<X, T, K: Keying<T>>() -> u8
    ensures result { result ≡ 0 }
    ensures law { (shown : X → Grouping T K.Key) → EveryHistory K.Key.eq shown }
    ensures division { (key : T → AResult K.Key AFault) (xs : List T) → HasKeys key xs
        → OneDivision key K.Key.eq xs }
{
    0
}
