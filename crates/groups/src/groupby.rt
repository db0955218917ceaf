ghost use Rattle.std.specs.Prelude.{◌≡◌, ◌≤◌, false, None};
ghost use Rattle.steps.specs.Steps.{first as first_answer, rest as rest_of};
ghost use Rattle.steps.specs.Below.{Drew, fault_of};
ghost use Rattle.laws.specs.GroupBy.{
  Standing,
  unbegun,
  most_groups,
  keyed,
  next_run as run_after,
  number_earned,
  number_told,
  fault_told,
  is_number,
};

use steps::{Answer, CallError, Fault, Keying, Refusal, Source};

// Where a groupby stands: the item that waits, the key of the run, whether the item that waits
// begins the next group, the number of the current group, and how many groups were given.
#[derive(Clone, Copy)]
struct GroupByState<T, Q> {
    current_value: Option<T>,
    current_key: Option<Q>,
    next_group: bool,
    grouper: Option<u32>,
    given: u32,
}

/// Gives the runs of its source as groups: a run is a longest stretch of items whose keys equal its
/// first key.
///
/// Over the items 5 5 6 5, by the item itself, group calls give the keys 5, 6, 5 with the numbers
/// 1, 2, 3, and then say end.
#[derive(Drop)]
pub struct GroupBy<S: Source, K: Keying<S::Item>> {
    source: S,
    keys: K,
    state: GroupByState<S::Item, K::Key>,
}

impl<S: Source, K: Keying<S::Item>> GroupBy<S, K> {
    ghost use Rattle.groups.specs.GroupBy.{standing, below, keying, opening, taking, items_ahead};

    /// Makes a groupby over the source; nothing is drawn.
    pub fn new(source: S, keys: K) -> Self
        ensures stands { standing result ≡ unbegun }
        ensures below { below result ≡ source }
        ensures keeps { keying result ≡ keys }
    {
        GroupBy {
            source,
            keys,
            state: GroupByState {
                current_value: None,
                current_key: None,
                next_group: false,
                grouper: None,
                given: 0,
            },
        }
    }
}

impl<S: Source, K: Keying<S::Item>> GroupBy<S, K>
where
    S::Item: Copy,
    K::Key: Copy,
{
    ghost use Rattle.groups.specs.GroupBy.{standing, below, keying, opening, taking, items_ahead};

    // The next item with its key.
    fn advance(&mut self) -> Result<Answer<(S::Item, K::Key)>, Fault>
        ensures gives { result
            ≡ first_answer (keyed (K.Keying.key (keying self.old))
            (S.Source.ahead (below self.old))) }
        ensures below { S.Source.ahead (below self.new)
            ≡ rest_of (S.Source.ahead (below self.old)) }
        ensures stands { standing self.new ≡ standing self.old }
        ensures keeps { keying self.new ≡ keying self.old }
        ensures keeps_loans { S.Source.loans (below self.new) ≡ S.Source.loans (below self.old) }
        ensures draws { Drew (S.Source.bottom (below self.old)) (S.Source.bottom (below self.new))
            (fault_of result) }
    {
        let Answer::Item(value) = self.source.next()? else {
            return Ok(Answer::End);
        };
        let key = self.keys.key_of(value)?;
        Ok(Answer::Item((value, key)))
    }

    // The first item of the next run with its key.
    fn next_run(&mut self) -> Result<Answer<(S::Item, K::Key)>, Fault>
        ensures gives { result
            ≡ (run_after (K.Keying.key (keying self.old)) K.Key.eq self.old.state.current_key
            (S.Source.ahead (below self.old))).answer }
        ensures below { S.Source.ahead (below self.new)
            ≡ (run_after (K.Keying.key (keying self.old)) K.Key.eq
            self.old.state.current_key (S.Source.ahead (below self.old))).left }
        ensures stands { standing self.new ≡ standing self.old }
        ensures keeps { keying self.new ≡ keying self.old }
        ensures keeps_loans { S.Source.loans (below self.new) ≡ S.Source.loans (below self.old) }
        ensures draws { Drew (S.Source.bottom (below self.old)) (S.Source.bottom (below self.new))
            (fault_of result) }
    {
        let Some(old) = self.state.current_key else {
            return self.advance();
        };
        while let Answer::Item((value, key)) = self.advance()? {
            if key != old {
                return Ok(Answer::Item((value, key)));
            }
        }
        Ok(Answer::End)
    }

    /// The group call: gives the key of the next run and its number, counted from 1, and skips what
    /// is left of the run before. The number before it stays current no longer, also where the call
    /// says end or meets a fault; then it gives no number.
    ///
    /// Refused by 7 where 4,294,967,295 groups were given. A fault of the source or of the key kind
    /// comes up as it came; the key's loses its item, and the next group call goes on skipping.
    pub fn group(&mut self) -> Result<Answer<(K::Key, u32)>, CallError>
        ensures answer { result ≡ (opening K.Keying.key S.Source.ahead K.Key.eq self.old).answer }
        ensures number { number_told result ≡ number_earned (standing self.old).given }
        ensures stands { standing self.new
            ≡ (opening K.Keying.key S.Source.ahead K.Key.eq self.old).standing }
        ensures below { S.Source.ahead (below self.new)
            ≡ (opening K.Keying.key S.Source.ahead K.Key.eq self.old).left }
        ensures keeps { keying self.new ≡ keying self.old }
        ensures keeps_loans { S.Source.loans (below self.new) ≡ S.Source.loans (below self.old) }
        ensures draws { Drew (S.Source.bottom (below self.old)) (S.Source.bottom (below self.new))
            (fault_told result) }
        ensures rests { most_groups ≤ (standing self.old).given → self.new ≡ self.old }
    {
        if self.state.given == u32::MAX {
            return Err(Refusal::TooManyGroups.into());
        }
        self.state.grouper = None;
        let key = match self.state.current_key {
            Some(key) if self.state.next_group => key,
            _ => {
                let Answer::Item((value, key)) = self.next_run()? else {
                    return Ok(Answer::End);
                };
                self.state.current_value = Some(value);
                key
            }
        };
        let number = self.state.given + 1;
        self.state = GroupByState {
            current_key: Some(key),
            next_group: false,
            grouper: Some(number),
            given: number,
            ..self.state
        };
        Ok(Answer::Item((key, number)))
    }

    /// The item call: gives the next item of the group with this number while the number is
    /// current, and else says end, as to 0 and to numbers that were not given yet. Where it meets
    /// the next run it says end too: the number is current no longer, and the item that was met is
    /// the first of the next group.
    ///
    /// It is never refused. A fault comes up as it came and leaves the number current; a key's
    /// fault loses its item.
    #[tactic(auto, using(laws::proofs::GroupBy::item_gives, laws::proofs::GroupBy::item_leaves))]
    pub fn item(&mut self, number: u32) -> Result<Answer<S::Item>, Fault>
        ensures answer { result
            ≡ (taking K.Keying.key S.Source.ahead K.Key.eq self.old number).answer }
        ensures stands { standing self.new
            ≡ (taking K.Keying.key S.Source.ahead K.Key.eq self.old number).standing }
        ensures below { S.Source.ahead (below self.new)
            ≡ (taking K.Keying.key S.Source.ahead K.Key.eq self.old number).left }
        ensures keeps { keying self.new ≡ keying self.old }
        ensures keeps_loans { S.Source.loans (below self.new) ≡ S.Source.loans (below self.old) }
        ensures draws { Drew (S.Source.bottom (below self.old)) (S.Source.bottom (below self.new))
            (fault_of result) }
        ensures gives { result
            ≡ first_answer (items_ahead K.Keying.key S.Source.ahead K.Key.eq self.old number) }
        ensures leaves { items_ahead K.Keying.key S.Source.ahead K.Key.eq self.new number
            ≡ rest_of (items_ahead K.Keying.key S.Source.ahead K.Key.eq self.old number) }
        ensures rests { is_number (standing self.old).grouper number ≡ false → self.new ≡ self.old }
    {
        if self.state.grouper != Some(number) {
            return Ok(Answer::End);
        }
        if let Some(value) = self.state.current_value.take() {
            return Ok(Answer::Item(value));
        }
        let Some(old) = self.state.current_key else {
            return Ok(Answer::End);
        };
        let Answer::Item((value, key)) = self.advance()? else {
            return Ok(Answer::End);
        };
        if key == old {
            return Ok(Answer::Item(value));
        }
        self.state = GroupByState {
            current_value: Some(value),
            current_key: Some(key),
            next_group: true,
            grouper: None,
            ..self.state
        };
        Ok(Answer::End)
    }
}
