ghost use Rattle.std.specs.Prelude.{◌≡◌, map, Ok, []};
ghost use Rattle.steps.specs.Steps.{first as first_answer, rest as rest_of};
ghost use Rattle.steps.specs.Below.{Drew, fault_of};
ghost use Rattle.steps.specs.Fault.{OfKey};
ghost use Rattle.laws.specs.Items.{faults, items as items_of};
ghost use Rattle.laws.specs.Faults.{Woven};
ghost use Rattle.laws.specs.Run.{Follows, OneStepEach};
ghost use Rattle.laws.specs.Keys.{keys as keys_of, KeyOfEach};
ghost use Rattle.adapters.specs.Keys.{keys_source, keys_keying, keys_ahead, keys_over};

use steps::{Answer, Fault, Keying, Source};

/// Gives the key of each item of its source, in order: by the bay, blocks at the bays 2, 4 and 2
/// give `2 4 2`. It is Python's `map` with a key function, so that rules over numbers go over
/// blocks.
///
/// A fault of the source is answered as it is; a key's takes its item's place. Each call draws one
/// step.
#[derive(Drop)]
pub struct Keys<S, K> {
    source: S,
    keying: K,
}

impl<S: Source, K: Keying<S::Item>> Keys<S, K> {
    /// Takes over a source, and draws nothing.
    #[tactic(auto, using(laws::proofs::Keys::keys_woven, laws::proofs::Keys::keys_items, laws::proofs::Keys::keys_one_each))]
    pub fn new(source: S, keying: K) -> Self
        ensures ahead { ⟦<Keys<S, K> as Source>⟧.ahead result
            ≡ keys_of (K.Keying.key keying) (S.Source.ahead source) }
        ensures law { KeyOfEach (K.Keying.key keying) (S.Source.ahead source)
            (⟦<Keys<S, K> as Source>⟧.ahead result) }
        ensures holds { (keys_source result ≡ source) × (keys_keying result ≡ keying) }
        ensures faults_given { Woven OfKey (faults (S.Source.ahead source)) []
            (faults (⟦<Keys<S, K> as Source>⟧.ahead result)) }
        ensures items_given { items_of (⟦<Keys<S, K> as Source>⟧.ahead result)
            ≡ items_of (keys_of (K.Keying.key keying)
            (map Ok (items_of (S.Source.ahead source)))) }
        ensures drawn_over_run { OneStepEach (S.Source.ahead source)
            (keys_over K.Keying.key S.Source.ahead result) }
    {
        Keys { source, keying }
    }
}

impl<S: Source, K: Keying<S::Item>> Source for Keys<S, K> {
    type Item = K::Key;

    ghost ahead = { λ s. keys_ahead K.Keying.key S.Source.ahead s };

    ghost loans = { λ s. S.Source.loans (keys_source s) };

    ghost bottom = { λ s. S.Source.bottom (keys_source s) };

    #[tactic(auto, using(laws::proofs::Keys::keys_call))]
    fn next(&mut self) -> Result<Answer<K::Key>, Fault>
        ensures gives { result ≡ first_answer (⟦<Keys<S, K> as Source>⟧.ahead self.old) }
        ensures leaves { ⟦<Keys<S, K> as Source>⟧.ahead self.new
            ≡ rest_of (⟦<Keys<S, K> as Source>⟧.ahead self.old) }
        ensures keeps_loans { ⟦<Keys<S, K> as Source>⟧.loans self.exit.now
            ≡ ⟦<Keys<S, K> as Source>⟧.loans self.entry.now }
        ensures draws { Drew (⟦<Keys<S, K> as Source>⟧.bottom self.old)
            (⟦<Keys<S, K> as Source>⟧.bottom self.new) (fault_of result) }
        ensures follows { Follows (keys_over K.Keying.key S.Source.ahead self.old) [] result
            (S.Source.ahead (keys_source self.new))
            (keys_over K.Keying.key S.Source.ahead self.new) [] }
        ensures below { S.Source.ahead (keys_source self.new)
            ≡ rest_of (S.Source.ahead (keys_source self.old)) }
        ensures keeps { keys_keying self.new ≡ keys_keying self.old }
    {
        match self.source.next()? {
            Answer::Item(item) => Ok(Answer::Item(self.keying.key_of(item)?)),
            Answer::End => Ok(Answer::End),
        }
    }
}
