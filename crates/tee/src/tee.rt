// tee: several branches over one source. Its plain state stands beside the source; what a call does
// with it is `stepped` and `copy_marks` of the laws, and what a whole history of calls answers is
// the law that `run` and `every_history` name.
ghost use Rattle.laws.specs.Tee.{Sound};

use steps::{Answer, CallError, MakingError, Refusal, Source};

/// The most branches of a tee.
pub const MOST_BRANCHES: usize = 16;

// The branches of a making that does not say how many.
const BRANCHES: usize = 2;

// Where the branches stand.
#[derive(Clone, Copy)]
struct Marks {
    // how many items each branch has passed
    positions: [usize; 16],
    branches: usize,
    // how many items are stored, all of them that were drawn
    stored: usize,
    // how long each lent store has to be
    places: usize,
}

/// Several branches over one source: `n` independent iterators from a single iterable.
///
/// Every branch gets the source's items in order, each at its own pace. The branch that is furthest
/// draws an item and puts it into the store that its step lends; the others find it there. Every
/// step lends the same store: the tee trusts what it holds, and looks at its length alone.
///
/// Over 1, 2, 3 with a store of 2 places, steps of the branches 0, 0, 0, 1 give 1, 2, refusal 6, 1.
#[derive(Drop)]
pub struct Tee<S> {
    source: S,
    marks: Marks,
    ghost sound: { Sound marks.positions marks.branches marks.stored marks.places },
}

impl<S: Source> Tee<S> {
    ghost use Rattle.std.specs.Prelude.{◌≡◌, ◌≤◌, ◌<◌, length, MatchResult};
    ghost use Rattle.steps.specs.Refusals.{refusal_number};
    ghost use Rattle.steps.specs.Below.{Drew};
    ghost use Rattle.laws.specs.Tee.{asked_for, fresh};
    ghost use Rattle.laws.specs.Tee.{step_number, number_told, fault_told, IfDenied};
    ghost use Rattle.laws.specs.Tee.{copy_answer, copy_marks, copy_number, copy_number_told, IfErr};
    ghost use Rattle.tee.specs.Tee.{marks_of, source_of, step_of};

    /// A tee of so many branches, 2 where the number is absent, for stores of so many places.
    ///
    /// No branch at all is lawful, and so is a store of no places. Nothing is drawn.
    ///
    /// More than 16 branches are refused by 8, and the source comes back as it was.
    ///
    /// `Tee::new(List::new(&numbers), None, 2)` has the branches 0 and 1.
    pub fn new(source: S, branches: Option<usize>, places: usize) -> Result<Self, MakingError<S>>
        ensures { MatchResult result
            (λ t. (asked_for branches ≤ 16) × (marks_of t ≡ fresh (asked_for branches) places)
            × (source_of t ≡ source))
            (λ e. (16 < asked_for branches) × (refusal_number e.refusal ≡ 8)
            × (e.source ≡ source)) }
    {
        let branches = branches.unwrap_or(BRANCHES);
        if branches > MOST_BRANCHES {
            return Err(MakingError {
                refusal: Refusal::NoBranch,
                source,
            });
        }
        Ok(Tee {
            source,
            marks: Marks {
                positions: [0; 16],
                branches,
                stored: 0,
                places,
            },
        })
    }

    /// The next item of a branch: a stored one where it is behind the stored items, or else the one
    /// that is drawn next, which is stored.
    ///
    /// The store has to be as long as the making said (or the step is refused by 9), the branch has
    /// to be there (8), and there has to be a place where a draw is needed (6): also where the
    /// source has no item left, since the place is looked at before the draw. The end moves
    /// nothing. A fault of the source comes up as it came, moves nothing and takes no place.
    ///
    /// Over 1 with a store of 2 places, two steps of one branch give 1 and the end.
    #[tactic(auto, using(steps::proofs::Below::drew_still))]
    pub fn step(
        &mut self,
        branch: usize,
        store: &mut [S::Item],
    ) -> Result<Answer<S::Item>, CallError>
    where
        S::Item: Copy,
        ensures answer { result ≡ (step_of S.Source.ahead self.old branch store.old).answer }
        ensures number { number_told result
            ≡ step_number (marks_of self.old) branch (length store.old) }
        ensures stands { marks_of self.new
            ≡ (step_of S.Source.ahead self.old branch store.old).marks }
        ensures below { S.Source.ahead (source_of self.new)
            ≡ (step_of S.Source.ahead self.old branch store.old).ahead }
        ensures store { store.new ≡ (step_of S.Source.ahead self.old branch store.old).store }
        ensures keeps_loans { S.Source.loans (source_of self.new)
            ≡ S.Source.loans (source_of self.old) }
        ensures draws { Drew (S.Source.bottom (source_of self.old))
            (S.Source.bottom (source_of self.new)) (fault_told result) }
        ensures rests { IfDenied result ((self.new ≡ self.old) × (store.new ≡ store.old)) }
    {
        if store.len() != self.marks.places {
            return Err(Refusal::OtherStore.into());
        }
        if branch >= self.marks.branches {
            return Err(Refusal::NoBranch.into());
        }
        let at = self.marks.positions[branch];
        if at < self.marks.stored {
            self.marks.positions[branch] = at + 1;
            return Ok(Answer::Item(store[at]));
        }
        if self.marks.stored >= self.marks.places {
            return Err(Refusal::StoreFull.into());
        }
        let Answer::Item(item) = self.source.next()? else {
            return Ok(Answer::End);
        };
        store[self.marks.stored] = item;
        self.marks.stored += 1;
        self.marks.positions[branch] = at + 1;
        Ok(Answer::Item(item))
    }

    /// One branch more, which stands where its original stands, and its number: the next one.
    ///
    /// A copy of no branch that is there, and one where there are 16, are refused by 8.
    ///
    /// After one step of branch 0 of two, a copy of it is branch 2, and its first step gives the
    /// second item.
    pub fn copy(&mut self, branch: usize) -> Result<usize, Refusal>
        ensures answer { result ≡ copy_answer (marks_of self.old) branch }
        ensures number { copy_number_told result ≡ copy_number (marks_of self.old) branch }
        ensures stands { marks_of self.new ≡ copy_marks (marks_of self.old) branch }
        ensures source { source_of self.new ≡ source_of self.old }
        ensures rests { IfErr result (self.new ≡ self.old) }
    {
        let number = self.marks.branches;
        if branch >= number || number >= MOST_BRANCHES {
            return Err(Refusal::NoBranch);
        }
        self.marks.positions[number] = self.marks.positions[branch];
        self.marks.branches = number + 1;
        Ok(number)
    }

    /// The source, which goes on where the branch that is furthest has left it.
    ///
    /// After two steps of one branch over 1, 2, 3, it gives 3 next.
    pub fn into_inner(self) -> S
        ensures { result ≡ source_of self }
    {
        let Tee { source, .. } = self;
        source
    }
}
