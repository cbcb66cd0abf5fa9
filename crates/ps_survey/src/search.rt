//! A depth-first search with a stack of its own.
ghost use Rattle.std.specs.Prelude.{◌≡◌, ◌+◌, ◌^◌, ◌<◌, ◌≤◌, ◌∷◌, ◌++◌, ℕ, List, [], length, replicate, slice_get, slice_set, Some, None, Contains, IfOk, IfSome, OnOk, OnErr, MatchOption, MatchResult};
ghost use Rattle.ps_survey.specs.Search.{AtRest, Ended, HasStopped, IsMarked, IsOrderFrom, Underway, looks_left};
ghost use Rattle.ps_survey.specs.declared.search.Mark.TheVariants as mark;
ghost use Rattle.ps_survey.specs.declared.search.Stop.TheVariants as stop;

use pu_base::Steps;
use std::alloc::{AllocError, AllocFailed, Global};
use std::sync::ledger::Ledger;

/// What the entries of an arena name, by their numbers.
pub trait Names {
    /// The numbers that the entry of a number names, in order.
    ghost named: { Self → ℕ → List ℕ };

    /// How many entries there are.
    ghost count: { Self → ℕ };

    /// How many entries there are.
    fn len(&self) -> usize
        ensures { result ≡ count self.now };

    /// The number that an entry names at a place, if it names so many.
    fn name(&self, number: usize, place: usize) -> Option<usize>
        requires { number < count self.now }
        ensures name { result ≡ slice_get (named self.now number) place }
        ensures bounded { IfSome result (λ _. place + 1 < 2 ^ 64) };
}

/// How far the search is with a number.
#[derive(Clone, Copy, Debug, PartialEq, Eq)]
pub enum Mark {
    /// Not met yet.
    New,
    /// On the way from the start, with the place of the name that is looked at next.
    Open(usize),
    /// Met, with all that it names.
    Done,
}

/// Why a search stops.
#[derive(Debug, Drop)]
pub enum Stop {
    /// The entry of this number names a number that is out of range.
    Missing(usize),
    /// This number leads back to itself.
    Circle(usize),
    /// Want of memory.
    OutOfMemory,
}

impl From<AllocError> for Stop {
    ghost from_gives = { λ e r. r ≡ stop.OutOfMemory };

    fn from(_: AllocError) -> Stop {
        Stop::OutOfMemory
    }
}

impl<T: Drop> From<AllocFailed<T>> for Stop {
    ghost from_gives = { λ e r. r ≡ stop.OutOfMemory };

    fn from(_: AllocFailed<T>) -> Stop {
        Stop::OutOfMemory
    }
}

/// A search over the entries of one arena: what it knows of each number, and the numbers that are done.
#[derive(Drop)]
pub struct Search {
    pub marks: Vec<Mark>,
    pub order: Vec<usize>,
    pub trail: Vec<usize>,
}

impl Search {
    /// A search over `count` entries, none of which is met yet.
    pub fn new(alloc: Global, count: usize) -> Result<Search, Stop>
        ensures marks { IfOk result (λ s. s.marks.items ≡ replicate count mark.New) }
        ensures order { IfOk result (λ s. s.order.items ≡ []) }
        ensures trail { IfOk result (λ s. s.trail.items ≡ []) }
        ensures memory { OnErr result (result ≡ Err stop.OutOfMemory) }
    {
        let marks = vec![in alloc; Mark::New; count]?;
        Ok(Search {
            marks,
            order: Vec::new(alloc),
            trail: Vec::new(alloc),
        })
    }

    /// The numbers that are done, each after all that it names.
    pub fn into_order(self) -> Vec<usize>
        ensures { result.items ≡ self.order.items }
    {
        let Search {
            marks: _,
            order,
            trail: _,
        } = self;
        order
    }

    /// The mark of a number, where it is in range.
    fn mark_of(&self, number: usize) -> Option<Mark>
        ensures { result ≡ slice_get self.now.marks.items number }
    {
        self.marks.get(number).copied()
    }

    /// The number is done; answers the number before it on the way, if any.
    fn go_back(&mut self, at: usize) -> Result<Option<usize>, Stop>
        requires { at < length self.old.marks.items }
        ensures size { length self.new.marks.items ≡ length self.old.marks.items }
        ensures marks { OnOk result (self.new.marks.items ≡ slice_set self.old.marks.items at mark.Done) }
        ensures order { OnOk result (self.new.order.items ≡ self.old.order.items ++ at ∷ []) }
        ensures trail { IfOk result (λ r. MatchOption r ((self.old.trail.items ≡ []) × (self.new.trail.items ≡ [])) (λ b. self.old.trail.items ≡ self.new.trail.items ++ b ∷ [])) }
        ensures memory { OnErr result (result ≡ Err stop.OutOfMemory) }
    {
        self.order.push(at)?;
        self.marks[at] = Mark::Done;
        Ok(self.trail.pop())
    }

    /// Looks at what the number names next, and answers the number to look at then, if any.
    fn look<N: Names>(&mut self, names: &N, at: usize) -> Result<Option<usize>, Stop>
        requires size { length self.old.marks.items ≡ N.count names.now }
        requires marked { (k : ℕ) × IsMarked self.old.marks.items at (mark.Open k) }
        ensures size { length self.new.marks.items ≡ N.count names.now }
        ensures found { (start : ℕ) (before : List ℕ) → Underway (N.named names.now) start before self.old.order.items self.old.marks.items self.old.trail.items at → MatchResult result (λ r. MatchOption r (Ended (N.named names.now) start before self.new.order.items self.new.marks.items × (self.new.trail.items ≡ [])) (λ to. Underway (N.named names.now) start before self.new.order.items self.new.marks.items self.new.trail.items to)) (HasStopped (N.named names.now) (N.count names.now) start) }
        ensures looks { IfOk result (λ _. looks_left (N.named names.now) 0 self.new.marks.items + 1 ≡ looks_left (N.named names.now) 0 self.old.marks.items) }
    {
        let Some(Mark::Open(place)) = self.mark_of(at) else {
            unreachable!();
        };
        match names.name(at, place) {
            None => self.go_back(at),
            Some(number) => match self.mark_of(number) {
                None => Err(Stop::Missing(at)),
                Some(Mark::Open(_)) => Err(Stop::Circle(number)),
                Some(Mark::Done) => {
                    self.marks[at] = Mark::Open(place + 1);
                    Ok(Some(at))
                }
                Some(Mark::New) => {
                    self.trail.push(at)?;
                    self.marks[number] = Mark::Open(0);
                    Ok(Some(number))
                }
            },
        }
    }

    /// Goes on from a number that is not met yet to all that it leads to.
    fn walk<N: Names, L: Ledger>(
        &mut self,
        names: &N,
        start: usize,
        steps: &mut Steps<L>,
    ) -> Result<(), Stop>
        requires size { length self.old.marks.items ≡ N.count names.now }
        requires new { IsMarked self.old.marks.items start mark.New }
        requires trail { self.old.trail.items ≡ [] }
        requires rest { AtRest (N.named names.now) self.old.order.items self.old.marks.items }
        ensures size { length self.new.marks.items ≡ N.count names.now }
        ensures found { MatchResult result (λ _. Ended (N.named names.now) start self.old.order.items self.new.order.items self.new.marks.items) (HasStopped (N.named names.now) (N.count names.now) start) }
        ensures trail { OnOk result (self.new.trail.items ≡ []) }
        ensures steps { MatchResult result (λ _. steps.new + looks_left (N.named names.now) 0 self.new.marks.items ≤ steps.old + looks_left (N.named names.now) 0 self.old.marks.items) (λ _. steps.new ≤ steps.old + looks_left (N.named names.now) 0 self.old.marks.items) }
    {
        self.marks[start] = Mark::Open(0);
        let mut at = start;
        loop {
            steps.tick();
            // A match and no `?`: so the clause of the stop is handed on as it stands.
            match self.look(names, at) {
                Ok(Some(number)) => at = number,
                Ok(None) => return Ok(()),
                Err(stop) => return Err(stop),
            }
        }
    }

    /// Goes on from a number to all that it leads to, unless it is done. The search is at rest before and after.
    ///
    /// After an error the search serves no more.
    pub fn visit<N: Names, L: Ledger>(
        &mut self,
        names: &N,
        start: usize,
        steps: &mut Steps<L>,
    ) -> Result<(), Stop>
        requires size { length self.old.marks.items ≡ N.count names.now }
        requires range { start < N.count names.now }
        requires trail { self.old.trail.items ≡ [] }
        requires rest { AtRest (N.named names.now) self.old.order.items self.old.marks.items }
        ensures size { length self.new.marks.items ≡ N.count names.now }
        ensures found { MatchResult result (λ _. Ended (N.named names.now) start self.old.order.items self.new.order.items self.new.marks.items) (HasStopped (N.named names.now) (N.count names.now) start) }
        ensures trail { OnOk result (self.new.trail.items ≡ []) }
        ensures steps { MatchResult result (λ _. steps.new + looks_left (N.named names.now) 0 self.new.marks.items ≤ steps.old + looks_left (N.named names.now) 0 self.old.marks.items) (λ _. steps.new ≤ steps.old + looks_left (N.named names.now) 0 self.old.marks.items) }
    {
        match self.mark_of(start) {
            Some(Mark::Done) => Ok(()),
            Some(Mark::New) => self.walk(names, start, steps),
            Some(Mark::Open(_)) => unreachable!(),
            None => unreachable!(),
        }
    }
}

/// The numbers that a start leads to.
pub fn order_from<N: Names, L: Ledger>(
    alloc: Global,
    names: &N,
    start: usize,
    steps: &mut Steps<L>,
) -> Result<Vec<usize>, Stop>
    requires { start < N.count names.now }
    ensures found { MatchResult result (λ order. IsOrderFrom (N.named names.now) (N.count names.now) start order.items) (HasStopped (N.named names.now) (N.count names.now) start) }
    ensures steps { steps.new ≤ steps.old + looks_left (N.named names.now) 0 (replicate (N.count names.now) mark.New) }
{
    // Matches and no `?`, here and below: so the clause of each stop is handed on as it stands.
    let mut search = match Search::new(alloc, names.len()) {
        Ok(search) => search,
        Err(stop) => return Err(stop),
    };
    match search.visit(names, start, steps) {
        Ok(()) => Ok(search.into_order()),
        Err(stop) => Err(stop),
    }
}
