//! Nodes that are marked for an update, each once, from the first to the last.
ghost use Rattle.std.specs.Prelude.{◌≡◌, ◌≢◌, ◌<◌, ℕ, false, ◌↔◌, IsTrue, IfOk, IfSome, IsNone, OnOk, OnErr, Err};
ghost use Rattle.ps_frame.specs.declared.refusal.PolarsError.{PolarsError};
ghost use Rattle.ps_graph.specs.Marking.{is_marked};

use ps_frame::refusal::PolarsResult;
use std::alloc::Global;
use std::collections::BTreeSet;

/// The numbers of nodes that are marked.
#[derive(Drop)]
pub struct Marks {
    numbers: BTreeSet<usize>,
}

impl Marks {
    /// No marks.
    pub fn new(alloc: Global) -> Marks
        ensures { (n : ℕ) → is_marked result n ≡ false }
    {
        Marks {
            numbers: BTreeSet::new(alloc),
        }
    }

    /// All numbers below a count.
    pub fn below(alloc: Global, count: usize) -> PolarsResult<Marks>
        ensures marked { IfOk result (λ m. (n : ℕ) → n < count → IsTrue (is_marked m n)) }
        ensures inside { IfOk result (λ m. (n : ℕ) → IsTrue (is_marked m n) → n < count) }
        ensures memory { OnErr result (result ≡ Err PolarsError.OutOfMemory) }
    {
        let mut marks = Marks::new(alloc);
        for number in 0..count {
            marks.mark(number)?;
        }
        Ok(marks)
    }

    /// Whether nothing is marked.
    pub fn is_empty(&self) -> bool
        ensures { IsTrue result ↔ ((n : ℕ) → is_marked self.now n ≡ false) }
    {
        self.numbers.is_empty()
    }

    /// Marks a number, if it isn't marked.
    pub fn mark(&mut self, number: usize) -> PolarsResult<()>
        ensures marked { OnOk result (IsTrue (is_marked self.new number)) }
        ensures others { OnOk result ((n : ℕ) → n ≢ number → is_marked self.new n ≡ is_marked self.old n) }
        ensures memory { OnErr result (result ≡ Err PolarsError.OutOfMemory) }
    {
        let _added = self.numbers.insert(number)?;
        Ok(())
    }

    /// Takes the least number off.
    pub fn take_first(&mut self) -> Option<usize>
        ensures taken { IfSome result (λ v. IsTrue (is_marked self.old v)) }
        ensures gone { IfSome result (λ v. is_marked self.new v ≡ false) }
        ensures others { IfSome result (λ v. (n : ℕ) → n ≢ v → is_marked self.new n ≡ is_marked self.old n) }
        ensures least { IfSome result (λ v. (n : ℕ) → IsTrue (is_marked self.new n) → v < n) }
        ensures nothing { IsNone result → (n : ℕ) → is_marked self.old n ≡ false }
        ensures stays { IsNone result → (n : ℕ) → is_marked self.new n ≡ false }
    {
        self.numbers.pop_first()
    }

    /// Takes the greatest number off.
    pub fn take_last(&mut self) -> Option<usize>
        ensures taken { IfSome result (λ v. IsTrue (is_marked self.old v)) }
        ensures gone { IfSome result (λ v. is_marked self.new v ≡ false) }
        ensures others { IfSome result (λ v. (n : ℕ) → n ≢ v → is_marked self.new n ≡ is_marked self.old n) }
        ensures greatest { IfSome result (λ v. (n : ℕ) → IsTrue (is_marked self.new n) → n < v) }
        ensures nothing { IsNone result → (n : ℕ) → is_marked self.old n ≡ false }
        ensures stays { IsNone result → (n : ℕ) → is_marked self.new n ≡ false }
    {
        self.numbers.pop_last()
    }
}
