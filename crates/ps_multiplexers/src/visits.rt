//! The walk from a root over physical nodes, by a stack.
ghost use Rattle.std.specs.Prelude.{◌≡◌, ◌<◌, ◌++◌, ◌∷◌, [], ℕ, List, Option, IfOk, IsSome, OnErr, OnOk, Err, fold, length};
ghost use Rattle.std.specs.List.{AllByRecursion};
ghost use Rattle.keyed_slots.specs.Slots.{value_at};
ghost use Rattle.ps_frame.specs.declared.refusal.PolarsError.{PolarsError};
ghost use Rattle.ps_multiplexers.specs.Multiplexers.{Waiting, push_if_new as pushed_if_new};
ghost use Rattle.ps_multiplexers.specs.Visiting.{IsVisited, IsVisiting, Waits, left_to_take};
ghost use Rattle.ps_phys.specs.Shown.{ReadsWhatIsThere, inputs_of};
ghost use Rattle.ps_phys.specs.Underway.{AreThere, numbers_in};
ghost use Rattle.ps_phys.specs.Walks.{Stream, numbers_of};

use keyed_slots::{SecondaryMap, SlotMap};
use ps_frame::refusal::{PolarsError, PolarsResult};
use ps_phys::phys::{PhysNode, PhysNodeKey, PhysNodeKind};
use std::alloc::Global;

/// A walk: the nodes that were ever pushed, those that wait (the last one is on top), those that were taken, in order, and
/// the nodes that these read, in order.
#[derive(Drop)]
pub(crate) struct Visits {
    pushed: SecondaryMap<PhysNodeKey, ()>,
    waiting: Vec<PhysNodeKey>,
    pub(crate) taken: Vec<PhysNodeKey>,
    pub(crate) read: Vec<PhysNodeKey>,
}

impl Visits {
    /// Pushes a node, unless it was pushed before.
    fn push_if_new(&mut self, node: PhysNodeKey) -> PolarsResult<()>
        ensures waits { (w : Waiting) → Waits self.old.pushed.slots self.old.waiting.items w → OnOk result (Waits self.new.pushed.slots self.new.waiting.items (pushed_if_new w node.0)) }
        ensures left { (count : ℕ) → node.0 < count → OnOk result (left_to_take count self.new.pushed.slots self.new.waiting.items ≡ left_to_take count self.old.pushed.slots self.old.waiting.items) }
        ensures there { (slots : List (Option PhysNode)) → IsSome (value_at slots node.0) → AreThere slots self.old.waiting.items → OnOk result (AreThere slots self.new.waiting.items) }
        ensures taken { OnOk result (self.new.taken.items ≡ self.old.taken.items) }
        ensures read { OnOk result (self.new.read.items ≡ self.old.read.items) }
        ensures memory { OnErr result (result ≡ Err PolarsError.OutOfMemory) }
    {
        if self.pushed.contains_key(node) {
            return Ok(());
        }
        self.pushed.insert(node, ())?;
        self.waiting.push(node)?;
        Ok(())
    }

    /// Notes the nodes that a kind of node reads, and pushes those that are new, in order.
    fn read_inputs(&mut self, kind: &PhysNodeKind) -> PolarsResult<()>
        ensures waits { (w : Waiting) → Waits self.old.pushed.slots self.old.waiting.items w → OnOk result (Waits self.new.pushed.slots self.new.waiting.items (fold pushed_if_new w (numbers_of (inputs_of kind.now)))) }
        ensures left { (count : ℕ) → AllByRecursion (λ (i : Stream). i.0 < count) (inputs_of kind.now) → OnOk result (left_to_take count self.new.pushed.slots self.new.waiting.items ≡ left_to_take count self.old.pushed.slots self.old.waiting.items) }
        ensures there { (slots : List (Option PhysNode)) → AllByRecursion (λ (i : Stream). IsSome (value_at slots i.0)) (inputs_of kind.now) → AreThere slots self.old.waiting.items → OnOk result (AreThere slots self.new.waiting.items) }
        ensures taken { OnOk result (self.new.taken.items ≡ self.old.taken.items) }
        ensures read { OnOk result (numbers_in self.new.read.items ≡ numbers_in self.old.read.items ++ numbers_of (inputs_of kind.now)) }
        ensures memory { OnErr result (result ≡ Err PolarsError.OutOfMemory) }
    {
        let mut place = 0;
        while let Some(input) = kind.input(place) {
            self.read.push(input.node)?;
            self.push_if_new(input.node)?;
            place += 1;
        }
        Ok(())
    }

    /// Takes a node that was on top.
    fn take(&mut self, phys: &SlotMap<PhysNodeKey, PhysNode>, node: PhysNodeKey) -> PolarsResult<()>
        requires there { IsSome (value_at phys.now.slots node.0) }
        requires whole { ReadsWhatIsThere phys.now.slots }
        ensures visiting { (root : ℕ) → IsVisiting phys.now.slots root self.old.pushed.slots (self.old.waiting.items ++ node ∷ []) self.old.taken.items self.old.read.items → OnOk result (IsVisiting phys.now.slots root self.new.pushed.slots self.new.waiting.items self.new.taken.items self.new.read.items) }
        ensures waiting { AreThere phys.now.slots self.old.waiting.items → OnOk result (AreThere phys.now.slots self.new.waiting.items) }
        ensures left { OnOk result (left_to_take (length phys.now.slots) self.new.pushed.slots self.new.waiting.items ≡ left_to_take (length phys.now.slots) self.old.pushed.slots self.old.waiting.items) }
        ensures memory { OnErr result (result ≡ Err PolarsError.OutOfMemory) }
    {
        let Some(entry) = phys.get(node) else {
            unreachable!();
        };
        self.taken.push(node)?;
        self.read_inputs(&entry.kind)?;
        Ok(())
    }

    /// Takes nodes until none waits.
    fn run(&mut self, phys: &SlotMap<PhysNodeKey, PhysNode>) -> PolarsResult<()>
        requires whole { ReadsWhatIsThere phys.now.slots }
        requires there { AreThere phys.now.slots self.old.waiting.items }
        ensures visited { (root : ℕ) → IsVisiting phys.now.slots root self.old.pushed.slots self.old.waiting.items self.old.taken.items self.old.read.items → OnOk result (IsVisited phys.now.slots root self.new.taken.items self.new.read.items) }
        ensures memory { OnErr result (result ≡ Err PolarsError.OutOfMemory) }
    {
        while let Some(node) = self.waiting.pop() {
            self.take(phys, node)?;
        }
        Ok(())
    }
}

/// The walk from a root: the nodes that it reaches, and the nodes that these read, in the order in which it comes to them.
pub(crate) fn walk_from(
    alloc: Global,
    phys: &SlotMap<PhysNodeKey, PhysNode>,
    root: PhysNodeKey,
) -> PolarsResult<Visits>
    requires root { IsSome (value_at phys.now.slots root.0) }
    requires whole { ReadsWhatIsThere phys.now.slots }
    ensures visited { IfOk result (λ v. IsVisited phys.now.slots root.0 v.taken.items v.read.items) }
    ensures memory { OnErr result (result ≡ Err PolarsError.OutOfMemory) }
{
    let mut visits = Visits {
        pushed: SecondaryMap::new(alloc),
        waiting: Vec::new(alloc),
        taken: Vec::new(alloc),
        read: Vec::new(alloc),
    };
    visits.pushed.insert(root, ())?;
    visits.waiting.push(root)?;
    visits.run(phys)?;
    Ok(visits)
}
