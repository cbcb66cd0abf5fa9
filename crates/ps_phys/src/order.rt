//! The order in which a walk from a root leaves the nodes that it meets.
ghost use Rattle.std.specs.Prelude.{◌≡◌, ◌+◌, ◌<◌, ◌^◌, ◌++◌, ◌∷◌, [], ℕ, Some, IfOk, IfSome, IsSome, MatchOption, OnErr, OnOk, Err, length, option_map, slice_get};
ghost use Rattle.keyed_slots.specs.Slots.{Updates, value_at};
ghost use Rattle.pu_base.specs.declared.arena.Node.{Node};
ghost use Rattle.ps_frame.specs.Trees.{Tree};
ghost use Rattle.ps_frame.specs.declared.refusal.PolarsError.{PolarsError};
ghost use Rattle.ps_phys.specs.Shown.{ReadsWhatIsThere, nodes_of, stream_of};
ghost use Rattle.ps_phys.specs.Underway.{AreLeft, AreThere, IsUnderway, looks_left, numbers_in, slot_inputs, slot_reads};
ghost use Rattle.ps_phys.specs.Walks.{order_from};

use crate::phys::{PhysNode, PhysNodeKey, PhysStream};
use keyed_slots::{SecondaryMap, SlotMap};
use ps_frame::refusal::{PolarsError, PolarsResult};
use std::alloc::Global;

/// A node on the way from the root, with the place of the input that is looked at next.
#[derive(Clone, Copy, Debug, PartialEq, Eq)]
struct Open {
    node: PhysNodeKey,
    place: usize,
}

/// The stream that a node reads at a place, if it reads so many.
fn input_at(
    phys: &SlotMap<PhysNodeKey, PhysNode>,
    node: PhysNodeKey,
    place: usize,
) -> Option<PhysStream>
    ensures stream { option_map stream_of result ≡ slice_get (slot_inputs phys.now.slots node.0) place }
    ensures bounded { IfSome result (λ _. place + 1 < 2 ^ 64) }
{
    phys.get(node)?.kind.input(place)
}

/// A walk: the nodes that it has met, those on the way to the one where it stands, and those that it has left.
#[derive(Drop)]
struct Walk {
    met: SecondaryMap<PhysNodeKey, ()>,
    way: Vec<Open>,
    left: Vec<PhysNodeKey>,
}

impl Walk {
    /// Leaves a node; answers the node before it on the way, if any.
    fn go_back(&mut self, node: PhysNodeKey) -> PolarsResult<Option<Open>>
        ensures met { OnOk result (self.new.met.slots ≡ self.old.met.slots) }
        ensures left { OnOk result (self.new.left.items ≡ self.old.left.items ++ node ∷ []) }
        ensures memory { OnErr result (result ≡ Err PolarsError.OutOfMemory) }
        ensures way { IfOk result (λ r. MatchOption r ((self.old.way.items ≡ []) × (self.new.way.items ≡ [])) (λ b. self.old.way.items ≡ self.new.way.items ++ b ∷ [])) }
    {
        self.left.push(node)?;
        Ok(self.way.pop())
    }

    /// Meets a node, from the one where the walk stands, to which it comes back at this place.
    fn go_down(&mut self, back: Open, node: PhysNodeKey) -> PolarsResult<Open>
        ensures met { OnOk result (Updates self.old.met.slots self.new.met.slots node.0 (Some tt)) }
        ensures left { OnOk result (self.new.left.items ≡ self.old.left.items) }
        ensures way { OnOk result (self.new.way.items ≡ self.old.way.items ++ back ∷ []) }
        ensures memory { OnErr result (result ≡ Err PolarsError.OutOfMemory) }
        ensures down { IfOk result (λ r. r ≡ record { node = node; place = 0 }) }
    {
        self.met.insert(node, ())?;
        self.way.push(back)?;
        Ok(Open { node, place: 0 })
    }

    /// Looks at the next input of the node where the walk stands, and answers where it then stands, if it goes on.
    fn look(
        &mut self,
        phys: &SlotMap<PhysNodeKey, PhysNode>,
        at: Open,
    ) -> PolarsResult<Option<Open>>
        requires whole { ReadsWhatIsThere phys.now.slots }
        ensures found { (root : ℕ) → IsUnderway phys.now.slots root self.old.met.slots self.old.way.items self.old.left.items at → IfOk result (λ r. MatchOption r (AreLeft phys.now.slots root self.new.left.items) (λ to. IsUnderway phys.now.slots root self.new.met.slots self.new.way.items self.new.left.items to)) }
        ensures memory { OnErr result (result ≡ Err PolarsError.OutOfMemory) }
        ensures looks { IfOk result (λ r. IfSome r (λ to. looks_left (slot_reads phys.now.slots) (length phys.now.slots) self.new.met.slots self.new.way.items to < looks_left (slot_reads phys.now.slots) (length phys.now.slots) self.old.met.slots self.old.way.items at)) }
    {
        match input_at(phys, at.node, at.place) {
            None => {
                let back = self.go_back(at.node)?;
                Ok(back)
            }
            Some(input) => {
                let next = Open {
                    node: at.node,
                    place: at.place + 1,
                };
                if self.met.contains_key(input.node) {
                    return Ok(Some(next));
                }
                let down = self.go_down(next, input.node)?;
                Ok(Some(down))
            }
        }
    }

    /// Goes on from where the walk stands, until all is left.
    fn run(&mut self, phys: &SlotMap<PhysNodeKey, PhysNode>, start: Open) -> PolarsResult<()>
        requires whole { ReadsWhatIsThere phys.now.slots }
        ensures left { (root : ℕ) → IsUnderway phys.now.slots root self.old.met.slots self.old.way.items self.old.left.items start → OnOk result (AreLeft phys.now.slots root self.new.left.items) }
        ensures memory { OnErr result (result ≡ Err PolarsError.OutOfMemory) }
    {
        let mut at = start;
        loop {
            // A match and no `?`: so what a look found is handed on as it stands.
            match self.look(phys, at) {
                Ok(Some(next)) => at = next,
                Ok(None) => return Ok(()),
                Err(error) => return Err(error),
            }
        }
    }
}

/// The nodes that a root reaches, in the order in which a walk from there leaves them: what a node reads before it, in
/// order, and each node once. By this order they are numbered.
///
/// It takes time and memory for each insert and each input. It fails only for want of memory.
pub fn leaving_order(
    alloc: Global,
    phys: &SlotMap<PhysNodeKey, PhysNode>,
    root: PhysNodeKey,
) -> PolarsResult<Vec<PhysNodeKey>>
    requires root { IsSome (value_at phys.now.slots root.0) }
    requires whole { ReadsWhatIsThere phys.now.slots }
    ensures order { (f : Node → Tree) → IfOk result (λ order. numbers_in order.items ≡ order_from (nodes_of f phys.now.slots) root.0) }
    ensures there { IfOk result (λ order. AreThere phys.now.slots order.items) }
    ensures memory { OnErr result (result ≡ Err PolarsError.OutOfMemory) }
{
    let mut walk = Walk {
        met: SecondaryMap::new(alloc),
        way: Vec::new(alloc),
        left: Vec::new(alloc),
    };
    walk.met.insert(root, ())?;
    let start = Open {
        node: root,
        place: 0,
    };
    walk.run(phys, start)?;
    let Walk {
        met: _,
        way: _,
        left,
    } = walk;
    Ok(left)
}
