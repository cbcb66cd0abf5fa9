//! How the nodes of a plan are read.
ghost use Rattle.std.specs.Prelude.{◌≡◌, [], Err, IfOk, IsSome, IsTrue, OnErr, get_or, length};
ghost use Rattle.keyed_slots.specs.Slots.{value_at};
ghost use Rattle.pu_base.specs.declared.arena.Node.{Node as Number};
ghost use Rattle.ps_frame.specs.Trees.{Tree};
ghost use Rattle.ps_frame.specs.declared.refusal.PolarsError.{PolarsError};
ghost use Rattle.ps_meaning.specs.Sound.{EachNode, HasOneReaderEach, HasReaders, all_inputs};
ghost use Rattle.ps_phys.specs.Shown.{ReadsWhatIsThere, kind_of, shown};
ghost use Rattle.ps_phys.specs.Underway.{AreThere};
ghost use Rattle.plan_readers.specs.Ordered.{ordered};
ghost use Rattle.plan_readers.specs.Readers.{IsReadAs};

use crate::places::{inputs_in, places_in};
use crate::readers::{Ports, are_read_once, readers_of};
use keyed_slots::SlotMap;
use ps_frame::refusal::PolarsResult;
use ps_phys::order::leaving_order;
use ps_phys::phys::{PhysNode, PhysNodeKey, PhysNodeKind};
use std::alloc::Global;

/// What a look at a plan's readers tells: whether each port has one, how many nodes the root reaches, and how many inputs these
/// have in all.
#[derive(Clone, Copy, Debug, PartialEq, Eq)]
pub struct PlanReaders {
    pub one_each: bool,
    pub nodes: usize,
    pub inputs: usize,
}

// Whether a node of the kind may have so many readers.
fn takes_readers(kind: &PhysNodeKind, readers: usize) -> bool
    ensures { IsTrue result → (f : Number → Tree) → HasReaders (kind_of f kind.now) readers }
{
    match kind {
        PhysNodeKind::Multiplexer { .. } => readers >= 1,
        PhysNodeKind::InMemorySink { .. } => readers == 0,
        PhysNodeKind::InMemorySource { .. }
        | PhysNodeKind::Select { .. }
        | PhysNodeKind::WithRowIndex { .. }
        | PhysNodeKind::InputIndependentSelect { .. }
        | PhysNodeKind::Reduce { .. }
        | PhysNodeKind::StreamingSlice { .. }
        | PhysNodeKind::NegativeSlice { .. }
        | PhysNodeKind::Filter { .. }
        | PhysNodeKind::SimpleProjection { .. }
        | PhysNodeKind::InMemoryMap { .. }
        | PhysNodeKind::Map { .. }
        | PhysNodeKind::Sort { .. }
        | PhysNodeKind::OrderedUnion { .. }
        | PhysNodeKind::Zip { .. }
        | PhysNodeKind::GroupBy { .. }
        | PhysNodeKind::EquiJoin { .. }
        | PhysNodeKind::InMemoryJoin { .. } => readers == 1,
    }
}

// Whether these are the ports of a node of the kind that are read.
fn is_read_as(alloc: Global, kind: &PhysNodeKind, ports: &Ports) -> PolarsResult<bool>
    ensures read { IfOk result (λ is. IsTrue is → (f : Number → Tree) → IsReadAs (kind_of f kind.now) ports.now) }
    ensures memory { OnErr result (result ≡ Err PolarsError.OutOfMemory) }
{
    let takes = takes_readers(kind, ports.count());
    if !takes {
        return Ok(false);
    }
    are_read_once(alloc, ports.as_slice())
}

// Whether each node of an order is read as its kind asks.
fn are_read(
    alloc: Global,
    phys: &SlotMap<PhysNodeKey, PhysNode>,
    order: &[PhysNodeKey],
    readers: &[Ports],
) -> PolarsResult<bool>
    requires { length readers.now ≡ length order.now }
    ensures read { IfOk result (λ read. IsTrue read → (f : Number → Tree) → EachNode (ordered f phys.now.slots order.now) (λ n p. IsReadAs p.kind (get_or readers.now n []))) }
    ensures memory { OnErr result (result ≡ Err PolarsError.OutOfMemory) }
{
    for number in 0..order.len() {
        let Some(node) = phys.get(order[number]) else {
            return Ok(false);
        };
        let read = is_read_as(alloc, &node.kind, &readers[number])?;
        if !read {
            return Ok(false);
        }
    }
    Ok(true)
}

// Looks at the readers of the nodes of an order.
fn check_order(
    alloc: Global,
    phys: &SlotMap<PhysNodeKey, PhysNode>,
    order: &[PhysNodeKey],
) -> PolarsResult<PlanReaders>
    requires there { AreThere phys.now.slots order.now }
    ensures one_each { (f : Number → Tree) → IfOk result (λ r. IsTrue r.one_each → HasOneReaderEach (ordered f phys.now.slots order.now)) }
    ensures nodes { (f : Number → Tree) → IfOk result (λ r. r.nodes ≡ length (ordered f phys.now.slots order.now)) }
    ensures inputs { (f : Number → Tree) → IfOk result (λ r. r.inputs ≡ length (all_inputs (ordered f phys.now.slots order.now))) }
    ensures memory { OnErr result (result ≡ Err PolarsError.OutOfMemory) }
{
    let places = places_in(alloc, order)?;
    let inputs = inputs_in(alloc, phys, &places, order)?;
    let readers = readers_of(alloc, order.len(), inputs.as_slice())?;
    let read = are_read(alloc, phys, order, readers.as_slice())?;
    Ok(PlanReaders {
        one_each: read,
        nodes: order.len(),
        inputs: inputs.len(),
    })
}

/// Looks at the readers of all nodes that a root reaches: whether each has as many as its kind asks for, none of a sink, one of each
/// other node but a multiplexer, which has one at least; and whether each of a node's ports, from 0 on, has one of them.
///
/// It takes time and memory for each insert, each node and each input. Fails only for want of memory.
pub fn check_readers(
    alloc: Global,
    phys: &SlotMap<PhysNodeKey, PhysNode>,
    root: PhysNodeKey,
) -> PolarsResult<PlanReaders>
    requires root { IsSome (value_at phys.now.slots root.0) }
    requires whole { ReadsWhatIsThere phys.now.slots }
    ensures one_each { (f : Number → Tree) → IfOk result (λ r. IsTrue r.one_each → HasOneReaderEach (shown f phys.now.slots root.0)) }
    ensures nodes { (f : Number → Tree) → IfOk result (λ r. r.nodes ≡ length (shown f phys.now.slots root.0)) }
    ensures inputs { (f : Number → Tree) → IfOk result (λ r. r.inputs ≡ length (all_inputs (shown f phys.now.slots root.0))) }
    ensures memory { OnErr result (result ≡ Err PolarsError.OutOfMemory) }
{
    let order = leaving_order(alloc, phys, root)?;
    check_order(alloc, phys, order.as_slice())
}
