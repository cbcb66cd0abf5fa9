//! The places of nodes in the order in which a plan numbers them, and the inputs that are told by them.
ghost use Rattle.std.specs.Prelude.{◌≡◌, ◌<◌, ◌++◌, ◌∷◌, [], ℕ, List, Err, IfOk, IsTrue, OnErr, OnOk, length, map};
ghost use Rattle.pu_base.specs.declared.arena.Node.{Node as Number};
ghost use Rattle.ps_frame.specs.Trees.{Tree};
ghost use Rattle.ps_frame.specs.declared.refusal.PolarsError.{PolarsError};
ghost use Rattle.ps_meaning.specs.Sound.{all_inputs};
ghost use Rattle.ps_phys.specs.Placed.{IsPlaced, placed};
ghost use Rattle.ps_phys.specs.Shown.{inputs_of};
ghost use Rattle.ps_phys.specs.Underway.{AreThere, numbers_in};
ghost use Rattle.plan_readers.specs.Ordered.{AreEarlier, ordered};

use keyed_slots::{SecondaryMap, SlotMap};
use ps_frame::refusal::PolarsResult;
use ps_phys::phys::{PhysNode, PhysNodeKey, PhysNodeKind, PhysStream};
use std::alloc::Global;

/// The places of nodes in an order.
pub type Places = SecondaryMap<PhysNodeKey, usize>;

// Notes the place of a node behind those that have theirs, unless it stands among them.
fn note_place(places: &mut Places, key: PhysNodeKey, place: usize) -> PolarsResult<()>
    ensures placed { (before : List ℕ) → place ≡ length before → IsPlaced before places.old.slots → OnOk result (IsPlaced (before ++ key.0 ∷ []) places.new.slots) }
    ensures memory { OnErr result (result ≡ Err PolarsError.OutOfMemory) }
{
    if places.contains_key(key) {
        return Ok(());
    }
    places.insert(key, place)?;
    Ok(())
}

/// The first place of each node of an order.
///
/// Fails only for want of memory.
pub fn places_in(alloc: Global, order: &[PhysNodeKey]) -> PolarsResult<Places>
    ensures places { IfOk result (λ places. IsPlaced (numbers_in order.now) places.slots) }
    ensures memory { OnErr result (result ≡ Err PolarsError.OutOfMemory) }
{
    let mut places = SecondaryMap::new(alloc);
    for place in 0..order.len() {
        note_place(&mut places, order[place], place)?;
    }
    Ok(places)
}

// An input by the place of its node, or by this number where its node has none.
fn placed(places: &Places, count: usize, input: PhysStream) -> (usize, usize)
    ensures { result ≡ placed places.now.slots count (input.node.0, input.port) }
{
    match places.get(input.node) {
        Some(place) => (*place, input.port),
        None => (count, input.port),
    }
}

/// Whether each input of a node is that of a node with a place before this one.
pub fn are_earlier(places: &Places, kind: &PhysNodeKind, before: usize) -> bool
    ensures { IsTrue result → AreEarlier places.now.slots before (inputs_of kind.now) }
{
    let mut number = 0;
    while let Some(input) = kind.input(number) {
        let (place, _) = placed(places, before, input);
        if place >= before {
            return false;
        }
        number += 1;
    }
    true
}

// Adds the inputs of a node, told by places.
fn push_inputs(
    places: &Places,
    count: usize,
    kind: &PhysNodeKind,
    inputs: &mut Vec<(usize, usize)>,
) -> PolarsResult<()>
    ensures pushed { OnOk result (inputs.new.items ≡ inputs.old.items ++ map (placed places.now.slots count) (inputs_of kind.now)) }
    ensures memory { OnErr result (result ≡ Err PolarsError.OutOfMemory) }
{
    let mut number = 0;
    while let Some(input) = kind.input(number) {
        let told = placed(places, count, input);
        inputs.push(told)?;
        number += 1;
    }
    Ok(())
}

/// All inputs of the nodes of an order, node by node, told by the places of these nodes.
///
/// Fails only for want of memory.
pub fn inputs_in(
    alloc: Global,
    phys: &SlotMap<PhysNodeKey, PhysNode>,
    places: &Places,
    order: &[PhysNodeKey],
) -> PolarsResult<Vec<(usize, usize)>>
    requires places { IsPlaced (numbers_in order.now) places.now.slots }
    requires there { AreThere phys.now.slots order.now }
    ensures inputs { (f : Number → Tree) → IfOk result (λ inputs. inputs.items ≡ all_inputs (ordered f phys.now.slots order.now)) }
    ensures memory { OnErr result (result ≡ Err PolarsError.OutOfMemory) }
{
    let mut inputs = Vec::new(alloc);
    for number in 0..order.len() {
        let Some(node) = phys.get(order[number]) else {
            unreachable!();
        };
        push_inputs(places, order.len(), &node.kind, &mut inputs)?;
    }
    Ok(inputs)
}
