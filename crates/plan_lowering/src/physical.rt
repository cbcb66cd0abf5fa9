//! The physical plan of a valid plan.
ghost use Rattle.std.specs.Prelude.{◌≡◌, ◌+◌, ◌-◌, ◌<◌, ◌^◌, [], IfOk, IsSome, IsTrue, OnErr, OnOk, Err, length, ℕ};
ghost use Rattle.keyed_slots.specs.Slots.{value_at};
ghost use Rattle.ps_copies.specs.Copies.{KeepsTrees};
ghost use Rattle.ps_frame.specs.Functions.{Functions as FunctionsTold};
ghost use Rattle.ps_frame.specs.Trees.{Tree};
ghost use Rattle.ps_frame.specs.declared.refusal.PolarsError.{PolarsError};
ghost use Rattle.ps_fresh.specs.InPlans.{IsNameUnder};
ghost use Rattle.ps_fresh.specs.Known.{Remembers};
ghost use Rattle.ps_multiplexers.specs.Multiplexers.{with_multiplexers};
ghost use Rattle.ps_phys.specs.Shown.{ReadsWhatIsThere, inputs_of, nodes_of, shown};
ghost use Rattle.ps_phys.specs.Underway.{slot_inputs};
ghost use Rattle.ps_rules.specs.Names.{Knows};
ghost use Rattle.valid_plans.specs.Valid.{IsValidWith, plan_with};
ghost use Rattle.physical_plans.specs.PhysicalPlans.{IsPhysicalPlan};
ghost use Rattle.lowering_parts.specs.Gathered.{Begins, Later};
ghost use Rattle.plan_lowering.specs.Few.{AreFew};
ghost use Rattle.plan_lowering.specs.There.{AreFirstPorts, IsReadOnce, ReadsFirst};
ghost use Rattle.pu_base.specs.declared.arena.Node.{Node as ANode};

use crate::plans::lower_ir;
use keyed_slots::{Key, SlotMap};
use ps_frame::expr::AExpr;
use ps_frame::functions::Functions;
use ps_frame::refusal::{PolarsError, PolarsResult};
use ps_fresh::expr_cache::ExprCache;
use ps_fresh::lowering::Lowering;
use ps_fresh::name_source::NameSource;
use ps_multiplexers::laws::no_stream_is_taken_twice;
use ps_multiplexers::multiplexers::insert_multiplexers;
use ps_phys::phys::{PhysNode, PhysNodeKey, PhysNodeKind};
use pu_base::Arena;
use std::alloc::Global;
use std::collections::BTreeMap;
use valid_plans::valid::Valid;

/// The physical nodes of a valid plan, and the key of its root: the nodes that the root reaches are those that the rules
/// of lowering give, and no stream has two readers among them. There are fewer than 2^31 nodes, and they have fewer than
/// 2^31 inputs in all. Of the functions it asks whether one streams, and calls none.
///
/// What stood in the arena stands after every answer. Fails only for want of memory, also where there would be more nodes
/// or inputs; expressions may then have been added.
pub fn build_physical_plan<F: Functions>(
    alloc: Global,
    valid: &Valid,
    expr_arena: &mut Arena<AExpr>,
    functions: &F,
) -> PolarsResult<(SlotMap<PhysNodeKey, PhysNode>, PhysNodeKey)>
    requires { IsValidWith (F.told functions.now) valid.now expr_arena.old.items }
    ensures plan { IfOk result (λ r. Later expr_arena.new.items (λ f. IsPhysicalPlan (F.told functions.now) (plan_with valid.now expr_arena.old.items) (shown f r.0.slots r.1.0))) }
    ensures root { IfOk result (λ r. IsSome (value_at r.0.slots r.1.0)) }
    ensures whole { IfOk result (λ r. ReadsWhatIsThere r.0.slots) }
    ensures once { (f : ANode → Tree) → IfOk result (λ r. IsReadOnce r.1.0 (nodes_of f r.0.slots)) }
    ensures few { (f : ANode → Tree) → IfOk result (λ r. AreFew (nodes_of f r.0.slots)) }
    ensures entries { Begins expr_arena.old.items expr_arena.new.items }
    ensures kept { KeepsTrees expr_arena.old.items expr_arena.new.items }
    ensures memory { OnErr result (result ≡ Err PolarsError.OutOfMemory) }
{
    let mut low = begun(alloc, valid, expr_arena)?;
    let mut cache_nodes = BTreeMap::new(alloc);
    let stream = lower_ir(
        alloc,
        valid.root(),
        valid,
        expr_arena,
        functions,
        &mut low,
        &mut cache_nodes,
    )?;
    // That the counter has 64 bits is why fresh names differ.
    let _counter = low.names.counter();
    share(alloc, stream.node, &mut low.phys_sm)?;
    let Lowering { phys_sm, .. } = low;
    Ok((phys_sm, stream.node))
}

// A lowering that has made nothing yet.
fn begun(alloc: Global, valid: &Valid, exprs: &Arena<AExpr>) -> PolarsResult<Lowering>
    requires { (F : FunctionsTold) × IsValidWith F valid.now exprs.now.items }
    ensures names { IfOk result (λ low. (F : FunctionsTold) → IsValidWith F valid.now exprs.now.items → Knows low.names (IsNameUnder F (plan_with valid.now exprs.now.items))) }
    ensures first { IfOk result (λ low. low.names.next ≡ 0) }
    ensures nodes { IfOk result (λ low. low.phys_sm.slots ≡ []) }
    ensures cache { IfOk result (λ low. Remembers exprs.now.items low.cache) }
    ensures memory { OnErr result (result ≡ Err PolarsError.OutOfMemory) }
{
    let names = NameSource::new(alloc, valid, exprs)?;
    let cache = ExprCache::with_capacity(alloc, exprs.len())?;
    let phys_sm = SlotMap::with_capacity_and_key(alloc, valid.ir().len())?;
    Ok(Lowering {
        phys_sm,
        cache,
        names,
        origin: valid.root(),
    })
}

/// The most nodes that get multiplexers: with as many more their keys have 32 bits.
const MOST_NODES: usize = (1 << 31) - 2;

/// The most nodes of a physical plan, multiplexers too, and the most inputs of all of them together.
const MOST_IN_ALL: usize = (1 << 31) - 1;

// Puts multiplexers behind the nodes that several nodes read.
fn share(
    alloc: Global,
    root: PhysNodeKey,
    phys_sm: &mut SlotMap<PhysNodeKey, PhysNode>,
) -> PolarsResult<()>
    ensures nodes { (f : ANode → Tree) → OnOk result (nodes_of f phys_sm.new.slots ≡ with_multiplexers root.0 (nodes_of f phys_sm.old.slots)) }
    ensures root { OnOk result (IsSome (value_at phys_sm.new.slots root.0)) }
    ensures whole { OnOk result (ReadsWhatIsThere phys_sm.new.slots) }
    ensures once { (f : ANode → Tree) → OnOk result (IsReadOnce root.0 (nodes_of f phys_sm.new.slots)) }
    ensures few { (f : ANode → Tree) → OnOk result (AreFew (nodes_of f phys_sm.new.slots)) }
    ensures memory { OnErr result (result ≡ Err PolarsError.OutOfMemory) }
{
    if !can_be_shared(root, phys_sm) {
        return Err(PolarsError::OutOfMemory);
    }
    // A law, from which the clause on readers comes; it does nothing.
    no_stream_is_taken_twice();
    insert_multiplexers(alloc, root, phys_sm)?;
    if !are_few(phys_sm) {
        return Err(PolarsError::OutOfMemory);
    }
    Ok(())
}

// Whether nodes may get multiplexers. The rules let each node read the first ports of nodes before it, and a valid plan
// has far fewer nodes than there are keys. That isn't proved of them, so it is looked at, once for each input.
fn can_be_shared(root: PhysNodeKey, phys_sm: &SlotMap<PhysNodeKey, PhysNode>) -> bool
    ensures root { IsTrue result → IsSome (value_at phys_sm.now.slots root.0) }
    ensures room { IsTrue result → length phys_sm.now.slots + length phys_sm.now.slots < 2 ^ 32 - 1 }
    ensures reads { IsTrue result → (n : ℕ) → ReadsFirst phys_sm.now.slots n }
{
    if phys_sm.inserts() > MOST_NODES {
        return false;
    }
    if !phys_sm.contains_key(root) {
        return false;
    }
    is_whole(phys_sm)
}

// Whether all that a node reads are first ports of nodes that are there.
fn reads_first_ports(phys_sm: &SlotMap<PhysNodeKey, PhysNode>, kind: &PhysNodeKind) -> bool
    ensures { IsTrue result → AreFirstPorts phys_sm.now.slots (inputs_of kind.now) }
{
    let mut place = 0usize;
    while let Some(input) = kind.input(place) {
        if input.port != 0 || !phys_sm.contains_key(input.node) {
            return false;
        }
        place += 1;
    }
    true
}

// The same of the node of a number, if there is one.
fn is_fit(phys_sm: &SlotMap<PhysNodeKey, PhysNode>, number: usize) -> bool
    ensures { IsTrue result → ReadsFirst phys_sm.now.slots number }
{
    let Ok(number) = u32::try_from(number) else {
        return false;
    };
    match phys_sm.get(PhysNodeKey::from_number(number)) {
        Some(node) => reads_first_ports(phys_sm, &node.kind),
        None => true,
    }
}

// The same of every node.
fn is_whole(phys_sm: &SlotMap<PhysNodeKey, PhysNode>) -> bool
    ensures { IsTrue result → (n : ℕ) → ReadsFirst phys_sm.now.slots n }
{
    for number in 0..phys_sm.inserts() {
        if !is_fit(phys_sm, number) {
            return false;
        }
    }
    true
}

// How many streams a node reads.
fn inputs_read(kind: &PhysNodeKind) -> usize
    ensures { result ≡ length (inputs_of kind.now) }
{
    let mut place = 0usize;
    while kind.input(place).is_some() {
        place += 1;
    }
    place
}

// The same of the node of a number: none where there is no node.
fn inputs_at(phys_sm: &SlotMap<PhysNodeKey, PhysNode>, number: u32) -> usize
    ensures { result ≡ length (slot_inputs phys_sm.now.slots number) }
{
    match phys_sm.get(PhysNodeKey::from_number(number)) {
        Some(node) => inputs_read(&node.kind),
        None => 0,
    }
}

// Whether there are no more nodes, and inputs of all of them together, than a physical plan may have. A valid plan has far
// fewer. That isn't proved of it, so it is looked at, once for each input.
fn are_few(phys_sm: &SlotMap<PhysNodeKey, PhysNode>) -> bool
    ensures { IsTrue result → (f : ANode → Tree) → AreFew (nodes_of f phys_sm.now.slots) }
{
    let nodes = phys_sm.inserts();
    if nodes > MOST_IN_ALL {
        return false;
    }
    let mut room = MOST_IN_ALL;
    for number in 0..nodes {
        let Some(rest) = room.checked_sub(inputs_at(phys_sm, number as u32)) else {
            return false;
        };
        room = rest;
    }
    true
}
