//! The graph that a physical plan becomes.
ghost use Rattle.std.specs.Prelude.{◌≡◌, ◌<◌, ◌+◌, ◌-◌, ◌^◌, Err, IfOk, IsSome, OnErr, OnOk, length, map};
ghost use Rattle.keyed_slots.specs.Slots.{value_at};
ghost use Rattle.ps_frame.specs.Functions.{Functions};
ghost use Rattle.ps_frame.specs.Trees.{tree_at};
ghost use Rattle.ps_frame.specs.declared.refusal.PolarsError.{PolarsError};
ghost use Rattle.ps_meaning.specs.Sound.{IsSound, all_inputs};
ghost use Rattle.ps_graph.specs.Complete.{IsComplete};
ghost use Rattle.ps_graph.specs.Shown.{IsLinked, standing_of};
ghost use Rattle.ps_nodes.specs.Seen.{HasPorts};
ghost use Rattle.ps_phys.specs.Shown.{ReadsWhatIsThere, nodes_of, shown};
ghost use Rattle.ps_phys.specs.Underway.{numbers_in};
ghost use Rattle.ps_phys.specs.Walks.{order_from};
ghost use Rattle.graph_parts.specs.Keyed.{IsKeyed};
ghost use Rattle.graph_parts.specs.Orders.{IsSoundOrder, ordered};
ghost use Rattle.plan_graphs.specs.Underway.{IsUnderway};
ghost use Rattle.plan_graphs.specs.Wiring.{IsBuiltOf};

use crate::flow_nodes::flow_node;
use graph_parts::keys::{Keys, note, ports};
use keyed_slots::{SecondaryMap, SlotMap};
use ps_frame::expr::AExpr;
use ps_frame::refusal::PolarsResult;
use ps_graph::graph::Graph;
use ps_graph::key::GraphNodeKey;
use ps_nodes::flow::FlowNode;
use ps_phys::order::leaving_order;
use ps_phys::phys::{PhysNode, PhysNodeKey};
use pu_base::Arena;
use std::alloc::Global;

/// Adds the node of a place of an order to the graph of those before it.
fn add_next(
    alloc: Global,
    phys: &SlotMap<PhysNodeKey, PhysNode>,
    expr_arena: &Arena<AExpr>,
    order: &[PhysNodeKey],
    place: usize,
    graph: &mut Graph<FlowNode>,
    keys: &mut Keys,
) -> PolarsResult<()>
    requires sound { IsSoundOrder (tree_at expr_arena.now.items) phys.now.slots order.now }
    requires place { place < length order.now }
    requires before { IsUnderway (ordered (tree_at expr_arena.now.items) phys.now.slots order.now) (numbers_in order.now) place graph.old keys.old.slots }
    ensures next { OnOk result (IsUnderway (ordered (tree_at expr_arena.now.items) phys.now.slots order.now) (numbers_in order.now) (place + 1) graph.new keys.new.slots) }
    ensures memory { OnErr result (result ≡ Err PolarsError.OutOfMemory) }
{
    let key = order[place];
    let Some(node) = phys.get(key) else {
        unreachable!();
    };
    let inputs = ports(alloc, keys, &node.kind)?;
    let compute = flow_node(alloc, node, phys, expr_arena)?;
    let number = graph.add_node(alloc, compute, node.origin, inputs.as_slice())?;
    note(keys, key, number)?;
    Ok(())
}

/// Adds the nodes of an order to a graph without nodes.
fn add_all(
    alloc: Global,
    phys: &SlotMap<PhysNodeKey, PhysNode>,
    expr_arena: &Arena<AExpr>,
    order: &[PhysNodeKey],
    graph: &mut Graph<FlowNode>,
    keys: &mut Keys,
) -> PolarsResult<()>
    requires sound { IsSoundOrder (tree_at expr_arena.now.items) phys.now.slots order.now }
    requires before { IsUnderway (ordered (tree_at expr_arena.now.items) phys.now.slots order.now) (numbers_in order.now) 0 graph.old keys.old.slots }
    ensures all { OnOk result (IsUnderway (ordered (tree_at expr_arena.now.items) phys.now.slots order.now) (numbers_in order.now) (length order.now) graph.new keys.new.slots) }
    ensures memory { OnErr result (result ≡ Err PolarsError.OutOfMemory) }
{
    for place in 0..order.len() {
        add_next(alloc, phys, expr_arena, order, place, graph, keys)?;
    }
    Ok(())
}

/// The graph that a physical plan becomes, and which of its nodes each physical node became.
///
/// It has a node for each physical node that the root reaches, in the order in which the printed plan numbers them, so that
/// each node comes behind those that it reads; and a pipe for each input, blocked on both ends. All nodes are new. A sort
/// becomes a map over a whole table.
///
/// The plan's shape has to be sound, and may have less than 2^32 - 1 nodes, and inputs in all. It takes time and memory for
/// each node, its inputs, its expressions and its columns. Fails only for want of memory.
pub fn physical_plan_to_graph(
    alloc: Global,
    root: PhysNodeKey,
    phys_sm: &SlotMap<PhysNodeKey, PhysNode>,
    expr_arena: &Arena<AExpr>,
) -> PolarsResult<(Graph<FlowNode>, SecondaryMap<PhysNodeKey, GraphNodeKey>)>
    requires root { IsSome (value_at phys_sm.now.slots root.0) }
    requires whole { ReadsWhatIsThere phys_sm.now.slots }
    requires sound { (F : Functions) × IsSound F (shown (tree_at expr_arena.now.items) phys_sm.now.slots root.0) }
    requires nodes { length (shown (tree_at expr_arena.now.items) phys_sm.now.slots root.0) < 2 ^ 32 - 1 }
    requires inputs { length (all_inputs (shown (tree_at expr_arena.now.items) phys_sm.now.slots root.0)) < 2 ^ 32 - 1 }
    ensures built { IfOk result (λ r. IsBuiltOf (shown (tree_at expr_arena.now.items) phys_sm.now.slots root.0) r.0) }
    ensures linked { IfOk result (λ r. IsLinked r.0) }
    ensures complete { IfOk result (λ r. IsComplete HasPorts (standing_of r.0)) }
    ensures keys { IfOk result (λ r. IsKeyed (order_from (nodes_of (tree_at expr_arena.now.items) phys_sm.now.slots) root.0) r.1.slots) }
    ensures memory { OnErr result (result ≡ Err PolarsError.OutOfMemory) }
{
    let order = leaving_order(alloc, phys_sm, root)?;
    let mut graph = Graph::with_capacity(alloc, order.len())?;
    let mut keys = SecondaryMap::new(alloc);
    add_all(
        alloc,
        phys_sm,
        expr_arena,
        order.as_slice(),
        &mut graph,
        &mut keys,
    )?;
    Ok((graph, keys))
}
