//! The node of a graph that a physical node becomes.
ghost use Rattle.std.specs.Prelude.{◌≡◌, Err, IfOk, OnErr};
ghost use Rattle.ps_frame.specs.Trees.{tree_at};
ghost use Rattle.ps_frame.specs.declared.refusal.PolarsError.{PolarsError};
ghost use Rattle.ps_phys.specs.Shown.{inputs_of, kind_of};
ghost use Rattle.plan_graphs.specs.Made.{IsMadeOf};
ghost use Rattle.graph_parts.specs.SoundShapes.{IsOfSoundShape};
ghost use Rattle.graph_parts.specs.Read.{schemas_read};

use crate::kinds;
use keyed_slots::SlotMap;
use ps_frame::expr::AExpr;
use ps_frame::refusal::PolarsResult;
use ps_nodes::flow::FlowNode;
use ps_phys::phys::{PhysNode, PhysNodeKey, PhysNodeKind};
use pu_base::Arena;
use std::alloc::Global;

/// The node of a graph that a physical node becomes: of its kind, but a sort becomes a map over a whole table. It has
/// copies of the node's parameters, and of the schemas that it needs; the nodes that are read are only asked for theirs.
///
/// The node has to be one of a sound shape. Fails only for want of memory.
pub fn flow_node(
    alloc: Global,
    node: &PhysNode,
    phys: &SlotMap<PhysNodeKey, PhysNode>,
    expr_arena: &Arena<AExpr>,
) -> PolarsResult<FlowNode>
    requires { IsOfSoundShape (kind_of (tree_at expr_arena.now.items) node.now.kind) node.now.output_schema (schemas_read phys.now.slots (inputs_of node.now.kind)) }
    ensures made { IfOk result (IsMadeOf (kind_of (tree_at expr_arena.now.items) node.now.kind) node.now.output_schema (schemas_read phys.now.slots (inputs_of node.now.kind))) }
    ensures memory { OnErr result (result ≡ Err PolarsError.OutOfMemory) }
{
    let schema = &node.output_schema;
    match &node.kind {
        PhysNodeKind::InMemorySource { df } => kinds::source(alloc, df),
        PhysNodeKind::Select {
            input: _,
            selectors,
            extend_original,
        } => kinds::select(alloc, selectors, *extend_original, schema, expr_arena),
        PhysNodeKind::WithRowIndex {
            input: _,
            name,
            offset,
        } => kinds::row_index(alloc, name, *offset),
        PhysNodeKind::InputIndependentSelect { selectors } => {
            kinds::independent(alloc, selectors, expr_arena)
        }
        PhysNodeKind::Reduce { input: _, exprs } => {
            kinds::reduce(alloc, exprs, schema, expr_arena)
        }
        PhysNodeKind::StreamingSlice {
            input: _,
            offset,
            length,
        } => Ok(kinds::slice(*offset, *length)),
        PhysNodeKind::NegativeSlice {
            input: _,
            offset,
            length,
        } => Ok(kinds::negative_slice(offset, *length)),
        PhysNodeKind::Filter {
            input: _,
            predicate,
        } => kinds::filter(alloc, predicate, expr_arena),
        PhysNodeKind::SimpleProjection { input, columns } => {
            kinds::projection(alloc, phys, *input, columns)
        }
        PhysNodeKind::InMemorySink { input: _ } => kinds::sink(alloc, schema),
        PhysNodeKind::InMemoryMap { input, map } => {
            kinds::map(alloc, phys, *input, map, expr_arena)
        }
        PhysNodeKind::Map { input: _, map } => Ok(kinds::stream_map(map)),
        PhysNodeKind::Sort {
            input,
            by_column,
            slice,
            sort_options,
        } => kinds::sort(
            alloc,
            phys,
            *input,
            by_column,
            *slice,
            sort_options,
            expr_arena,
        ),
        PhysNodeKind::OrderedUnion { inputs: _ } => Ok(kinds::union()),
        PhysNodeKind::Zip {
            inputs,
            null_extend,
        } => kinds::zip(alloc, phys, inputs, *null_extend),
        PhysNodeKind::Multiplexer { input: _ } => Ok(kinds::multiplexer()),
        PhysNodeKind::GroupBy {
            input: _,
            key,
            aggs,
        } => kinds::group_by(alloc, key, aggs, schema, expr_arena),
        PhysNodeKind::EquiJoin {
            input_left,
            input_right,
            left_on,
            right_on,
            args,
        } => kinds::equi_join(
            alloc,
            phys,
            *input_left,
            *input_right,
            left_on,
            right_on,
            args,
            schema,
            expr_arena,
        ),
        PhysNodeKind::InMemoryJoin {
            input_left,
            input_right,
            left_on,
            right_on,
            args,
        } => kinds::join(
            alloc,
            phys,
            *input_left,
            *input_right,
            left_on,
            right_on,
            args,
            schema,
            expr_arena,
        ),
    }
}
