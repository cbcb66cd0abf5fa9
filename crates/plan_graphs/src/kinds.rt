//! The nodes of a graph, by the kinds of the physical nodes of which they are made.
ghost use Rattle.std.specs.Prelude.{◌≡◌, ◌++◌, ◌∷◌, [], Err, IfOk, List, OnErr};
ghost use Rattle.std.specs.List.{AllByRecursion};
ghost use Rattle.keyed_slots.specs.Slots.{value_at};
ghost use Rattle.pu_base.specs.declared.arena.Node.{Node as Number};
ghost use Rattle.ps_frame.specs.Functions.{Functions};
ghost use Rattle.ps_frame.specs.Tables.{Fields};
ghost use Rattle.ps_frame.specs.Trees.{IsComplete, IsExpression, Tree, tree_at};
ghost use Rattle.ps_frame.specs.declared.refusal.PolarsError.{PolarsError};
ghost use Rattle.ps_meaning.specs.Maps.{map_step};
ghost use Rattle.ps_meaning.specs.Schemas.{expr_names, names_of};
ghost use Rattle.ps_meaning.specs.Shape.{equi_join as equi_join_kind, filter_node, group_by_node, in_memory_join, in_memory_map, in_memory_sink, in_memory_source, independent_select, multiplexer as multiplexer_kind, negative_slice as negative_slice_kind, ordered_union, reduce as reduce_kind, select_node, simple_projection, stream_map as stream_map_kind, streaming_slice, with_row_index, zip_node};
ghost use Rattle.ps_meaning.specs.Sound.{IsFunctionStep, IsReduction};
ghost use Rattle.ps_meaning.specs.Steps.{key_trees, named_trees, sort_step, step_exprs};
ghost use Rattle.ps_phys.specs.Shown.{back_from, join_of, stream_of, streams_of};
ghost use Rattle.plan_graphs.specs.Made.{IsMadeOf};
ghost use Rattle.graph_parts.specs.Read.{schemas_read};

use graph_parts::columns::{cloned, copied};
use graph_parts::reductions::Reductions;
use graph_parts::schemas::{schema_of, schemas_of, shared, shared_table};
use keyed_slots::SlotMap;
use ps_frame::expr::AExpr;
use ps_frame::frame::DataFrame;
use ps_frame::items::Items;
use ps_frame::refusal::PolarsResult;
use ps_frame::schema::Schema;
use ps_meaning::map::MapKind;
use ps_meaning::options::{ExprIR, JoinArgs, SortMultipleOptions};
use ps_nodes::equi_join::EquiJoinNode;
use ps_nodes::filter::FilterNode;
use ps_nodes::flow::FlowNode;
use ps_nodes::group_by::GroupByNode;
use ps_nodes::in_memory_join::InMemoryJoinNode;
use ps_nodes::in_memory_map::InMemoryMapNode;
use ps_nodes::independent_select::InputIndependentSelectNode;
use ps_nodes::map::MapNode;
use ps_nodes::multiplexer::MultiplexerNode;
use ps_nodes::negative_slice::NegativeSliceNode;
use ps_nodes::ordered_union::OrderedUnionNode;
use ps_nodes::projection::SimpleProjectionNode;
use ps_nodes::reduce::ReduceNode;
use ps_nodes::row_index::WithRowIndexNode;
use ps_nodes::select::SelectNode;
use ps_nodes::sequence::MorselSeq;
use ps_nodes::sink::InMemorySinkNode;
use ps_nodes::slice::StreamingSliceNode;
use ps_nodes::source::InMemorySourceNode;
use ps_nodes::stream_expr::StreamExpr;
use ps_nodes::zip::ZipNode;
use ps_owned_maps::owned::OwnedMap;
use ps_phys::phys::{PhysNode, PhysNodeKey, PhysStream};
use pu_base::{Arena, PlSmallStr};
use std::alloc::Global;

/// The source of a table. Its morsels are numbered from 0 on.
pub fn source(alloc: Global, table: &DataFrame) -> PolarsResult<FlowNode>
    ensures made { (s : Fields) (ss : List Fields) → IfOk result (IsMadeOf (in_memory_source table.now) s ss) }
    ensures memory { OnErr result (result ≡ Err PolarsError.OutOfMemory) }
{
    let table = shared_table(alloc, table)?;
    let node = InMemorySourceNode::new(table, MorselSeq::new(0));
    Ok(FlowNode::InMemorySource(node))
}

/// The select of expressions, alone or beside the input's columns.
pub fn select(
    alloc: Global,
    selectors: &Items<ExprIR>,
    extend_original: bool,
    output_schema: &Schema,
    arena: &Arena<AExpr>,
) -> PolarsResult<FlowNode>
    requires { AllByRecursion IsComplete (key_trees (tree_at arena.now.items) selectors.now) }
    ensures made { (ss : List Fields) → IfOk result (IsMadeOf (select_node (named_trees (tree_at arena.now.items) selectors.now) extend_original) output_schema.now ss) }
    ensures memory { OnErr result (result ≡ Err PolarsError.OutOfMemory) }
{
    let selectors = copied(alloc, selectors, arena)?;
    let schema = shared(alloc, output_schema)?;
    let node = SelectNode::new(selectors, schema, extend_original);
    Ok(FlowNode::Select(node))
}

/// The row index of a name.
pub fn row_index(alloc: Global, name: &PlSmallStr, offset: Option<u32>) -> PolarsResult<FlowNode>
    ensures made { (s : Fields) (ss : List Fields) → IfOk result (IsMadeOf (with_row_index name.now offset) s ss) }
    ensures memory { OnErr result (result ≡ Err PolarsError.OutOfMemory) }
{
    let name = cloned(alloc, name)?;
    let node = WithRowIndexNode::new(name, offset);
    Ok(FlowNode::WithRowIndex(node))
}

/// The select of expressions that read no input.
pub fn independent(
    alloc: Global,
    selectors: &Items<ExprIR>,
    arena: &Arena<AExpr>,
) -> PolarsResult<FlowNode>
    requires { AllByRecursion IsComplete (key_trees (tree_at arena.now.items) selectors.now) }
    ensures made { (s : Fields) (ss : List Fields) → IfOk result (IsMadeOf (independent_select (named_trees (tree_at arena.now.items) selectors.now)) s ss) }
    ensures memory { OnErr result (result ≡ Err PolarsError.OutOfMemory) }
{
    let selectors = copied(alloc, selectors, arena)?;
    let node = InputIndependentSelectNode::new(selectors);
    Ok(FlowNode::InputIndependentSelect(node))
}

/// The reduce of expressions, each of which is a reduction and gives the field of its place.
pub fn reduce(
    alloc: Global,
    exprs: &Items<ExprIR>,
    output_schema: &Schema,
    arena: &Arena<AExpr>,
) -> PolarsResult<FlowNode>
    requires complete { AllByRecursion IsComplete (key_trees (tree_at arena.now.items) exprs.now) }
    requires reductions { AllByRecursion IsReduction (key_trees (tree_at arena.now.items) exprs.now) }
    requires names { names_of output_schema.now ≡ expr_names (named_trees (tree_at arena.now.items) exprs.now) }
    ensures made { (ss : List Fields) → IfOk result (IsMadeOf (reduce_kind (named_trees (tree_at arena.now.items) exprs.now)) output_schema.now ss) }
    ensures memory { OnErr result (result ≡ Err PolarsError.OutOfMemory) }
{
    let parts = Reductions::of(alloc, exprs, arena)?;
    let Reductions {
        selectors,
        reductions,
    } = parts;
    let schema = shared(alloc, output_schema)?;
    let node = ReduceNode::new(selectors, reductions, schema);
    Ok(FlowNode::Reduce(node))
}

/// The slice from an offset on.
pub fn slice(offset: usize, length: usize) -> FlowNode
    ensures { (s : Fields) (ss : List Fields) → IsMadeOf (streaming_slice offset length) s ss result }
{
    let node = StreamingSliceNode::new(offset, length);
    FlowNode::StreamingSlice(node)
}

/// How far an offset is below 0.
fn back(offset: &i64) -> u64
    ensures { result ≡ back_from offset.now }
{
    if *offset < 0 {
        offset.unsigned_abs()
    } else {
        0
    }
}

/// The slice from an offset below 0 on, which counts from the end.
pub fn negative_slice(offset: &i64, length: usize) -> FlowNode
    ensures { (s : Fields) (ss : List Fields) → IsMadeOf (negative_slice_kind (back_from offset.now) length) s ss result }
{
    let back = back(offset);
    let node = NegativeSliceNode::new(back, length);
    FlowNode::NegativeSlice(node)
}

/// The filter by a predicate.
pub fn filter(alloc: Global, predicate: &ExprIR, arena: &Arena<AExpr>) -> PolarsResult<FlowNode>
    requires { IsExpression arena.now.items predicate.now.node }
    ensures made { (s : Fields) (ss : List Fields) → IfOk result (IsMadeOf (filter_node (tree_at arena.now.items predicate.now.node)) s ss) }
    ensures memory { OnErr result (result ≡ Err PolarsError.OutOfMemory) }
{
    let predicate = StreamExpr::new(alloc, predicate, arena)?;
    let node = FilterNode::new(predicate);
    Ok(FlowNode::Filter(node))
}

/// The projection of a stream on columns.
pub fn projection(
    alloc: Global,
    phys: &SlotMap<PhysNodeKey, PhysNode>,
    input: PhysStream,
    columns: &Items<PlSmallStr>,
) -> PolarsResult<FlowNode>
    ensures made { (s : Fields) → IfOk result (IsMadeOf (simple_projection columns.now) s (schemas_read phys.now.slots (stream_of input ∷ []))) }
    ensures memory { OnErr result (result ≡ Err PolarsError.OutOfMemory) }
{
    let copies = cloned(alloc, columns)?;
    let columns = copies.into_vec();
    let schema = schema_of(alloc, phys, input)?;
    let node = SimpleProjectionNode::new(columns, schema);
    Ok(FlowNode::SimpleProjection(node))
}

/// The sink of rows with a schema.
pub fn sink(alloc: Global, output_schema: &Schema) -> PolarsResult<FlowNode>
    ensures made { (ss : List Fields) → IfOk result (IsMadeOf in_memory_sink output_schema.now ss) }
    ensures memory { OnErr result (result ≡ Err PolarsError.OutOfMemory) }
{
    let schema = shared(alloc, output_schema)?;
    let node = InMemorySinkNode::new(schema);
    Ok(FlowNode::InMemorySink(node))
}

/// The map over a stream's whole table.
pub fn map(
    alloc: Global,
    phys: &SlotMap<PhysNodeKey, PhysNode>,
    input: PhysStream,
    map: &MapKind,
    arena: &Arena<AExpr>,
) -> PolarsResult<FlowNode>
    requires { AllByRecursion IsComplete (step_exprs (map_step (tree_at arena.now.items) map.now)) }
    ensures made { (s : Fields) → IfOk result (IsMadeOf (in_memory_map (map_step (tree_at arena.now.items) map.now)) s (schemas_read phys.now.slots (stream_of input ∷ []))) }
    ensures memory { OnErr result (result ≡ Err PolarsError.OutOfMemory) }
{
    let map = OwnedMap::new(alloc, map, arena)?;
    let schema = schema_of(alloc, phys, input)?;
    let node = InMemoryMapNode::new(schema, map);
    Ok(FlowNode::InMemoryMap(node))
}

/// A sort, as a map over a whole table.
fn sort_map(
    alloc: Global,
    by_column: &Items<ExprIR>,
    slice: Option<(i64, usize)>,
    sort_options: &SortMultipleOptions,
) -> PolarsResult<MapKind>
    ensures map { (f : Number → Tree) → IfOk result (λ map. map_step f map ≡ sort_step f by_column.now slice sort_options.now) }
    ensures memory { OnErr result (result ≡ Err PolarsError.OutOfMemory) }
{
    let by_column = cloned(alloc, by_column)?;
    let sort_options = cloned(alloc, sort_options)?;
    Ok(MapKind::Sort {
        by_column,
        slice,
        sort_options,
    })
}

/// The sort of a stream's rows: a map over its whole table.
pub fn sort(
    alloc: Global,
    phys: &SlotMap<PhysNodeKey, PhysNode>,
    input: PhysStream,
    by_column: &Items<ExprIR>,
    slice: Option<(i64, usize)>,
    sort_options: &SortMultipleOptions,
    arena: &Arena<AExpr>,
) -> PolarsResult<FlowNode>
    requires { AllByRecursion IsComplete (key_trees (tree_at arena.now.items) by_column.now) }
    ensures made { (s : Fields) → IfOk result (IsMadeOf (in_memory_map (sort_step (tree_at arena.now.items) by_column.now slice sort_options.now)) s (schemas_read phys.now.slots (stream_of input ∷ []))) }
    ensures memory { OnErr result (result ≡ Err PolarsError.OutOfMemory) }
{
    let sort = sort_map(alloc, by_column, slice, sort_options)?;
    map(alloc, phys, input, &sort, arena)
}

/// The map of a function that streams, part by part.
pub fn stream_map(map: &MapKind) -> FlowNode
    requires { (f : Number → Tree) × (F : Functions) × IsFunctionStep F (map_step f map.now) }
    ensures { (f : Number → Tree) (s : Fields) (ss : List Fields) → IsMadeOf (stream_map_kind (map_step f map.now)) s ss result }
{
    let MapKind::Function(function) = map else {
        unreachable!();
    };
    let node = MapNode::new(*function);
    FlowNode::Map(node)
}

/// The union of streams.
pub fn union() -> FlowNode
    ensures { (s : Fields) (ss : List Fields) → IsMadeOf ordered_union s ss result }
{
    FlowNode::OrderedUnion(OrderedUnionNode::new())
}

/// The zip of streams.
pub fn zip(
    alloc: Global,
    phys: &SlotMap<PhysNodeKey, PhysNode>,
    inputs: &Items<PhysStream>,
    null_extend: bool,
) -> PolarsResult<FlowNode>
    ensures made { (s : Fields) → IfOk result (IsMadeOf (zip_node null_extend) s (schemas_read phys.now.slots (streams_of inputs.now))) }
    ensures memory { OnErr result (result ≡ Err PolarsError.OutOfMemory) }
{
    let schemas = schemas_of(alloc, phys, inputs.as_slice())?;
    let node = ZipNode::new(alloc, null_extend, schemas)?;
    Ok(FlowNode::Zip(node))
}

/// The multiplexer.
pub fn multiplexer() -> FlowNode
    ensures { (s : Fields) (ss : List Fields) → IsMadeOf multiplexer_kind s ss result }
{
    FlowNode::Multiplexer(MultiplexerNode::new())
}

/// The group-by of keys and reductions, which give the fields of their places.
pub fn group_by(
    alloc: Global,
    keys: &Items<ExprIR>,
    aggs: &Items<ExprIR>,
    output_schema: &Schema,
    arena: &Arena<AExpr>,
) -> PolarsResult<FlowNode>
    requires keys { AllByRecursion IsComplete (key_trees (tree_at arena.now.items) keys.now) }
    requires complete { AllByRecursion IsComplete (key_trees (tree_at arena.now.items) aggs.now) }
    requires reductions { AllByRecursion IsReduction (key_trees (tree_at arena.now.items) aggs.now) }
    requires names { names_of output_schema.now ≡ expr_names (named_trees (tree_at arena.now.items) keys.now ++ named_trees (tree_at arena.now.items) aggs.now) }
    ensures made { (ss : List Fields) → IfOk result (IsMadeOf (group_by_node (named_trees (tree_at arena.now.items) keys.now) (named_trees (tree_at arena.now.items) aggs.now)) output_schema.now ss) }
    ensures memory { OnErr result (result ≡ Err PolarsError.OutOfMemory) }
{
    let keys = copied(alloc, keys, arena)?;
    let parts = Reductions::of(alloc, aggs, arena)?;
    let Reductions {
        selectors,
        reductions,
    } = parts;
    let schema = shared(alloc, output_schema)?;
    let node = GroupByNode::new(keys, selectors, reductions, schema);
    Ok(FlowNode::GroupBy(node))
}

/// The equi join of two streams by keys.
pub fn equi_join(
    alloc: Global,
    phys: &SlotMap<PhysNodeKey, PhysNode>,
    input_left: PhysStream,
    input_right: PhysStream,
    left_on: &Items<ExprIR>,
    right_on: &Items<ExprIR>,
    args: &JoinArgs,
    output_schema: &Schema,
    arena: &Arena<AExpr>,
) -> PolarsResult<FlowNode>
    requires left { AllByRecursion IsComplete (key_trees (tree_at arena.now.items) left_on.now) }
    requires right { AllByRecursion IsComplete (key_trees (tree_at arena.now.items) right_on.now) }
    ensures made { IfOk result (IsMadeOf (equi_join_kind (join_of (tree_at arena.now.items) left_on.now right_on.now args.now)) output_schema.now (schemas_read phys.now.slots (stream_of input_left ∷ stream_of input_right ∷ []))) }
    ensures memory { OnErr result (result ≡ Err PolarsError.OutOfMemory) }
{
    let left = schema_of(alloc, phys, input_left)?;
    let right = schema_of(alloc, phys, input_right)?;
    let left_on = copied(alloc, left_on, arena)?;
    let right_on = copied(alloc, right_on, arena)?;
    let args = cloned(alloc, args)?;
    let schema = shared(alloc, output_schema)?;
    let node = EquiJoinNode::new(left, right, left_on, right_on, args, schema);
    Ok(FlowNode::EquiJoin(node))
}

/// The join of two streams over their whole tables.
pub fn join(
    alloc: Global,
    phys: &SlotMap<PhysNodeKey, PhysNode>,
    input_left: PhysStream,
    input_right: PhysStream,
    left_on: &Items<ExprIR>,
    right_on: &Items<ExprIR>,
    args: &JoinArgs,
    output_schema: &Schema,
    arena: &Arena<AExpr>,
) -> PolarsResult<FlowNode>
    requires left { AllByRecursion IsComplete (key_trees (tree_at arena.now.items) left_on.now) }
    requires right { AllByRecursion IsComplete (key_trees (tree_at arena.now.items) right_on.now) }
    ensures made { IfOk result (IsMadeOf (in_memory_join (join_of (tree_at arena.now.items) left_on.now right_on.now args.now)) output_schema.now (schemas_read phys.now.slots (stream_of input_left ∷ stream_of input_right ∷ []))) }
    ensures memory { OnErr result (result ≡ Err PolarsError.OutOfMemory) }
{
    let left = schema_of(alloc, phys, input_left)?;
    let right = schema_of(alloc, phys, input_right)?;
    let left_on = copied(alloc, left_on, arena)?;
    let right_on = copied(alloc, right_on, arena)?;
    let args = cloned(alloc, args)?;
    let schema = shared(alloc, output_schema)?;
    let node = InMemoryJoinNode::new(left, right, left_on, right_on, args, schema);
    Ok(FlowNode::InMemoryJoin(node))
}
