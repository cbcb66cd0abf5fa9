//! The nodes that a lowering makes.
ghost use Rattle.std.specs.Prelude.{◌≡◌, ◌++◌, ◌∷◌, [], Err, IfOk, OnErr, OnOk, flat_map};
ghost use Rattle.std.specs.List.{AllByRecursion};
ghost use Rattle.ps_frame.specs.Trees.{IsComplete, Tree, tree_at};
ghost use Rattle.ps_frame.specs.declared.refusal.PolarsError.{PolarsError};
ghost use Rattle.ps_meaning.specs.Steps.{exprs_of, named_trees};
ghost use Rattle.ps_phys.specs.Shown.{inputs_of, kind_of, stream_of, streams_of};
ghost use Rattle.ps_rules.specs.Bundles.{one_stream};
ghost use Rattle.ps_rules.specs.Slots.{Stream, insert_node, over_same, over_selected, schema_at, with_columns, without_input};
ghost use Rattle.lowering_parts.specs.Gathered.{Begins, Later, made_of, state_of};
ghost use Rattle.lowering_parts.specs.Operations.{only_stream, selection_kind};
ghost use Rattle.pu_base.specs.declared.arena.Node.{Node as ANode};

use crate::schemas::{are_names_of, cloned, projected_schema, push_all, selected_schema};
use ps_frame::expr::AExpr;
use ps_frame::items::Items;
use ps_frame::refusal::{PolarsError, PolarsResult};
use ps_frame::schema::Schema;
use ps_fresh::lowering::Lowering;
use ps_meaning::map::MapKind;
use ps_meaning::options::ExprIR;
use ps_phys::phys::{PhysNode, PhysNodeKind, PhysStream};
use pu_base::{Arena, PlSmallStr};
use std::alloc::Global;

/// A new node of the logical node that is being lowered; its first stream.
///
/// Fails only for want of memory, as where no number is left for a node; nothing was then added.
pub fn insert(
    alloc: Global,
    low: &mut Lowering,
    schema: Schema,
    kind: PhysNodeKind,
) -> PolarsResult<PhysStream>
    ensures made { (f : ANode → Tree) → IfOk result (λ s. made_of f low.new s ≡ insert_node (state_of f low.old) (record { kind = kind_of f kind; schema = schema; origin = low.old.origin.0; inputs = inputs_of kind })) }
    ensures nodes { Begins low.old.phys_sm.slots low.new.phys_sm.slots }
    ensures same { OnErr result (low.new ≡ low.old) }
    ensures others { low.new ≡ record low.old { phys_sm = low.new.phys_sm } }
    ensures memory { OnErr result (result ≡ Err PolarsError.OutOfMemory) }
{
    if low.phys_sm.inserts() >= u32::MAX as usize {
        // By calls: else a node of each kind is taken apart right here, and the proof is the longer.
        drop(kind);
        drop(schema);
        return Err(PolarsError::OutOfMemory);
    }
    // Shared from the start, so that nodes above take it over without a copy.
    let node = PhysNode::new(schema.into_shared(alloc), kind, low.origin);
    let key = low.phys_sm.insert(node)?;
    Ok(PhysStream::first(key))
}

/// The schema of a stream; of one whose node isn't there an empty one.
///
/// Fails only for want of memory.
pub fn schema_of(alloc: Global, low: &Lowering, stream: PhysStream) -> PolarsResult<Schema>
    ensures schema { (f : ANode → Tree) → IfOk result (λ s. s ≡ schema_at (state_of f low.now).nodes (stream_of stream)) }
    ensures memory { OnErr result (result ≡ Err PolarsError.OutOfMemory) }
{
    match low.phys_sm.get(stream.node) {
        Some(node) => cloned(alloc, &node.output_schema),
        None => Ok(Schema::new(alloc)),
    }
}

/// A node over a stream whose columns it keeps.
///
/// Fails only for want of memory; nothing was then added.
pub fn over_same_columns(
    alloc: Global,
    low: &mut Lowering,
    input: PhysStream,
    kind: PhysNodeKind,
) -> PolarsResult<PhysStream>
    requires reads { inputs_of kind ≡ stream_of input ∷ [] }
    ensures made { (f : ANode → Tree) → IfOk result (λ s. made_of f low.new s ≡ over_same low.old.origin.0 (kind_of f kind) (stream_of input) (state_of f low.old)) }
    ensures nodes { Begins low.old.phys_sm.slots low.new.phys_sm.slots }
    ensures same { OnErr result (low.new ≡ low.old) }
    ensures others { low.new ≡ record low.old { phys_sm = low.new.phys_sm } }
    ensures memory { OnErr result (result ≡ Err PolarsError.OutOfMemory) }
{
    match schema_of(alloc, low, input) {
        Ok(schema) => insert(alloc, low, schema, kind),
        Err(error) => {
            // By a call, as in `insert`.
            drop(kind);
            Err(error)
        }
    }
}

/// A node of named expressions over a stream.
///
/// Fails only for want of memory; nothing was then added.
pub fn over_selection(
    alloc: Global,
    low: &mut Lowering,
    arena: &Arena<AExpr>,
    input: PhysStream,
    selection: Selection,
    exprs: Vec<ExprIR>,
) -> PolarsResult<PhysStream>
    requires whole { AllByRecursion IsComplete (exprs_of (named_trees (tree_at arena.now.items) exprs.items)) }
    ensures made { Later arena.now.items (λ f. IfOk result (λ s. made_of f low.new s ≡ over_selected low.old.origin.0 (selection_kind selection (named_trees f exprs.items)) (named_trees f exprs.items) (stream_of input) (state_of f low.old))) }
    ensures nodes { Begins low.old.phys_sm.slots low.new.phys_sm.slots }
    ensures same { OnErr result (low.new ≡ low.old) }
    ensures others { low.new ≡ record low.old { phys_sm = low.new.phys_sm } }
    ensures memory { OnErr result (result ≡ Err PolarsError.OutOfMemory) }
{
    let below = schema_of(alloc, low, input)?;
    let schema = selected_schema(alloc, &below, exprs.as_slice(), arena)?;
    let kind = selection.of(input, exprs);
    let stream = insert(alloc, low, schema, kind)?;
    Ok(stream)
}

/// What computes named expressions over a stream: row by row, to one row, or over the whole input.
#[derive(Clone, Copy, Debug)]
pub enum Selection {
    Select,
    Reduce,
    Map,
}

impl Selection {
    fn of(self, input: PhysStream, exprs: Vec<ExprIR>) -> PhysNodeKind
        ensures kind { (f : ANode → Tree) → kind_of f result ≡ selection_kind self (named_trees f exprs.items) }
        ensures inputs { inputs_of result ≡ stream_of input ∷ [] }
    {
        let exprs = Items::new(exprs);
        match self {
            Selection::Select => PhysNodeKind::Select {
                input,
                selectors: exprs,
                extend_original: false,
            },
            Selection::Reduce => PhysNodeKind::Reduce { input, exprs },
            Selection::Map => PhysNodeKind::InMemoryMap {
                input,
                map: MapKind::Select(exprs),
            },
        }
    }
}

/// What reads no input: named expressions that are independent of it.
///
/// Fails only for want of memory; nothing was then added.
pub fn independent(
    alloc: Global,
    low: &mut Lowering,
    arena: &Arena<AExpr>,
    exprs: Vec<ExprIR>,
) -> PolarsResult<PhysStream>
    requires whole { AllByRecursion IsComplete (exprs_of (named_trees (tree_at arena.now.items) exprs.items)) }
    ensures made { Later arena.now.items (λ f. IfOk result (λ s. made_of f low.new s ≡ without_input low.old.origin.0 (named_trees f exprs.items) (state_of f low.old))) }
    ensures nodes { Begins low.old.phys_sm.slots low.new.phys_sm.slots }
    ensures same { OnErr result (low.new ≡ low.old) }
    ensures others { low.new ≡ record low.old { phys_sm = low.new.phys_sm } }
    ensures memory { OnErr result (result ≡ Err PolarsError.OutOfMemory) }
{
    let schema = selected_schema(alloc, &Schema::new(alloc), exprs.as_slice(), arena)?;
    let selectors = Items::new(exprs);
    let stream = insert(
        alloc,
        low,
        schema,
        PhysNodeKind::InputIndependentSelect { selectors },
    )?;
    Ok(stream)
}

/// The stream with these columns alone: itself where these are its columns, in order, else a projection of it.
///
/// Fails only for want of memory; nothing was then added.
pub fn columns_of(
    alloc: Global,
    low: &mut Lowering,
    input: PhysStream,
    names: Vec<PlSmallStr>,
) -> PolarsResult<PhysStream>
    ensures made { (f : ANode → Tree) → IfOk result (λ s. made_of f low.new s ≡ with_columns low.old.origin.0 names.items (stream_of input) (state_of f low.old)) }
    ensures nodes { Begins low.old.phys_sm.slots low.new.phys_sm.slots }
    ensures same { OnErr result (low.new ≡ low.old) }
    ensures others { low.new ≡ record low.old { phys_sm = low.new.phys_sm } }
    ensures memory { OnErr result (result ≡ Err PolarsError.OutOfMemory) }
{
    let below = schema_of(alloc, low, input)?;
    if are_names_of(names.as_slice(), &below) {
        return Ok(input);
    }
    let schema = projected_schema(alloc, &below, names.as_slice())?;
    insert(
        alloc,
        low,
        schema,
        PhysNodeKind::SimpleProjection {
            input,
            columns: Items::new(names),
        },
    )
}

/// One stream of several: itself where it is one alone, else their zip.
///
/// Fails only for want of memory; nothing was then added.
pub fn one_of_all(
    alloc: Global,
    low: &mut Lowering,
    streams: Vec<PhysStream>,
) -> PolarsResult<PhysStream>
    ensures made { (f : ANode → Tree) (input : Stream) → IfOk result (λ s. made_of f low.new s ≡ one_stream low.old.origin.0 input (streams_of streams.items) (state_of f low.old)) }
    ensures nodes { Begins low.old.phys_sm.slots low.new.phys_sm.slots }
    ensures same { OnErr result (low.new ≡ low.old) }
    ensures others { low.new ≡ record low.old { phys_sm = low.new.phys_sm } }
    ensures memory { OnErr result (result ≡ Err PolarsError.OutOfMemory) }
{
    if let Some(stream) = only_one(streams.as_slice()) {
        return Ok(stream);
    }
    let schema = joined_schema(alloc, low, streams.as_slice())?;
    let inputs = Items::new(streams);
    let stream = insert(
        alloc,
        low,
        schema,
        PhysNodeKind::Zip {
            inputs,
            null_extend: false,
        },
    )?;
    Ok(stream)
}

// The stream of a list of one.
fn only_one(streams: &[PhysStream]) -> Option<PhysStream>
    ensures { result ≡ only_stream streams.now }
{
    match streams {
        [stream] => Some(*stream),
        _ => None,
    }
}

// The columns of streams, which have different names.
fn joined_schema(alloc: Global, low: &Lowering, streams: &[PhysStream]) -> PolarsResult<Schema>
    ensures schema { (f : ANode → Tree) → IfOk result (λ s. s ≡ flat_map (schema_at (state_of f low.now).nodes) (streams_of streams.now)) }
    ensures memory { OnErr result (result ≡ Err PolarsError.OutOfMemory) }
{
    let mut schema = Schema::new(alloc);
    for stream in streams {
        push_stream(alloc, low, *stream, &mut schema)?;
    }
    Ok(schema)
}

fn push_stream(
    alloc: Global,
    low: &Lowering,
    stream: PhysStream,
    schema: &mut Schema,
) -> PolarsResult<()>
    ensures added { (f : ANode → Tree) → OnOk result (schema.new ≡ schema.old ++ schema_at (state_of f low.now).nodes (stream_of stream)) }
    ensures memory { OnErr result (result ≡ Err PolarsError.OutOfMemory) }
{
    match low.phys_sm.get(stream.node) {
        Some(node) => push_all(alloc, schema, &node.output_schema),
        None => Ok(()),
    }
}
