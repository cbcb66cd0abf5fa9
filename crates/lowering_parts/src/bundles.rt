//! What a call has gathered, made one stream.
ghost use Rattle.std.specs.Prelude.{◌≡◌, ◌&&◌, Err, IfOk, OnErr};
ghost use Rattle.std.specs.List.{AllByRecursion};
ghost use Rattle.ps_frame.specs.Causes.{is_empty};
ghost use Rattle.ps_frame.specs.Trees.{IsComplete, Tree, tree_at};
ghost use Rattle.ps_frame.specs.declared.refusal.PolarsError.{PolarsError};
ghost use Rattle.ps_meaning.specs.Steps.{exprs_of, named_trees};
ghost use Rattle.ps_phys.specs.Shown.{stream_of, streams_of};
ghost use Rattle.ps_rules.specs.Bundles.{finished, gathered as gathered_by, is_stream_alone, mapped_stream as map_of, one_of as one_of_by, with_reduce as with_reduce_by};
ghost use Rattle.lowering_parts.specs.Gathered.{AreWhole, Begins, Later, bundle_of, call_of, made_of, state_of};

use crate::gathered::Gathered;
use crate::nodes::{Selection, columns_of, one_of_all, over_selection, schema_of};
use crate::reads::names_kept;
use ps_frame::expr::AExpr;
use ps_frame::refusal::PolarsResult;
use ps_fresh::lowering::Lowering;
use ps_meaning::options::ExprIR;
use ps_phys::phys::PhysStream;
use pu_base::{Arena, Node};
use std::alloc::Global;

/// Makes one map of all that a call has left to it; its stream stands after the others.
///
/// Fails only for want of memory; nodes may then have been added.
pub fn gather(
    alloc: Global,
    arena: &Arena<AExpr>,
    low: &mut Lowering,
    input: PhysStream,
    call: Gathered,
) -> PolarsResult<Gathered>
    requires whole { AreWhole arena.now.items call }
    ensures gathered { Later arena.now.items (λ f. IfOk result (λ b. bundle_of f low.new b ≡ gathered_by low.old.origin.0 (stream_of input) (call_of f low.old call))) }
    ensures whole { IfOk result (AreWhole arena.now.items) }
    ensures nodes { Begins low.old.phys_sm.slots low.new.phys_sm.slots }
    ensures others { low.new ≡ record low.old { phys_sm = low.new.phys_sm } }
    ensures memory { OnErr result (result ≡ Err PolarsError.OutOfMemory) }
{
    if call.mapped.is_empty() {
        return Ok(call);
    }
    let Gathered {
        mut streams,
        reduced,
        exprs,
        mapped,
    } = call;
    let map = map_over(alloc, arena, low, input, mapped)?;
    streams.add(map)?;
    Ok(Gathered {
        streams,
        reduced,
        exprs,
        mapped: Vec::new(alloc),
    })
}

// One map over the columns of the input that its expressions read, in the schema's order, or over the first one where they read none.
fn map_over(
    alloc: Global,
    arena: &Arena<AExpr>,
    low: &mut Lowering,
    input: PhysStream,
    mapped: Vec<ExprIR>,
) -> PolarsResult<PhysStream>
    requires whole { AllByRecursion IsComplete (exprs_of (named_trees (tree_at arena.now.items) mapped.items)) }
    ensures made { Later arena.now.items (λ f. IfOk result (λ s. made_of f low.new s ≡ map_of low.old.origin.0 (stream_of input) (named_trees f mapped.items) (state_of f low.old))) }
    ensures nodes { Begins low.old.phys_sm.slots low.new.phys_sm.slots }
    ensures others { low.new ≡ record low.old { phys_sm = low.new.phys_sm } }
    ensures memory { OnErr result (result ≡ Err PolarsError.OutOfMemory) }
{
    let schema = schema_of(alloc, low, input)?;
    let names = names_kept(alloc, mapped.as_slice(), arena, &schema)?;
    let columns = columns_of(alloc, low, input, names)?;
    let map = over_selection(alloc, low, arena, columns, Selection::Map, mapped)?;
    Ok(map)
}

/// The one stream of what was gathered: one reduce of the input for all reductions comes after the other streams, and several are zipped. Beside it the expressions over it.
///
/// Fails only for want of memory; nodes may then have been added.
pub fn finish(
    alloc: Global,
    arena: &Arena<AExpr>,
    low: &mut Lowering,
    input: PhysStream,
    bundle: Gathered,
) -> PolarsResult<(PhysStream, Vec<Node>)>
    requires whole { AreWhole arena.now.items bundle }
    ensures made { Later arena.now.items (λ f. IfOk result (λ r. made_of f low.new r.0 ≡ record { state = (finished low.old.origin.0 (stream_of input) (bundle_of f low.old bundle)).state; stream = (finished low.old.origin.0 (stream_of input) (bundle_of f low.old bundle)).stream })) }
    ensures exprs { IfOk result (λ r. r.1.items ≡ bundle.exprs.items) }
    ensures nodes { Begins low.old.phys_sm.slots low.new.phys_sm.slots }
    ensures others { low.new ≡ record low.old { phys_sm = low.new.phys_sm } }
    ensures memory { OnErr result (result ≡ Err PolarsError.OutOfMemory) }
{
    let Gathered {
        streams,
        reduced,
        exprs,
        mapped: _,
    } = bundle;
    let stream = one_of(alloc, arena, low, input, streams.into_vec(), reduced)?;
    Ok((stream, exprs))
}

// One stream of several, and of a reduce where there is something to reduce.
fn one_of(
    alloc: Global,
    arena: &Arena<AExpr>,
    low: &mut Lowering,
    input: PhysStream,
    streams: Vec<PhysStream>,
    reduced: Vec<ExprIR>,
) -> PolarsResult<PhysStream>
    requires whole { AllByRecursion IsComplete (exprs_of (named_trees (tree_at arena.now.items) reduced.items)) }
    ensures made { Later arena.now.items (λ f. IfOk result (λ s. made_of f low.new s ≡ one_of_by low.old.origin.0 (stream_of input) (streams_of streams.items) (named_trees f reduced.items) (state_of f low.old))) }
    ensures nodes { Begins low.old.phys_sm.slots low.new.phys_sm.slots }
    ensures others { low.new ≡ record low.old { phys_sm = low.new.phys_sm } }
    ensures memory { OnErr result (result ≡ Err PolarsError.OutOfMemory) }
{
    if reduced.is_empty() {
        let alone = one_of_all(alloc, low, streams)?;
        return Ok(alone);
    }
    let stream = with_reduce(alloc, arena, low, input, streams, reduced)?;
    Ok(stream)
}

// One stream of several and of a reduce of the input, which comes last.
fn with_reduce(
    alloc: Global,
    arena: &Arena<AExpr>,
    low: &mut Lowering,
    input: PhysStream,
    mut streams: Vec<PhysStream>,
    reduced: Vec<ExprIR>,
) -> PolarsResult<PhysStream>
    requires whole { AllByRecursion IsComplete (exprs_of (named_trees (tree_at arena.now.items) reduced.items)) }
    ensures made { Later arena.now.items (λ f. IfOk result (λ s. made_of f low.new s ≡ with_reduce_by low.old.origin.0 (stream_of input) (streams_of streams.items) (named_trees f reduced.items) (state_of f low.old))) }
    ensures nodes { Begins low.old.phys_sm.slots low.new.phys_sm.slots }
    ensures others { low.new ≡ record low.old { phys_sm = low.new.phys_sm } }
    ensures memory { OnErr result (result ≡ Err PolarsError.OutOfMemory) }
{
    let one = over_selection(alloc, low, arena, input, Selection::Reduce, reduced)?;
    streams.push(one)?;
    let stream = one_of_all(alloc, low, streams)?;
    Ok(stream)
}

/// Whether the input itself is all that was gathered.
pub fn is_input_alone(input: PhysStream, bundle: &Gathered) -> bool
    ensures { (f : Node → Tree) → result ≡ is_stream_alone (stream_of input) (streams_of bundle.now.streams) (named_trees f bundle.now.reduced.items) }
{
    match bundle.streams.as_slice() {
        [stream] => *stream == input && bundle.reduced.is_empty(),
        _ => false,
    }
}
