//! Joins.
ghost use Rattle.std.specs.Prelude.{◌≡◌, ◌∷◌, [], Err, IfOk, None, OnErr};
ghost use Rattle.std.specs.List.{AllByRecursion};
ghost use Rattle.ps_frame.specs.Trees.{IsComplete, Tree, tree_at};
ghost use Rattle.ps_frame.specs.declared.refusal.PolarsError.{PolarsError};
ghost use Rattle.ps_fresh.specs.Known.{Remembers};
ghost use Rattle.ps_meaning.specs.Joins.{goes_by_left};
ghost use Rattle.ps_meaning.specs.Shape.{equi_join, in_memory_join};
ghost use Rattle.ps_meaning.specs.Steps.{key_trees};
ghost use Rattle.ps_phys.specs.Shown.{inputs_of, join_of, kind_of, stream_of};
ghost use Rattle.plan_rules.specs.Joins.{equi_join_stream as equi_joined, join_stream as joined, over_both};
ghost use Rattle.lowering_parts.specs.Gathered.{Begins, GoesOn, Makes, made_of, state_of, trees_at};
ghost use Rattle.pu_base.specs.declared.arena.Node.{Node as ANode};

use crate::copies::equal;
use crate::parts::node_of;
use crate::together::{before_columns, nodes_of, under_name_of};
use ps_frame::expr::AExpr;
use ps_frame::items::Items;
use ps_frame::refusal::{PolarsError, PolarsResult};
use ps_frame::schema::Schema;
use ps_fresh::lowering::Lowering;
use ps_meaning::options::{ExprIR, JoinArgs, JoinType};
use ps_phys::phys::{PhysNodeKind, PhysStream};
use pu_base::{Arena, Node};
use slice_lowering::slices::cut;
use std::alloc::Global;

/// A join of two streams; the schema is that of what comes out. Inner, left, right and full joins go by keys, and have
/// their slice above them; the others take their whole inputs, and apply it themselves.
///
/// What stood in the arena and in the lowering stands after every answer. Fails only for want of memory; nodes, names
/// and expressions may then have been added.
pub fn join_stream(
    alloc: Global,
    arena: &mut Arena<AExpr>,
    low: &mut Lowering,
    left: PhysStream,
    right: PhysStream,
    left_on: &Items<ExprIR>,
    right_on: &Items<ExprIR>,
    args: &JoinArgs,
    schema: &Schema,
) -> PolarsResult<PhysStream>
    requires left_whole { AllByRecursion IsComplete (key_trees (tree_at arena.old.items) left_on.now) }
    requires right_whole { AllByRecursion IsComplete (key_trees (tree_at arena.old.items) right_on.now) }
    requires cache { Remembers arena.old.items low.old.cache }
    ensures makes { IfOk result (Makes (joined low.old.origin.0 (join_of (tree_at arena.old.items) left_on.now right_on.now args.now) schema.now (stream_of left) (stream_of right)) arena.old.items arena.new.items low.old low.new) }
    ensures goes_on { GoesOn arena.old.items arena.new.items low.old low.new }
    ensures memory { OnErr result (result ≡ Err PolarsError.OutOfMemory) }
{
    let by_keys = goes_by_keys(args.how);
    if by_keys {
        let keyed = equi_join_stream(
            alloc, arena, low, left, right, left_on, right_on, args, schema,
        )?;
        return Ok(keyed);
    }
    let whole = in_memory_join_stream(alloc, low, left, right, left_on, right_on, args, schema)?;
    Ok(whole)
}

// Whether a join goes by keys, part by part.
fn goes_by_keys(how: JoinType) -> bool
    ensures { result ≡ goes_by_left how }
{
    match how {
        JoinType::Inner | JoinType::Left | JoinType::Right | JoinType::Full => true,
        JoinType::Semi | JoinType::Anti | JoinType::Cross => false,
    }
}

// A join that takes its whole inputs, and applies its slice itself.
fn in_memory_join_stream(
    alloc: Global,
    low: &mut Lowering,
    left: PhysStream,
    right: PhysStream,
    left_on: &Items<ExprIR>,
    right_on: &Items<ExprIR>,
    args: &JoinArgs,
    schema: &Schema,
) -> PolarsResult<PhysStream>
    ensures made { (f : ANode → Tree) → IfOk result (λ s. made_of f low.new s ≡ over_both low.old.origin.0 (in_memory_join (join_of f left_on.now right_on.now args.now)) schema.now (stream_of left) (stream_of right) (state_of f low.old)) }
    ensures nodes { Begins low.old.phys_sm.slots low.new.phys_sm.slots }
    ensures same { OnErr result (low.new ≡ low.old) }
    ensures others { low.new ≡ record low.old { phys_sm = low.new.phys_sm } }
    ensures memory { OnErr result (result ≡ Err PolarsError.OutOfMemory) }
{
    let left_on = equal(alloc, left_on)?;
    let right_on = equal(alloc, right_on)?;
    let args = equal(alloc, args)?;
    node_of(
        alloc,
        low,
        schema,
        PhysNodeKind::InMemoryJoin {
            input_left: left,
            input_right: right,
            left_on,
            right_on,
            args,
        },
    )
}

// The keys of each side and all its columns are lowered together, the left side first; the slice is above the join.
fn equi_join_stream(
    alloc: Global,
    arena: &mut Arena<AExpr>,
    low: &mut Lowering,
    left: PhysStream,
    right: PhysStream,
    left_on: &Items<ExprIR>,
    right_on: &Items<ExprIR>,
    args: &JoinArgs,
    schema: &Schema,
) -> PolarsResult<PhysStream>
    requires left_whole { AllByRecursion IsComplete (key_trees (tree_at arena.old.items) left_on.now) }
    requires right_whole { AllByRecursion IsComplete (key_trees (tree_at arena.old.items) right_on.now) }
    requires cache { Remembers arena.old.items low.old.cache }
    ensures makes { IfOk result (Makes (equi_joined low.old.origin.0 (join_of (tree_at arena.old.items) left_on.now right_on.now args.now) schema.now (stream_of left) (stream_of right)) arena.old.items arena.new.items low.old low.new) }
    ensures goes_on { GoesOn arena.old.items arena.new.items low.old low.new }
    ensures memory { OnErr result (result ≡ Err PolarsError.OutOfMemory) }
{
    let left_nodes = nodes_of(alloc, left_on.as_slice())?;
    let right_nodes = nodes_of(alloc, right_on.as_slice())?;
    let (left_stream, left_answers) = before_columns(
        alloc,
        arena,
        low,
        left,
        left_nodes.as_slice(),
    )?;
    let (right_stream, right_answers) = before_columns(
        alloc,
        arena,
        low,
        right,
        right_nodes.as_slice(),
    )?;
    let left_keys = keys_of(alloc, left_on.as_slice(), left_answers.as_slice())?;
    let right_keys = keys_of(alloc, right_on.as_slice(), right_answers.as_slice())?;
    let unsliced = without_slice(alloc, args)?;
    let kind = keyed_join_of(left_stream, right_stream, left_keys, right_keys, unsliced);
    let join = node_of(alloc, low, schema, kind)?;
    let sliced = cut(alloc, low, join, args.slice)?;
    Ok(sliced)
}

// A join by these keys.
fn keyed_join_of(
    left: PhysStream,
    right: PhysStream,
    left_on: Vec<ExprIR>,
    right_on: Vec<ExprIR>,
    args: JoinArgs,
) -> PhysNodeKind
    ensures kind { (f : ANode → Tree) → kind_of f result ≡ equi_join (join_of f left_on.items right_on.items args) }
    ensures inputs { inputs_of result ≡ stream_of left ∷ stream_of right ∷ [] }
{
    PhysNodeKind::EquiJoin {
        input_left: left,
        input_right: right,
        left_on: Items::new(left_on),
        right_on: Items::new(right_on),
        args,
    }
}

// The same without its slice.
fn without_slice(alloc: Global, args: &JoinArgs) -> PolarsResult<JoinArgs>
    ensures same { IfOk result (λ a. a ≡ record args.now { slice = None }) }
    ensures memory { OnErr result (result ≡ Err PolarsError.OutOfMemory) }
{
    let suffix = equal(alloc, &args.suffix)?;
    Ok(JoinArgs {
        how: args.how,
        suffix,
        join_nulls: args.join_nulls,
        validation: args.validation,
        slice: None,
    })
}

// Expressions under the names of keys; no join looks at these.
fn keys_of(alloc: Global, asked: &[ExprIR], answers: &[Node]) -> PolarsResult<Vec<ExprIR>>
    ensures keys { (f : ANode → Tree) → IfOk result (λ es. key_trees f es.items ≡ trees_at f answers.now) }
    ensures memory { OnErr result (result ≡ Err PolarsError.OutOfMemory) }
{
    let mut keys = Vec::with_capacity(alloc, answers.len())?;
    for i in 0..answers.len() {
        // As many expressions come back as were handed in.
        let Some(expr) = asked.get(i) else {
            return Err(PolarsError::OutOfMemory);
        };
        keys.push(under_name_of(alloc, expr, answers[i])?)?;
    }
    Ok(keys)
}
