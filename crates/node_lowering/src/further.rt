//! Further columns beside those of a stream.
ghost use Rattle.std.specs.Prelude.{◌≡◌, ◌++◌, ◌∷◌, [], Err, IfOk, OnErr, OnOk, false, map, true};
ghost use Rattle.std.specs.List.{AllByRecursion, list_all};
ghost use Rattle.ps_frame.specs.Trees.{IsComplete, Tree, tree_at};
ghost use Rattle.ps_frame.specs.Typing.{is_elementwise as is_elementwise_tree};
ghost use Rattle.ps_frame.specs.declared.refusal.PolarsError.{PolarsError};
ghost use Rattle.ps_copies.specs.Copies.{KeepsTrees};
ghost use Rattle.ps_fresh.specs.Known.{Remembers};
ghost use Rattle.ps_meaning.specs.Schemas.{names_of};
ghost use Rattle.ps_meaning.specs.Shape.{select_node};
ghost use Rattle.ps_meaning.specs.Steps.{key_trees, name_in, named_trees};
ghost use Rattle.ps_phys.specs.Shown.{inputs_of, kind_of, stream_of};
ghost use Rattle.ps_rules.specs.Slots.{over, under};
ghost use Rattle.plan_rules.specs.Nodes.{expr_or_column as tree_or_column, extended_apart as extended_apart_by, hstack_stream};
ghost use Rattle.lowering_parts.specs.Gathered.{Begins, GoesOn, Later, Makes, made_of, names_asked, state_of, trees_at};
ghost use Rattle.pu_base.specs.declared.arena.Node.{Node as ANode};

use crate::copies::equal;
use crate::parts::node_over;
use crate::together::{behind_columns, expr_at, nodes_of};
use lowering_parts::names::{add_column, copied, under_name};
use ps_frame::expr::AExpr;
use ps_frame::items::Items;
use ps_frame::refusal::{PolarsError, PolarsResult};
use ps_frame::schema::Schema;
use ps_frame::value::DataType;
use ps_fresh::expr_cache::is_elementwise;
use ps_fresh::lowering::Lowering;
use ps_meaning::options::ExprIR;
use ps_phys::phys::{PhysNodeKind, PhysStream};
use pu_base::{Arena, Node, PlSmallStr};
use std::alloc::Global;
use valid_plans::fields::name_of;

/// The columns of a stream and named expressions beside them, each in the place of the column of its name, else behind
/// the others; the schema is that of what comes out. The names of the expressions differ.
///
/// What stood in the arena and in the lowering stands after every answer. Fails only for want of memory; nodes, names
/// and expressions may then have been added.
pub fn further_columns_stream(
    alloc: Global,
    arena: &mut Arena<AExpr>,
    low: &mut Lowering,
    input: PhysStream,
    exprs: &Items<ExprIR>,
    schema: &Schema,
) -> PolarsResult<PhysStream>
    requires whole { AllByRecursion IsComplete (key_trees (tree_at arena.old.items) exprs.now) }
    requires cache { Remembers arena.old.items low.old.cache }
    ensures makes { IfOk result (Makes (hstack_stream low.old.origin.0 (named_trees (tree_at arena.old.items) exprs.now) schema.now (stream_of input)) arena.old.items arena.new.items low.old low.new) }
    ensures goes_on { GoesOn arena.old.items arena.new.items low.old low.new }
    ensures memory { OnErr result (result ≡ Err PolarsError.OutOfMemory) }
{
    let nodes = nodes_of(alloc, exprs.as_slice())?;
    let elementwise = are_elementwise(alloc, arena, low, nodes.as_slice())?;
    if elementwise {
        let beside = extended(alloc, low, input, exprs, schema)?;
        return Ok(beside);
    }
    let apart = extended_apart(alloc, arena, low, input, exprs, nodes.as_slice(), schema)?;
    Ok(apart)
}

// Whether each of some expressions is elementwise.
fn are_elementwise(
    alloc: Global,
    arena: &Arena<AExpr>,
    low: &mut Lowering,
    exprs: &[Node],
) -> PolarsResult<bool>
    requires exprs { AllByRecursion IsComplete (trees_at (tree_at arena.now.items) exprs.now) }
    requires cache { Remembers arena.now.items low.old.cache }
    ensures are { IfOk result (λ are. are ≡ list_all is_elementwise_tree (trees_at (tree_at arena.now.items) exprs.now)) }
    ensures cache { Remembers arena.now.items low.new.cache }
    ensures others { low.new ≡ record low.old { cache = low.new.cache } }
    ensures memory { OnErr result (result ≡ Err PolarsError.OutOfMemory) }
{
    for expr in exprs {
        if !is_elementwise(alloc, *expr, arena, &mut low.cache)? {
            return Ok(false);
        }
    }
    Ok(true)
}

// What goes row by row needs no other node.
fn extended(
    alloc: Global,
    low: &mut Lowering,
    input: PhysStream,
    exprs: &Items<ExprIR>,
    schema: &Schema,
) -> PolarsResult<PhysStream>
    ensures made { (f : ANode → Tree) → IfOk result (λ s. made_of f low.new s ≡ over low.old.origin.0 (select_node (named_trees f exprs.now) true) schema.now (stream_of input) (state_of f low.old)) }
    ensures nodes { Begins low.old.phys_sm.slots low.new.phys_sm.slots }
    ensures same { OnErr result (low.new ≡ low.old) }
    ensures others { low.new ≡ record low.old { phys_sm = low.new.phys_sm } }
    ensures memory { OnErr result (result ≡ Err PolarsError.OutOfMemory) }
{
    let selectors = equal(alloc, exprs)?;
    node_over(
        alloc,
        low,
        input,
        schema,
        PhysNodeKind::Select {
            input,
            selectors,
            extend_original: true,
        },
    )
}

// All columns and the expressions are lowered together; a select gives the output columns.
fn extended_apart(
    alloc: Global,
    arena: &mut Arena<AExpr>,
    low: &mut Lowering,
    input: PhysStream,
    exprs: &Items<ExprIR>,
    nodes: &[Node],
    schema: &Schema,
) -> PolarsResult<PhysStream>
    requires nodes { (f : ANode → Tree) → trees_at f nodes.now ≡ key_trees f exprs.now }
    requires whole { AllByRecursion IsComplete (key_trees (tree_at arena.old.items) exprs.now) }
    requires cache { Remembers arena.old.items low.old.cache }
    ensures makes { IfOk result (Makes (extended_apart_by low.old.origin.0 (named_trees (tree_at arena.old.items) exprs.now) schema.now (stream_of input)) arena.old.items arena.new.items low.old low.new) }
    ensures goes_on { GoesOn arena.old.items arena.new.items low.old low.new }
    ensures memory { OnErr result (result ≡ Err PolarsError.OutOfMemory) }
{
    let (stream, answers) = behind_columns(alloc, arena, low, input, nodes)?;
    let selectors = output_columns(alloc, arena, exprs.as_slice(), answers.as_slice(), schema)?;
    let kind = select_of(stream, selectors);
    let apart = node_over(alloc, low, stream, schema, kind)?;
    Ok(apart)
}

fn select_of(input: PhysStream, exprs: Vec<ExprIR>) -> PhysNodeKind
    ensures kind { (f : ANode → Tree) → kind_of f result ≡ select_node (named_trees f exprs.items) false }
    ensures inputs { inputs_of result ≡ stream_of input ∷ [] }
{
    PhysNodeKind::Select {
        input,
        selectors: Items::new(exprs),
        extend_original: false,
    }
}

// Each column of a schema: what the expression of its name was lowered to, where there is one.
fn output_columns(
    alloc: Global,
    arena: &mut Arena<AExpr>,
    exprs: &[ExprIR],
    answers: &[Node],
    schema: &Schema,
) -> PolarsResult<Vec<ExprIR>>
    ensures named { Later arena.new.items (λ f. IfOk result (λ es. named_trees f es.items ≡ under (names_of schema.now) (map (tree_or_column (under (names_asked exprs.now) (trees_at f answers.now))) (names_of schema.now)))) }
    ensures entries { Begins arena.old.items arena.new.items }
    ensures kept { KeepsTrees arena.old.items arena.new.items }
    ensures memory { OnErr result (result ≡ Err PolarsError.OutOfMemory) }
{
    let given = names_indexed(alloc, exprs)?;
    let columns = columns_by_name(alloc, arena, &given, answers, schema)?;
    Ok(columns)
}

// The same, where the expressions have the names of another schema.
fn columns_by_name(
    alloc: Global,
    arena: &mut Arena<AExpr>,
    given: &Schema,
    answers: &[Node],
    schema: &Schema,
) -> PolarsResult<Vec<ExprIR>>
    ensures named { Later arena.new.items (λ f. IfOk result (λ es. named_trees f es.items ≡ under (names_of schema.now) (map (tree_or_column (under (names_of given.now) (trees_at f answers.now))) (names_of schema.now)))) }
    ensures entries { Begins arena.old.items arena.new.items }
    ensures kept { KeepsTrees arena.old.items arena.new.items }
    ensures memory { OnErr result (result ≡ Err PolarsError.OutOfMemory) }
{
    let mut columns = Vec::new(alloc);
    for i in 0..schema.len() {
        let column = expr_or_column(alloc, arena, given, answers, schema.name(i))?;
        columns.push(column)?;
    }
    Ok(columns)
}

// The names of expressions as those of a schema, which finds a place by its name; its kinds mean nothing.
fn names_indexed(alloc: Global, exprs: &[ExprIR]) -> PolarsResult<Schema>
    ensures names { IfOk result (λ s. names_of s ≡ names_asked exprs.now) }
    ensures memory { OnErr result (result ≡ Err PolarsError.OutOfMemory) }
{
    let mut names = Schema::new(alloc);
    for expr in exprs {
        push_name(alloc, &mut names, name_of(expr))?;
    }
    Ok(names)
}

// One more name, which is new: the names of further columns differ.
fn push_name(alloc: Global, names: &mut Schema, name: &PlSmallStr) -> PolarsResult<()>
    ensures added { OnOk result (names_of names.new ≡ names_of names.old ++ name.now ∷ []) }
    ensures memory { OnErr result (result ≡ Err PolarsError.OutOfMemory) }
{
    let name = copied(alloc, name)?;
    match names.push(alloc, name, DataType::Boolean) {
        Ok(()) => Ok(()),
        Err(_error) => Err(PolarsError::OutOfMemory),
    }
}

// Under a name what the expression of this name was lowered to, else the column of the name.
fn expr_or_column(
    alloc: Global,
    arena: &mut Arena<AExpr>,
    given: &Schema,
    answers: &[Node],
    name: &PlSmallStr,
) -> PolarsResult<ExprIR>
    ensures name { IfOk result (λ e. name_in e.output_name ≡ name.now) }
    ensures tree { Later arena.new.items (λ f. IfOk result (λ e. f e.node ≡ tree_or_column (under (names_of given.now) (trees_at f answers.now)) name.now)) }
    ensures entries { Begins arena.old.items arena.new.items }
    ensures kept { KeepsTrees arena.old.items arena.new.items }
    ensures memory { OnErr result (result ≡ Err PolarsError.OutOfMemory) }
{
    let own = copied(alloc, name)?;
    let Some(place) = given.index_of(name.as_str()) else {
        let column = add_column(alloc, name, arena)?;
        return Ok(under_name(own, column));
    };
    // As many expressions come back as were handed in.
    let Some(answer) = expr_at(answers, place) else {
        return Err(PolarsError::OutOfMemory);
    };
    Ok(under_name(own, answer))
}
