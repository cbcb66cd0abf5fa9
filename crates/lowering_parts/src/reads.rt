//! The columns that expressions read.
ghost use Rattle.std.specs.Prelude.{◌≡◌, ◌||◌, ◌++◌, ◌∷◌, [], if◌then◌else◌, Bool, Err, IfOk, OnErr, OnOk, filter as kept, suc};
ghost use Rattle.std.specs.List.{AllByRecursion};
ghost use Rattle.std.specs.Str.{bytes_eq};
ghost use Rattle.ps_frame.specs.Parts.{reads_column};
ghost use Rattle.ps_frame.specs.Trees.{AreComplete, IsComplete, IsExpression, tree_at, tree_size, trees_of, trees_size};
ghost use Rattle.ps_frame.specs.declared.refusal.PolarsError.{PolarsError};
ghost use Rattle.ps_meaning.specs.Schemas.{names_of};
ghost use Rattle.ps_meaning.specs.Steps.{Name, exprs_of, named_trees};
ghost use Rattle.ps_rules.specs.Bundles.{names_kept as names_kept_of, or_first as or_first_of};
ghost use Rattle.lowering_parts.specs.Gathered.{trees_at};
ghost use Rattle.lowering_parts.specs.Reads.{ArePlacesOf, aggregate_operand, any_reads, operands_of, reads_itself};

use crate::names::copied;
use ps_frame::expr::{AExpr, IRAggExpr, entry};
use ps_frame::refusal::PolarsResult;
use ps_frame::schema::Schema;
use ps_meaning::options::ExprIR;
use pu_base::{Arena, Node, PlSmallStr};
use std::alloc::Global;
use std::collections::BTreeSet;

/// The names of the columns that expressions read, in the order of the schema; that of the first column where they read none.
///
/// Each occurrence in them is looked at once, and each column of the schema. Fails only for want of memory.
pub fn names_kept(
    alloc: Global,
    exprs: &[ExprIR],
    arena: &Arena<AExpr>,
    schema: &Schema,
) -> PolarsResult<Vec<PlSmallStr>>
    requires whole { AllByRecursion IsComplete (exprs_of (named_trees (tree_at arena.now.items) exprs.now)) }
    ensures names { IfOk result (λ ns. ns.items ≡ names_kept_of (named_trees (tree_at arena.now.items) exprs.now) schema.now) }
    ensures memory { OnErr result (result ≡ Err PolarsError.OutOfMemory) }
{
    let places = places_read(alloc, exprs, arena, schema)?;
    let read = names_at(alloc, schema, &places)?;
    let names = or_first(alloc, read, schema)?;
    Ok(names)
}

// The names, or that of the first column where there are none.
fn or_first(
    alloc: Global,
    mut names: Vec<PlSmallStr>,
    schema: &Schema,
) -> PolarsResult<Vec<PlSmallStr>>
    ensures names { IfOk result (λ ns. ns.items ≡ or_first_of names.items (names_of schema.now)) }
    ensures memory { OnErr result (result ≡ Err PolarsError.OutOfMemory) }
{
    if !names.is_empty() {
        return Ok(names);
    }
    if schema.is_empty() {
        return Ok(names);
    }
    names.push(copied(alloc, schema.name(0))?)?;
    Ok(names)
}

// The names at these places, in order.
fn names_at(
    alloc: Global,
    schema: &Schema,
    places: &BTreeSet<usize>,
) -> PolarsResult<Vec<PlSmallStr>>
    ensures names { (test : Name → Bool) → ArePlacesOf schema.now test places.now → IfOk result (λ ns. ns.items ≡ kept test (names_of schema.now)) }
    ensures memory { OnErr result (result ≡ Err PolarsError.OutOfMemory) }
{
    let mut names = Vec::new(alloc);
    for place in 0..schema.len() {
        push_if(
            alloc,
            schema.name(place),
            places.contains(&place),
            &mut names,
        )?;
    }
    Ok(names)
}

// Adds a name at the end, if it is wanted.
fn push_if(
    alloc: Global,
    name: &PlSmallStr,
    wanted: bool,
    names: &mut Vec<PlSmallStr>,
) -> PolarsResult<()>
    ensures pushed { OnOk result (names.new.items ≡ (if wanted then names.old.items ++ name.now ∷ [] else names.old.items)) }
    ensures memory { OnErr result (result ≡ Err PolarsError.OutOfMemory) }
{
    if !wanted {
        return Ok(());
    }
    names.push(copied(alloc, name)?)?;
    Ok(())
}

// The places of the columns that expressions read.
fn places_read(
    alloc: Global,
    exprs: &[ExprIR],
    arena: &Arena<AExpr>,
    schema: &Schema,
) -> PolarsResult<BTreeSet<usize>>
    requires whole { AllByRecursion IsComplete (exprs_of (named_trees (tree_at arena.now.items) exprs.now)) }
    ensures places { IfOk result (ArePlacesOf schema.now (any_reads (exprs_of (named_trees (tree_at arena.now.items) exprs.now)))) }
    ensures memory { OnErr result (result ≡ Err PolarsError.OutOfMemory) }
{
    let mut places = BTreeSet::new(alloc);
    for expr in exprs {
        add_places(alloc, expr.node, arena, schema, &mut places)?;
    }
    Ok(places)
}

// Adds the places of the columns that an expression reads. It looks at each occurrence and not at each entry once: the
// map over the same expressions is typed occurrence by occurrence too, so a set of entries seen would make no call cheaper.
fn add_places(
    alloc: Global,
    expr: Node,
    arena: &Arena<AExpr>,
    schema: &Schema,
    places: &mut BTreeSet<usize>,
) -> PolarsResult<()>
    requires { IsExpression arena.now.items expr }
    ensures added { (test : Name → Bool) → ArePlacesOf schema.now test places.old → OnOk result (ArePlacesOf schema.now (λ n. test n || reads_column n (tree_at arena.now.items expr)) places.new) }
    ensures memory { OnErr result (result ≡ Err PolarsError.OutOfMemory) }
{
    let mut left = Vec::new(alloc);
    left.push(expr)?;
    while let Some(next) = left.pop() {
        let entry = entry_of(next, arena);
        add_own(entry, schema, places)?;
        push_operands(entry, &mut left)?;
    }
    Ok(())
}

// The entry of an expression, and what is known of the expressions that it takes.
fn entry_of(expr: Node, arena: &Arena<AExpr>) -> &AExpr
    requires { IsExpression arena.now.items expr }
    ensures reads { (n : Name) → reads_column n (tree_at arena.now.items expr) ≡ (reads_itself n result.now || any_reads (trees_at (tree_at arena.now.items) (operands_of result.now)) n) }
    ensures complete { AreComplete (trees_of (tree_at arena.now.items) (operands_of result.now)) }
    ensures size { tree_size (tree_at arena.now.items expr) ≡ suc (trees_size (trees_of (tree_at arena.now.items) (operands_of result.now))) }
{
    entry(expr, arena)
}

// Adds the place of the column that an entry is, if it is one of the schema.
fn add_own(entry: &AExpr, schema: &Schema, places: &mut BTreeSet<usize>) -> PolarsResult<()>
    ensures added { (test : Name → Bool) → ArePlacesOf schema.now test places.old → OnOk result (ArePlacesOf schema.now (λ n. test n || reads_itself n entry.now) places.new) }
    ensures memory { OnErr result (result ≡ Err PolarsError.OutOfMemory) }
{
    match entry {
        AExpr::Column(name) => add_place(name, schema, places),
        _ => Ok(()),
    }
}

fn add_place(name: &PlSmallStr, schema: &Schema, places: &mut BTreeSet<usize>) -> PolarsResult<()>
    ensures added { (test : Name → Bool) → ArePlacesOf schema.now test places.old → OnOk result (ArePlacesOf schema.now (λ n. test n || bytes_eq n name.now) places.new) }
    ensures memory { OnErr result (result ≡ Err PolarsError.OutOfMemory) }
{
    // A law of schemas: no name stands twice, so the place is the only one.
    schema.names_differ();
    let Some(place) = schema.index_of(name.as_str()) else {
        return Ok(());
    };
    let _added = places.insert(place)?;
    Ok(())
}

// Adds the expressions that an entry takes to those that are left.
fn push_operands(entry: &AExpr, waiting: &mut Vec<Node>) -> PolarsResult<()>
    ensures all { OnOk result (waiting.new.items ≡ waiting.old.items ++ operands_of entry.now) }
    ensures memory { OnErr result (result ≡ Err PolarsError.OutOfMemory) }
{
    match entry {
        AExpr::Column(_) | AExpr::Literal(_) | AExpr::Len | AExpr::LeftOut(_) => Ok(()),
        AExpr::BinaryExpr { left, right, .. } => push_all(&[*left, *right], waiting),
        AExpr::Cast { expr, .. } => push_all(&[*expr], waiting),
        AExpr::Sort { expr, .. } => push_all(&[*expr], waiting),
        AExpr::SortBy { expr, by, .. } => {
            waiting.push(*expr)?;
            push_all(by.as_slice(), waiting)
        }
        AExpr::Gather { expr, idx, .. } => push_all(&[*expr, *idx], waiting),
        AExpr::Filter { input, by } => push_all(&[*input, *by], waiting),
        AExpr::Agg(aggregate) => push_all(&[aggregated(*aggregate)], waiting),
        AExpr::Ternary {
            predicate,
            truthy,
            falsy,
        } => push_all(&[*predicate, *truthy, *falsy], waiting),
        AExpr::Function { input, .. } => push_all(&[*input], waiting),
        AExpr::Slice {
            input,
            offset,
            length,
        } => push_all(&[*input, *offset, *length], waiting),
    }
}

fn push_all(nodes: &[Node], waiting: &mut Vec<Node>) -> PolarsResult<()>
    ensures all { OnOk result (waiting.new.items ≡ waiting.old.items ++ nodes.now) }
    ensures memory { OnErr result (result ≡ Err PolarsError.OutOfMemory) }
{
    waiting.extend_from_slice(nodes)?;
    Ok(())
}

/// The expression over which an aggregate goes.
pub fn aggregated(aggregate: IRAggExpr) -> Node
    ensures { result ≡ aggregate_operand aggregate }
{
    match aggregate {
        IRAggExpr::Min(input)
        | IRAggExpr::Max(input)
        | IRAggExpr::First(input)
        | IRAggExpr::Last(input)
        | IRAggExpr::Sum(input)
        | IRAggExpr::NUnique(input)
        | IRAggExpr::Count(input, _) => input,
    }
}
