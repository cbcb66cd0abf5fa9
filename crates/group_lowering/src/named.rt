//! Expressions under names: copies, columns under their own names, and several one after the other.
ghost use Rattle.std.specs.Prelude.{◌≡◌, ◌++◌, Err, IfOk, OnErr};
ghost use Rattle.ps_copies.specs.Copies.{KeepsTrees};
ghost use Rattle.ps_frame.specs.Trees.{Tree, tree_at};
ghost use Rattle.ps_frame.specs.declared.refusal.PolarsError.{PolarsError};
ghost use Rattle.ps_meaning.specs.Schemas.{names_of};
ghost use Rattle.ps_meaning.specs.Steps.{named_trees};
ghost use Rattle.ps_phys.specs.Shown.{stream_of};
ghost use Rattle.ps_rules.specs.Slots.{schema_at};
ghost use Rattle.plan_rules.specs.Groups.{own_columns as own_columns_of};
ghost use Rattle.lowering_parts.specs.Gathered.{Begins, names_asked, state_of};
ghost use Rattle.pu_base.specs.declared.arena.Node.{Node as ANode};

use lowering_parts::names::{add_columns, copied, under_names};
use lowering_parts::nodes::schema_of;
use ps_copies::try_clone::TryClone;
use ps_frame::expr::AExpr;
use ps_frame::refusal::{PolarsError, PolarsResult};
use ps_frame::schema::Schema;
use ps_fresh::lowering::Lowering;
use ps_meaning::options::ExprIR;
use ps_phys::phys::PhysStream;
use pu_base::{Arena, PlSmallStr};
use std::alloc::Global;
use valid_plans::fields::name_of;

/// An equal copy of an expression under its name.
///
/// Fails only for want of memory.
pub(crate) fn copied_expr(alloc: Global, expr: &ExprIR) -> PolarsResult<ExprIR>
    ensures same { IfOk result (λ copy. copy ≡ expr.now) }
    ensures memory { OnErr result (result ≡ Err PolarsError.OutOfMemory) }
{
    // A match and no `?`: an error of names doesn't convert, and is want of memory alone.
    match expr.try_clone(alloc) {
        Ok(copy) => Ok(copy),
        Err(_error) => Err(PolarsError::OutOfMemory),
    }
}

/// Equal copies of expressions under their names.
///
/// Fails only for want of memory.
pub(crate) fn copied_exprs(alloc: Global, exprs: &[ExprIR]) -> PolarsResult<Vec<ExprIR>>
    ensures same { IfOk result (λ copies. copies.items ≡ exprs.now) }
    ensures memory { OnErr result (result ≡ Err PolarsError.OutOfMemory) }
{
    let mut copies = Vec::with_capacity(alloc, exprs.len())?;
    for expr in exprs {
        copies.push(copied_expr(alloc, expr)?)?;
    }
    Ok(copies)
}

/// The items of two lists, one after the other.
///
/// Fails only for want of memory.
pub(crate) fn joined<T: Drop>(mut first: Vec<T>, mut second: Vec<T>) -> PolarsResult<Vec<T>>
    ensures all { IfOk result (λ all. all.items ≡ first.items ++ second.items) }
    ensures memory { OnErr result (result ≡ Err PolarsError.OutOfMemory) }
{
    first.append(&mut second)?;
    Ok(first)
}

/// Columns under their own names.
///
/// Fails only for want of memory; the arena may then have grown.
pub(crate) fn own_columns(
    alloc: Global,
    arena: &mut Arena<AExpr>,
    names: &[PlSmallStr],
) -> PolarsResult<Vec<ExprIR>>
    ensures named { IfOk result (λ es. named_trees (tree_at arena.new.items) es.items ≡ own_columns_of names.now) }
    ensures entries { Begins arena.old.items arena.new.items }
    ensures kept { KeepsTrees arena.old.items arena.new.items }
    ensures memory { OnErr result (result ≡ Err PolarsError.OutOfMemory) }
{
    let nodes = add_columns(alloc, names, arena)?;
    let named = under_names(alloc, names, nodes.as_slice())?;
    Ok(named)
}

/// The names under which expressions are asked for, as equal copies.
///
/// Fails only for want of memory.
pub(crate) fn names_of_exprs(alloc: Global, exprs: &[ExprIR]) -> PolarsResult<Vec<PlSmallStr>>
    ensures names { IfOk result (λ names. names.items ≡ names_asked exprs.now) }
    ensures memory { OnErr result (result ≡ Err PolarsError.OutOfMemory) }
{
    let mut names = Vec::with_capacity(alloc, exprs.len())?;
    for expr in exprs {
        names.push(copied(alloc, name_of(expr))?)?;
    }
    Ok(names)
}

/// The names of the columns of a stream, in order.
///
/// Fails only for want of memory.
pub(crate) fn names_of_stream(
    alloc: Global,
    low: &Lowering,
    input: PhysStream,
) -> PolarsResult<Vec<PlSmallStr>>
    ensures names { (f : ANode → Tree) → IfOk result (λ names. names.items ≡ names_of (schema_at (state_of f low.now).nodes (stream_of input))) }
    ensures memory { OnErr result (result ≡ Err PolarsError.OutOfMemory) }
{
    let schema = schema_of(alloc, low, input)?;
    let names = names_of_schema(alloc, &schema)?;
    Ok(names)
}

fn names_of_schema(alloc: Global, schema: &Schema) -> PolarsResult<Vec<PlSmallStr>>
    ensures names { IfOk result (λ names. names.items ≡ names_of schema.now) }
    ensures memory { OnErr result (result ≡ Err PolarsError.OutOfMemory) }
{
    let mut names = Vec::with_capacity(alloc, schema.len())?;
    for i in 0..schema.len() {
        names.push(copied(alloc, schema.name(i))?)?;
    }
    Ok(names)
}
