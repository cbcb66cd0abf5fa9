//! Fresh names, expressions under names, and the columns of these.
ghost use Rattle.std.specs.Prelude.{◌≡◌, Err, IfOk, OnErr, OnOk, Some};
ghost use Rattle.ps_frame.specs.Trees.{IsComplete, Tree, entry_tree, tree_at};
ghost use Rattle.ps_frame.specs.declared.refusal.PolarsError.{PolarsError};
ghost use Rattle.ps_meaning.specs.Steps.{name_in, named_trees};
ghost use Rattle.ps_copies.specs.Copies.{KeepsTrees};
ghost use Rattle.ps_rules.specs.Names.{after_fresh, fresh_name};
ghost use Rattle.ps_rules.specs.Slots.{after_names, columns_named, new_names, under};
ghost use Rattle.lowering_parts.specs.Gathered.{Begins, KeepsNames, state_of, trees_at};
ghost use Rattle.pu_base.specs.declared.arena.Node.{Node as ANode};

use ps_frame::expr::AExpr;
use ps_frame::refusal::{PolarsError, PolarsResult};
use ps_fresh::lowering::Lowering;
use ps_fresh::name_source::unique_column_name;
use ps_meaning::options::{ExprIR, OutputName};
use pu_base::{Arena, Node, PlSmallStr};
use std::alloc::Global;

/// A name that isn't in use, and is from now on.
///
/// Fails only for want of memory; nothing is then changed.
pub fn fresh(alloc: Global, low: &mut Lowering) -> PolarsResult<PlSmallStr>
    ensures name { IfOk result (λ name. name ≡ fresh_name low.old.names) }
    ensures next { OnOk result (low.new ≡ record low.old { names = after_fresh low.old.names }) }
    ensures same { OnErr result (low.new ≡ low.old) }
    ensures known { KeepsNames low.old.names low.new.names }
    ensures memory { OnErr result (result ≡ Err PolarsError.OutOfMemory) }
{
    unique_column_name(alloc, &mut low.names)
}

/// As many such names as there are items, in order.
///
/// Fails only for want of memory; some names may then be in use.
pub fn fresh_names<T>(
    alloc: Global,
    low: &mut Lowering,
    items: &[T],
) -> PolarsResult<Vec<PlSmallStr>>
    ensures names { (f : ANode → Tree) → IfOk result (λ names. names.items ≡ new_names items.now (state_of f low.old)) }
    ensures next { (f : ANode → Tree) → OnOk result (state_of f low.new ≡ after_names items.now (state_of f low.old)) }
    ensures others { low.new ≡ record low.old { names = low.new.names } }
    ensures known { KeepsNames low.old.names low.new.names }
    ensures memory { OnErr result (result ≡ Err PolarsError.OutOfMemory) }
{
    let mut names = Vec::with_capacity(alloc, items.len())?;
    for item in items {
        let _ = item;
        names.push(fresh(alloc, low)?)?;
    }
    Ok(names)
}

/// An equal name.
///
/// Fails only for want of memory.
pub fn copied(alloc: Global, name: &PlSmallStr) -> PolarsResult<PlSmallStr>
    ensures same { IfOk result (λ copy. copy ≡ name.now) }
    ensures memory { OnErr result (result ≡ Err PolarsError.OutOfMemory) }
{
    // A match and no `?`: an error of names doesn't convert, and is want of memory alone.
    match name.try_clone(alloc) {
        Ok(copy) => Ok(copy),
        Err(_error) => Err(PolarsError::OutOfMemory),
    }
}

/// An expression under a name.
pub fn under_name(name: PlSmallStr, node: Node) -> ExprIR
    ensures name { name_in result.output_name ≡ name }
    ensures node { result.node ≡ node }
{
    ExprIR {
        node,
        output_name: OutputName::Alias(name),
    }
}

/// Expressions under as many names.
///
/// Fails only for want of memory.
pub fn under_names(alloc: Global, names: &[PlSmallStr], exprs: &[Node]) -> PolarsResult<Vec<ExprIR>>
    ensures named { (f : ANode → Tree) → IfOk result (λ es. named_trees f es.items ≡ under names.now (trees_at f exprs.now)) }
    ensures memory { OnErr result (result ≡ Err PolarsError.OutOfMemory) }
{
    let mut named = Vec::with_capacity(alloc, exprs.len())?;
    let count = names.len().min(exprs.len());
    for i in 0..count {
        named.push(under_name(copied(alloc, &names[i])?, exprs[i]))?;
    }
    Ok(named)
}

/// Adds an entry over expressions that stand in the arena.
///
/// Fails only for want of memory; the arena is then as before.
pub fn add_expr(arena: &mut Arena<AExpr>, entry: AExpr) -> PolarsResult<Node>
    requires { IsComplete (entry_tree (tree_at arena.old.items) (Some entry)) }
    ensures tree { IfOk result (λ n. tree_at arena.new.items n ≡ entry_tree (tree_at arena.old.items) (Some entry)) }
    ensures entries { Begins arena.old.items arena.new.items }
    ensures kept { KeepsTrees arena.old.items arena.new.items }
    ensures same { OnErr result (arena.new.items ≡ arena.old.items) }
    ensures memory { OnErr result (result ≡ Err PolarsError.OutOfMemory) }
{
    // A match and no `?`: an error of arenas doesn't convert, and is want of memory alone.
    match arena.add(entry) {
        Ok(node) => Ok(node),
        Err(_error) => Err(PolarsError::OutOfMemory),
    }
}

/// The column of a name.
///
/// Fails only for want of memory; the arena is then as before.
pub fn add_column(alloc: Global, name: &PlSmallStr, arena: &mut Arena<AExpr>) -> PolarsResult<Node>
    ensures tree { IfOk result (λ n. tree_at arena.new.items n ≡ Tree.column name.now) }
    ensures entries { Begins arena.old.items arena.new.items }
    ensures kept { KeepsTrees arena.old.items arena.new.items }
    ensures same { OnErr result (arena.new.items ≡ arena.old.items) }
    ensures memory { OnErr result (result ≡ Err PolarsError.OutOfMemory) }
{
    let name = copied(alloc, name)?;
    add_expr(arena, AExpr::Column(name))
}

/// The columns of names.
///
/// Fails only for want of memory; the arena may then have grown.
pub fn add_columns(
    alloc: Global,
    names: &[PlSmallStr],
    arena: &mut Arena<AExpr>,
) -> PolarsResult<Vec<Node>>
    ensures trees { IfOk result (λ ns. trees_at (tree_at arena.new.items) ns.items ≡ columns_named names.now) }
    ensures entries { Begins arena.old.items arena.new.items }
    ensures kept { KeepsTrees arena.old.items arena.new.items }
    ensures memory { OnErr result (result ≡ Err PolarsError.OutOfMemory) }
{
    let mut columns = Vec::with_capacity(alloc, names.len())?;
    for name in names {
        columns.push(add_column(alloc, name, arena)?)?;
    }
    Ok(columns)
}
