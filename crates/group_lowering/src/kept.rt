//! The values that a distinct keeps of the columns that it doesn't compare.
ghost use Rattle.std.specs.BTreeSet.{contains_text};
ghost use Rattle.std.specs.Prelude.{◌≡◌, ◌++◌, ◌∷◌, [], Err, IfOk, List, OnErr, OnOk};
ghost use Rattle.ps_copies.specs.Copies.{KeepsTrees};
ghost use Rattle.ps_frame.specs.Trees.{Tree, aggregate_tree, tree_at};
ghost use Rattle.ps_frame.specs.declared.refusal.PolarsError.{PolarsError};
ghost use Rattle.ps_meaning.specs.Schemas.{is_among};
ghost use Rattle.ps_meaning.specs.Steps.{Name, name_in, named_trees};
ghost use Rattle.plan_rules.specs.Distinct.{kept_value as kept_value_of, kept_values as kept_values_of, other_than};
ghost use Rattle.lowering_parts.specs.Gathered.{Begins};
ghost use Rattle.pu_base.specs.declared.arena.Node.{Node as ANode};

use crate::distincts::keeps_last;
use lowering_parts::names::{add_column, add_expr, copied, under_name};
use ps_frame::expr::{AExpr, IRAggExpr};
use ps_frame::refusal::PolarsResult;
use ps_meaning::options::{ExprIR, UniqueKeepStrategy};
use pu_base::{Arena, Node, PlSmallStr};
use std::alloc::Global;
use std::collections::BTreeSet;

/// The names among all that aren't keys, in order.
///
/// Fails only for want of memory.
pub(crate) fn other_names(
    alloc: Global,
    keys: &[PlSmallStr],
    all: &[PlSmallStr],
) -> PolarsResult<Vec<PlSmallStr>>
    ensures others { IfOk result (λ names. names.items ≡ other_than keys.now all.now) }
    ensures memory { OnErr result (result ≡ Err PolarsError.OutOfMemory) }
{
    let among = set_of(alloc, keys)?;
    let mut others = Vec::new(alloc);
    for name in all {
        push_other(alloc, &among, name, &mut others)?;
    }
    Ok(others)
}

// Adds a name that isn't in a set.
fn push_other(
    alloc: Global,
    among: &BTreeSet<String>,
    name: &PlSmallStr,
    others: &mut Vec<PlSmallStr>,
) -> PolarsResult<()>
    ensures others { (keys : List Name) → ((n : Name) → contains_text among.now n ≡ is_among n keys) → OnOk result (others.new.items ≡ others.old.items ++ other_than keys (name.now ∷ [])) }
    ensures memory { OnErr result (result ≡ Err PolarsError.OutOfMemory) }
{
    if among.contains(name.as_str()) {
        return Ok(());
    }
    let name = copied(alloc, name)?;
    others.push(name)?;
    Ok(())
}

// The set of some names.
fn set_of(alloc: Global, names: &[PlSmallStr]) -> PolarsResult<BTreeSet<String>>
    ensures names { IfOk result (λ set. (n : Name) → contains_text set n ≡ is_among n names.now) }
    ensures memory { OnErr result (result ≡ Err PolarsError.OutOfMemory) }
{
    // In order, since a set by hashes would be slow at names that were chosen for it.
    let mut set = BTreeSet::new(alloc);
    for name in names {
        let text = String::from_str(alloc, name.as_str())?;
        set.insert(text)?;
    }
    Ok(set)
}

/// The kept value of each column, under the column's name.
///
/// Fails only for want of memory; the arena may then have grown.
pub(crate) fn kept_values(
    alloc: Global,
    arena: &mut Arena<AExpr>,
    keep: UniqueKeepStrategy,
    names: &[PlSmallStr],
) -> PolarsResult<Vec<ExprIR>>
    ensures named { IfOk result (λ es. named_trees (tree_at arena.new.items) es.items ≡ kept_values_of keep names.now) }
    ensures entries { Begins arena.old.items arena.new.items }
    ensures kept { KeepsTrees arena.old.items arena.new.items }
    ensures memory { OnErr result (result ≡ Err PolarsError.OutOfMemory) }
{
    let mut values = Vec::with_capacity(alloc, names.len())?;
    for name in names {
        let value = named_value(alloc, arena, keep, name)?;
        values.push(value)?;
    }
    Ok(values)
}

fn named_value(
    alloc: Global,
    arena: &mut Arena<AExpr>,
    keep: UniqueKeepStrategy,
    name: &PlSmallStr,
) -> PolarsResult<ExprIR>
    ensures name { IfOk result (λ e. name_in e.output_name ≡ name.now) }
    ensures tree { IfOk result (λ e. tree_at arena.new.items e.node ≡ Tree.aggregate (kept_value_of keep) (Tree.column name.now)) }
    ensures entries { Begins arena.old.items arena.new.items }
    ensures kept { KeepsTrees arena.old.items arena.new.items }
    ensures memory { OnErr result (result ≡ Err PolarsError.OutOfMemory) }
{
    let value = kept_value(alloc, arena, keep, name)?;
    let name = copied(alloc, name)?;
    Ok(under_name(name, value))
}

// The first or the last value of a column.
fn kept_value(
    alloc: Global,
    arena: &mut Arena<AExpr>,
    keep: UniqueKeepStrategy,
    name: &PlSmallStr,
) -> PolarsResult<Node>
    ensures tree { IfOk result (λ n. tree_at arena.new.items n ≡ Tree.aggregate (kept_value_of keep) (Tree.column name.now)) }
    ensures entries { Begins arena.old.items arena.new.items }
    ensures kept { KeepsTrees arena.old.items arena.new.items }
    ensures memory { OnErr result (result ≡ Err PolarsError.OutOfMemory) }
{
    let column = add_column(alloc, name, arena)?;
    let entry = AExpr::Agg(aggregate_of(keep, column));
    let value = add_expr(arena, entry)?;
    Ok(value)
}

fn aggregate_of(keep: UniqueKeepStrategy, column: Node) -> IRAggExpr
    ensures { (f : ANode → Tree) → aggregate_tree f result ≡ Tree.aggregate (kept_value_of keep) (f column) }
{
    if keeps_last(keep) {
        IRAggExpr::Last(column)
    } else {
        IRAggExpr::First(column)
    }
}
