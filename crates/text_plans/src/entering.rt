// Expressions of a query as entries of an arena. What stood there keeps its number and its tree.
ghost use Rattle.std.specs.Prelude.{◌≡◌, Err, IfOk, OnErr, OnOk, Some, map};
ghost use Rattle.text_plans.specs.Arenas.{KeepsTrees};
ghost use Rattle.ps_frame.specs.Trees.{IsComplete, IsExpression, Tree, entry_tree, tree_at};
ghost use Rattle.ps_meaning.specs.Steps.{key_trees, named_trees};
ghost use Rattle.text_plans.specs.QueryPlans.{call_tree, columns, expr_tree, named};
ghost use Rattle.text_queries.specs.Views.{expr_of, item_of, key_of};
ghost use Rattle.text_tokens.specs.declared.error.TextError.TheVariants as refusal;

use ps_frame::expr::{AExpr, FunctionExpr, IRAggExpr, LiteralValue};
use ps_frame::items::Items;
use ps_meaning::options::{ExprIR, OutputName};
use pu_base::{Arena, Node, PlSmallStr};
use std::alloc::Global;
use text_queries::query::{Item, Key, TextExpr};
use text_queries::words::TextFn;
use text_tokens::error::TextError;

/// Adds an expression, with all that it holds, and gives its number.
///
/// Fails only for want of memory; the arena may then have grown.
pub fn add_expr(alloc: Global, expr: &TextExpr, into: &mut Arena<AExpr>) -> Result<Node, TextError>
    ensures tree { IfOk result (λ n. tree_at into.new.items n ≡ expr_tree (expr_of expr.now)) }
    ensures kept { OnOk result (KeepsTrees into.old.items into.new.items) }
    ensures memory { OnErr result (result ≡ Err refusal.OutOfMemory) }
{
    match expr {
        TextExpr::Name(name) => add(into, AExpr::Column(name.try_clone(alloc)?)),
        TextExpr::Int(number) => add(into, AExpr::Literal(LiteralValue::Int64(*number))),
        TextExpr::Text(content) => {
            let content = content.try_clone(alloc)?;
            add(into, AExpr::Literal(LiteralValue::String(content)))
        }
        TextExpr::Bool(truth) => add(into, AExpr::Literal(LiteralValue::Boolean(*truth))),
        TextExpr::Null(kind) => add(into, AExpr::Literal(LiteralValue::Null(*kind))),
        TextExpr::Len => add(into, AExpr::Len),
        TextExpr::Call { name, of } => {
            let input = add_expr(alloc, of, into)?;
            add_call(*name, input, into)
        }
        TextExpr::Binary { op, left, right } => {
            let left = add_expr(alloc, left, into)?;
            let right = add_expr(alloc, right, into)?;
            add(
                into,
                AExpr::BinaryExpr {
                    left,
                    op: *op,
                    right,
                },
            )
        }
    }
}

// Adds a function of an expression that stands there. A count leaves nulls out.
fn add_call(name: TextFn, input: Node, into: &mut Arena<AExpr>) -> Result<Node, TextError>
    requires { IsExpression into.old.items input }
    ensures tree { IfOk result (λ n. tree_at into.new.items n ≡ call_tree name (tree_at into.old.items input)) }
    ensures kept { OnOk result (KeepsTrees into.old.items into.new.items) }
    ensures memory { OnErr result (result ≡ Err refusal.OutOfMemory) }
{
    match name {
        TextFn::Min => add(into, AExpr::Agg(IRAggExpr::Min(input))),
        TextFn::Max => add(into, AExpr::Agg(IRAggExpr::Max(input))),
        TextFn::First => add(into, AExpr::Agg(IRAggExpr::First(input))),
        TextFn::Last => add(into, AExpr::Agg(IRAggExpr::Last(input))),
        TextFn::Sum => add(into, AExpr::Agg(IRAggExpr::Sum(input))),
        TextFn::NUnique => add(into, AExpr::Agg(IRAggExpr::NUnique(input))),
        TextFn::Count => add(into, AExpr::Agg(IRAggExpr::Count(input, false))),
        TextFn::Not => add_function(FunctionExpr::Not, input, into),
        TextFn::IsNull => add_function(FunctionExpr::IsNull, input, into),
        TextFn::IsNotNull => add_function(FunctionExpr::IsNotNull, input, into),
    }
}

// Adds a function of each cell of an expression that stands there.
fn add_function(
    function: FunctionExpr,
    input: Node,
    into: &mut Arena<AExpr>,
) -> Result<Node, TextError>
    requires { IsExpression into.old.items input }
    ensures tree { IfOk result (λ n. tree_at into.new.items n ≡ Tree.function function (tree_at into.old.items input)) }
    ensures kept { OnOk result (KeepsTrees into.old.items into.new.items) }
    ensures memory { OnErr result (result ≡ Err refusal.OutOfMemory) }
{
    add(into, AExpr::Function { input, function })
}

// Adds an entry over expressions that stand in the arena.
fn add(into: &mut Arena<AExpr>, entry: AExpr) -> Result<Node, TextError>
    requires { IsComplete (entry_tree (tree_at into.old.items) (Some entry)) }
    ensures tree { IfOk result (λ n. tree_at into.new.items n ≡ entry_tree (tree_at into.old.items) (Some entry)) }
    ensures kept { OnOk result (KeepsTrees into.old.items into.new.items) }
    ensures memory { OnErr result (result ≡ Err refusal.OutOfMemory) }
{
    let node = into.add(entry)?;
    Ok(node)
}

/// Adds items, with their names.
///
/// Fails only for want of memory; the arena may then have grown.
pub fn add_items(
    alloc: Global,
    items: &[Item],
    into: &mut Arena<AExpr>,
) -> Result<Items<ExprIR>, TextError>
    ensures trees { IfOk result (λ es. named_trees (tree_at into.new.items) es ≡ map named (map item_of items.now)) }
    ensures kept { OnOk result (KeepsTrees into.old.items into.new.items) }
    ensures memory { OnErr result (result ≡ Err refusal.OutOfMemory) }
{
    let mut added = Vec::with_capacity(alloc, items.len())?;
    for item in items {
        let node = add_expr(alloc, &item.expr, into)?;
        let output_name = OutputName::Alias(item.name.try_clone(alloc)?);
        added.push(ExprIR { node, output_name })?;
    }
    Ok(Items::new(added))
}

/// Adds the expressions of keys, for whose names nothing asks.
///
/// Fails only for want of memory; the arena may then have grown.
pub fn add_keys(
    alloc: Global,
    keys: &[Key],
    into: &mut Arena<AExpr>,
) -> Result<Items<ExprIR>, TextError>
    ensures trees { IfOk result (λ es. key_trees (tree_at into.new.items) es ≡ map (λ key. expr_tree key.expr) (map key_of keys.now)) }
    ensures kept { OnOk result (KeepsTrees into.old.items into.new.items) }
    ensures memory { OnErr result (result ≡ Err refusal.OutOfMemory) }
{
    let mut added = Vec::with_capacity(alloc, keys.len())?;
    for key in keys {
        let node = add_expr(alloc, &key.expr, into)?;
        let output_name = OutputName::Alias(PlSmallStr::empty(alloc));
        added.push(ExprIR { node, output_name })?;
    }
    Ok(Items::new(added))
}

/// Adds the columns of names.
///
/// Fails only for want of memory; the arena may then have grown.
pub fn add_columns(
    alloc: Global,
    names: &[PlSmallStr],
    into: &mut Arena<AExpr>,
) -> Result<Items<ExprIR>, TextError>
    ensures trees { IfOk result (λ es. key_trees (tree_at into.new.items) es ≡ columns names.now) }
    ensures kept { OnOk result (KeepsTrees into.old.items into.new.items) }
    ensures memory { OnErr result (result ≡ Err refusal.OutOfMemory) }
{
    let mut added = Vec::with_capacity(alloc, names.len())?;
    for name in names {
        let node = add(into, AExpr::Column(name.try_clone(alloc)?))?;
        let output_name = OutputName::ColumnLhs(name.try_clone(alloc)?);
        added.push(ExprIR { node, output_name })?;
    }
    Ok(Items::new(added))
}

/// Adds two lists of items, with their names.
///
/// Fails only for want of memory; the arena may then have grown.
pub fn add_two_lists(
    alloc: Global,
    first: &[Item],
    second: &[Item],
    into: &mut Arena<AExpr>,
) -> Result<(Items<ExprIR>, Items<ExprIR>), TextError>
    ensures first { IfOk result (λ es. named_trees (tree_at into.new.items) es.0 ≡ map named (map item_of first.now)) }
    ensures second { IfOk result (λ es. named_trees (tree_at into.new.items) es.1 ≡ map named (map item_of second.now)) }
    ensures kept { OnOk result (KeepsTrees into.old.items into.new.items) }
    ensures memory { OnErr result (result ≡ Err refusal.OutOfMemory) }
{
    let one = add_items(alloc, first, into)?;
    let other = add_items(alloc, second, into)?;
    Ok((one, other))
}

/// Adds the columns of names twice, for each side of a join.
///
/// Fails only for want of memory; the arena may then have grown.
pub fn add_both_sides(
    alloc: Global,
    names: &[PlSmallStr],
    into: &mut Arena<AExpr>,
) -> Result<(Items<ExprIR>, Items<ExprIR>), TextError>
    ensures left { IfOk result (λ es. key_trees (tree_at into.new.items) es.0 ≡ columns names.now) }
    ensures right { IfOk result (λ es. key_trees (tree_at into.new.items) es.1 ≡ columns names.now) }
    ensures kept { OnOk result (KeepsTrees into.old.items into.new.items) }
    ensures memory { OnErr result (result ≡ Err refusal.OutOfMemory) }
{
    let left = add_columns(alloc, names, into)?;
    let right = add_columns(alloc, names, into)?;
    Ok((left, right))
}
