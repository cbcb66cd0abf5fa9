// Keys: expressions whose names don't matter.
ghost use Rattle.std.specs.Prelude.{◌≡◌, ◌≤◌, ◌+◌, ◌↔◌, ◌∷◌, Err, IfErr, IfOk, IsTrue, List, MatchOption, OnErr, Some, map};
ghost use Rattle.std.specs.BTreeSet.{contains_text};
ghost use Rattle.std.specs.List.{AllByRecursion};
ghost use Rattle.ps_frame.specs.Trees.{IsComplete, IsExpression, Tree, tree_at};
ghost use Rattle.ps_frame.specs.Typing.{kind_over};
ghost use Rattle.ps_meaning.specs.PlanTrees.{all_sizes};
ghost use Rattle.ps_meaning.specs.Schemas.{bare_names, is_among};
ghost use Rattle.ps_meaning.specs.Steps.{Name, key_trees};
ghost use Rattle.ps_typing.specs.Refused.{IsErrorAmong};
ghost use Rattle.valid_plans.specs.Fields.{all_parts};

use ps_frame::expr::{AExpr, entry};
use ps_frame::refusal::{PolarsError, PolarsResult};
use ps_frame::schema::Schema;
use ps_frame::value::DataType;
use ps_meaning::options::ExprIR;
use ps_typing::kinds::type_expr;
use pu_base::{Arena, Node, PlSmallStr, Steps};
use std::alloc::Global;
use std::collections::BTreeSet;
use std::sync::ledger::Ledger;

/// The kinds of keys over a schema.
///
/// Refused at the node `at` where some part of a key reads a column that the schema lacks, breaks a typing rule or is
/// left out; any one of these may be answered. Else it fails only for want of memory. It takes a step for each
/// expression that it looks at.
pub fn key_kinds<L: Ledger>(
    alloc: Global,
    at: Node,
    keys: &[ExprIR],
    arena: &Arena<AExpr>,
    input: &Schema,
    steps: &mut Steps<L>,
) -> PolarsResult<Vec<DataType>>
    requires { AllByRecursion IsComplete (key_trees (tree_at arena.now.items) keys.now) }
    ensures kinds { IfOk result (λ ks. map Some ks.items ≡ map (kind_over input.now) (key_trees (tree_at arena.now.items) keys.now)) }
    ensures refused { IfErr result (IsErrorAmong at input.now (all_parts (key_trees (tree_at arena.now.items) keys.now))) }
    ensures steps { steps.new ≤ steps.old + all_sizes (key_trees (tree_at arena.now.items) keys.now) }
{
    let mut kinds = Vec::new(alloc);
    for key in keys {
        let typed = type_expr(alloc, at, key.node, arena, input, steps)?;
        kinds.push(typed.dtype)?;
    }
    Ok(kinds)
}

/// Whether keys have the same kinds, in order.
pub fn same_kinds(left: &[DataType], right: &[DataType]) -> bool
    ensures { IsTrue result ↔ (left.now ≡ right.now) }
{
    if left.len() != right.len() {
        return false;
    }
    for i in 0..left.len() {
        if left[i] != right[i] {
            return false;
        }
    }
    true
}

// The name of an expression that is a column.
fn column_name(expr: Node, arena: &Arena<AExpr>) -> Option<&PlSmallStr>
    requires { IsExpression arena.now.items expr }
    ensures { MatchOption result ((ts : List Tree) → bare_names (tree_at arena.now.items expr ∷ ts) ≡ bare_names ts) (λ name. tree_at arena.now.items expr ≡ Tree.column name.now) }
{
    match entry(expr, arena) {
        AExpr::Column(name) => Some(name),
        _ => None,
    }
}

/// The names of the keys that are columns.
///
/// Fails only for want of memory.
pub fn column_names(
    alloc: Global,
    keys: &[ExprIR],
    arena: &Arena<AExpr>,
) -> PolarsResult<BTreeSet<String>>
    requires { AllByRecursion IsComplete (key_trees (tree_at arena.now.items) keys.now) }
    ensures names { IfOk result (λ names. (n : Name) → contains_text names n ≡ is_among n (bare_names (key_trees (tree_at arena.now.items) keys.now))) }
    ensures memory { OnErr result (result ≡ Err PolarsError.OutOfMemory) }
{
    // In order, since a set by hashes would be slow at names that were chosen for it.
    let mut names = BTreeSet::new(alloc);
    for key in keys {
        if let Some(name) = column_name(key.node, arena) {
            let name = String::from_str(alloc, name.as_str())?;
            names.insert(name)?;
        }
    }
    Ok(names)
}
