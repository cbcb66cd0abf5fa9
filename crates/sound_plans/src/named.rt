//! Whether the expressions that nodes name are there.
ghost use Rattle.std.specs.Prelude.{◌++◌, IsTrue, Some, length};
ghost use Rattle.std.specs.List.{AllByRecursion};
ghost use Rattle.pu_base.specs.declared.arena.Node.{Node as Number};
ghost use Rattle.ps_frame.specs.declared.expr.AExpr.TheVariants as entry;
ghost use Rattle.ps_frame.specs.Trees.{AreComplete, IsComplete, Tree, entry_tree, tree_at, trees_of};
ghost use Rattle.ps_meaning.specs.Maps.{map_step};
ghost use Rattle.ps_meaning.specs.Sound.{rules_of};
ghost use Rattle.ps_meaning.specs.Steps.{key_trees, step_exprs};
ghost use Rattle.ps_phys.specs.Shown.{kind_of};
ghost use Rattle.sound_plans.specs.Named.{AreThereBelow};

use ps_frame::expr::{AExpr, IRAggExpr};
use ps_meaning::map::MapKind;
use ps_meaning::options::ExprIR;
use ps_phys::phys::PhysNodeKind;
use pu_base::{Arena, Node};

// Whether each of these numbers is below another.
fn are_below(nodes: &[Node], number: usize) -> bool
    ensures { IsTrue result → (f : Number → Tree) → AreThereBelow f number → AreComplete (trees_of f nodes.now) }
{
    for node in nodes {
        if node.0 >= number {
            return false;
        }
    }
    true
}

// What an aggregate goes over.
fn operand(aggregate: &IRAggExpr) -> Node
    ensures { (f : Number → Tree) → IsComplete (f result) → IsComplete (entry_tree f (Some (entry.Agg aggregate.now))) }
{
    match aggregate {
        IRAggExpr::Min(expr)
        | IRAggExpr::Max(expr)
        | IRAggExpr::First(expr)
        | IRAggExpr::Last(expr)
        | IRAggExpr::Sum(expr)
        | IRAggExpr::NUnique(expr)
        | IRAggExpr::Count(expr, _) => *expr,
    }
}

// Whether an entry names numbers below another alone.
fn names_below(entry: &AExpr, number: usize) -> bool
    ensures { IsTrue result → (f : Number → Tree) → AreThereBelow f number → IsComplete (entry_tree f (Some entry.now)) }
{
    match entry {
        AExpr::Column(_) | AExpr::Literal(_) | AExpr::Len | AExpr::LeftOut(_) => true,
        AExpr::BinaryExpr { left, op: _, right } => left.0 < number && right.0 < number,
        AExpr::Cast { expr, .. } | AExpr::Sort { expr, .. } => expr.0 < number,
        AExpr::SortBy { expr, by, .. } => expr.0 < number && are_below(by.as_slice(), number),
        AExpr::Gather { expr, idx, .. } => expr.0 < number && idx.0 < number,
        AExpr::Filter { input, by } => input.0 < number && by.0 < number,
        AExpr::Agg(aggregate) => operand(aggregate).0 < number,
        AExpr::Ternary {
            predicate,
            truthy,
            falsy,
        } => predicate.0 < number && truthy.0 < number && falsy.0 < number,
        AExpr::Function { input, .. } => input.0 < number,
        AExpr::Slice {
            input,
            offset,
            length,
        } => input.0 < number && offset.0 < number && length.0 < number,
    }
}

/// Whether each expression of an arena names earlier ones alone: then each is there, with all that it names.
pub fn are_in_order(arena: &Arena<AExpr>) -> bool
    ensures { IsTrue result → AreThereBelow (tree_at arena.now.items) (length arena.now.items) }
{
    for number in 0..arena.len() {
        let below = names_below(arena.get(Node(number)), number);
        if !below {
            return false;
        }
    }
    true
}

// Whether the numbers of these expressions are below another.
fn are_there(exprs: &[ExprIR], number: usize) -> bool
    ensures { IsTrue result → (f : Number → Tree) → AreThereBelow f number → AllByRecursion IsComplete (key_trees f exprs.now) }
{
    for expr in exprs {
        if expr.node.0 >= number {
            return false;
        }
    }
    true
}

// The same of two lists of expressions.
fn both_there(first: &[ExprIR], second: &[ExprIR], number: usize) -> bool
    ensures { IsTrue result → (f : Number → Tree) → AreThereBelow f number → AllByRecursion IsComplete (key_trees f first.now ++ key_trees f second.now) }
{
    are_there(first, number) && are_there(second, number)
}

// Whether the numbers of the expressions that a map names are below another.
fn map_names_below(map: &MapKind, number: usize) -> bool
    ensures { IsTrue result → (f : Number → Tree) → AreThereBelow f number → AllByRecursion IsComplete (step_exprs (map_step f map.now)) }
{
    match map {
        MapKind::Function(_) | MapKind::Distinct(_) => true,
        MapKind::Select(exprs) => are_there(exprs.as_slice(), number),
        MapKind::Sort { by_column, .. } => are_there(by_column.as_slice(), number),
        MapKind::GroupBy { keys, aggs, .. } => {
            both_there(keys.as_slice(), aggs.as_slice(), number)
        }
    }
}

/// Whether the numbers of the expressions that a node names are below another.
pub fn node_names_below(kind: &PhysNodeKind, number: usize) -> bool
    ensures { IsTrue result → (f : Number → Tree) → AreThereBelow f number → AllByRecursion IsComplete (step_exprs (rules_of (kind_of f kind.now))) }
{
    match kind {
        PhysNodeKind::InMemorySource { .. } => true,
        PhysNodeKind::WithRowIndex { .. } => true,
        PhysNodeKind::StreamingSlice { .. } => true,
        PhysNodeKind::NegativeSlice { .. } => true,
        PhysNodeKind::SimpleProjection { .. } => true,
        PhysNodeKind::InMemorySink { .. } => true,
        PhysNodeKind::OrderedUnion { .. } => true,
        PhysNodeKind::Zip { .. } => true,
        PhysNodeKind::Multiplexer { .. } => true,
        PhysNodeKind::Select { selectors, .. } => are_there(selectors.as_slice(), number),
        PhysNodeKind::InputIndependentSelect { selectors } => {
            are_there(selectors.as_slice(), number)
        }
        PhysNodeKind::Reduce { exprs, .. } => are_there(exprs.as_slice(), number),
        PhysNodeKind::Filter { predicate, .. } => predicate.node.0 < number,
        PhysNodeKind::InMemoryMap { map, .. } => map_names_below(map, number),
        PhysNodeKind::Map { map, .. } => map_names_below(map, number),
        PhysNodeKind::Sort { by_column, .. } => are_there(by_column.as_slice(), number),
        PhysNodeKind::GroupBy { key, aggs, .. } => {
            both_there(key.as_slice(), aggs.as_slice(), number)
        }
        PhysNodeKind::EquiJoin {
            left_on,
            right_on,
            ..
        } => both_there(left_on.as_slice(), right_on.as_slice(), number),
        PhysNodeKind::InMemoryJoin {
            left_on,
            right_on,
            ..
        } => both_there(left_on.as_slice(), right_on.as_slice(), number),
    }
}
