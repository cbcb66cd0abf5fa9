// What an expression is, whatever the table: scalar, or independent of its input.
ghost use Rattle.std.specs.Prelude.{◌≡◌, ◌+◌, ◌<◌, ◌≤◌, ◌&&◌, ◌||◌};
ghost use Rattle.std.specs.List.{list_any};
ghost use Rattle.ps_frame.specs.Trees.{AreComplete, IsExpression, tree_at, tree_size, trees_of, trees_size};
ghost use Rattle.ps_frame.specs.Parts.{is_literal_aggregate, some_part, trees_parts};
ghost use Rattle.ps_frame.specs.Typing.{are_scalar as are_scalar_trees, every_part_of_all, is_independent as is_independent_tree, is_scalar as is_scalar_tree, reads_no_input};

use crate::rules::aggregated;
use ps_frame::expr::{AExpr, entry};
use pu_base::{Arena, Node, Steps};
use std::marker::Brand;
use std::sync::ledger::{Blank, Ledger};

/// Whether an expression gives one cell, whatever the table.
#[cycle(scalar)]
pub fn is_scalar(expr: Node, arena: &Arena<AExpr>) -> bool
    requires { IsExpression arena.now.items expr }
    ensures { result ≡ is_scalar_tree (tree_at arena.now.items expr) }
{
    match entry(expr, arena) {
        AExpr::Literal(_) | AExpr::Agg(_) | AExpr::Len => true,
        AExpr::Column(_) | AExpr::Filter { .. } | AExpr::Slice { .. } | AExpr::LeftOut(_) => false,
        AExpr::BinaryExpr { left, op: _, right } => is_scalar(*left, arena)
            && is_scalar(*right, arena),
        AExpr::Cast { expr, .. } | AExpr::Sort { expr, .. } => is_scalar(*expr, arena),
        AExpr::SortBy { expr, by, .. } => is_scalar(*expr, arena)
            && are_scalar(by.as_slice(), arena),
        AExpr::Gather { returns_scalar, .. } => *returns_scalar,
        AExpr::Ternary {
            predicate,
            truthy,
            falsy,
        } => is_scalar(*predicate, arena) && is_scalar(*truthy, arena) && is_scalar(*falsy, arena),
        AExpr::Function { input, .. } => is_scalar(*input, arena),
    }
}

// Whether each of these expressions gives one cell.
#[cycle(scalar)]
fn are_scalar(exprs: &[Node], arena: &Arena<AExpr>) -> bool
    requires { AreComplete (trees_of (tree_at arena.now.items) exprs.now) }
    ensures { result ≡ are_scalar_trees (trees_of (tree_at arena.now.items) exprs.now) }
{
    for expr in exprs {
        if !is_scalar(*expr, arena) {
            return false;
        }
    }
    true
}

/// Whether an expression has the same answer over every table: nothing in it is a column, or the table's height.
#[cycle(independent)]
pub fn is_independent(expr: Node, arena: &Arena<AExpr>) -> bool
    requires { IsExpression arena.now.items expr }
    ensures { result ≡ is_independent_tree (tree_at arena.now.items expr) }
{
    match entry(expr, arena) {
        AExpr::Column(_) | AExpr::Len => false,
        AExpr::Literal(_) | AExpr::LeftOut(_) => true,
        AExpr::BinaryExpr { left, op: _, right } => {
            is_independent(*left, arena) && is_independent(*right, arena)
        }
        AExpr::Cast { expr, .. } | AExpr::Sort { expr, .. } => is_independent(*expr, arena),
        AExpr::SortBy { expr, by, .. } => is_independent(*expr, arena)
            && are_independent(by.as_slice(), arena),
        AExpr::Gather { expr, idx, .. } => {
            is_independent(*expr, arena) && is_independent(*idx, arena)
        }
        AExpr::Filter { input, by } => is_independent(*input, arena) && is_independent(*by, arena),
        AExpr::Agg(aggregate) => is_independent(aggregated(aggregate), arena),
        AExpr::Ternary {
            predicate,
            truthy,
            falsy,
        } => {
            is_independent(*predicate, arena)
                && is_independent(*truthy, arena)
                && is_independent(*falsy, arena)
        }
        AExpr::Function { input, .. } => is_independent(*input, arena),
        AExpr::Slice {
            input,
            offset,
            length,
        } => {
            is_independent(*input, arena)
                && is_independent(*offset, arena)
                && is_independent(*length, arena)
        }
    }
}

// Whether each of these expressions has the same answer over every table.
#[cycle(independent)]
fn are_independent(exprs: &[Node], arena: &Arena<AExpr>) -> bool
    requires { AreComplete (trees_of (tree_at arena.now.items) exprs.now) }
    ensures { result ≡ every_part_of_all reads_no_input (trees_of (tree_at arena.now.items) exprs.now) }
{
    for expr in exprs {
        if !is_independent(*expr, arena) {
            return false;
        }
    }
    true
}

/// Whether an expression is independent of its input, and whether some aggregate in it is over such an expression.
#[derive(Clone, Copy, Debug, PartialEq, Eq)]
pub struct Independence {
    pub is_independent: bool,
    pub has_literal_aggregate: bool,
}

impl Independence {
    // That of an expression over these two.
    fn and(self, other: Independence) -> Independence
        ensures independent { result.is_independent ≡ (self.is_independent && other.is_independent) }
        ensures aggregates { result.has_literal_aggregate ≡ (self.has_literal_aggregate || other.has_literal_aggregate) }
    {
        Independence {
            is_independent: self.is_independent && other.is_independent,
            has_literal_aggregate: self.has_literal_aggregate || other.has_literal_aggregate,
        }
    }
}

/// Both answers, at one step for each expression that is looked at.
#[cycle(independence)]
pub fn independence_of<L: Ledger>(
    expr: Node,
    arena: &Arena<AExpr>,
    steps: &mut Steps<L>,
) -> Independence
    requires { IsExpression arena.now.items expr }
    ensures independent { result.is_independent ≡ is_independent_tree (tree_at arena.now.items expr) }
    ensures aggregates { result.has_literal_aggregate ≡ some_part is_literal_aggregate (tree_at arena.now.items expr) }
    ensures steps { steps.new ≤ steps.old + tree_size (tree_at arena.now.items expr) }
{
    steps.tick();
    match entry(expr, arena) {
        AExpr::Column(_) | AExpr::Len => Independence {
            is_independent: false,
            has_literal_aggregate: false,
        },
        AExpr::Literal(_) | AExpr::LeftOut(_) => Independence {
            is_independent: true,
            has_literal_aggregate: false,
        },
        AExpr::BinaryExpr { left, op: _, right } => {
            let left = independence_of(*left, arena, steps);
            left.and(independence_of(*right, arena, steps))
        }
        AExpr::Cast { expr, .. } | AExpr::Sort { expr, .. } => independence_of(*expr, arena, steps),
        AExpr::SortBy { expr, by, .. } => {
            let sorted = independence_of(*expr, arena, steps);
            sorted.and(independence_of_all(by.as_slice(), arena, steps))
        }
        AExpr::Gather { expr, idx, .. } => {
            let gathered = independence_of(*expr, arena, steps);
            gathered.and(independence_of(*idx, arena, steps))
        }
        AExpr::Filter { input, by } => {
            let input = independence_of(*input, arena, steps);
            input.and(independence_of(*by, arena, steps))
        }
        AExpr::Agg(aggregate) => {
            let input = independence_of(aggregated(aggregate), arena, steps);
            Independence {
                is_independent: input.is_independent,
                has_literal_aggregate: input.is_independent || input.has_literal_aggregate,
            }
        }
        AExpr::Ternary {
            predicate,
            truthy,
            falsy,
        } => {
            let predicate = independence_of(*predicate, arena, steps);
            let truthy = independence_of(*truthy, arena, steps);
            let falsy = independence_of(*falsy, arena, steps);
            predicate.and(truthy.and(falsy))
        }
        AExpr::Function { input, .. } => independence_of(*input, arena, steps),
        AExpr::Slice {
            input,
            offset,
            length,
        } => {
            let input = independence_of(*input, arena, steps);
            let offset = independence_of(*offset, arena, steps);
            let length = independence_of(*length, arena, steps);
            input.and(offset.and(length))
        }
    }
}

// What holds of all of these expressions, and what of some.
#[cycle(independence)]
fn independence_of_all<L: Ledger>(
    exprs: &[Node],
    arena: &Arena<AExpr>,
    steps: &mut Steps<L>,
) -> Independence
    requires { AreComplete (trees_of (tree_at arena.now.items) exprs.now) }
    ensures independent { result.is_independent ≡ every_part_of_all reads_no_input (trees_of (tree_at arena.now.items) exprs.now) }
    ensures aggregates { result.has_literal_aggregate ≡ list_any is_literal_aggregate (trees_parts (trees_of (tree_at arena.now.items) exprs.now)) }
    ensures steps { steps.new ≤ steps.old + trees_size (trees_of (tree_at arena.now.items) exprs.now) }
{
    let mut all = Independence {
        is_independent: true,
        has_literal_aggregate: false,
    };
    for expr in exprs {
        all = all.and(independence_of(*expr, arena, steps));
    }
    all
}

/// Whether an aggregate in an expression is over one that is independent of its input.
pub fn has_literal_aggregate(expr: Node, arena: &Arena<AExpr>) -> bool
    requires { IsExpression arena.now.items expr }
    ensures { result ≡ some_part is_literal_aggregate (tree_at arena.now.items expr) }
{
    looks_for_aggregate::<Brand>(expr, arena, Blank::new(1))
}

fn looks_for_aggregate<L: Ledger>(expr: Node, arena: &Arena<AExpr>, blank: Blank) -> bool
    requires expression { IsExpression arena.now.items expr }
    requires name { blank.name ≡ L.name }
    requires parts { blank.parts ≡ L.parts }
    requires some { 0 < L.parts }
    ensures { result ≡ some_part is_literal_aggregate (tree_at arena.now.items expr) }
{
    let mut steps = Steps::<L>::new(blank);
    independence_of(expr, arena, &mut steps).has_literal_aggregate
}
