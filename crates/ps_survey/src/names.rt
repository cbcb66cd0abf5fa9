//! What the entries of a plan's arenas name.
ghost use Rattle.std.specs.Prelude.{◌≡◌, ◌+◌, ◌^◌, ◌<◌, ◌∷◌, ◌++◌, [], length, map, slice_get, Some, IfSome};
ghost use Rattle.pu_base.specs.declared.arena.Node.{Node};
ghost use Rattle.ps_meaning.specs.declared.options.ExprIR.{ExprIR};
ghost use Rattle.ps_plan.specs.Graph.{aggregate_operand, operands};
ghost use Rattle.ps_plan.specs.Entries.{entry_exprs, entry_inputs, expr_nodes};

use crate::search::Names;
use ps_frame::expr::{AExpr, IRAggExpr};
use ps_meaning::options::ExprIR;
use ps_plan::ir::IR;
use pu_base::{Arena, Node};

/// The expressions of an arena, each of which names its operands.
#[derive(Clone, Copy)]
pub struct Operands<'a> {
    pub exprs: &'a Arena<AExpr>,
}

/// The nodes of an arena, each of which names its inputs.
#[derive(Clone, Copy)]
pub struct Inputs<'a> {
    pub nodes: &'a Arena<IR>,
}

/// The nodes of an arena, each of which names its expressions.
#[derive(Clone, Copy)]
pub struct Exprs<'a> {
    pub nodes: &'a Arena<IR>,
}

impl Names for Operands<'_> {
    ghost use Rattle.std.specs.Prelude.{length, slice_get};
    ghost use Rattle.ps_plan.specs.Graph.{named_by, operands};

    ghost named = { λ s n. named_by operands (slice_get s.exprs.now.items n) };

    ghost count = { λ s. length s.exprs.now.items };

    fn len(&self) -> usize {
        self.exprs.len()
    }

    fn name(&self, number: usize, place: usize) -> Option<usize> {
        operand(self.exprs.get(Node(number)), place)
    }
}

impl Names for Inputs<'_> {
    ghost use Rattle.std.specs.Prelude.{length, slice_get};
    ghost use Rattle.ps_plan.specs.Graph.{named_by};
    ghost use Rattle.ps_plan.specs.Entries.{entry_inputs};

    ghost named = { λ s n. named_by entry_inputs (slice_get s.nodes.now.items n) };

    ghost count = { λ s. length s.nodes.now.items };

    fn len(&self) -> usize {
        self.nodes.len()
    }

    fn name(&self, number: usize, place: usize) -> Option<usize> {
        input(self.nodes.get(Node(number)), place)
    }
}

impl Names for Exprs<'_> {
    ghost use Rattle.std.specs.Prelude.{length, slice_get};
    ghost use Rattle.ps_plan.specs.Graph.{named_by};
    ghost use Rattle.ps_plan.specs.Entries.{entry_exprs};

    ghost named = { λ s n. named_by entry_exprs (slice_get s.nodes.now.items n) };

    ghost count = { λ s. length s.nodes.now.items };

    fn len(&self) -> usize {
        self.nodes.len()
    }

    fn name(&self, number: usize, place: usize) -> Option<usize> {
        expr(self.nodes.get(Node(number)), place)
    }
}

/// The number at a place of a list.
fn among(nodes: &[Node], place: usize) -> Option<usize>
    ensures name { result ≡ slice_get (map (λ (n : Node). n.0) nodes.now) place }
    ensures within { IfSome result (λ _. place < length nodes.now) }
{
    nodes.get(place).map(|node| node.0)
}

/// The number of the expression at a place of a list.
fn among_exprs(exprs: &[ExprIR], place: usize) -> Option<usize>
    ensures name { result ≡ slice_get (map (λ (n : Node). n.0) (expr_nodes exprs.now)) place }
    ensures within { IfSome result (λ _. place < length exprs.now) }
{
    match exprs.get(place) {
        None => None,
        Some(expr) => Some(expr.node.0),
    }
}

/// The number at a place of a first and then of a second list.
fn among_both(first: &[ExprIR], second: &[ExprIR], place: usize) -> Option<usize>
    ensures name { result ≡ slice_get (map (λ (n : Node). n.0) (expr_nodes first.now ++ expr_nodes second.now)) place }
    ensures within { IfSome result (λ _. place < length first.now + length second.now) }
{
    if place < first.len() {
        among_exprs(first, place)
    } else {
        among_exprs(second, place - first.len())
    }
}

/// The number at a place of one and then a list.
fn one_and(first: Node, rest: &[Node], place: usize) -> Option<usize>
    ensures name { result ≡ slice_get (map (λ (n : Node). n.0) (first ∷ rest.now)) place }
    ensures within { IfSome result (λ _. place < length rest.now + 1) }
{
    if place == 0 {
        Some(first.0)
    } else {
        among(rest, place - 1)
    }
}

/// The number below an aggregate.
fn aggregated(aggregate: &IRAggExpr) -> Node
    ensures { result ≡ aggregate_operand aggregate.now }
{
    match aggregate {
        IRAggExpr::Min(node)
        | IRAggExpr::Max(node)
        | IRAggExpr::First(node)
        | IRAggExpr::Last(node)
        | IRAggExpr::Sum(node)
        | IRAggExpr::NUnique(node)
        | IRAggExpr::Count(node, _) => *node,
    }
}

/// The number that an expression names at a place.
fn operand(entry: &AExpr, place: usize) -> Option<usize>
    ensures name { result ≡ slice_get (map (λ (n : Node). n.0) (operands entry.now)) place }
    ensures bounded { IfSome result (λ _. place + 1 < 2 ^ 64) }
{
    match entry {
        AExpr::Column(_) | AExpr::Literal(_) | AExpr::Len | AExpr::LeftOut(_) => None,
        AExpr::BinaryExpr { left, op: _, right } => among(&[*left, *right], place),
        AExpr::Cast { expr, .. } | AExpr::Sort { expr, .. } => among(&[*expr], place),
        AExpr::SortBy { expr, by, .. } => one_and(*expr, by.as_slice(), place),
        AExpr::Gather { expr, idx, .. } => among(&[*expr, *idx], place),
        AExpr::Filter { input, by } => among(&[*input, *by], place),
        AExpr::Agg(aggregate) => among(&[aggregated(aggregate)], place),
        AExpr::Ternary {
            predicate,
            truthy,
            falsy,
        } => among(&[*predicate, *truthy, *falsy], place),
        AExpr::Function { input, .. } => among(&[*input], place),
        AExpr::Slice {
            input,
            offset,
            length,
        } => among(&[*input, *offset, *length], place),
    }
}

/// The node that a node names at a place.
fn input(entry: &IR, place: usize) -> Option<usize>
    ensures name { result ≡ slice_get (map (λ (n : Node). n.0) (entry_inputs entry.now)) place }
    ensures bounded { IfSome result (λ _. place + 1 < 2 ^ 64) }
{
    entry.inputs().get(place).map(|node| node.0)
}

/// The expression that a node names at a place.
fn expr(entry: &IR, place: usize) -> Option<usize>
    ensures name { result ≡ slice_get (map (λ (n : Node). n.0) (entry_exprs entry.now)) place }
    ensures bounded { IfSome result (λ _. place + 1 < 2 ^ 64) }
{
    match entry {
        IR::Select { expr, .. } => among_exprs(expr.as_slice(), place),
        IR::HStack { exprs, .. } => among_exprs(exprs.as_slice(), place),
        IR::Filter { predicate, .. } => among(&[predicate.node], place),
        IR::Sort { by_column, .. } => among_exprs(by_column.as_slice(), place),
        IR::GroupBy { keys, aggs, .. } => among_both(keys.as_slice(), aggs.as_slice(), place),
        IR::Join {
            left_on,
            right_on,
            ..
        } => among_both(left_on.as_slice(), right_on.as_slice(), place),
        IR::DataFrameScan { .. }
        | IR::SimpleProjection { .. }
        | IR::Slice { .. }
        | IR::Sink { .. }
        | IR::MapFunction { .. }
        | IR::Union { .. }
        | IR::HConcat { .. }
        | IR::Cache { .. }
        | IR::Distinct { .. }
        | IR::LeftOut(_) => None,
    }
}
