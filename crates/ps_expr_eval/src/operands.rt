// The entries that an entry takes, and the columns of so many of them.
ghost use Rattle.std.specs.Prelude.{◌≡◌, ◌∷◌, [], ◌++◌, ◌≤◌, ◌↔◌, ◌≢◌, IfOk, IsTrue, length};
ghost use Rattle.ps_expr_eval.specs.Evaluations.{operands_of};

use crate::aggregate::aggregated;
use crate::computed::ComputedColumn;
use ps_frame::expr::AExpr;
use pu_base::Node;
use std::alloc::{AllocError, Global};

/// The entries that an entry takes, in order.
///
/// Fails only for want of memory.
pub fn operands(alloc: Global, entry: &AExpr) -> Result<Vec<Node>, AllocError>
    ensures { IfOk result (λ nodes. nodes.items ≡ operands_of entry.now) }
{
    match entry {
        AExpr::Column(_) | AExpr::Literal(_) | AExpr::Len | AExpr::LeftOut(_) => {
            Ok(Vec::new(alloc))
        }
        AExpr::BinaryExpr { left, right, .. } => two(alloc, *left, *right),
        AExpr::Cast { expr, .. } => one(alloc, *expr),
        AExpr::Sort { expr, .. } => one(alloc, *expr),
        AExpr::SortBy { expr, by, .. } => one_and_keys(alloc, *expr, by.as_slice()),
        AExpr::Gather { expr, idx, .. } => two(alloc, *expr, *idx),
        AExpr::Filter { input, by } => two(alloc, *input, *by),
        AExpr::Agg(aggregate) => one(alloc, aggregated(*aggregate)),
        AExpr::Ternary {
            predicate,
            truthy,
            falsy,
        } => three(alloc, *predicate, *truthy, *falsy),
        AExpr::Function { input, .. } => one(alloc, *input),
        AExpr::Slice {
            input,
            offset,
            length,
        } => three(alloc, *input, *offset, *length),
    }
}

fn one(alloc: Global, expr: Node) -> Result<Vec<Node>, AllocError>
    ensures { IfOk result (λ nodes. nodes.items ≡ expr ∷ []) }
{
    let mut nodes = Vec::with_capacity(alloc, 1)?;
    nodes.push(expr)?;
    Ok(nodes)
}

fn two(alloc: Global, first: Node, second: Node) -> Result<Vec<Node>, AllocError>
    ensures { IfOk result (λ nodes. nodes.items ≡ first ∷ second ∷ []) }
{
    let mut nodes = Vec::with_capacity(alloc, 2)?;
    nodes.push(first)?;
    nodes.push(second)?;
    Ok(nodes)
}

fn three(alloc: Global, first: Node, second: Node, third: Node) -> Result<Vec<Node>, AllocError>
    ensures { IfOk result (λ nodes. nodes.items ≡ first ∷ second ∷ third ∷ []) }
{
    let mut nodes = Vec::with_capacity(alloc, 3)?;
    nodes.push(first)?;
    nodes.push(second)?;
    nodes.push(third)?;
    Ok(nodes)
}

fn one_and_keys(alloc: Global, expr: Node, keys: &[Node]) -> Result<Vec<Node>, AllocError>
    ensures { IfOk result (λ nodes. nodes.items ≡ expr ∷ keys.now) }
{
    let mut nodes = one(alloc, expr)?;
    for key in keys {
        nodes.push(*key)?;
    }
    Ok(nodes)
}

/// How many entries an entry takes.
pub fn count_operands(entry: &AExpr) -> usize
    ensures { result ≡ length (operands_of entry.now) }
{
    match entry {
        AExpr::Column(_) | AExpr::Literal(_) | AExpr::Len | AExpr::LeftOut(_) => 0,
        AExpr::Cast { .. } | AExpr::Sort { .. } | AExpr::Agg(_) | AExpr::Function { .. } => 1,
        AExpr::BinaryExpr { .. } | AExpr::Gather { .. } | AExpr::Filter { .. } => 2,
        AExpr::Ternary { .. } | AExpr::Slice { .. } => 3,
        AExpr::SortBy { by, .. } => 1 + by.as_slice().len(),
    }
}

/// Takes so many columns off the end, and gives them in their order.
///
/// Fails only for want of memory; some are then lost.
pub fn take_last(
    alloc: Global,
    columns: &mut Vec<ComputedColumn>,
    count: usize,
) -> Result<Vec<ComputedColumn>, AllocError>
    requires { count ≤ length columns.old.items }
    ensures parts { IfOk result (λ last. columns.old.items ≡ columns.new.items ++ last.items) }
    ensures len { IfOk result (λ last. length last.items ≡ count) }
{
    let mut last = Vec::with_capacity(alloc, count)?;
    for _taken in 0..count {
        match columns.pop() {
            Some(column) => last.push(column)?,
            None => unreachable!(),
        }
    }
    last.as_mut_slice().reverse();
    Ok(last)
}

/// The only column of a list of one.
pub fn only(mut columns: Vec<ComputedColumn>) -> ComputedColumn
    requires { length columns.items ≡ 1 }
    ensures { columns.items ≡ result ∷ [] }
{
    match columns.pop() {
        Some(column) => column,
        None => unreachable!(),
    }
}

/// The first column of a list, and the others.
pub fn one_and_others(mut columns: Vec<ComputedColumn>) -> (ComputedColumn, Vec<ComputedColumn>)
    requires { 1 ≤ length columns.items }
    ensures { columns.items ≡ result.0 ∷ result.1.items }
{
    let first = columns.remove(0);
    (first, columns)
}

/// The columns of a list of two.
pub fn both(mut columns: Vec<ComputedColumn>) -> (ComputedColumn, ComputedColumn)
    requires { length columns.items ≡ 2 }
    ensures { columns.items ≡ result.0 ∷ result.1 ∷ [] }
{
    match columns.pop() {
        Some(second) => (only(columns), second),
        None => unreachable!(),
    }
}

/// The columns of a list of three.
pub fn all_three(
    mut columns: Vec<ComputedColumn>,
) -> (ComputedColumn, ComputedColumn, ComputedColumn)
    requires { length columns.items ≡ 3 }
    ensures { columns.items ≡ result.0 ∷ result.1 ∷ result.2 ∷ [] }
{
    match columns.pop() {
        Some(third) => {
            let (first, second) = both(columns);
            (first, second, third)
        }
        None => unreachable!(),
    }
}
