// The column of an expression over a table.
ghost use Rattle.std.specs.Prelude.{◌≡◌, ◌<◌, ◌+◌, ◌*◌, ◌∷◌, ◌++◌, ℕ, suc, List, map, reverse, slice_get, Err, IfOk, IsSome, OnErr, OnOk, Some, option_to_list};
ghost use Rattle.ps_expr_eval.specs.Evaluations.{AreTyped, EvaluateAll, Evaluates, IsTyped, operands_of};
ghost use Rattle.ps_expr_eval.specs.Held.{Keeps, cells_of};
ghost use Rattle.ps_expr_eval.specs.Walks.{Proceeds, operands_at, steps_left};
ghost use Rattle.ps_expr_eval.specs.declared.evaluate.Work.{Work as AWork};
ghost use Rattle.ps_expr_eval.specs.declared.evaluate.Work.TheVariants as work;
ghost use Rattle.ps_frame.specs.Causes.{Column as AColumn};
ghost use Rattle.ps_frame.specs.Eval.{eval};
ghost use Rattle.ps_frame.specs.Evaluated.{StandsFor};
ghost use Rattle.ps_frame.specs.Tables.{whole};
ghost use Rattle.ps_frame.specs.Trees.{IsExpression, entry_tree, tree_at, tree_size, trees_of, trees_size};
ghost use Rattle.ps_frame.specs.Typing.{kind_over};
ghost use Rattle.pu_base.specs.declared.arena.Node.{Node as ANode};

use crate::aggregate::aggregated_part;
use crate::computed::ComputedColumn;
use crate::elementwise::{Unary, binary_part, ternary_part, unary_part};
use crate::filter::kept_part;
use crate::operands::{all_three, both, count_operands, one_and_others, only, operands, take_last};
use crate::shared::SharedColumns;
use crate::sort_by::sorted_by_part;
use crate::sources::{column_part, count_part, literal_part};
use crate::whole::{function_part, gathered_part, sliced_part, sorted_part};
use ps_frame::expr::AExpr;
use ps_frame::frame::DataFrame;
use ps_frame::refusal::{PolarsError, PolarsResult};
use ps_frame::value::{DataFault, Evaluated};
use pu_base::{Arena, Node};
use std::alloc::{AllocError, Global};

/// The entry of an expression that has a kind over a table, and so have the expressions that it takes.
fn typed_entry<'a>(expr: Node, arena: &'a Arena<AExpr>, df: &DataFrame) -> &'a AExpr
    requires { IsTyped df.now.schema (tree_at arena.now.items expr) }
    ensures entry { slice_get arena.now.items expr.0 ≡ Some result.now }
    ensures tree { tree_at arena.now.items expr ≡ entry_tree (tree_at arena.now.items) (Some result.now) }
    ensures size { tree_size (tree_at arena.now.items expr) ≡ suc (trees_size (trees_of (tree_at arena.now.items) (operands_of result.now))) }
    ensures typed { AreTyped df.now.schema (tree_at arena.now.items) (operands_of result.now) }
{
    // The table is read, for then it is known that its rows fit its schema.
    let _schema = df.schema();
    arena.get(expr)
}

/// A step of the walk over an expression.
#[derive(Clone, Copy, Drop)]
pub enum Work {
    /// The column of the entry is to be found among those that are kept, or else to be computed.
    Visit(Node),
    /// It is to be computed of the columns that were put down last.
    Compute(Node),
}

/// The column of an expression over a table, as it is computed. What stands in the expression more
/// than once under one number is computed once.
///
/// Fails only for want of memory.
pub fn part_of(
    alloc: Global,
    expr: Node,
    arena: &Arena<AExpr>,
    df: &DataFrame,
) -> Result<ComputedColumn, AllocError>
    requires expression { IsExpression arena.now.items expr }
    requires kind { IsSome (kind_over df.now.schema (tree_at arena.now.items expr)) }
    ensures { IfOk result (Evaluates df.now (tree_at arena.now.items expr)) }
{
    let parts = parts_of(alloc, &[expr], arena, df)?;
    Ok(only(parts))
}

/// The columns of expressions over a table, in their order, as they are computed. What stands in them
/// more than once under one number is computed once, in whichever of them it stands.
///
/// It walks with a list of its own, since an expression may be deep. Fails only for want of memory.
pub fn parts_of(
    alloc: Global,
    exprs: &[Node],
    arena: &Arena<AExpr>,
    df: &DataFrame,
) -> Result<Vec<ComputedColumn>, AllocError>
    requires { AreTyped df.now.schema (tree_at arena.now.items) exprs.now }
    ensures { IfOk result (λ parts. EvaluateAll df.now (trees_of (tree_at arena.now.items) exprs.now) parts.items) }
{
    let mut shared = SharedColumns::new(alloc, exprs, arena)?;
    let mut columns = Vec::new(alloc);
    let mut left = Vec::new(alloc);
    push_visits(&mut left, Vec::from_slice(alloc, exprs)?)?;
    while let Some(next) = left.pop() {
        step(alloc, next, arena, df, &mut left, &mut columns, &mut shared)?;
    }
    Ok(columns)
}

// Does what comes next.
fn step(
    alloc: Global,
    next: Work,
    arena: &Arena<AExpr>,
    df: &DataFrame,
    left: &mut Vec<Work>,
    columns: &mut Vec<ComputedColumn>,
    shared: &mut SharedColumns,
) -> Result<(), AllocError>
    requires { (exprs : List ANode) × Proceeds df.now arena.now.items exprs (next ∷ reverse left.old.items) columns.old.items shared.old }
    ensures proceeds { (exprs : List ANode) → Proceeds df.now arena.now.items exprs (next ∷ reverse left.old.items) columns.old.items shared.old → OnOk result (Proceeds df.now arena.now.items exprs (reverse left.new.items) columns.new.items shared.new) }
    ensures smaller { OnOk result (steps_left (tree_at arena.now.items) (reverse left.new.items) < steps_left (tree_at arena.now.items) (next ∷ reverse left.old.items)) }
{
    match next {
        Work::Visit(node) => visit(alloc, node, arena, df, left, columns, shared),
        Work::Compute(node) => compute(alloc, node, arena, df, columns, shared),
    }
}

// Puts down the column of an entry, or what is to be done for it.
fn visit(
    alloc: Global,
    expr: Node,
    arena: &Arena<AExpr>,
    df: &DataFrame,
    left: &mut Vec<Work>,
    columns: &mut Vec<ComputedColumn>,
    shared: &mut SharedColumns,
) -> Result<(), AllocError>
    requires { IsTyped df.now.schema (tree_at arena.now.items expr) }
    ensures proceeds { (exprs : List ANode) → Proceeds df.now arena.now.items exprs (work.Visit expr ∷ reverse left.old.items) columns.old.items shared.old → OnOk result (Proceeds df.now arena.now.items exprs (reverse left.new.items) columns.new.items shared.new) }
    ensures smaller { OnOk result (steps_left (tree_at arena.now.items) (reverse left.new.items) < 2 * tree_size (tree_at arena.now.items expr) + steps_left (tree_at arena.now.items) (reverse left.old.items)) }
{
    let entry = typed_entry(expr, arena, df);
    let kept = shared.take(alloc, expr)?;
    match kept {
        Some(column) => {
            columns.push(column)?;
            Ok(())
        }
        None => {
            left.push(Work::Compute(expr))?;
            let nodes = operands(alloc, entry)?;
            push_visits(left, nodes)?;
            Ok(())
        }
    }
}

// Puts visits of entries down, so that the first comes next.
fn push_visits(left: &mut Vec<Work>, mut nodes: Vec<Node>) -> Result<(), AllocError>
    ensures { OnOk result (reverse left.new.items ≡ map work.Visit nodes.items ++ reverse left.old.items) }
{
    while let Some(node) = nodes.pop() {
        left.push(Work::Visit(node))?;
    }
    Ok(())
}

// Takes the columns of what an entry takes, and puts the entry's column down.
fn compute(
    alloc: Global,
    expr: Node,
    arena: &Arena<AExpr>,
    df: &DataFrame,
    columns: &mut Vec<ComputedColumn>,
    shared: &mut SharedColumns,
) -> Result<(), AllocError>
    requires typed { IsTyped df.now.schema (tree_at arena.now.items expr) }
    requires waiting { (below : List ANode) × EvaluateAll df.now (trees_of (tree_at arena.now.items) (below ++ operands_at arena.now.items expr)) columns.old.items }
    ensures { (exprs : List ANode) (left : List AWork) → Proceeds df.now arena.now.items exprs (work.Compute expr ∷ left) columns.old.items shared.old → OnOk result (Proceeds df.now arena.now.items exprs left columns.new.items shared.new) }
{
    let entry = typed_entry(expr, arena, df);
    let taken = take_last(alloc, columns, count_operands(entry))?;
    let column = entry_part(alloc, expr, arena, df, taken)?;
    shared.keep(alloc, expr, &column)?;
    columns.push(column)?;
    Ok(())
}

/// The column of an entry, of the columns of what it takes.
///
/// Fails only for want of memory.
fn entry_part(
    alloc: Global,
    expr: Node,
    arena: &Arena<AExpr>,
    df: &DataFrame,
    taken: Vec<ComputedColumn>,
) -> Result<ComputedColumn, AllocError>
    requires typed { IsTyped df.now.schema (tree_at arena.now.items expr) }
    requires taken { EvaluateAll df.now (trees_of (tree_at arena.now.items) (operands_at arena.now.items expr)) taken.items }
    ensures { IfOk result (Evaluates df.now (tree_at arena.now.items expr)) }
{
    match typed_entry(expr, arena, df) {
        AExpr::Column(name) => column_part(alloc, name, df),
        AExpr::Literal(literal) => literal_part(alloc, literal),
        AExpr::BinaryExpr { op, .. } => {
            let (left, right) = both(taken);
            binary_part(alloc, *op, &left, &right)
        }
        AExpr::Cast { dtype, strict, .. } => {
            let cast = Unary::Cast {
                dtype: *dtype,
                strict: *strict,
            };
            let input = only(taken);
            unary_part(alloc, cast, &input)
        }
        AExpr::Sort {
            descending,
            nulls_last,
            ..
        } => {
            let input = only(taken);
            sorted_part(alloc, *descending, *nulls_last, input)
        }
        AExpr::SortBy {
            descending,
            nulls_last,
            ..
        } => {
            let (input, keys) = one_and_others(taken);
            sorted_by_part(
                alloc,
                descending.as_slice(),
                nulls_last.as_slice(),
                input,
                keys,
            )
        }
        AExpr::Gather { .. } => {
            let (input, indices) = both(taken);
            gathered_part(alloc, input, indices)
        }
        AExpr::Filter { .. } => {
            let (input, by) = both(taken);
            kept_part(alloc, &input, &by)
        }
        AExpr::Agg(aggregate) => {
            let input = only(taken);
            aggregated_part(alloc, *aggregate, input)
        }
        AExpr::Ternary { .. } => {
            let (predicate, truthy, falsy) = all_three(taken);
            ternary_part(alloc, &predicate, &truthy, &falsy)
        }
        AExpr::Function { function, .. } => {
            let input = only(taken);
            function_part(alloc, *function, input)
        }
        AExpr::Slice { .. } => {
            let (input, offset, length) = all_three(taken);
            sliced_part(alloc, input, offset, length)
        }
        AExpr::Len => count_part(alloc, df.height()),
        AExpr::LeftOut(_) => unreachable!(),
    }
}

/// The column of an expression over a table.
///
/// The expression's numbers are in range and none reaches itself, and it has a kind over the table.
/// A faulty cell holds one of that cell's causes, and `broken` is empty exactly where nothing ended
/// the column early, and else holds one of the causes that did. Fails only for want of memory.
pub fn evaluate(
    alloc: Global,
    expr: Node,
    arena: &Arena<AExpr>,
    df: &DataFrame,
) -> PolarsResult<Evaluated>
    requires expression { IsExpression arena.now.items expr }
    requires kind { IsSome (kind_over df.now.schema (tree_at arena.now.items expr)) }
    ensures stands { IfOk result (λ evaluated. (node : ℕ) → StandsFor evaluated (eval node (whole df.now) (tree_at arena.now.items expr))) }
    ensures kind { IfOk result (λ evaluated. kind_over df.now.schema (tree_at arena.now.items expr) ≡ Some evaluated.dtype) }
    ensures memory { OnErr result (result ≡ Err PolarsError.OutOfMemory) }
{
    match part_of(alloc, expr, arena, df) {
        Ok(part) => evaluated(alloc, part),
        // Not by `?`: it is named here, as the clause on memory names it.
        Err(_) => Err(PolarsError::OutOfMemory),
    }
}

fn evaluated(alloc: Global, part: ComputedColumn) -> PolarsResult<Evaluated>
    ensures kind { IfOk result (λ evaluated. evaluated.dtype ≡ part.dtype) }
    ensures stands { IfOk result (λ evaluated. (c : AColumn) → Keeps part c → StandsFor evaluated c) }
    ensures memory { OnErr result (result ≡ Err PolarsError.OutOfMemory) }
{
    match written_out(alloc, part) {
        Ok(evaluated) => Ok(evaluated),
        // Not by `?`: it is named here, as the clause on memory names it.
        Err(_) => Err(PolarsError::OutOfMemory),
    }
}

fn written_out(alloc: Global, part: ComputedColumn) -> Result<Evaluated, AllocError>
    ensures kind { IfOk result (λ evaluated. evaluated.dtype ≡ part.dtype) }
    ensures cells { IfOk result (λ evaluated. evaluated.cells.items ≡ cells_of part.cells) }
    ensures broken { IfOk result (λ evaluated. evaluated.broken.items ≡ option_to_list part.fault) }
{
    let dtype = part.dtype;
    let broken = fault_list(alloc, part.fault)?;
    let cells = part.cells.into_cells(alloc)?;
    Ok(Evaluated {
        dtype,
        cells,
        broken,
    })
}

fn fault_list(alloc: Global, fault: Option<DataFault>) -> Result<Vec<DataFault>, AllocError>
    ensures { IfOk result (λ faults. faults.items ≡ option_to_list fault) }
{
    let mut faults = Vec::new(alloc);
    if let Some(fault) = fault {
        faults.push(fault)?;
    }
    Ok(faults)
}
