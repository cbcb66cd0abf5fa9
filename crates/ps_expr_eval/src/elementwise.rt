// Operators that go cell by cell over their operands side by side.
ghost use Rattle.std.specs.Prelude.{◌≡◌, ◌+◌, ◌∷◌, [], IfOk, if◌then◌else◌, map};
ghost use Rattle.ps_expr_eval.specs.Cellwise.{IsCellwise, binary_row, cast_held, result_kind, ternary_row, unary_kind, unary_row};
ghost use Rattle.ps_expr_eval.specs.Held.{cells_of};
ghost use Rattle.ps_expr_eval.specs.Rows.{FillsRows, cell_for, cell_from, cells_from, repeats as repeats_in, seen};
ghost use Rattle.ps_expr_eval.specs.Operands.{IsPlaced, values_from};
ghost use Rattle.ps_frame.specs.Operators.{cast_value};
ghost use Rattle.ps_frame.specs.Typing.{compares as compares_values};
ghost use Rattle.ps_frame.specs.declared.value.Cell.TheVariants as held;

use crate::computed::{Cells, ComputedColumn, Values, copy_of};
use crate::decided::Decided;
use crate::growing::Growing;
use crate::lengths::{count_rows, early_fault};
use crate::operand::Operand;
use ps_compute::casts::cast;
use ps_compute::operators::{binary, choose, is_null, negate};
use ps_frame::expr::Operator;
use ps_frame::value::{Cell, DataFault, DataType, Value};
use std::alloc::{AllocError, Global};

/// The value of the cell that gives a row, or its fault.
pub fn cell_in_row(cells: &Cells, repeats: bool, row: usize) -> Result<&Value, DataFault>
    requires { FillsRows (cells_of cells.now) repeats (row + 1) }
    ensures { seen result ≡ cell_for (cells_of cells.now) repeats row }
{
    cells.cell(place_in_row(repeats, row))
}

/// The place of the cell that gives a row: the first where that one repeats.
pub fn place_in_row(repeats: bool, row: usize) -> usize
    ensures { result ≡ (if repeats then 0 else row) }
{
    if repeats { 0 } else { row }
}

/// Whether an operator compares its operands.
pub fn compares(op: Operator) -> bool
    ensures { result ≡ compares_values op }
{
    match op {
        Operator::Eq
        | Operator::NotEq
        | Operator::Lt
        | Operator::LtEq
        | Operator::Gt
        | Operator::GtEq => true,
        Operator::Plus
        | Operator::Minus
        | Operator::Multiply
        | Operator::FloorDivide
        | Operator::Modulus
        | Operator::And
        | Operator::Or => false,
    }
}

// Whether most results of an operator are likely to differ.
fn computes(op: Operator) -> bool {
    matches!(
        op,
        Operator::Plus | Operator::Minus | Operator::Multiply | Operator::FloorDivide
    )
}

/// What an operator of two operands gives, row by row.
///
/// Fails only for want of memory.
pub fn binary_part(
    alloc: Global,
    op: Operator,
    left: &ComputedColumn,
    right: &ComputedColumn,
) -> Result<ComputedColumn, AllocError>
    ensures kind { IfOk result (λ part. part.dtype ≡ result_kind op left.now.dtype) }
    ensures cells { IfOk result (λ part. IsCellwise (binary_row op) (left.now ∷ right.now ∷ []) part) }
{
    let endings = [left.ending(), right.ending()];
    let rows = count_rows(&endings);
    let dtype = if compares(op) {
        DataType::Boolean
    } else {
        left.dtype
    };
    let cells = binary_cells(alloc, op, dtype, left, right, rows)?;
    Ok(ComputedColumn {
        dtype,
        cells,
        fault: early_fault(&endings),
    })
}

fn binary_cells(
    alloc: Global,
    op: Operator,
    dtype: DataType,
    left: &ComputedColumn,
    right: &ComputedColumn,
    rows: usize,
) -> Result<Cells, AllocError>
    requires left { FillsRows (cells_of left.now.cells) (repeats_in left.now) rows }
    requires right { FillsRows (cells_of right.now.cells) (repeats_in right.now) rows }
    ensures { IfOk result (λ cells. cells_of cells ≡ cells_from (binary_row op) (left.now ∷ right.now ∷ []) rows) }
{
    let (Some(a), Some(b)) = (Operand::of(left), Operand::of(right)) else {
        return cell_by_cell(alloc, op, dtype, left, right, rows);
    };
    let cells = value_by_value(alloc, op, dtype, &a, &b, rows)?;
    Ok(cells)
}

// What an operator gives of columns any of whose cells may be faulty.
fn cell_by_cell(
    alloc: Global,
    op: Operator,
    dtype: DataType,
    left: &ComputedColumn,
    right: &ComputedColumn,
    rows: usize,
) -> Result<Cells, AllocError>
    requires left { FillsRows (cells_of left.now.cells) (repeats_in left.now) rows }
    requires right { FillsRows (cells_of right.now.cells) (repeats_in right.now) rows }
    ensures { IfOk result (λ cells. cells_of cells ≡ cells_from (binary_row op) (left.now ∷ right.now ∷ []) rows) }
{
    let left_repeats = left.repeats();
    let right_repeats = right.repeats();
    let mut cells = if computes(op) {
        Growing::of_many(alloc, rows)?
    } else {
        Growing::of_few(alloc, dtype)
    };
    for i in 0..rows {
        let a = cell_in_row(&left.cells, left_repeats, i);
        let b = cell_in_row(&right.cells, right_repeats, i);
        cells.push(alloc, binary_cell(op, a, b))?;
    }
    cells.finish(alloc)
}

// What an operator gives of values, without a cell for each.
fn value_by_value(
    alloc: Global,
    op: Operator,
    dtype: DataType,
    left: &Operand<'_>,
    right: &Operand<'_>,
    rows: usize,
) -> Result<Cells, AllocError>
    requires left { FillsRows left.now.values left.now.repeats rows }
    requires right { FillsRows right.now.values right.now.repeats rows }
    requires left_places { IsPlaced left.now }
    requires right_places { IsPlaced right.now }
    ensures { IfOk result (λ cells. cells_of cells ≡ map held.Val (values_from op left.now right.now rows)) }
{
    if computes(op) {
        let values = many_results(alloc, op, left, right, rows)?;
        Ok(Cells::Whole(Values::Owned(values)))
    } else {
        few_results(alloc, op, dtype, left, right, rows)
    }
}

// Results most of which are likely to differ.
fn many_results(
    alloc: Global,
    op: Operator,
    left: &Operand<'_>,
    right: &Operand<'_>,
    rows: usize,
) -> Result<Vec<Value>, AllocError>
    requires left { FillsRows left.now.values left.now.repeats rows }
    requires right { FillsRows right.now.values right.now.repeats rows }
    ensures { IfOk result (λ values. values.items ≡ values_from op left.now right.now rows) }
{
    let mut values = Vec::with_capacity(alloc, rows)?;
    for i in 0..rows {
        values.push(binary(op, left.value(i), right.value(i)))?;
    }
    Ok(values)
}

// Results of which few are likely to differ.
fn few_results(
    alloc: Global,
    op: Operator,
    dtype: DataType,
    left: &Operand<'_>,
    right: &Operand<'_>,
    rows: usize,
) -> Result<Cells, AllocError>
    requires left { FillsRows left.now.values left.now.repeats rows }
    requires right { FillsRows right.now.values right.now.repeats rows }
    requires left_places { IsPlaced left.now }
    requires right_places { IsPlaced right.now }
    ensures { IfOk result (λ cells. cells_of cells ≡ map held.Val (values_from op left.now right.now rows)) }
{
    let mut cells = Growing::of_few(alloc, dtype);
    let mut decided = Decided::new(alloc);
    for i in 0..rows {
        let value = decided.value(op, left, right, i)?;
        cells.push_value(alloc, value)?;
    }
    cells.finish(alloc)
}

fn binary_cell(
    op: Operator,
    left: Result<&Value, DataFault>,
    right: Result<&Value, DataFault>,
) -> Cell
    ensures { result ≡ cell_from (binary_row op) (seen left.entry ∷ seen right.entry ∷ []) }
{
    match (left, right) {
        (Err(fault), _) => Cell::Bad(fault),
        (Ok(_), Err(fault)) => Cell::Bad(fault),
        (Ok(a), Ok(b)) => Cell::Val(binary(op, a, b)),
    }
}

/// What takes one operand, value by value.
#[derive(Clone, Copy, Debug)]
pub enum Unary {
    Cast { dtype: DataType, strict: bool },
    Not,
    IsNull,
    IsNotNull,
}

/// What it gives of its operand, row by row.
///
/// Fails only for want of memory.
pub fn unary_part(
    alloc: Global,
    op: Unary,
    input: &ComputedColumn,
) -> Result<ComputedColumn, AllocError>
    ensures kind { IfOk result (λ part. part.dtype ≡ unary_kind op) }
    ensures cells { IfOk result (λ part. IsCellwise (unary_row op) (input.now ∷ []) part) }
{
    let endings = [input.ending()];
    let rows = count_rows(&endings);
    let dtype = match op {
        Unary::Cast { dtype, strict: _ } => dtype,
        Unary::Not | Unary::IsNull | Unary::IsNotNull => DataType::Boolean,
    };
    let cells = unary_cells(alloc, op, dtype, input, rows)?;
    Ok(ComputedColumn {
        dtype,
        cells,
        fault: early_fault(&endings),
    })
}

fn unary_cells(
    alloc: Global,
    op: Unary,
    dtype: DataType,
    input: &ComputedColumn,
    rows: usize,
) -> Result<Cells, AllocError>
    requires { FillsRows (cells_of input.now.cells) (repeats_in input.now) rows }
    ensures { IfOk result (λ cells. cells_of cells ≡ cells_from (unary_row op) (input.now ∷ []) rows) }
{
    let repeats = input.repeats();
    let mut cells = Growing::of_few(alloc, dtype);
    for i in 0..rows {
        let a = cell_in_row(&input.cells, repeats, i);
        cells.push(alloc, unary_cell(alloc, op, a)?)?;
    }
    cells.finish(alloc)
}

fn unary_cell(
    alloc: Global,
    op: Unary,
    input: Result<&Value, DataFault>,
) -> Result<Cell, AllocError>
    ensures { IfOk result (λ cell. cell ≡ cell_from (unary_row op) (seen input.entry ∷ [])) }
{
    match input {
        Err(fault) => Ok(Cell::Bad(fault)),
        Ok(value) => unary_value(alloc, op, value),
    }
}

fn unary_value(alloc: Global, op: Unary, value: &Value) -> Result<Cell, AllocError>
    ensures { IfOk result (λ cell. cell ≡ unary_row op (value.now ∷ [])) }
{
    match op {
        Unary::Cast { dtype, strict } => cast_cell(alloc, dtype, strict, value),
        Unary::Not => Ok(Cell::Val(negate(value))),
        Unary::IsNull => Ok(Cell::Val(Value::Boolean(is_null(value)))),
        Unary::IsNotNull => Ok(Cell::Val(Value::Boolean(!is_null(value)))),
    }
}

fn cast_cell(
    alloc: Global,
    dtype: DataType,
    strict: bool,
    value: &Value,
) -> Result<Cell, AllocError>
    ensures { IfOk result (λ cell. cell ≡ cast_held strict (cast_value dtype value.now)) }
{
    match cast(alloc, dtype, value) {
        Ok(Some(cast)) => Ok(Cell::Val(cast)),
        Ok(None) if strict => Ok(Cell::Bad(DataFault::StrictCast)),
        Ok(None) => Ok(Cell::Val(Value::Null)),
        // It fails for want of memory alone.
        Err(_) => Err(AllocError),
    }
}

/// In each row the value of the first branch where the predicate is true, else that of the second.
///
/// Fails only for want of memory.
pub fn ternary_part(
    alloc: Global,
    predicate: &ComputedColumn,
    truthy: &ComputedColumn,
    falsy: &ComputedColumn,
) -> Result<ComputedColumn, AllocError>
    ensures kind { IfOk result (λ part. part.dtype ≡ truthy.now.dtype) }
    ensures cells { IfOk result (λ part. IsCellwise ternary_row (predicate.now ∷ truthy.now ∷ falsy.now ∷ []) part) }
{
    let endings = [predicate.ending(), truthy.ending(), falsy.ending()];
    let rows = count_rows(&endings);
    let cells = ternary_cells(alloc, predicate, truthy, falsy, rows)?;
    Ok(ComputedColumn {
        dtype: truthy.dtype,
        cells,
        fault: early_fault(&endings),
    })
}

fn ternary_cells(
    alloc: Global,
    predicate: &ComputedColumn,
    truthy: &ComputedColumn,
    falsy: &ComputedColumn,
    rows: usize,
) -> Result<Cells, AllocError>
    requires predicate { FillsRows (cells_of predicate.now.cells) (repeats_in predicate.now) rows }
    requires truthy { FillsRows (cells_of truthy.now.cells) (repeats_in truthy.now) rows }
    requires falsy { FillsRows (cells_of falsy.now.cells) (repeats_in falsy.now) rows }
    ensures { IfOk result (λ cells. cells_of cells ≡ cells_from ternary_row (predicate.now ∷ truthy.now ∷ falsy.now ∷ []) rows) }
{
    let predicate_repeats = predicate.repeats();
    let truthy_repeats = truthy.repeats();
    let falsy_repeats = falsy.repeats();
    let mut cells = Growing::of_few(alloc, truthy.dtype);
    for i in 0..rows {
        let p = cell_in_row(&predicate.cells, predicate_repeats, i);
        let a = cell_in_row(&truthy.cells, truthy_repeats, i);
        let b = cell_in_row(&falsy.cells, falsy_repeats, i);
        cells.push(alloc, ternary_cell(alloc, p, a, b)?)?;
    }
    cells.finish(alloc)
}

fn ternary_cell(
    alloc: Global,
    predicate: Result<&Value, DataFault>,
    truthy: Result<&Value, DataFault>,
    falsy: Result<&Value, DataFault>,
) -> Result<Cell, AllocError>
    ensures { IfOk result (λ cell. cell ≡ cell_from ternary_row (seen predicate.entry ∷ seen truthy.entry ∷ seen falsy.entry ∷ [])) }
{
    match (predicate, truthy, falsy) {
        (Err(fault), _, _) => Ok(Cell::Bad(fault)),
        (Ok(_), Err(fault), _) => Ok(Cell::Bad(fault)),
        (Ok(_), Ok(_), Err(fault)) => Ok(Cell::Bad(fault)),
        (Ok(p), Ok(a), Ok(b)) => Ok(Cell::Val(copy_of(alloc, choose(p, a, b))?)),
    }
}
