// Operators over operands that are held in different ways.
ghost use Rattle.std.specs.Prelude.{◌≡◌, IfOk};

use ps_compute::operators::{binary, compare};
use ps_expr_eval::computed::{Cells, ComputedColumn, Values, computed_whole};
use ps_expr_eval::elementwise::binary_part;
use ps_frame::column::Column;
use ps_frame::error::FrameError;
use ps_frame::expr::Operator;
use ps_frame::value::{Cell, DataFault, DataType, Value};
use std::alloc::{AllocError, Global};
use std::test::Fail;

/// Enough cells for few different values to be held once.
const CELLS: u32 = 5_000;

/// Numbers of which so many differ, and null in between.
fn numbers(alloc: Global, differing: u32) -> Result<Vec<Value>, AllocError> {
    let mut values = Vec::new(alloc);
    for i in 0..CELLS {
        if i % 11 == 3 {
            values.push(Value::Null)?;
        } else {
            values.push(Value::Int64(i64::from(i % differing.max(1)) - 2))?;
        }
    }
    Ok(values)
}

fn owned(alloc: Global, differing: u32) -> Result<ComputedColumn, AllocError> {
    Ok(computed_whole(DataType::Int64, numbers(alloc, differing)?))
}

fn shared(column: Column) -> ComputedColumn {
    ComputedColumn {
        dtype: DataType::Int64,
        cells: Cells::Whole(Values::Shared(column)),
        fault: None,
    }
}

fn column(alloc: Global, differing: u32) -> Result<Column, FrameError>
    ensures { IfOk result (λ c. c.kind ≡ DataType.Int64) }
{
    Column::new(alloc, DataType::Int64, numbers(alloc, differing)?)
}

/// The value in a row, where the operand has one.
fn value_in(operand: &ComputedColumn, row: usize) -> Option<&Value> {
    let place = if operand.cells.len() == 1 { 0 } else { row };
    if place < operand.cells.len() {
        operand.cells.cell(place).ok()
    } else {
        None
    }
}

/// Whether a row has what the operator gives of the operands' values in it.
fn agrees(
    op: Operator,
    left: &ComputedColumn,
    right: &ComputedColumn,
    made: &ComputedColumn,
    row: usize,
) -> bool {
    match (
        value_in(left, row),
        value_in(right, row),
        value_in(made, row),
    ) {
        (Some(a), Some(b), Some(c)) => compare(&binary(op, a, b), c).is_eq(),
        _ => false,
    }
}

/// Whether an operator goes row by row over the operands.
fn goes_row_by_row(
    alloc: Global,
    op: Operator,
    left: &ComputedColumn,
    right: &ComputedColumn,
) -> Result<bool, AllocError> {
    let made = binary_part(alloc, op, left, right)?;
    let rows = CELLS as usize;
    if made.cells.len() != rows {
        return Ok(false);
    }
    for row in 0..rows {
        if !agrees(op, left, right, &made, row) {
            return Ok(false);
        }
    }
    Ok(true)
}

/// Some operators that compute and one that compares.
fn all_go_row_by_row(
    alloc: Global,
    left: &ComputedColumn,
    right: &ComputedColumn,
) -> Result<bool, AllocError> {
    for op in [Operator::Plus, Operator::Lt, Operator::Modulus] {
        if !goes_row_by_row(alloc, op, left, right)? {
            return Ok(false);
        }
    }
    Ok(true)
}

/// A column whose values lie in two runs.
fn two_runs(alloc: Global) -> Result<Column, FrameError> {
    let upper = column(alloc, 4_999)?.slice(alloc, 0, 2_500)?;
    let lower = column(alloc, 4_999)?.slice(alloc, 2_500, 2_500)?;
    upper.append(alloc, &lower)
}

/// Operands of as many rows, each held in another way.
fn operands(alloc: Global) -> Result<Vec<ComputedColumn>, Fail> {
    let mut operands = Vec::new(alloc);
    operands.push(owned(alloc, 4_999)?)?;
    operands.push(shared(column(alloc, 5)?))?;
    operands.push(shared(column(alloc, 4_999)?))?;
    operands.push(shared(two_runs(alloc)?))?;
    Ok(operands)
}

fn one_value(alloc: Global) -> Result<ComputedColumn, AllocError> {
    let mut values = Vec::new(alloc);
    values.push(Value::Int64(3))?;
    Ok(computed_whole(DataType::Int64, values))
}

#[test]
fn operands_are_read_however_they_are_held(rt: HostRuntime) -> Result<(), Fail> {
    let alloc = rt.alloc();
    let one = one_value(alloc)?;
    let held = operands(alloc)?;
    for left in &held {
        assert!(rt; all_go_row_by_row(alloc, left, &one)?);
        assert!(rt; all_go_row_by_row(alloc, &one, left)?);
        for right in &held {
            assert!(rt; all_go_row_by_row(alloc, left, right)?);
        }
    }
    Ok(())
}

/// A long text, which differs from the others in its last bytes alone, or a short one.
fn long_text(alloc: Global, number: u32) -> Result<Value, FrameError> {
    let text = if number % 4 == 3 {
        format!(in alloc; "{number}")?
    } else {
        format!(in alloc; "{number:>2000}")?
    };
    Value::of_text(alloc, text.as_str())
}

/// Texts of which so many differ, from one on, and null in between.
fn texts(alloc: Global, first: u32, differing: u32) -> Result<ComputedColumn, FrameError> {
    let mut values = Vec::new(alloc);
    for i in 0..CELLS {
        if i % 11 == 3 {
            values.push(Value::Null)?;
        } else {
            values.push(long_text(alloc, first.saturating_add(i % differing.max(1)))?)?;
        }
    }
    let column = Column::new(alloc, DataType::String, values)?;
    Ok(ComputedColumn {
        dtype: DataType::String,
        cells: Cells::Whole(Values::Shared(column)),
        fault: None,
    })
}

fn one_text(alloc: Global) -> Result<ComputedColumn, FrameError> {
    let mut values = Vec::new(alloc);
    values.push(long_text(alloc, 2)?)?;
    Ok(computed_whole(DataType::String, values))
}

/// Some operators that compare.
fn all_compare_row_by_row(
    alloc: Global,
    left: &ComputedColumn,
    right: &ComputedColumn,
) -> Result<bool, AllocError> {
    for op in [Operator::Eq, Operator::NotEq, Operator::Lt, Operator::GtEq] {
        if !goes_row_by_row(alloc, op, left, right)? {
            return Ok(false);
        }
    }
    Ok(true)
}

#[test]
fn long_texts_are_compared_row_by_row(rt: HostRuntime) -> Result<(), Fail> {
    let alloc = rt.alloc();
    let one = one_text(alloc)?;
    let held = vec![in alloc; texts(alloc, 0, 5)?, texts(alloc, 2, 7)?]?;
    for left in &held {
        assert!(rt; all_compare_row_by_row(alloc, left, &one)?);
        assert!(rt; all_compare_row_by_row(alloc, &one, left)?);
        for right in &held {
            assert!(rt; all_compare_row_by_row(alloc, left, right)?);
        }
    }
    Ok(())
}

#[test]
fn a_faulty_cell_stays_in_its_row(rt: HostRuntime) -> Result<(), Fail> {
    let alloc = rt.alloc();
    let cells = vec![in alloc; Cell::Val(Value::Int64(1)), Cell::Bad(DataFault::Gather)]?;
    let left = ComputedColumn {
        dtype: DataType::Int64,
        cells: Cells::Mixed(cells),
        fault: None,
    };
    let values = vec![in alloc; Value::Int64(2), Value::Int64(5)]?;
    let right = computed_whole(DataType::Int64, values);
    let made = binary_part(alloc, Operator::Plus, &left, &right)?;
    assert_eq!(rt; made.cells.len(), 2);
    assert!(rt; matches!(value_in(&made, 0), Some(Value::Int64(3))));
    assert!(rt; value_in(&made, 1).is_none());
    Ok(())
}
