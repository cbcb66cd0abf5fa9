// Cells at places of a column.
ghost use Rattle.std.specs.Prelude.{◌≡◌, ◌<◌, IfOk, length, map};
ghost use Rattle.std.specs.List.{All};
ghost use Rattle.ps_expr_eval.specs.Held.{cell_at, cells_of};
ghost use Rattle.ps_expr_eval.specs.Rows.{seen};
ghost use Rattle.ps_frame.specs.declared.value.Cell.TheVariants as held;

use crate::computed::{Cells, ComputedColumn, Values, copy_of};
use crate::growing::Growing;
use ps_frame::column::Column;
use ps_frame::value::{Cell, DataFault, DataType, Value};
use std::alloc::{AllocError, Global};

/// The cells of a column at these places, in this order; shared values stay shared.
///
/// Fails only for want of memory.
pub fn cells_at(alloc: Global, part: &ComputedColumn, places: &[usize]) -> Result<Cells, AllocError>
    requires { All (λ i. i < length (cells_of part.now.cells)) places.now }
    ensures { IfOk result (λ cells. cells_of cells ≡ map (cell_at (cells_of part.now.cells)) places.now) }
{
    match &part.cells {
        Cells::Whole(Values::Shared(column)) => shared_at(alloc, column, places),
        cells => copied_at(alloc, part.dtype, cells, places),
    }
}

fn shared_at(alloc: Global, column: &Column, places: &[usize]) -> Result<Cells, AllocError>
    requires { All (λ i. i < length column.now.values) places.now }
    ensures { IfOk result (λ cells. cells_of cells ≡ map (cell_at (map held.Val column.now.values)) places.now) }
{
    match column.gather(alloc, places) {
        Ok(picked) => Ok(Cells::Whole(Values::Shared(picked))),
        // It fails for want of memory alone.
        Err(_) => Err(AllocError),
    }
}

fn copied_at(
    alloc: Global,
    dtype: DataType,
    cells: &Cells,
    places: &[usize],
) -> Result<Cells, AllocError>
    requires { All (λ i. i < length (cells_of cells.now)) places.now }
    ensures { IfOk result (λ copies. cells_of copies ≡ map (cell_at (cells_of cells.now)) places.now) }
{
    let mut copies = Growing::of_few(alloc, dtype);
    for place in places {
        copies.push(alloc, copied(alloc, cells.cell(*place))?)?;
    }
    copies.finish(alloc)
}

fn copied(alloc: Global, cell: Result<&Value, DataFault>) -> Result<Cell, AllocError>
    ensures { IfOk result (λ copy. copy ≡ seen cell.entry) }
{
    match cell {
        Ok(value) => Ok(Cell::Val(copy_of(alloc, value)?)),
        Err(fault) => Ok(Cell::Bad(fault)),
    }
}
