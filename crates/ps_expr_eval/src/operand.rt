// Operands that are read value by value.
ghost use Rattle.std.specs.Prelude.{◌≡◌, ◌+◌, IfSome, slice_get};
ghost use Rattle.ps_expr_eval.specs.Operands.{IsOperand, IsPlaced, count_for, place_for, value_for};
ghost use Rattle.ps_expr_eval.specs.Rows.{FillsRows};

use crate::computed::{Cells, ComputedColumn, Values};
use crate::elementwise::place_in_row;
use ps_frame::column::Column;
use ps_frame::value::Value;
use ps_frame::view::ColumnView;

/// The values of an operand, and whether the only one stands in each row; where they are picked of
/// others, their places among these, and how many these are.
#[derive(Drop)]
pub struct Operand<'a> {
    pub values: ColumnView<'a>,
    pub repeats: bool,
    pub picks: Option<(&'a [u32], usize)>,
}

impl<'a> Operand<'a> {
    /// The values of a column, where no cell is faulty and they lie in one run.
    pub fn of(column: &'a ComputedColumn) -> Option<Operand<'a>>
        ensures { IfSome result (λ operand. IsOperand operand column.now) }
    {
        let repeats = column.repeats();
        match &column.cells {
            Cells::Whole(Values::Shared(shared)) => shared_values(shared, repeats),
            Cells::Whole(Values::Owned(values)) => Some(Operand {
                values: ColumnView::of_slice(values.as_slice()),
                repeats,
                picks: None,
            }),
            Cells::Mixed(_) => None,
        }
    }

    /// The value that gives a row.
    #[tactic(auto, using(std::proofs::lemmas::Option::get_or_from_slice_get))]
    pub fn value(&self, row: usize) -> &'a Value
        requires { FillsRows self.now.values self.now.repeats (row + 1) }
        ensures { result.now ≡ value_for self.now row }
    {
        self.values.value(place_in_row(self.repeats, row))
    }

    /// The place of the value that gives a row among those of which it is picked. One that stands in
    /// each row is alone.
    pub fn place(&self, row: usize) -> Option<usize>
        ensures { result ≡ place_for self.now row }
    {
        if self.repeats {
            return Some(0);
        }
        match self.picks {
            Some((places, _)) => place_at(places, row),
            None => None,
        }
    }

    /// Of how many values they are picked.
    pub fn count(&self) -> usize
        ensures { result ≡ count_for self.now }
    {
        if self.repeats {
            return 1;
        }
        match self.picks {
            Some((_, count)) => count,
            None => 0,
        }
    }
}

fn place_at(places: &[u32], row: usize) -> Option<usize>
    ensures { result ≡ slice_get places.now row }
{
    places.get(row).map(|place| *place as usize)
}

fn shared_values(column: &Column, repeats: bool) -> Option<Operand<'_>>
    ensures values { IfSome result (λ operand. operand.values ≡ column.now.values) }
    ensures repeating { IfSome result (λ operand. operand.repeats ≡ repeats) }
    ensures placed { IfSome result IsPlaced }
{
    let values = column.view()?;
    Some(Operand {
        values,
        repeats,
        picks: column.picks(),
    })
}
