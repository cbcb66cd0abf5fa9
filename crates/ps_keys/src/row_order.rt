// Rows in the order of their values.
ghost use Rattle.std.specs.Prelude.{◌≡◌};
ghost use Rattle.std.specs.Cmp.Lexicographic.{slice_cmp};
ghost use Rattle.ps_frame.specs.Values.{value_cmp};
ghost use Rattle.ps_keys.specs.Hashes.{HaveRow, row_at};

use ps_compute::operators::compare;
use ps_frame::column::Column;
use std::cmp::Ordering;

/// A row of columns, which is compared with others by its values: the first that differ decide.
#[derive(Clone, Copy)]
pub(crate) struct OrderedRow<'a> {
    pub(crate) columns: &'a [Column],
    pub(crate) row: usize,
    ghost there: { HaveRow columns.now row },
}

impl Ord for OrderedRow<'_> {
    ghost use Rattle.std.specs.Prelude.{refl};
    ghost use Rattle.std.specs.Cmp.{on_total};
    ghost use Rattle.std.specs.Cmp.Lexicographic.{lists_total};
    ghost use Rattle.ps_frame.proofs.Orders.{value_total};
    ghost use Rattle.ps_keys.specs.RowOrder.{ordered_row_cmp, values_of};

    ghost cmp = { ordered_row_cmp };

    ghost total = { on_total values_of (lists_total value_total) };

    ghost matches_partial_cmp = { λ x y. refl };

    ghost matches_eq = { λ x y. refl };

    fn cmp(&self, other: &Self) -> Ordering {
        compare_rows(self.columns, self.row, other.columns, other.row)
    }
}

impl PartialOrd for OrderedRow<'_> {
    ghost use Rattle.std.specs.Cmp.{on_total, partial_order_from_total};
    ghost use Rattle.std.specs.Cmp.Lexicographic.{lists_total};
    ghost use Rattle.std.specs.Ordering.{as_partial_cmp};
    ghost use Rattle.ps_frame.proofs.Orders.{value_total};
    ghost use Rattle.ps_keys.specs.RowOrder.{ordered_row_cmp, values_of};

    ghost partial_cmp = { as_partial_cmp ordered_row_cmp };

    ghost laws = { partial_order_from_total (on_total values_of (lists_total value_total)) };

    fn partial_cmp(&self, other: &Self) -> Option<Ordering> {
        Some(self.cmp(other))
    }
}

impl PartialEq for OrderedRow<'_> {
    ghost use Rattle.std.specs.Cmp.{eq_by_cmp_equiv, on_total, partial_equiv_from_equiv};
    ghost use Rattle.std.specs.Cmp.Lexicographic.{lists_total};
    ghost use Rattle.std.specs.Ordering.{eq_by_cmp};
    ghost use Rattle.ps_frame.proofs.Orders.{value_total};
    ghost use Rattle.ps_keys.specs.RowOrder.{ordered_row_cmp, values_of};

    ghost eq = { eq_by_cmp ordered_row_cmp };

    ghost laws = { partial_equiv_from_equiv (eq_by_cmp_equiv (on_total values_of (lists_total value_total))) };

    fn eq(&self, other: &Self) -> bool {
        self.cmp(other).is_eq()
    }
}

impl Eq for OrderedRow<'_> {
    ghost use Rattle.std.specs.Cmp.{eq_by_cmp_equiv, on_total};
    ghost use Rattle.std.specs.Cmp.Lexicographic.{lists_total};
    ghost use Rattle.ps_frame.proofs.Orders.{value_total};
    ghost use Rattle.ps_keys.specs.RowOrder.{values_of};

    ghost laws = { eq_by_cmp_equiv (on_total values_of (lists_total value_total)) };
}

// The order of a row of some columns and a row of others.
fn compare_rows(a_columns: &[Column], a: usize, b_columns: &[Column], b: usize) -> Ordering
    requires first { HaveRow a_columns.now a }
    requires second { HaveRow b_columns.now b }
    ensures { result ≡ slice_cmp value_cmp (row_at a_columns.now a) (row_at b_columns.now b) }
{
    for i in 0..a_columns.len().min(b_columns.len()) {
        let order = compare(a_columns[i].value(a), b_columns[i].value(b));
        if order.is_ne() {
            return order;
        }
    }
    a_columns.len().cmp(&b_columns.len())
}
