// Whole runs, record by record, as theorems of functions that do nothing.
ghost use Rattle.std.specs.Prelude.{[], ◌∷◌};
ghost use Rattle.ps_frame.specs.Functions.{Functions};
ghost use Rattle.ps_frame.specs.declared.value.DataFault.TheVariants as data_fault;
ghost use Rattle.world_runs.specs.DifferingRun.{differing_journal, differing_shape};
ghost use Rattle.world_runs.specs.Examples.{Breaks, Leaves, filter_journal, filter_shape, filtered, number, one_worker, sum_shape};
ghost use Rattle.world_runs.specs.SliceRun.{one_by_one, slice_journal, slice_shape};
ghost use Rattle.world_runs.specs.EndsRun.{ends_journal, ends_shape};
ghost use Rattle.world_runs.specs.FullRun.{full_journal, full_shape, two_singly};
ghost use Rattle.ps_frame.specs.declared.value.Value.TheVariants as val;
ghost use Rattle.world_runs.specs.SumJournal.{sum_journal};
ghost use Rattle.world_runs.specs.UnionRun.{union_journal, union_shape};
ghost use Rattle.world_runs.specs.JoinRun.{a0, a1, join_journal, join_shape};
ghost use Rattle.world_runs.specs.Joins.{text, two_workers};

/// A run over a scan, a filter and a sink: the sink then keeps the rows that the filter let through.
pub fn filters()
    ensures { (F : Functions) → Leaves F filter_shape one_worker filter_journal ([] ∷ ([] ∷ []) ∷ ((filtered ∷ []) ∷ []) ∷ []) }
{}

/// A run of a left join by two workers, in three phases. The left morsels are handed in out of order, and the sink keeps the rows in the left's order.
pub fn left_joins()
    ensures { (F : Functions) → Leaves F join_shape two_workers join_journal ([] ∷ [] ∷ ([] ∷ [] ∷ []) ∷ ((a0 ∷ a1 ∷ []) ∷ []) ∷ []) }
{}

/// A run that sums one column beside another, with one worker. The reduce ends the first phase; in the second the zip only stores its inputs; in the third its rows reach the sink; the fourth Open finds nothing to do.
pub fn sums()
    ensures { (F : Functions) → Leaves F sum_shape one_worker sum_journal ([] ∷ ([] ∷ []) ∷ ([] ∷ []) ∷ ((((number 1 ∷ number 4 ∷ []) ∷ (number 2 ∷ number 5 ∷ []) ∷ (number 3 ∷ number 6 ∷ []) ∷ []) ∷ []) ∷ (((number 6 ∷ []) ∷ []) ∷ []) ∷ []) ∷ ([] ∷ []) ∷ ((((number 6 ∷ number 4 ∷ []) ∷ (number 6 ∷ number 5 ∷ []) ∷ (number 6 ∷ number 6 ∷ []) ∷ []) ∷ []) ∷ []) ∷ []) }
{}

/// A run of a slice of two rows over four, one a morsel: the claim in which it has its last row drops its input, and the scan gives no third morsel.
pub fn slices()
    ensures { (F : Functions) → Leaves F slice_shape one_by_one slice_journal ([] ∷ ([] ∷ []) ∷ ((((number 1 ∷ []) ∷ []) ∷ ((number 2 ∷ []) ∷ []) ∷ []) ∷ []) ∷ []) }
{}

/// A run of a union: once its first input is done it passes the second, and its numbers go on.
pub fn unions()
    ensures { (F : Functions) → Leaves F union_shape one_worker union_journal ([] ∷ [] ∷ ([] ∷ [] ∷ []) ∷ ((((number 1 ∷ []) ∷ (number 2 ∷ []) ∷ []) ∷ ((number 3 ∷ []) ∷ []) ∷ []) ∷ []) ∷ []) }
{}

/// A run of a zip of two rows and three: the Open that finds both inputs done finds that their lengths differ.
pub fn differing_lengths()
    ensures { (F : Functions) → Breaks F differing_shape one_worker differing_journal (record { fault = data_fault.Shape; node = 2 }) }
{}

/// A run of the slice of one row from two before the end, over four rows, one a morsel: its store lets go of the first two, and the sink keeps the third.
pub fn slices_from_the_end()
    ensures { (F : Functions) → Leaves F ends_shape one_by_one ends_journal ([] ∷ ((((number 3 ∷ []) ∷ []) ∷ ((number 4 ∷ []) ∷ []) ∷ []) ∷ []) ∷ ((((number 3 ∷ []) ∷ []) ∷ []) ∷ []) ∷ []) }
{}

/// A run of a full join by two workers: the pairs and the left rows without a match come under the left morsels' numbers, and the last piece gives the right row without one.
pub fn full_joins()
    ensures { (F : Functions) → Leaves F full_shape two_singly full_journal ([] ∷ [] ∷ ([] ∷ [] ∷ []) ∷ ((((number 1 ∷ number 1 ∷ text 121 ∷ []) ∷ []) ∷ ((number 3 ∷ val.Null ∷ val.Null ∷ []) ∷ []) ∷ ((val.Null ∷ number 4 ∷ text 120 ∷ []) ∷ []) ∷ []) ∷ []) ∷ []) }
{}
