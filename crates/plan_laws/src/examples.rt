// Worked examples, as theorems of functions that do nothing.
ghost use Rattle.std.specs.Prelude.{◌≡◌, ◌∷◌, [], ◌⊎◌, ◌≤◌, ℕ, Bool, List, codes, true, false};
ghost use Rattle.pu_base.specs.declared.arena.Node.{Node};
ghost use Rattle.ps_frame.specs.Functions.{Functions};
ghost use Rattle.ps_frame.specs.Tables.{Fields, Frame, Table, whole};
ghost use Rattle.ps_frame.specs.declared.expr.AExpr.{AExpr};
ghost use Rattle.ps_frame.specs.declared.expr.What.TheVariants as what;
ghost use Rattle.ps_frame.specs.declared.refusal.Why.TheVariants as why;
ghost use Rattle.ps_frame.specs.declared.value.DataFault.TheVariants as fault;
ghost use Rattle.ps_frame.specs.declared.value.Value.TheVariants as val;
ghost use Rattle.plan_laws.specs.Examples.{a_frame, a_table, ab_without_rows, arithmetic_plan, arithmetic_table, at_one, beside_empty_plan, cast_plan, cut_plan, distinct_plan, filter_plan, forgotten_plan, gather_plan, group_plan, hconcat_plan, hconcat_table, index_plan, indexed, int, key_count, left_plan, left_table, literal_plan, minus_one, misfit_plan, no_row_table, odd_name_plan, odd_name_table, one_and_none_plan, replaced_plan, single, slice_plan, sum_plan, sum_table, totals, totals_plan, twice_plan, twice_x, two_columns, under_sink, union_plan};
ghost use Rattle.ps_meaning.specs.Meaning.{Choice, IsBrokenBy, IsMeaning, IsWholeMeaning, Means};
ghost use Rattle.ps_meaning.specs.StepRefusals.{TypingRefused, column_not_found, duplicate, invalid_plan, no_key, schema_mismatch, unsupported};
ghost use Rattle.ps_plan.specs.Refusals.{IsRefused};
ghost use Rattle.plan_laws.specs.Refused.{above_one, by_function, circle, doubling_plan, group_by_keys, named, node_of, number_as_predicate, project_all, root_below_sink, select_all, sort_by_keys, two_sinks, unknown_column, window_in_predicate};
ghost use Rattle.ps_meaning.specs.Steps.{Name};
ghost use Rattle.ps_meaning.specs.declared.options.ExprIR.{ExprIR};

/// What small plans mean, and what they don't.
pub fn worked_examples()
    ensures filtered { (F : Functions) → IsWholeMeaning F filter_plan (a_table (2 ∷ 3 ∷ [])) }
    ensures filled { (F : Functions) → IsWholeMeaning F hconcat_plan hconcat_table }
    ensures literal_key { (F : Functions) → IsWholeMeaning F group_plan (key_count 3) }
    ensures one_slice { (F : Functions) (T : Table) → IsMeaning F slice_plan T → T ≡ a_table (2 ∷ 3 ∷ 4 ∷ []) }
    ensures cached { (F : Functions) → IsWholeMeaning F twice_plan (two_columns 2 2 1 1) }
    ensures one_order { (F : Functions) (choice : Choice) (T : Table) → Means F choice twice_plan T → (T ≡ two_columns 1 1 2 2) ⊎ (T ≡ two_columns 2 2 1 1) }
    ensures repeats { (F : Functions) (s : Fields) → TypingRefused F twice_x (s ∷ []) (duplicate (codes "x")) }
{}

/// What small plans mean: zips, row numbers, arithmetic, slices, unions, distinct rows and joins.
pub fn small_meanings()
    ensures sum_beside_a_column { (F : Functions) → IsWholeMeaning F sum_plan sum_table }
    ensures literal_alone { (F : Functions) → IsWholeMeaning F literal_plan (whole (single (codes "x") (1 ∷ []))) }
    ensures literal_beside_no_rows { (F : Functions) → IsWholeMeaning F beside_empty_plan no_row_table }
    ensures one_row_beside_none { (F : Functions) → IsWholeMeaning F one_and_none_plan ab_without_rows }
    ensures replaced_in_place { (F : Functions) → IsWholeMeaning F replaced_plan (whole (a_frame (6 ∷ 6 ∷ 6 ∷ []))) }
    ensures last_row_number { (F : Functions) → IsWholeMeaning F (under_sink (index_plan 4294967294)) indexed }
    ensures odd_name { (F : Functions) → IsWholeMeaning F odd_name_plan odd_name_table }
    ensures wraps_and_floors { (F : Functions) → IsWholeMeaning F arithmetic_plan arithmetic_table }
    ensures cut_from_the_end { (F : Functions) → IsWholeMeaning F (under_sink (cut_plan (int 5))) (whole (single (codes "x") (2 ∷ 3 ∷ []))) }
    ensures union_cut_last { (F : Functions) → IsWholeMeaning F union_plan (a_table (2 ∷ [])) }
    ensures rows_that_come_once { (F : Functions) → IsWholeMeaning F (distinct_plan true) (a_table (1 ∷ 3 ∷ [])) }
    ensures in_another_order { (F : Functions) → IsWholeMeaning F (distinct_plan false) (a_table (3 ∷ 1 ∷ [])) }
    ensures joined_and_grouped { (F : Functions) → IsWholeMeaning F totals_plan totals }
    ensures null_keys_apart { (F : Functions) → IsWholeMeaning F (left_plan false) (left_table val.Null) }
    ensures null_keys_together { (F : Functions) → IsWholeMeaning F (left_plan true) (left_table (val.String (codes "y"))) }
    ensures both_orders { (F : Functions) → IsWholeMeaning F twice_plan (two_columns 1 1 2 2) }
{}

/// Small plans that mean nothing else.
pub fn no_other_meanings()
    ensures filtered { (F : Functions) (choice : Choice) (T : Table) → Means F choice filter_plan T → T ≡ a_table (2 ∷ 3 ∷ []) }
    ensures literal_key { (F : Functions) (choice : Choice) (T : Table) → Means F choice group_plan T → T ≡ key_count 3 }
    ensures order_kept { (F : Functions) (choice : Choice) (T : Table) → Means F choice (distinct_plan true) T → T ≡ a_table (1 ∷ 3 ∷ []) }
    ensures any_order { (F : Functions) (choice : Choice) (T : Table) → Means F choice (distinct_plan false) T → (T ≡ a_table (1 ∷ 3 ∷ [])) ⊎ (T ≡ a_table (3 ∷ 1 ∷ [])) }
{}

/// What breaks small plans, and a slice of no rows that forgets it.
pub fn small_faults()
    ensures lengths_differ { (F : Functions) → IsBrokenBy F misfit_plan (at_one fault.Shape) }
    ensures past_the_last_number { (F : Functions) → IsBrokenBy F (index_plan 4294967295) (at_one fault.RowIndex) }
    ensures no_number { (F : Functions) → IsBrokenBy F cast_plan (at_one fault.StrictCast) }
    ensures forgotten { (F : Functions) → IsWholeMeaning F forgotten_plan (whole (single (codes "n") [])) }
    ensures negative_length { (F : Functions) → IsBrokenBy F (cut_plan minus_one) (at_one fault.SliceBound) }
    ensures past_the_end { (F : Functions) → IsBrokenBy F gather_plan (at_one fault.Gather) }
{}

/// Small plans that are refused, and the node that is named.
pub fn small_refusals()
    ensures unknown_column { (F : Functions) → IsRefused F unknown_column 1 (column_not_found (codes "z")) }
    ensures number_as_predicate { (F : Functions) → IsRefused F number_as_predicate 1 schema_mismatch }
    ensures root_below_sink { (F : Functions) → IsRefused F root_below_sink 1 (unsupported what.RootNotSink) }
    ensures sink_below_root { (F : Functions) → IsRefused F two_sinks 1 (invalid_plan why.Shape) }
    ensures left_out { (F : Functions) → IsRefused F window_in_predicate 1 (unsupported what.Window) }
    ensures own_input { (F : Functions) → IsRefused F circle 0 (invalid_plan why.Shape) }
    ensures no_sort_key { (F : Functions) (descending nulls_last : List Bool) → IsRefused F (sort_by_keys [] descending nulls_last) 1 (invalid_plan why.Keys) }
    ensures no_group_key { (F : Functions) (aggs : List ExprIR) (exprs : List AExpr) → IsRefused F (group_by_keys [] aggs exprs) 1 no_key }
    ensures no_group_column { (F : Functions) → IsRefused F (group_by_keys [] [] []) 1 (unsupported what.NoColumns) }
    ensures name_twice { (F : Functions) → IsRefused F (select_all (named (codes "x") 0 ∷ named (codes "x") 0 ∷ []) (above_one (codes "a"))) 1 (duplicate (codes "x")) }
    ensures no_column { (F : Functions) → IsRefused F (project_all []) 1 (unsupported what.NoColumns) }
    ensures doubled_too_often { (F : Functions) (f : Frame) (k : ℕ) → 16 ≤ k → k ≤ 40 → IsRefused F (doubling_plan f) k (invalid_plan why.Limits) }
    ensures no_such_function { (F : Functions) (n : ℕ) → F.count ≤ n → IsRefused F (by_function n) 1 (invalid_plan why.Shape) }
{}
