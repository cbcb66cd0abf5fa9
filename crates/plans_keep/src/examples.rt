//! Kinds of steps that are kept, and some of which that isn't proved, as theorems of functions that do nothing.
ghost use Rattle.std.specs.Prelude.{[], ◌∷◌, None, Some, codes, pos};
ghost use Rattle.ps_frame.specs.Functions.{Functions};
ghost use Rattle.ps_meaning.specs.Steps.{filter, hstack, select};
ghost use Rattle.ps_meaning.specs.declared.options.JoinType.TheVariants as how;
ghost use Rattle.ps_meaning.specs.declared.options.UniqueKeepStrategy.TheVariants as keep;
ghost use Rattle.ps_rules.specs.Worked.{a_name, b_name, col_a, col_b, int, sum_of};
ghost use Rattle.plan_rules.specs.Worked.{a_sum_above_one, distinct_by_b, distinct_values, filtered_a, groups_of, joined_to_a, plus, sunk};
ghost use Rattle.plans_keep.specs.Kinds.{IsOfKeptKind, IsOfKeptKinds};

/// A select and a filter by a sum, a column of distinct values beside another and in place of every one, a group-by of the
/// values of a filtered column with a slice, one whose aggregate holds a sum, a join by a sum, distincts that keep the first
/// row of each key, any or the last, and one that keeps the rows without an equal of a table that isn't large.
pub fn kept_kinds()
    ensures selected { (F : Functions) → IsOfKeptKinds F (sunk (select ((a_name, sum_of col_a) ∷ []))) }
    ensures filtered { (F : Functions) → IsOfKeptKinds F (sunk (filter a_sum_above_one)) }
    ensures extended { (F : Functions) → IsOfKeptKinds F (sunk (hstack ((a_name, distinct_values col_a) ∷ []))) }
    ensures all_replaced { (F : Functions) → IsOfKeptKinds F (sunk (hstack ((a_name, distinct_values col_a) ∷ (b_name, col_b) ∷ []))) }
    ensures grouped { (F : Functions) → IsOfKeptKinds F (sunk (groups_of ((codes "k", filtered_a) ∷ []) ((codes "s", sum_of col_b) ∷ []) (Some (pos 0, 2)))) }
    ensures inside { IsOfKeptKind (groups_of ((codes "k", col_a) ∷ []) ((codes "s", plus (sum_of col_b) (int 1)) ∷ []) None) }
    ensures joined { IsOfKeptKind (joined_to_a how.Inner (sum_of col_b) None) }
    ensures first_rows { (F : Functions) → IsOfKeptKinds F (sunk (distinct_by_b keep.First None)) }
    ensures any_rows { (F : Functions) → IsOfKeptKinds F (sunk (distinct_by_b keep.Any (Some (pos 0, 2)))) }
    ensures last_rows { (F : Functions) → IsOfKeptKinds F (sunk (distinct_by_b keep.Last None)) }
    ensures single_rows { (F : Functions) → IsOfKeptKinds F (sunk (distinct_by_b keep.None (Some (pos 0, 2)))) }
{}

/// Of these it isn't proved: distincts that keep the rows without an equal, over inputs of any size.
pub fn other_kinds()
    ensures { ¬ IsOfKeptKind (distinct_by_b keep.None None) }
{}
