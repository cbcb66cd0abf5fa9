//! Worked counts, as theorems of functions that do nothing.
ghost use Rattle.std.specs.Prelude.{◌≡◌, ◌∷◌, [], None, codes};
ghost use Rattle.ps_meaning.specs.Steps.{filter};
ghost use Rattle.ps_rules.specs.Worked.{a_above_one, col_b, sum_of};
ghost use Rattle.plan_rules.specs.Worked.{filtered_a, groups_of, sunk};
ghost use Rattle.plan_sizes.specs.Counted.{plan_occurrences};

/// A scan, a step and a sink are three; a comparison with a literal is two more. Of a group-by its aggregates count too,
/// where the plan is counted.
pub fn worked_counts()
    ensures filtered { plan_occurrences (sunk (filter a_above_one)) ≡ 5 }
    ensures grouped { plan_occurrences (sunk (groups_of ((codes "k", filtered_a) ∷ []) ((codes "s", sum_of col_b) ∷ []) None)) ≡ 7 }
{}
