//! Worked calls for expressions beside all columns, as theorems of a function that does nothing.
ghost use Rattle.std.specs.Prelude.{◌≡◌, ◌∷◌, []};
ghost use Rattle.ps_rules.specs.Names.{Names};
ghost use Rattle.ps_rules.specs.Worked.{a_above_one, col_a, column_of, counter, source, sum_of};
ghost use Rattle.node_lowering.specs.Answers.{before_columns, behind_columns};

/// An expression beside the columns a and b: what stands for it alone is answered.
pub fn beside_columns()
    ensures behind { (names : Names) → (behind_columns 1 (0, 0) (a_above_one ∷ []) (record { nodes = source ∷ []; names = names })).exprs ≡ a_above_one ∷ [] }
    ensures before { (names : Names) → (before_columns 1 (0, 0) (a_above_one ∷ []) (record { nodes = source ∷ []; names = names })).exprs ≡ a_above_one ∷ [] }
    ensures over_the_input { (names : Names) → (before_columns 1 (0, 0) (a_above_one ∷ []) (record { nodes = source ∷ []; names = names })).stream ≡ (0, 0) }
    ensures an_aggregate { (behind_columns 1 (0, 0) (sum_of col_a ∷ []) (record { nodes = source ∷ []; names = counter [] 0 })).exprs ≡ column_of 0 ∷ [] }
    ensures over_a_zip { (behind_columns 1 (0, 0) (sum_of col_a ∷ []) (record { nodes = source ∷ []; names = counter [] 0 })).stream ≡ (2, 0) }
{}
