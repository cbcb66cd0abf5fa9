//! What is asked of expressions that a node names.
ghost use Rattle.std.specs.Prelude.{◌≡◌, ◌∷◌, [], codes, false, true};
ghost use Rattle.ps_frame.specs.Trees.{Tree};
ghost use Rattle.sound_plans.specs.Tested.{is_reduced, is_reduction};
ghost use Rattle.step_keeps.specs.Kept.{are_all_own};
ghost use Rattle.plan_samples.specs.Examples.{col_a, named, one, sum_a};

/// A sum of a column is a reduction, and so is the height; a sum of a sum, or of a literal, is none.
pub fn reductions()
    ensures sum { is_reduction sum_a ≡ true }
    ensures height { is_reduction Tree.len ≡ true }
    ensures column { is_reduction col_a ≡ false }
    ensures reduced { is_reduced col_a ≡ true }
    ensures literal { is_reduced one ≡ false }
    ensures twice { is_reduced sum_a ≡ false }
{}

/// Columns under their own names, and one under another.
pub fn own_columns()
    ensures own { are_all_own (named (codes "a") col_a ∷ []) ≡ true }
    ensures other { are_all_own (named (codes "a") col_a ∷ named (codes "b") col_a ∷ []) ≡ false }
    ensures none { are_all_own [] ≡ true }
{}
