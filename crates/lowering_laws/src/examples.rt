//! Worked cases, as theorems of functions that do nothing.
ghost use Rattle.std.specs.Prelude.{◌∷◌, [], codes};
ghost use Rattle.ps_frame.specs.Functions.{Functions};
ghost use Rattle.ps_rules.specs.Worked.{a_name, b_name, b_renamed, col_a, col_b, column_of, start, sum_beside_b, sum_of};
ghost use Rattle.lowering_laws.specs.Kept.{KeepsExprs, LeavesExprs, LeavesStream};

/// The call for a sum beside a column leaves its zip and the two columns, and no other stream; a select leaves its node.
/// An answer that isn't elementwise keeps nothing.
pub fn worked_calls()
    ensures zip { LeavesExprs 1 (record { 0 = 0; 1 = 0 }) start sum_beside_b.state (a_name ∷ b_name ∷ []) (sum_of col_a ∷ col_b ∷ []) ((a_name, column_of 0) ∷ (b_name, col_b) ∷ []) (record { 0 = 2; 1 = 0 }) }
    ensures another { ¬ LeavesExprs 1 (record { 0 = 0; 1 = 0 }) start sum_beside_b.state (a_name ∷ b_name ∷ []) (sum_of col_a ∷ col_b ∷ []) ((a_name, column_of 0) ∷ (b_name, col_b) ∷ []) (record { 0 = 1; 1 = 0 }) }
    ensures select { LeavesStream 1 (record { 0 = 0; 1 = 0 }) start b_renamed.state ((codes "x", col_b) ∷ []) (record { 0 = 1; 1 = 0 }) }
    ensures aggregate { (F : Functions) → ¬ KeepsExprs F 1 start sum_beside_b.state (record { 0 = 0; 1 = 0 }) ((a_name, sum_of col_a) ∷ []) ((a_name, sum_of col_a) ∷ []) (record { 0 = 0; 1 = 0 }) }
{}
