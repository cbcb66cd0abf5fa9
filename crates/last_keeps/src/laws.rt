//! Laws of lowering distincts that keep the last row of each key, as theorems of functions that do nothing.
ghost use Rattle.std.specs.Prelude.{◌≡◌, ◌≢◌, [], ◌∷◌, Some, true, false, List, ℕ, unwrap_or};
ghost use Rattle.ps_frame.specs.Frames.{has_distinct_names};
ghost use Rattle.ps_frame.specs.Functions.{Functions};
ghost use Rattle.ps_frame.specs.Tables.{Fields};
ghost use Rattle.ps_meaning.specs.Schemas.{named_fields, names_of};
ghost use Rattle.ps_meaning.specs.Steps.{DistinctStep, distinct};
ghost use Rattle.ps_rules.specs.Slots.{State, Stream, schema_at};
ghost use Rattle.plan_rules.specs.Distinct.{keeps_last};
ghost use Rattle.step_keeps.specs.Kept.{IsKeptStep};

/// A distinct by some of its columns is kept where it keeps the last row of each key, in any order; nothing is asked of the state before it.
pub fn last_rows_are_kept()
    ensures { (F : Functions) (at : ℕ) (s : State) (i : Stream) (o : DistinctStep) → keeps_last o.keep ≡ true → o.maintain_order ≡ false → schema_at s.nodes i ≢ [] → has_distinct_names (schema_at s.nodes i) ≡ true → let keys = unwrap_or o.subset (names_of (schema_at s.nodes i)) in (kf : Fields) → named_fields keys (schema_at s.nodes i) ≡ Some kf → keys ≢ [] → (schema : Fields) → IsKeptStep F at (distinct o) schema (i ∷ []) s }
{}
