//! Laws of lowering group-bys that stream, as theorems of functions that do nothing.
ghost use Rattle.std.specs.Prelude.{◌∷◌, ◌++◌, ◌≡◌, ◌≢◌, ◌≤◌, ◌^◌, [], Some, true, List, ℕ};
ghost use Rattle.std.specs.List.{AllByRecursion};
ghost use Rattle.ps_frame.specs.Frames.{has_distinct_names};
ghost use Rattle.ps_frame.specs.Functions.{Functions};
ghost use Rattle.ps_frame.specs.Tables.{Fields};
ghost use Rattle.ps_meaning.specs.Schemas.{fields_of};
ghost use Rattle.ps_meaning.specs.Steps.{GroupStep, Named, exprs_of, group_by};
ghost use Rattle.ps_rules.specs.Lowered.{lower_exprs};
ghost use Rattle.ps_rules.specs.Slots.{State, Stream, schema_at};
ghost use Rattle.ps_shares.specs.Kept.{IsReady};
ghost use Rattle.plan_rules.specs.Groups.{can_stream, columns_over};
ghost use Rattle.step_keeps.specs.Kept.{IsKeptStep, IsPlainReduction};

/// A group-by that streams, by whatever keys, is kept where each aggregate is a reduction or the height, and where its call is ready and leaves the counter of names in 64 bits.
pub fn keyed_groups_are_kept()
    ensures { (F : Functions) (at : ℕ) (schema : Fields) (s : State) (i : Stream) (o : GroupStep) → can_stream o ≡ true → AllByRecursion (λ (e : Named). IsPlainReduction e.1) o.aggregates → o.keys ≢ [] → schema_at s.nodes i ≢ [] → fields_of (o.keys ++ o.aggregates) (schema_at s.nodes i) ≡ Some schema → has_distinct_names schema ≡ true → let es = exprs_of o.keys ++ columns_over i s in IsReady s i es → (lower_exprs at i es s).state.names.next ≤ 2 ^ 64 → IsKeptStep F at (group_by o) schema (i ∷ []) s }
{}
