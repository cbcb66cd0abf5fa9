//! Laws of lowering group-bys whose aggregates hold reductions, as theorems of functions that do nothing.
ghost use Rattle.std.specs.Prelude.{◌∷◌, ◌++◌, ◌≡◌, ◌≢◌, ◌≤◌, ◌^◌, [], IsTrue, Some, true, ℕ};
ghost use Rattle.std.specs.List.{list_any};
ghost use Rattle.ps_frame.specs.Frames.{has_distinct_names};
ghost use Rattle.ps_frame.specs.Functions.{Functions};
ghost use Rattle.ps_frame.specs.Parts.{is_literal_aggregate, some_part};
ghost use Rattle.ps_frame.specs.Tables.{Fields};
ghost use Rattle.ps_meaning.specs.Schemas.{fields_of};
ghost use Rattle.ps_meaning.specs.Steps.{GroupStep, exprs_of, group_by};
ghost use Rattle.ps_rules.specs.Lowered.{lower_exprs};
ghost use Rattle.ps_rules.specs.Slots.{State, Stream, schema_at};
ghost use Rattle.ps_shares.specs.Kept.{IsReady};
ghost use Rattle.plan_rules.specs.Groups.{can_stream, columns_over};
ghost use Rattle.plan_rules.specs.Reductions.{split_aggregates};
ghost use Rattle.rule_parts.specs.Good.{KnowsNames};
ghost use Rattle.step_keeps.specs.Kept.{IsKeptStep};

/// A group-by that streams, by whatever keys and with whatever aggregates, is kept where no aggregate is of what reads
/// nothing, the names of its schema are known, and its call is ready and leaves, with the names of its reductions, the
/// counter of names in 64 bits.
pub fn streamed_groups_are_kept()
    ensures { (F : Functions) (at : ℕ) (schema : Fields) (s : State) (i : Stream) (o : GroupStep) → can_stream o ≡ true → (¬ IsTrue (list_any (some_part is_literal_aggregate) (exprs_of o.aggregates))) → o.keys ≢ [] → schema_at s.nodes i ≢ [] → fields_of (o.keys ++ o.aggregates) (schema_at s.nodes i) ≡ Some schema → has_distinct_names schema ≡ true → KnowsNames s.names schema → let es = exprs_of o.keys ++ columns_over i s in IsReady s i es → (split_aggregates o.aggregates (lower_exprs at i es s).state.names).names.next ≤ 2 ^ 64 → IsKeptStep F at (group_by o) schema (i ∷ []) s }
{}
