//! Laws of lowering distincts that keep the rows whose key comes once, as theorems of functions that do nothing.
ghost use Rattle.std.specs.Prelude.{◌≡◌, ◌≢◌, [], ◌∷◌, Some, false, true, ℕ, unwrap_or};
ghost use Rattle.ps_frame.specs.Frames.{has_distinct_names};
ghost use Rattle.ps_frame.specs.Functions.{Functions};
ghost use Rattle.ps_frame.specs.Tables.{Fields};
ghost use Rattle.ps_meaning.specs.Schemas.{is_among, named_fields, names_of};
ghost use Rattle.ps_meaning.specs.Steps.{DistinctStep, distinct};
ghost use Rattle.ps_rules.specs.Slots.{State, Stream, new_name, schema_at};
ghost use Rattle.none_keeps.specs.Stays.{TablesStayWithin};
ghost use Rattle.plan_keeps.specs.Small.{IsKeptSmallStep};
ghost use Rattle.plan_rules.specs.Distinct.{keeps_none};

/// A distinct that keeps the rows whose key comes once is kept over an input that isn't large, where the next fresh name is none of the input's. Over a large one it counts the rows of each key, and the count of too many is a fault that the distinct itself hasn't.
pub fn single_rows_are_kept()
    ensures { (F : Functions) (at : ℕ) (s : State) (i : Stream) (o : DistinctStep) → keeps_none o.keep ≡ true → schema_at s.nodes i ≢ [] → has_distinct_names (schema_at s.nodes i) ≡ true → let keys = unwrap_or o.subset (names_of (schema_at s.nodes i)) in (kf : Fields) → named_fields keys (schema_at s.nodes i) ≡ Some kf → keys ≢ [] → is_among (new_name s) (names_of (schema_at s.nodes i)) ≡ false → (schema : Fields) → IsKeptSmallStep F at (distinct o) schema (i ∷ []) s }
{}

/// However large the input is, the stream's table lies within one that the distinct gives: it stops before a group of too many rows, which the distinct doesn't keep.
pub fn single_rows_stay_within()
    ensures { (F : Functions) (at : ℕ) (s : State) (i : Stream) (o : DistinctStep) → keeps_none o.keep ≡ true → schema_at s.nodes i ≢ [] → has_distinct_names (schema_at s.nodes i) ≡ true → let keys = unwrap_or o.subset (names_of (schema_at s.nodes i)) in (kf : Fields) → named_fields keys (schema_at s.nodes i) ≡ Some kf → keys ≢ [] → is_among (new_name s) (names_of (schema_at s.nodes i)) ≡ false → (schema : Fields) → TablesStayWithin F at (distinct o) schema (i ∷ []) s }
{}
