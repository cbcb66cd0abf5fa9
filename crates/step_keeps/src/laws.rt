//! Laws of lowering single steps, as theorems of functions that do nothing.
ghost use Rattle.std.specs.Prelude.{◌∷◌, ◌++◌, ◌≡◌, ◌≢◌, ◌≤◌, ◌⊎◌, ◌&&◌, [], None, Some, true, false, Contains, List, ℕ, ℤ, Option, length};
ghost use Rattle.std.specs.List.{AllByRecursion, list_all};
ghost use Rattle.ps_frame.specs.Frames.{has_distinct_names};
ghost use Rattle.ps_frame.specs.Functions.{Functions};
ghost use Rattle.ps_frame.specs.Lawful.{FitsFrame};
ghost use Rattle.ps_frame.specs.Tables.{Fields, Frame};
ghost use Rattle.ps_frame.specs.Trees.{Tree};
ghost use Rattle.ps_frame.specs.Typing.{is_elementwise};
ghost use Rattle.ps_meaning.specs.Joins.{goes_by_left};
ghost use Rattle.ps_meaning.specs.Schemas.{fields_of, named_fields};
ghost use Rattle.ps_meaning.specs.Steps.{Cut, DistinctStep, GroupStep, JoinStep, Name, Named, SortStep, Step, distinct, exprs_of, filter, group_by, hconcat, hstack, join, project, row_index, scan, select, sink, slice, sort, union, user};
ghost use Rattle.ps_meaning.specs.declared.options.SinkType.{SinkType};
ghost use Rattle.ps_meaning.specs.Shape.{PhysicalNode};
ghost use Rattle.ps_plan.specs.Lowering.{LowersStep};
ghost use Rattle.ps_rules.specs.Calls.{all_independent};
ghost use Rattle.ps_rules.specs.Lowered.{lower_exprs, select_stream};
ghost use Rattle.ps_rules.specs.Slots.{State, Stream, schema_at};
ghost use Rattle.plan_rules.specs.Distinct.{keeps_last};
ghost use Rattle.plan_rules.specs.Groups.{can_stream};
ghost use Rattle.step_keeps.specs.Kept.{HasJoinSchema, IsKeptStep, IsMadeFor, IsPlainReduction, KeepsStep, are_all_own};

/// A step that becomes one node of its own case is kept.
pub fn single_nodes_keep_their_step()
    ensures projections { (F : Functions) (at : ℕ) (schema : Fields) (s : State) (names : List Name) (i : Stream) → IsKeptStep F at (project names) schema (i ∷ []) s }
    ensures sinks { (F : Functions) (at : ℕ) (schema : Fields) (s : State) (target : SinkType) (i : Stream) → IsKeptStep F at (sink target) schema (i ∷ []) s }
    ensures row_numbers { (F : Functions) (at : ℕ) (schema : Fields) (s : State) (name : Name) (offset : Option ℕ) (i : Stream) → IsKeptStep F at (row_index name offset) schema (i ∷ []) s }
    ensures functions { (F : Functions) (at : ℕ) (schema : Fields) (s : State) (n : ℕ) (i : Stream) → IsKeptStep F at (user n) schema (i ∷ []) s }
    ensures sorts { (F : Functions) (at : ℕ) (schema : Fields) (s : State) (o : SortStep) (i : Stream) → IsKeptStep F at (sort o) schema (i ∷ []) s }
    ensures hconcats { (F : Functions) (at : ℕ) (schema : Fields) (s : State) (inputs : List Stream) → IsKeptStep F at hconcat schema inputs s }
{}

/// A slice is kept, forwards and from the end, and so is a union with the slice above it.
pub fn slices_are_kept()
    ensures slices { (F : Functions) (at : ℕ) (schema : Fields) (s : State) (offset : ℤ) (n : ℕ) (i : Stream) → IsKeptStep F at (slice offset n) schema (i ∷ []) s }
    ensures unions { (F : Functions) (at : ℕ) (schema : Fields) (s : State) (cut : Cut) (inputs : List Stream) → IsKeptStep F at (union cut) schema inputs s }
{}

/// A scan is kept, of the whole table and of columns of a table that fits its schema.
pub fn scans_are_kept()
    ensures tables { (F : Functions) (at : ℕ) (s : State) (t : Frame) → IsKeptStep F at (scan t None) t.schema [] s }
    ensures columns { (F : Functions) (at : ℕ) (s : State) (t : Frame) (names : List Name) (fields : Fields) → named_fields names t.schema ≡ Some fields → has_distinct_names t.schema ≡ true → FitsFrame t → IsKeptStep F at (scan t (Some names)) fields [] s }
{}

/// A group-by and a distinct that don't stream are kept by their map.
pub fn maps_keep_their_step()
    ensures groups { (F : Functions) (at : ℕ) (schema : Fields) (s : State) (i : Stream) (o : GroupStep) → can_stream o ≡ false → IsKeptStep F at (group_by o) schema (i ∷ []) s }
    ensures distincts { (F : Functions) (at : ℕ) (schema : Fields) (s : State) (i : Stream) (o : DistinctStep) → (o.maintain_order && keeps_last o.keep) ≡ true → IsKeptStep F at (distinct o) schema (i ∷ []) s }
{}

/// A group-by that streams is kept where its keys go by cell and each aggregate is a reduction or the height.
pub fn plain_groups_are_kept()
    ensures { (F : Functions) (at : ℕ) (schema : Fields) (s : State) (i : Stream) (o : GroupStep) → can_stream o ≡ true → list_all is_elementwise (exprs_of o.keys) ≡ true → AllByRecursion (λ (e : Named). IsPlainReduction e.1) o.aggregates → o.keys ≢ [] → schema_at s.nodes i ≢ [] → fields_of (o.keys ++ o.aggregates) (schema_at s.nodes i) ≡ Some schema → IsKeptStep F at (group_by o) schema (i ∷ []) s }
{}

/// Further columns, filters and selects whose expressions go by cell are kept; of a select some expression reads the input, and not all are columns under their own names.
pub fn steps_by_cell_are_kept()
    ensures selects { (F : Functions) (at : ℕ) (schema : Fields) (s : State) (i : Stream) (es : List Named) → list_all is_elementwise (exprs_of es) ≡ true → all_independent (exprs_of es) ≡ false → are_all_own es ≡ false → IsKeptStep F at (select es) schema (i ∷ []) s }
    ensures columns { (F : Functions) (at : ℕ) (schema : Fields) (s : State) (i : Stream) (es : List Named) → list_all is_elementwise (exprs_of es) ≡ true → IsKeptStep F at (hstack es) schema (i ∷ []) s }
    ensures filters { (F : Functions) (at : ℕ) (schema : Fields) (s : State) (i : Stream) (predicate : Tree) → is_elementwise predicate ≡ true → schema_at s.nodes i ≢ [] → IsKeptStep F at (filter predicate) schema (i ∷ []) s }
{}

/// Joins over whole inputs are kept, and those by keys that go by cell, where the schema is the join's.
pub fn joins_are_kept()
    ensures whole { (F : Functions) (at : ℕ) (schema : Fields) (s : State) (l : Stream) (r : Stream) (o : JoinStep) → HasJoinSchema o s.nodes l r schema → goes_by_left o.args.how ≡ false → IsKeptStep F at (join o) schema (l ∷ r ∷ []) s }
    ensures keyed { (F : Functions) (at : ℕ) (schema : Fields) (s : State) (l : Stream) (r : Stream) (o : JoinStep) → HasJoinSchema o s.nodes l r schema → goes_by_left o.args.how ≡ true → list_all is_elementwise o.left_on ≡ true → list_all is_elementwise o.right_on ≡ true → schema_at s.nodes l ≢ [] → schema_at s.nodes r ≢ [] → IsKeptStep F at (join o) schema (l ∷ r ∷ []) s }
{}

/// The nodes that a call for expressions or a select adds have its origin, and read each other or the input, and the stream is one of them or the input.
pub fn calls_own_their_nodes()
    ensures exprs { (at : ℕ) (input : Stream) (s : State) (es : List Tree) (more : List PhysicalNode) → let a = lower_exprs at input es s in a.state.nodes ≡ s.nodes ++ more → AllByRecursion (IsMadeFor at s.nodes (input ∷ [])) more × ((length s.nodes ≤ a.stream.0) ⊎ Contains (input ∷ []) a.stream) }
    ensures selects { (at : ℕ) (input : Stream) (s : State) (es : List Named) (more : List PhysicalNode) → let m = select_stream at input es s in m.state.nodes ≡ s.nodes ++ more → AllByRecursion (IsMadeFor at s.nodes (input ∷ [])) more × ((length s.nodes ≤ m.stream.0) ⊎ Contains (input ∷ []) m.stream) }
{}

/// What is kept of a step over one input is a lowering of that step.
pub fn kept_steps_are_lowered()
    ensures { (F : Functions) (at : ℕ) (step : Step) (before after : State) (input stream : Stream) → KeepsStep F at step before after (input ∷ []) stream → LowersStep F before.nodes after.nodes at step input.0 stream.0 }
{}
