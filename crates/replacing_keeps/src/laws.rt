//! Laws of lowering further columns, as theorems of functions that do nothing.
ghost use Rattle.std.specs.Prelude.{◌∷◌, ◌++◌, ◌≡◌, ◌≢◌, ◌≤◌, ◌^◌, [], Some, false, true, List, ℕ};
ghost use Rattle.std.specs.List.{list_all};
ghost use Rattle.ps_frame.specs.Frames.{has_distinct_names};
ghost use Rattle.ps_frame.specs.Functions.{Functions};
ghost use Rattle.ps_frame.specs.Tables.{Fields};
ghost use Rattle.ps_frame.specs.Typing.{is_elementwise};
ghost use Rattle.ps_meaning.specs.Schemas.{fields_of, put_fields};
ghost use Rattle.ps_meaning.specs.Steps.{Named, exprs_of, hstack};
ghost use Rattle.ps_rules.specs.Lowered.{lower_exprs};
ghost use Rattle.ps_rules.specs.Slots.{State, Stream, schema_at};
ghost use Rattle.ps_shares.specs.Kept.{IsReady};
ghost use Rattle.plan_rules.specs.Groups.{columns_over};
ghost use Rattle.step_keeps.specs.Kept.{IsKeptStep};

/// Further columns that don't all go by cell are kept, whichever columns of the input they replace, where their call is ready and
/// leaves the counter of names in 64 bits.
pub fn replacing_columns_are_kept()
    ensures { (F : Functions) (at : ℕ) (s : State) (i : Stream) (es : List Named) (gs : Fields) → list_all is_elementwise (exprs_of es) ≡ false → schema_at s.nodes i ≢ [] → fields_of es (schema_at s.nodes i) ≡ Some gs → has_distinct_names gs ≡ true → let asked = columns_over i s ++ exprs_of es in IsReady s i asked → (lower_exprs at i asked s).state.names.next ≤ 2 ^ 64 → IsKeptStep F at (hstack es) (put_fields (schema_at s.nodes i) gs) (i ∷ []) s }
{}
