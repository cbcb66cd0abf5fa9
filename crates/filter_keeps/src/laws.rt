//! Laws of lowering filters, as theorems of functions that do nothing.
ghost use Rattle.std.specs.Prelude.{◌∷◌, ◌++◌, ◌≢◌, ◌≤◌, ◌^◌, [], List, ℕ};
ghost use Rattle.ps_frame.specs.Functions.{Functions};
ghost use Rattle.ps_frame.specs.Tables.{Fields};
ghost use Rattle.ps_frame.specs.Trees.{Tree};
ghost use Rattle.ps_meaning.specs.Steps.{filter};
ghost use Rattle.ps_rules.specs.Lowered.{lower_exprs};
ghost use Rattle.ps_rules.specs.Slots.{State, Stream, schema_at};
ghost use Rattle.ps_shares.specs.Kept.{IsReady};
ghost use Rattle.plan_rules.specs.Groups.{columns_over};
ghost use Rattle.step_keeps.specs.Kept.{IsKeptStep};

/// A filter by any predicate is kept where its call is ready and leaves the counter of names in 64 bits.
pub fn filters_are_kept()
    ensures { (F : Functions) (at : ℕ) (schema : Fields) (s : State) (i : Stream) (predicate : Tree) → let es = columns_over i s ++ predicate ∷ [] in schema_at s.nodes i ≢ [] → IsReady s i es → (lower_exprs at i es s).state.names.next ≤ 2 ^ 64 → IsKeptStep F at (filter predicate) schema (i ∷ []) s }
{}
