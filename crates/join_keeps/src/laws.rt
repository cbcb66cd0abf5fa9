//! Laws of lowering joins by keys, as theorems of functions that do nothing.
ghost use Rattle.std.specs.Prelude.{◌∷◌, ◌++◌, ◌≡◌, ◌≢◌, ◌≤◌, ◌^◌, [], true, List, ℕ};
ghost use Rattle.ps_frame.specs.Functions.{Functions};
ghost use Rattle.ps_frame.specs.Tables.{Fields};
ghost use Rattle.ps_meaning.specs.Joins.{goes_by_left};
ghost use Rattle.ps_meaning.specs.Schemas.{names_of};
ghost use Rattle.ps_meaning.specs.Steps.{JoinStep, join};
ghost use Rattle.ps_rules.specs.Lowered.{lower_exprs};
ghost use Rattle.ps_rules.specs.Slots.{State, Stream, schema_at};
ghost use Rattle.ps_shares.specs.Kept.{AreKnown, IsReady};
ghost use Rattle.plan_rules.specs.Groups.{columns_over};
ghost use Rattle.step_keeps.specs.Kept.{HasJoinSchema, IsKeptStep};

/// A join by any keys is kept where its schema is the join's and its names are known, the calls for both sides are ready, and
/// the second leaves the counter of names in 64 bits.
pub fn keyed_joins_are_kept()
    ensures { (F : Functions) (at : ℕ) (schema : Fields) (s : State) (l : Stream) (r : Stream) (o : JoinStep) → HasJoinSchema o s.nodes l r schema → goes_by_left o.args.how ≡ true → AreKnown s.names (names_of schema) → schema_at s.nodes l ≢ [] → schema_at s.nodes r ≢ [] → let es = o.left_on ++ columns_over l s in IsReady s l es → IsReady s r (o.right_on ++ columns_over r s) → let a = lower_exprs at l es s in (lower_exprs at r (o.right_on ++ columns_over r a.state) a.state).state.names.next ≤ 2 ^ 64 → IsKeptStep F at (join o) schema (l ∷ r ∷ []) s }
{}
