//! Laws of joins that are fit for their inputs, as theorems of functions that do nothing.
ghost use Rattle.std.specs.Prelude.{◌≡◌, ◌∷◌, []};
ghost use Rattle.ps_frame.specs.Tables.{Fields, Frame};
ghost use Rattle.ps_meaning.specs.Schemas.{join_schema};
ghost use Rattle.ps_meaning.specs.Steps.{JoinStep, join};
ghost use Rattle.ps_zip.specs.Zips.{AreTypedOver, expr_kinds};
ghost use Rattle.ready_steps.specs.Ready.{IsReady};

/// The keys of a join that is fit for two tables have kinds over these, the same in each pair, and the schema is that of the join.
pub fn keys_of_joins_are_paired()
    ensures left { (j : JoinStep) (l r : Frame) (s : Fields) → IsReady (join j) (l ∷ r ∷ []) s → AreTypedOver l.schema j.left_on }
    ensures right { (j : JoinStep) (l r : Frame) (s : Fields) → IsReady (join j) (l ∷ r ∷ []) s → AreTypedOver r.schema j.right_on }
    ensures paired { (j : JoinStep) (l r : Frame) (s : Fields) → IsReady (join j) (l ∷ r ∷ []) s → expr_kinds l.schema j.left_on ≡ expr_kinds r.schema j.right_on }
    ensures schema { (j : JoinStep) (l r : Frame) (s : Fields) → IsReady (join j) (l ∷ r ∷ []) s → s ≡ join_schema j l.schema r.schema }
{}
