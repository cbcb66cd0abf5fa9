//! Laws of lowering selects, as theorems of functions that do nothing.
ghost use Rattle.std.specs.Prelude.{◌∷◌, [], List, ℕ};
ghost use Rattle.ps_frame.specs.Functions.{Functions};
ghost use Rattle.ps_frame.specs.Tables.{Fields};
ghost use Rattle.ps_meaning.specs.Steps.{Named, exprs_of, select};
ghost use Rattle.ps_plan.specs.Lowering.{LowersStep};
ghost use Rattle.ps_rules.specs.Lowered.{select_stream};
ghost use Rattle.ps_rules.specs.Slots.{State, Stream};
ghost use Rattle.ps_shares.specs.Kept.{IsReady};
ghost use Rattle.step_keeps.specs.Kept.{IsKeptStep};

/// A select is kept where the call for it lowers it.
pub fn selects_are_kept()
    ensures { (F : Functions) (at : ℕ) (schema : Fields) (s : State) (i : Stream) (es : List Named) → IsReady s i (exprs_of es) → let m = select_stream at i es s in LowersStep F s.nodes m.state.nodes at (select es) i.0 m.stream.0 → IsKeptStep F at (select es) schema (i ∷ []) s }
{}
