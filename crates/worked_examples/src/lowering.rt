//! Worked cases of lowered expressions, as theorems of functions that do nothing.
ghost use Rattle.std.specs.Prelude.{◌∷◌, [], false};
ghost use Rattle.ps_frame.specs.Functions.{Functions};
ghost use Rattle.ps_frame.specs.Zip.{zipped};
ghost use Rattle.ps_bundles.specs.Endings.{EndAs};
ghost use Rattle.worked_examples.specs.Lowering.{beside_none, beside_one, cast_fault, one, one_cell, wanted, worked_tables};
ghost use Rattle.ps_meaning.specs.Shape.{IsPhysicalChoice};
ghost use Rattle.ps_meaning.specs.Steps.{exprs_of};
ghost use Rattle.ps_rules.specs.Worked.{start, sum_beside_b};
ghost use Rattle.ps_shares.specs.Kept.{IsReady};

/// A faulty cell beside no cells leaves a whole zip without rows, or breaks it before its first row; beside a cell it breaks the zip. Rows that a cause breaks aren't an end of a whole zip that lost nothing.
pub fn ends_of_small_zips()
    ensures whole { EndAs [] [] beside_none }
    ensures lost { EndAs [] (cast_fault ∷ []) beside_none }
    ensures broken { EndAs [] (cast_fault ∷ []) beside_one }
    ensures not_whole { ¬ EndAs [] [] beside_one }
    ensures of_one { EndAs ((one ∷ []) ∷ []) [] (zipped false 1 (one_cell ∷ [])) }
    ensures not_broken { ¬ EndAs ((one ∷ []) ∷ []) (cast_fault ∷ []) (zipped false 1 (one_cell ∷ [])) }
{}

/// The call that lowers a sum beside a column is one of which the laws speak: it is ready, and its nodes mean tables.
pub fn worked_call_has_tables()
    ensures ready { IsReady start (record { 0 = 0; 1 = 0 }) (exprs_of wanted) }
    ensures tables { (F : Functions) → IsPhysicalChoice F sum_beside_b.state.nodes worked_tables }
{}
