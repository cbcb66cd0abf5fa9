//! Worked examples, as theorems of functions that do nothing.
ghost use Rattle.std.specs.Prelude.{◌≡◌, ◌∷◌, [], pos};
ghost use Rattle.ps_frame.specs.declared.value.Value.TheVariants as value;
ghost use Rattle.ps_turns.specs.Ends.{last_kept, rows_at_end};

/// Of tables of two rows and of one, a slice that looks back on one row keeps the second, and one that looks back on two
/// both. Of three rows that came, of which the last two are kept, these are the last two and the first of them.
pub fn kept_tables()
    ensures second { last_kept 1 (([] ∷ [] ∷ []) ∷ ([] ∷ []) ∷ []) ≡ ([] ∷ []) ∷ [] }
    ensures both { last_kept 2 (([] ∷ [] ∷ []) ∷ ([] ∷ []) ∷ []) ≡ ([] ∷ [] ∷ []) ∷ ([] ∷ []) ∷ [] }
    ensures last_two { rows_at_end 2 5 3 ((value.Int64 (pos 2) ∷ []) ∷ (value.Int64 (pos 3) ∷ []) ∷ []) ≡ (value.Int64 (pos 2) ∷ []) ∷ (value.Int64 (pos 3) ∷ []) ∷ [] }
    ensures one { rows_at_end 2 1 3 ((value.Int64 (pos 2) ∷ []) ∷ (value.Int64 (pos 3) ∷ []) ∷ []) ≡ (value.Int64 (pos 2) ∷ []) ∷ [] }
{}
