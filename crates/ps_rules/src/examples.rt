//! Worked names and calls, as theorems of functions that do nothing.
ghost use Rattle.std.specs.Prelude.{◌≡◌, ◌∷◌, ℕ, [], codes};
ghost use Rattle.ps_frame.specs.Trees.{Tree};
ghost use Rattle.ps_rules.specs.Lowered.{lower_exprs};
ghost use Rattle.ps_rules.specs.Names.{IsKnown, IsTemporary, after_fresh, fresh_name, temporary};
ghost use Rattle.ps_rules.specs.Worked.{a_above_one, a_name, answer, b_and_sum, b_name, b_renamed, b_selected, before, by_a, col_a, col_b, column_of, counter, filtered_b, int, literal_selected, mapped_alone, operands_together, reversed_b, sorted_by_a, start, stream_of_select, sum_beside_b, sum_of, sum_of_sum, two_literals, two_sums};

/// Which names are those of a counter: the digits are those that the number is written in, and no others.
pub fn temporary_names()
    ensures one_digit { IsTemporary 7 (codes "__POLARS_STMP_7") }
    ensures two_digits { IsTemporary 10 (codes "__POLARS_STMP_10") }
    ensures zero { IsTemporary 0 (codes "__POLARS_STMP_0") }
    ensures no_leading_zero { (k : ℕ) → ¬ IsTemporary k (codes "__POLARS_STMP_07") }
    ensures no_sign { (k : ℕ) → ¬ IsTemporary k (codes "__POLARS_STMP_+7") }
    ensures some_digit { (k : ℕ) → ¬ IsTemporary k (codes "__POLARS_STMP_") }
    ensures greatest { IsTemporary 18446744073709551615 (codes "__POLARS_STMP_18446744073709551615") }
    ensures past_the_counter { (k : ℕ) → ¬ IsTemporary k (codes "__POLARS_STMP_18446744073709551616") }
{}

/// Which names are known, and which one is the next fresh one.
pub fn known_names()
    ensures other_name { IsKnown (counter [] 0) (codes "a") }
    ensures taken { IsKnown (counter (3 ∷ []) 0) (temporary 3) }
    ensures passed { IsKnown (counter [] 5) (temporary 4) }
    ensures not_yet { ¬ IsKnown (counter (3 ∷ []) 2) (temporary 2) }
    ensures first { fresh_name (counter [] 0) ≡ codes "__POLARS_STMP_0" }
    ensures taken_passed_over { fresh_name (counter (3 ∷ 4 ∷ 6 ∷ []) 3) ≡ codes "__POLARS_STMP_5" }
    ensures goes_on { after_fresh (counter (3 ∷ 4 ∷ 6 ∷ []) 3) ≡ counter (3 ∷ 4 ∷ 6 ∷ []) 6 }
{}

/// What calls over a source of the columns a and b make, and answer.
pub fn worked_calls()
    ensures sum_beside_a_column { answer (sum_of col_a ∷ col_b ∷ []) ≡ sum_beside_b }
    ensures one_reduce_for_two { answer (sum_of col_a ∷ Tree.len ∷ []) ≡ two_sums }
    ensures name_in_use { (lower_exprs 1 (0, 0) (sum_of col_a ∷ col_b ∷ []) (before (0 ∷ []))).exprs ≡ column_of 1 ∷ col_b ∷ [] }
    ensures literals_without_the_source { answer (int 1 ∷ int 2 ∷ []) ≡ two_literals }
    ensures operands_share_streams { answer (b_and_sum ∷ []) ≡ operands_together }
    ensures map_over_what_is_read { answer (reversed_b ∷ []) ≡ mapped_alone }
    ensures filter_of_a_select { answer (Tree.filter col_b a_above_one ∷ []) ≡ filtered_b }
    ensures keys_with_the_values { answer (by_a ∷ []) ≡ sorted_by_a }
    ensures reduce_over_a_reduce { answer (sum_of (sum_of col_a) ∷ []) ≡ sum_of_sum }
{}

/// What selects over a source of the columns a and b make.
pub fn worked_selects()
    ensures own_columns { stream_of_select ((a_name, col_a) ∷ (b_name, col_b) ∷ []) ≡ record { state = start; stream = (0, 0) } }
    ensures some_columns { stream_of_select ((b_name, col_b) ∷ []) ≡ b_selected }
    ensures renamed { stream_of_select ((codes "x", col_b) ∷ []) ≡ b_renamed }
    ensures literals { stream_of_select ((codes "x", int 1) ∷ []) ≡ literal_selected }
{}
