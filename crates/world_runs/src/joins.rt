// Equi joins: what they build of, what they probe with, their last piece, their stages and ports, as theorems of functions that do nothing.
ghost use Rattle.std.specs.Prelude.{◌≡◌, ℕ, true, false, List, [], ◌∷◌, Some, None, map, option_map};
ghost use Rattle.ps_frame.specs.Functions.{Functions};
ghost use Rattle.ps_frame.specs.Tables.{Row};
ghost use Rattle.ps_frame.specs.declared.value.Value.TheVariants as val;
ghost use Rattle.ps_ports.specs.declared.port_state.PortState.TheVariants as port;
ghost use Rattle.ps_turns.specs.Claims.{Claim, claim_of};
ghost use Rattle.ps_turns.specs.Progress.{giving, is_intensive, spent, taking};
ghost use Rattle.ps_turns.specs.Results.{IsResultOf};
ghost use Rattle.ps_meaning.specs.Cases.{rows_table};
ghost use Rattle.ps_turns.specs.Tasks.{Task, gives_last, good, keeps, probes};
ghost use Rattle.ps_turns.specs.Updates.{answer_of, stage_after};
ghost use Rattle.world_runs.specs.Examples.{number};
ghost use Rattle.ps_meaning.specs.declared.options.JoinType.TheVariants as how;
ghost use Rattle.ps_world.specs.Opening.{no_progress};
ghost use Rattle.world_runs.specs.Joins.{two_workers, text, left_fields, right_fields, both_fields, key, x, y, z, on_k, a_left_join, a_full_join, sides, probing, right_rows, second_left, kept_left, last_claim};

/// While it builds, a join claims its right morsels alone, keeps places for them, is memory intensive, and is blocked to its left input and its output.
pub fn joins_build()
    ensures builds_right { option_map {U = ℕ × Task} (λ (c : Claim). (c.number, c.task)) (claim_of two_workers a_left_join both_fields (no_progress 2) [] (false ∷ false ∷ []) 1 (Some (0, x 1 ∷ y 2 ∷ []))) ≡ Some (0, keeps a_left_join) }
    ensures keeps_a_place { option_map (λ (c : Claim). c.progress.taken) (claim_of two_workers a_left_join both_fields (no_progress 2) [] (false ∷ false ∷ []) 1 (Some (0, x 1 ∷ y 2 ∷ []))) ≡ Some ([] ∷ (None ∷ []) ∷ []) }
    ensures builds_not_left { claim_of two_workers a_left_join both_fields (no_progress 2) [] (false ∷ false ∷ []) 0 (Some (0, key 2 ∷ [])) ≡ None }
    ensures heavy_while_building { map (is_intensive a_left_join.kind) (taking ∷ giving ∷ []) ≡ true ∷ false ∷ [] }
    ensures building_ports { answer_of two_workers a_left_join (no_progress 2) [] [] (sides port.Ready port.Ready port.Ready) ≡ sides port.Blocked port.Ready port.Blocked }
{}

/// Once the right input is done a join probes: it passes its left input, and a left morsel goes on under its own number, over all right rows in the order of their morsels. A left row without a match stands in its place.
pub fn joins_probe()
    ensures starts_probing { stage_after two_workers a_left_join.kind (no_progress 2) (sides port.Ready port.Done port.Ready) ≡ giving }
    ensures probing_ports { answer_of two_workers a_left_join probing [] [] (sides port.Blocked port.Done port.Ready) ≡ sides port.Ready port.Done port.Blocked }
    ensures under_its_number { option_map {U = ℕ × ℕ} (λ (c : Claim). (c.number, c.gives)) second_left ≡ Some (1, 1) }
    ensures over_all_right { option_map {U = Task × List (List Row)} (λ (c : Claim). (c.task, c.tables)) second_left ≡ Some (probes a_left_join (on_k how.Left), (key 2 ∷ key 3 ∷ []) ∷ right_rows ∷ []) }
    ensures keeps_no_left { option_map (λ (c : Claim). c.progress.taken) second_left ≡ Some probing.taken }
    ensures probed { (F : Functions) → IsResultOf F (probes a_left_join (on_k how.Left)) 0 (rows_table left_fields (key 3 ∷ key 2 ∷ []) ∷ rows_table right_fields right_rows ∷ []) [] (good ((number 3 ∷ val.Null ∷ []) ∷ y 2 ∷ z 2 ∷ [])) }
{}

/// Done on the left, a left join is spent, and has no last piece.
pub fn left_joins_end()
    ensures left_ends { stage_after two_workers a_left_join.kind probing (sides port.Done port.Done port.Ready) ≡ spent }
    ensures none_of_a_left_join { claim_of two_workers a_left_join both_fields probing [] (true ∷ true ∷ []) 0 None ≡ None }
{}

/// Done on the left, a full join goes on until its last piece was claimed. That piece has the number after those of the left morsels, which it kept at their claims, and all rows of both sides; before the left is done there is none.
pub fn full_joins_end()
    ensures full_goes_on { stage_after two_workers a_full_join.kind kept_left (sides port.Done port.Done port.Ready) ≡ giving }
    ensures full_ready { answer_of two_workers a_full_join kept_left [] [] (sides port.Done port.Done port.Ready) ≡ sides port.Done port.Done port.Ready }
    ensures full_ends { stage_after two_workers a_full_join.kind (record kept_left { sent = 1 }) (sides port.Done port.Done port.Ready) ≡ spent }
    ensures keeps_left { option_map (λ (c : Claim). c.progress.taken) (claim_of two_workers a_full_join both_fields kept_left [] (false ∷ true ∷ []) 0 (Some (2, key 5 ∷ []))) ≡ Some ((Some (key 1 ∷ []) ∷ Some (key 3 ∷ []) ∷ Some (key 5 ∷ []) ∷ []) ∷ (Some (x 4 ∷ y 1 ∷ []) ∷ []) ∷ []) }
    ensures its_number { option_map {U = ℕ × ℕ} (λ (c : Claim). (c.number, c.gives)) last_claim ≡ Some (2, 2) }
    ensures its_rows { option_map {U = Task × List (List Row)} (λ (c : Claim). (c.task, c.tables)) last_claim ≡ Some (gives_last a_full_join (on_k how.Full), (key 1 ∷ key 3 ∷ []) ∷ (x 4 ∷ y 1 ∷ []) ∷ []) }
    ensures none_before { claim_of two_workers a_full_join both_fields kept_left [] (false ∷ true ∷ []) 0 None ≡ None }
    ensures none_after { claim_of two_workers a_full_join both_fields (record kept_left { sent = 1 }) [] (true ∷ true ∷ []) 0 None ≡ None }
{}

/// Pairs and left rows without a match come first; the last piece gives the right rows without one.
pub fn full_joins_give()
    ensures full_front { (F : Functions) → IsResultOf F (probes a_full_join (on_k how.Full)) 0 (rows_table left_fields (key 1 ∷ key 3 ∷ []) ∷ rows_table right_fields (x 4 ∷ y 1 ∷ []) ∷ []) [] (good ((number 1 ∷ number 1 ∷ text 121 ∷ []) ∷ (number 3 ∷ val.Null ∷ val.Null ∷ []) ∷ [])) }
    ensures ends_with_right { (F : Functions) → IsResultOf F (gives_last a_full_join (on_k how.Full)) 0 (rows_table left_fields (key 1 ∷ key 3 ∷ []) ∷ rows_table right_fields (x 4 ∷ y 1 ∷ []) ∷ []) [] (good ((val.Null ∷ number 4 ∷ text 120 ∷ []) ∷ [])) }
{}
