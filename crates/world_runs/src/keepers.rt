// Nodes that keep their input: claims, partials, parts, stages, and ports whose reader is done, as theorems of functions that do nothing.
ghost use Rattle.std.specs.Prelude.{◌≡◌, ℕ, Bool, true, false, List, [], ◌∷◌, Some, None, pos, option_map};
ghost use Rattle.ps_frame.specs.Tables.{Row};
ghost use Rattle.ps_frame.specs.declared.value.Value.TheVariants as val;
ghost use Rattle.ps_ports.specs.declared.port_state.PortState.TheVariants as port;
ghost use Rattle.ps_turns.specs.Claims.{Claim, claim_of, filled_slot};
ghost use Rattle.ps_turns.specs.Keys.{distinct_keys, part_of};
ghost use Rattle.ps_turns.specs.Progress.{giving, spent, taking};
ghost use Rattle.ps_meaning.specs.Cases.{rows_table};
ghost use Rattle.ps_turns.specs.Tasks.{Task, computes, gives_part, keeps};
ghost use Rattle.ps_turns.specs.Updates.{answer_of, is_waiting, next_stage, stage_after};
ghost use Rattle.ps_world.specs.Opening.{no_progress};
ghost use Rattle.world_runs.specs.Keepers.{ab, row, two_workers, a_reduce, a_group_by, morsel, first_claim, gives, a_map, input_done, a_multiplexer};

/// While it takes, a reduce claims the next morsel and keeps a place for it.
pub fn reduces_take()
    ensures claims_a_morsel { option_map {U = ℕ × Bool} (λ (c : Claim). (c.number, c.takes_morsel)) first_claim ≡ Some (0, true) }
    ensures keeps_a_place { option_map (λ (c : Claim). c.progress.taken) first_claim ≡ Some ((None ∷ []) ∷ []) }
    ensures to_be_kept { option_map (λ (c : Claim). c.task) first_claim ≡ Some (keeps a_reduce) }
    ensures place_filled { filled_slot 0 0 morsel ((None ∷ []) ∷ []) ≡ (Some morsel ∷ []) ∷ [] }
{}

/// Once it gives, a reduce claims its one row over all that it took, and no more.
pub fn reduces_give()
    ensures its_row { option_map {U = Task × List (List Row)} (λ (c : Claim). (c.task, c.tables)) (claim_of two_workers a_reduce (ab ∷ []) gives [] [] 0 None) ≡ Some (computes a_reduce, morsel ∷ []) }
    ensures no_second_row { claim_of two_workers a_reduce (ab ∷ []) (record gives { sent = 1 }) [] [] 0 None ≡ None }
{}

/// The keys of a group-by, the rows of one list of them and of an empty one; its second claim is of the second list.
pub fn lists_of_keys()
    ensures its_keys { distinct_keys a_group_by (rows_table ab morsel ∷ []) ≡ (val.Int64 (pos 1) ∷ []) ∷ (val.Int64 (pos 2) ∷ []) ∷ [] }
    ensures part_of_one { part_of a_group_by ((val.Int64 (pos 1) ∷ []) ∷ []) (rows_table ab morsel ∷ []) ≡ rows_table ab (row 1 10 ∷ row 1 30 ∷ []) ∷ [] }
    ensures part_of_none { part_of a_group_by [] (rows_table ab morsel ∷ []) ≡ rows_table ab [] ∷ [] }
    ensures second_list { option_map {U = ℕ × Task} (λ (c : Claim). (c.number, c.task)) (claim_of two_workers a_group_by (ab ∷ []) (record gives { sent = 1; lists = ((val.Int64 (pos 1) ∷ []) ∷ []) ∷ ((val.Int64 (pos 2) ∷ []) ∷ []) ∷ [] }) [] [] 0 None) ≡ Some (1, gives_part a_group_by ((val.Int64 (pos 2) ∷ []) ∷ [])) }
{}

/// A node whose output is done is spent; else it gives once its inputs are done, and stays before that.
pub fn stages_turn()
    ensures skips { next_stage taking true false false ≡ spent }
    ensures turns { next_stage taking false true false ≡ giving }
    ensures stays { next_stage taking false false false ≡ taking }
{}

/// A map of a handed-in function waits while its table is missing, blocked to its output; once it has the table, it gives.
pub fn maps_wait()
    ensures it_waits { is_waiting a_map.kind (no_progress 1) input_done ≡ true }
    ensures blocked_while_waiting { answer_of two_workers a_map (no_progress 1) [] [] input_done ≡ record { inputs = port.Done ∷ []; outputs = port.Blocked ∷ [] } }
    ensures stays_while_waiting { stage_after two_workers a_map.kind (no_progress 1) input_done ≡ taking }
    ensures turns_once_filled { stage_after two_workers a_map.kind (record (no_progress 1) { made = Some morsel }) input_done ≡ giving }
{}

/// A multiplexer answers done to a reader that is done, while another reader goes on.
pub fn done_readers()
    ensures { answer_of two_workers a_multiplexer (no_progress 1) [] (true ∷ true ∷ []) (record { inputs = port.Ready ∷ []; outputs = port.Done ∷ port.Blocked ∷ [] }) ≡ record { inputs = port.Ready ∷ []; outputs = port.Done ∷ port.Ready ∷ [] } }
{}
