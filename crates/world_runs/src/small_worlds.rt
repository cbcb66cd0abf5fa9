// Small worlds and heads that tell the rules from wrong ones, as theorems of functions that do nothing.
ghost use Rattle.std.specs.Prelude.{◌≡◌, [], ◌∷◌, true, false, None, is_some, map};
ghost use Rattle.ps_world.specs.Claims.{claim_at};
ghost use Rattle.ps_turns.specs.Heads.{Head, heads_by};
ghost use Rattle.ps_ports.specs.Wires.{is_live};
ghost use Rattle.ps_world.specs.Phases.{blockers_in, nodes_of_phase};
ghost use Rattle.ps_turns.specs.Updates.{heads_differ};
ghost use Rattle.ps_ports.specs.declared.port_state.PortState.TheVariants as port;
ghost use Rattle.ps_world.specs.World.{Node, Pipe, pipes_out, waiting};
ghost use Rattle.world_runs.specs.SmallWorlds.{row, pipe, small_world, nodes, two_maps, one, two, three, one_literal, cut_off};

/// Of two blockers that are memory intensive a phase takes the one with more outputs whose reader is ready, on a tie the last, and with it all that feeds it.
pub fn next_phases()
    ensures most_ready_first { blockers_in (two_maps port.Blocked) ≡ 1 ∷ [] }
    ensures last_of_equals { blockers_in (two_maps port.Ready) ≡ 3 ∷ [] }
    ensures with_its_source { nodes_of_phase (two_maps port.Ready) ≡ 2 ∷ 3 ∷ [] }
{}

/// Pipes out stand in the order of ports, not of their readers. A pipe whose reader is done isn't live, whatever its sender says.
pub fn pipes_by_port()
    ensures ports_in_order { map (λ (p : Pipe). p.wire.port) (pipes_out (small_world [] (pipe 0 1 1 0 port.Ready port.Ready ∷ pipe 0 0 2 0 port.Ready port.Ready ∷ [])) 0) ≡ 0 ∷ 1 ∷ [] }
    ensures unread_not_live { is_live (pipe 0 0 1 0 port.Ready port.Done).wire ≡ false }
{}

/// A head that broadcasts keeps its row after a claim of one row. After a claim over broadcasting heads alone all heads are empty and none broadcasts.
pub fn heads_after_claims()
    ensures keeps_its_row { map (λ (h : Head). h.rest) (heads_by false 1 (one ∷ two ∷ [])) ≡ (row 7 ∷ []) ∷ (row 2 ∷ []) ∷ [] }
    ensures spent_heads { heads_by false 1 (one ∷ one ∷ []) ≡ record { rest = []; broadcasts = false; is_known = true; input_done = true } ∷ record { rest = []; broadcasts = false; is_known = true; input_done = true } ∷ [] }
{}

/// Once all inputs are done, heads of lengths 1 and 0 that don't broadcast can't agree; before that it is no fault, and a head that broadcasts agrees with each.
pub fn heads_that_differ()
    ensures lengths_differ { heads_differ (heads_by false 2 (three ∷ two ∷ [])) (record { inputs = port.Done ∷ port.Done ∷ []; outputs = port.Ready ∷ [] }) ≡ true }
    ensures not_done_yet { heads_differ (heads_by false 2 (three ∷ two ∷ [])) (record { inputs = port.Done ∷ port.Ready ∷ []; outputs = port.Ready ∷ [] }) ≡ false }
    ensures broadcasting_agrees { heads_differ (heads_by false 0 (one ∷ three ∷ [])) (record { inputs = port.Done ∷ port.Done ∷ []; outputs = port.Ready ∷ [] }) ≡ false }
{}

/// A select without input has one morsel to claim, and no more.
pub fn selects_without_input()
    ensures claims_one { is_some (claim_at (small_world (one_literal ∷ []) []) 0 0 one_literal) ≡ true }
    ensures claims_no_more { claim_at (small_world (one_literal ∷ []) []) 0 0 (record one_literal { progress = record one_literal.progress { sent = 1 } }) ≡ None }
{}

/// Where a zip's output is dropped, its input is too and loses its morsel, and the zip loses its heads.
pub fn zips_cut_off()
    ensures heads_are_lost { map (λ (n : Node). n.progress.stores) cut_off.nodes ≡ [] ∷ ([] ∷ []) ∷ [] }
    ensures none_wait { map waiting cut_off.pipes ≡ 0 ∷ 0 ∷ [] }
{}
