// The four Opens of a run that sums one column beside another: worlds at rest and their phases, as theorems of functions that do nothing.
ghost use Rattle.std.specs.Prelude.{◌≡◌, true, false, [], ◌∷◌, map};
ghost use Rattle.ps_turns.specs.Heads.{Head, is_ready_head};
ghost use Rattle.world_runs.specs.Examples.{one_worker, sum_shape};
ghost use Rattle.ps_world.specs.Opening.{opening};
ghost use Rattle.ps_world.specs.Phases.{after_open, blockers_in, nodes_of_phase};
ghost use Rattle.ps_world.specs.Updates.{IsSettled};
ghost use Rattle.ps_world.specs.World.{Pipe, finished, heads_of};
ghost use Rattle.world_runs.specs.Nodes.{node_of, update};
ghost use Rattle.world_runs.specs.SumRun.{s1, s2, storing, s3, s4};

/// Five updates lead from the opening to rest. The reduce is then the only blocker, and its phase has the table's source, the multiplexer, and the pipes from the one and from port 1 of the other.
pub fn first_open()
    ensures first_updates { update (update (update (update (update (opening sum_shape one_worker) 5) 4) 2) 0) 1 ≡ s1 }
    ensures first_settled { IsSettled s1 }
    ensures first_blockers { blockers_in s1 ≡ 2 ∷ [] }
    ensures first_phase { nodes_of_phase s1 ≡ 0 ∷ 1 ∷ 2 ∷ [] }
    ensures first_pipes { map (λ (p : Pipe). p.in_phase) (after_open s1 1).pipes ≡ true ∷ true ∷ false ∷ false ∷ false ∷ false ∷ [] }
{}

/// With the source done the reduce gives, and what port 0 got waits. In this phase the zip only stores its inputs: that the reduce's one row broadcasts isn't known.
pub fn second_open()
    ensures second_settled { IsSettled s2 }
    ensures second_blockers { blockers_in s2 ≡ 5 ∷ [] }
    ensures second_phase { nodes_of_phase s2 ≡ 1 ∷ 2 ∷ 3 ∷ 4 ∷ 5 ∷ [] }
    ensures not_known { map (is_ready_head false) (heads_of storing 3 (node_of storing 3)) ≡ true ∷ false ∷ [] }
{}

/// With both inputs of the zip done, the one row broadcasts.
pub fn third_open()
    ensures third_settled { IsSettled s3 }
    ensures third_phase { nodes_of_phase s3 ≡ 3 ∷ 4 ∷ 5 ∷ [] }
    ensures now_ready { map (is_ready_head false) (heads_of s3 3 (node_of s3 3)) ≡ true ∷ true ∷ [] }
    ensures it_broadcasts { map (λ (h : Head). h.broadcasts) (heads_of s3 3 (node_of s3 3)) ≡ false ∷ true ∷ [] }
{}

/// The fourth Open finds nothing to do: all is done, and the sink has the rows.
pub fn fourth_open()
    ensures fourth_settled { IsSettled s4 }
    ensures nothing_left { blockers_in s4 ≡ [] }
    ensures is_finished { (after_open s4 4).ending ≡ finished }
{}
