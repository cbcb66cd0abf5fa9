//! Worked examples, as theorems of functions that do nothing.
ghost use Rattle.std.specs.Prelude.{◌≡◌, ◌∷◌, [], true, false, map, nat_eq};
ghost use Rattle.ps_ports.specs.declared.port_state.PortState.TheVariants as port;
ghost use Rattle.ps_ports.specs.Examples.{a_chain, a_wire, ready_chain, shared_column, sides, two_takers};
ghost use Rattle.ps_ports.specs.Phases.{blockers_of, is_blocker, is_in_phase, phase_nodes};
ghost use Rattle.ps_ports.specs.Ports.{keeping_done};
ghost use Rattle.ps_ports.specs.UpdateLaws.{update_limit};
ghost use Rattle.ps_ports.specs.Wires.{given_to, said_by, wires_out, written};

/// What a node is given, what it says, and how its answer is written back: a sender's word of its input, a reader's of its output.
pub fn given_and_said()
    ensures given { given_to 1 (a_chain port.Ready port.Blocked port.Blocked port.Done) ≡ sides port.Ready port.Done }
    ensures said { said_by 1 (a_chain port.Ready port.Blocked port.Blocked port.Done) ≡ sides port.Blocked port.Blocked }
    ensures by_port { map (λ p. p.receiver) (wires_out 1 shared_column) ≡ 3 ∷ 2 ∷ [] }
    ensures kept { keeping_done (sides port.Ready port.Done) (sides port.Ready port.Ready) ≡ sides port.Ready port.Done }
    ensures written { written 1 (sides port.Done port.Ready) (a_chain port.Ready port.Blocked port.Blocked port.Done) ≡ a_chain port.Ready port.Done port.Ready port.Done }
    ensures done_stays { written 1 (sides port.Ready port.Blocked) (a_chain port.Ready port.Done port.Ready port.Ready) ≡ a_chain port.Ready port.Done port.Blocked port.Ready }
    ensures limit { update_limit 3 2 ≡ 72 }
{}

/// The phase of a source, a filter and a sink, all ready, and of a column beside its sum: there the reduce alone may run.
pub fn phases()
    ensures chain { phase_nodes 3 (nat_eq 2) ready_chain ≡ 0 ∷ 1 ∷ 2 ∷ [] }
    ensures pipes { map (is_in_phase 3 (nat_eq 2) ready_chain) ready_chain ≡ true ∷ true ∷ [] }
    ensures cut { phase_nodes 3 (nat_eq 2) (a_chain port.Ready port.Blocked port.Ready port.Ready) ≡ 1 ∷ 2 ∷ [] }
    ensures reduce { blockers_of 5 (nat_eq 4) shared_column ≡ 2 ∷ [] }
    ensures shared { phase_nodes 5 (nat_eq 4) shared_column ≡ 0 ∷ 1 ∷ 2 ∷ [] }
    ensures one_port { map (is_in_phase 5 (nat_eq 4) shared_column) shared_column ≡ true ∷ true ∷ false ∷ false ∷ false ∷ [] }
    ensures at_rest { phase_nodes 3 (nat_eq 2) (a_chain port.Done port.Done port.Done port.Done) ≡ [] }
{}

/// Which blockers run: all that aren't memory intensive, and of those that are the one with most readers that are ready, on a tie the last.
pub fn blockers()
    ensures both { blockers_of 6 (λ n. false) (two_takers port.Ready port.Ready) ≡ 2 ∷ 3 ∷ [] }
    ensures one { blockers_of 6 (nat_eq 3) (two_takers port.Ready port.Ready) ≡ 2 ∷ 3 ∷ [] }
    ensures tie { blockers_of 6 (λ n. true) (two_takers port.Ready port.Ready) ≡ 3 ∷ [] }
    ensures tie_blocked { blockers_of 6 (λ n. true) (two_takers port.Blocked port.Blocked) ≡ 3 ∷ [] }
    ensures readers { blockers_of 6 (λ n. true) (two_takers port.Ready port.Blocked) ≡ 2 ∷ [] }
    ensures feeders { phase_nodes 6 (λ n. true) (two_takers port.Ready port.Blocked) ≡ 0 ∷ 2 ∷ [] }
    ensures no_input { is_blocker (a_chain port.Blocked port.Ready port.Blocked port.Ready) 1 ≡ false }
    ensures output_ready { is_blocker ready_chain 1 ≡ false }
{}
