//! Worked examples, as theorems of functions that do nothing.
ghost use Rattle.std.specs.Prelude.{◌≡◌, ◌∷◌, [], None, Some, false, map, true};
ghost use Rattle.ps_graph.specs.Complete.{inputs_of, readers_of, readers_of_port};
ghost use Rattle.ps_graph.specs.Running.{chosen_below, feeds_flagged, flag_of, holds_at};
ghost use Rattle.ps_ports.specs.Examples.{ready_chain, shared_column, two_takers};
ghost use Rattle.ps_ports.specs.declared.port_state.PortState.TheVariants as port;

/// Inputs and readers of a column beside its sum: the reader of the multiplexer's port 1 was added before that of its port 0.
pub fn readers()
    ensures inputs { map (λ n. inputs_of n shared_column) (0 ∷ 1 ∷ 2 ∷ 3 ∷ 4 ∷ []) ≡ 0 ∷ 1 ∷ 1 ∷ 2 ∷ 1 ∷ [] }
    ensures readers { map (λ n. readers_of n shared_column) (0 ∷ 1 ∷ 2 ∷ 3 ∷ 4 ∷ []) ≡ 1 ∷ 2 ∷ 1 ∷ 1 ∷ 0 ∷ [] }
    ensures ports { map (λ port. readers_of_port 1 port shared_column) (0 ∷ 1 ∷ 2 ∷ []) ≡ 1 ∷ 1 ∷ 0 ∷ [] }
{}

/// Which memory intensive blocker runs, and which nodes are flagged for what they feed.
pub fn flags()
    ensures first { chosen_below (two_takers port.Ready port.Ready) (λ n. true) 3 ≡ Some 2 }
    ensures tie { chosen_below (two_takers port.Ready port.Ready) (λ n. true) 4 ≡ Some 3 }
    ensures more { chosen_below (two_takers port.Ready port.Blocked) (λ n. true) 4 ≡ Some 2 }
    ensures none { chosen_below ready_chain (λ n. true) 2 ≡ None }
    ensures feeds { map (feeds_flagged (false ∷ false ∷ true ∷ [])) ready_chain ≡ false ∷ true ∷ [] }
    ensures feeder { map (flag_of ready_chain (2 ∷ []) (false ∷ false ∷ true ∷ [])) (0 ∷ 1 ∷ 2 ∷ []) ≡ false ∷ true ∷ true ∷ [] }
    ensures node { map (holds_at (λ b. b) (true ∷ false ∷ [])) (0 ∷ 1 ∷ 2 ∷ []) ≡ true ∷ false ∷ false ∷ [] }
{}
