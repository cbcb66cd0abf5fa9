//! Pipes by their keys, and marks of nodes.
ghost use Rattle.std.specs.Prelude.{◌≡◌, ◌∷◌, [], false, map, true};
ghost use Rattle.ps_flow.specs.Marked.{closed_at, unmarked};
ghost use Rattle.run_samples.specs.Pipes.{key, leaves, mark, marks, three};
ghost use Rattle.world_pipes.specs.Changed.{if_in_phase};
ghost use Rattle.world_pipes.specs.Shown.{AreKeysOf, closed_pipe, ended_pipe};

/// The keys of the pipes that leave a node, and pipes that are closed and whose phase ends.
pub fn pipes_by_keys()
    ensures first { AreKeysOf (leaves 0) (key 0 ∷ key 2 ∷ []) three }
    ensures second { AreKeysOf (leaves 1) (key 1 ∷ []) three }
    ensures none { AreKeysOf (leaves 2) [] three }
    ensures closed { map (λ p. p.is_closed) (map (if_in_phase closed_pipe) three) ≡ true ∷ false ∷ true ∷ [] }
    ensures kept { map (λ p. p.wire) (map closed_pipe three) ≡ map (λ p. p.wire) three }
    ensures ended { map (λ p. p.in_phase) (map ended_pipe three) ≡ false ∷ false ∷ false ∷ [] }
{}

/// One node of a phase is closed; past the last node none is.
pub fn marks_of_nodes()
    ensures closed { closed_at 2 marks ≡ mark true false ∷ mark false false ∷ mark true true ∷ [] }
    ensures past { closed_at 3 marks ≡ marks }
    ensures between { unmarked ≡ mark false false }
{}
