//! Worked examples, as theorems of functions that do nothing.
ghost use Rattle.std.specs.Prelude.{◌≡◌, ◌∷◌, [], None, Some, ℕ, map};
ghost use Rattle.ps_frame.specs.declared.value.DataType.TheVariants as kind;
ghost use Rattle.ps_phys.specs.Examples.{shared_nodes, three_in_order};
ghost use Rattle.ps_phys.specs.Walks.{shape_from};
ghost use Rattle.graph_parts.specs.Examples.{a_blocked, a_key, one_node, shared_wires, two_keys};
ghost use Rattle.graph_parts.specs.Keyed.{key_numbers, port_of};
ghost use Rattle.graph_parts.specs.Read.{schemas_read};
ghost use Rattle.graph_parts.specs.Wires.{origins_in, wires_from};

/// The pipes and the origins of graphs.
pub fn pipes_of_shapes()
    ensures chain { wires_from 0 three_in_order ≡ a_blocked 0 0 1 0 ∷ a_blocked 1 0 2 0 ∷ [] }
    ensures shared { wires_from 0 (shape_from shared_nodes 0) ≡ shared_wires }
    ensures origins { origins_in three_in_order ≡ record { 0 = 0 } ∷ record { 0 = 1 } ∷ record { 0 = 2 } ∷ [] }
{}

/// What streams become, and what nodes read.
pub fn ports_of_streams()
    ensures numbers { key_numbers two_keys ≡ Some 1 ∷ Some 0 ∷ None ∷ [] }
    ensures ports { map (port_of (a_key 9) two_keys) ((0, 1) ∷ (1, 0) ∷ (2, 3) ∷ (5, 0) ∷ []) ≡ (a_key 1, 1) ∷ (a_key 0, 0) ∷ (a_key 9, 3) ∷ (a_key 9, 0) ∷ [] }
    ensures schemas { schemas_read one_node ((1, 0) ∷ (0, 0) ∷ []) ≡ (((97 ∷ []), kind.Int64) ∷ []) ∷ [] ∷ [] }
{}
