//! Worked examples, as theorems of functions that do nothing.
ghost use Rattle.std.specs.Prelude.{◌≡◌, ◌∷◌, [], codes, negsuc};
ghost use Rattle.ps_phys.specs.Examples.{shared_nodes, three_in_order, three_nodes};
ghost use Rattle.ps_phys.specs.Printed.{plan_text};
ghost use Rattle.ps_phys.specs.Shown.{back_from};
ghost use Rattle.ps_phys.specs.Walks.{order_from, shape_from};

/// The order, the shape and the text of small lists of nodes.
pub fn shown_shapes()
    ensures order { order_from three_nodes 0 ≡ 1 ∷ 2 ∷ 0 ∷ [] }
    ensures shape { shape_from three_nodes 0 ≡ three_in_order }
    ensures text { plan_text three_in_order ≡ codes "0 in-memory-source 0 -\n1 filter 1 0.0\n2 in-memory-sink 2 1.0\n" }
    ensures met_once { order_from shared_nodes 0 ≡ 5 ∷ 3 ∷ 1 ∷ 2 ∷ 0 ∷ [] }
    ensures both_ports { plan_text (shape_from shared_nodes 0) ≡ codes "0 in-memory-source 0 -\n1 multiplexer 0 0.0\n2 filter 1 1.0\n3 reduce 1 1.1\n4 zip 1 2.0,3.0\n" }
    ensures from_the_end { plan_text (shape_from shared_nodes 4) ≡ codes "0 in-memory-source 0 -\n1 negative-slice 4 0.0\n" }
    ensures back { back_from (negsuc 2) ≡ 3 }
{}
