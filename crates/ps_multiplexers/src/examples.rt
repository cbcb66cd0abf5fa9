//! Worked examples, as theorems of a function that does nothing.
ghost use Rattle.std.specs.Prelude.{◌≡◌, ◌∷◌, [], codes};
ghost use Rattle.ps_multiplexers.specs.Examples.{read_twice, unions};
ghost use Rattle.ps_multiplexers.specs.Multiplexers.{shared, walk_of, with_multiplexers};
ghost use Rattle.ps_phys.specs.Examples.{three_nodes};
ghost use Rattle.ps_phys.specs.Printed.{plan_text};
ghost use Rattle.ps_phys.specs.Walks.{shape_from};

/// The walk over small lists of nodes, and their multiplexers.
pub fn small_plans()
    ensures last_pushed_first { walk_of read_twice 0 ≡ 0 ∷ 2 ∷ 3 ∷ 1 ∷ [] }
    ensures two_readers { plan_text (shape_from (with_multiplexers 0 read_twice) 0) ≡ codes "0 in-memory-source 0 -\n1 multiplexer 0 0.0\n2 filter 1 1.1\n3 reduce 1 1.0\n4 zip 1 2.0,3.0\n" }
    ensures none_shared { with_multiplexers 0 three_nodes ≡ three_nodes }
    ensures in_order { shared unions 2 ≡ 1 ∷ 0 ∷ [] }
    ensures three_readers { plan_text (shape_from (with_multiplexers 2 unions) 2) ≡ codes "0 in-memory-source 0 -\n1 multiplexer 0 0.0\n2 ordered-union 1 1.0,1.1,1.2\n3 multiplexer 1 2.0\n4 ordered-union 2 3.0,3.1\n" }
{}
