//! Worked plans with nodes that several nodes read, as theorems of functions that do nothing.
ghost use Rattle.std.specs.Prelude.{◌≡◌, ◌∷◌, [], codes, pos, None, Some};
ghost use Rattle.ps_frame.specs.Functions.{Functions};
ghost use Rattle.ps_frame.specs.Trees.{Tree};
ghost use Rattle.ps_frame.specs.declared.expr.Operator.TheVariants as op;
ghost use Rattle.ps_meaning.specs.PlanTrees.{node, tree};
ghost use Rattle.ps_meaning.specs.Steps.{filter, hstack, memory_sink, union};
ghost use Rattle.ps_meaning.specs.declared.options.JoinType.TheVariants as how;
ghost use Rattle.ps_rules.specs.Worked.{a_above_one, a_name, col_a, col_b, reversed_b, sum_of};
ghost use Rattle.plan_rules.specs.Worked.{both_sunk, cached, cached_again, filtered_cache, joined_to_a, one_input, sunk, two_inputs};
ghost use Rattle.physical_plans.specs.Worked.{physical_text};

/// Plans in which each node has one reader, and get no multiplexer.
pub fn none_shared()
    ensures filtered { (F : Functions) → physical_text F (sunk (filter a_above_one)) ≡ codes "0 in-memory-source 0 -\n1 filter 1 0.0\n2 in-memory-sink 2 1.0\n" }
    ensures union_of_scans { (F : Functions) → physical_text F (both_sunk (union None)) ≡ codes "0 in-memory-source 0 -\n1 in-memory-source 0 -\n2 ordered-union 1 0.0,1.0\n3 in-memory-sink 2 2.0\n" }
{}

/// Caches with several readers. The ports are numbered as the walk from the root comes to the readers, and it goes to the last input first.
pub fn caches()
    ensures one_reader { (F : Functions) → physical_text F (node 2 memory_sink (one_input cached)) ≡ codes "0 in-memory-source 0 -\n1 in-memory-sink 2 0.0\n" }
    ensures two_readers { (F : Functions) → physical_text F (node 3 memory_sink (one_input (node 2 (union None) (two_inputs cached cached)))) ≡ codes "0 in-memory-source 0 -\n1 multiplexer 0 0.0\n2 ordered-union 2 1.0,1.1\n3 in-memory-sink 3 2.0\n" }
    ensures three_readers { (F : Functions) → physical_text F (node 4 memory_sink (one_input (node 3 (union (Some (pos 1, 2))) (tree cached (two_inputs filtered_cache cached))))) ≡ codes "0 in-memory-source 0 -\n1 multiplexer 0 0.0\n2 filter 2 1.2\n3 ordered-union 3 1.0,2.0,1.1\n4 slice 3 3.0\n5 in-memory-sink 4 4.0\n" }
    ensures over_another { (F : Functions) → physical_text F (node 5 memory_sink (one_input (node 4 (union None) (tree cached_again (two_inputs filtered_cache cached_again))))) ≡ codes "0 in-memory-source 0 -\n1 multiplexer 0 0.0\n2 filter 2 1.1\n3 multiplexer 2 2.0\n4 filter 2 1.0\n5 ordered-union 4 3.0,4.0,3.1\n6 in-memory-sink 5 5.0\n" }
{}

/// Steps that lower expressions beside their input.
pub fn beside_their_input()
    ensures columns_put_in_place { (F : Functions) → physical_text F (sunk (hstack ((a_name, sum_of col_a) ∷ (codes "c", col_b) ∷ []))) ≡ codes "0 in-memory-source 0 -\n1 multiplexer 0 0.0\n2 reduce 1 1.1\n3 zip 1 1.0,2.0\n4 select 1 3.0\n5 in-memory-sink 2 4.0\n" }
    ensures filtered { (F : Functions) → physical_text F (sunk (filter (Tree.binary op.Gt col_a (sum_of col_a)))) ≡ codes "0 in-memory-source 0 -\n1 multiplexer 0 0.0\n2 reduce 1 1.1\n3 zip 1 1.0,2.0\n4 filter 1 3.0\n5 simple-projection 1 4.0\n6 in-memory-sink 2 5.0\n" }
    ensures joined_by_a_key { (F : Functions) → physical_text F (both_sunk (joined_to_a how.Inner reversed_b (Some (pos 0, 3)))) ≡ codes "0 in-memory-source 0 -\n1 multiplexer 0 0.0\n2 simple-projection 1 1.1\n3 in-memory-map 1 2.0\n4 zip 1 1.0,3.0\n5 in-memory-source 0 -\n6 equi-join 1 4.0,5.0\n7 slice 1 6.0\n8 in-memory-sink 2 7.0\n" }
{}
