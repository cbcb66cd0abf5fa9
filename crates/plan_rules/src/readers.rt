//! Worked plans of several inputs, and of nodes with several readers, as theorems of functions that do nothing.
ghost use Rattle.std.specs.Prelude.{◌≡◌, codes, pos, None, Some};
ghost use Rattle.ps_frame.specs.Functions.{Functions};
ghost use Rattle.ps_meaning.specs.PlanTrees.{no_trees, node, tree};
ghost use Rattle.ps_meaning.specs.Steps.{cache, filter, hconcat, memory_sink, scan, union};
ghost use Rattle.ps_rules.specs.Worked.{a_above_one};
ghost use Rattle.plan_rules.specs.Worked.{both_sunk, cached, cached_again, cd, filtered_cache, nodes_text, one_input, scanned, two_inputs};

/// A node that two nodes read is lowered twice.
pub fn lowered_twice()
    ensures scanned_twice { (F : Functions) → nodes_text F (both_sunk (union None)) ≡ codes "0 in-memory-source 0 -\n1 in-memory-source 0 -\n2 ordered-union 1 0.0,1.0\n3 in-memory-sink 2 2.0\n" }
    ensures filtered_twice { (F : Functions) → nodes_text F (node 3 memory_sink (one_input (node 2 (union None) (two_inputs (node 1 (filter a_above_one) (one_input scanned)) (node 1 (filter a_above_one) (one_input scanned)))))) ≡ codes "0 in-memory-source 0 -\n1 filter 1 0.0\n2 in-memory-source 0 -\n3 filter 1 2.0\n4 ordered-union 2 1.0,3.0\n5 in-memory-sink 3 4.0\n" }
{}

/// Unions beside each other.
pub fn unions_beside_each_other()
    ensures { (F : Functions) → nodes_text F (node 5 memory_sink (one_input (node 4 hconcat (two_inputs (node 1 (union None) (two_inputs scanned scanned)) (node 3 (union None) (one_input (node 2 (scan cd None) no_trees))))))) ≡ codes "0 in-memory-source 0 -\n1 in-memory-source 0 -\n2 ordered-union 1 0.0,1.0\n3 in-memory-source 2 -\n4 ordered-union 3 3.0\n5 zip-null-extend 4 2.0,4.0\n6 in-memory-sink 5 5.0\n" }
{}

/// What is below a cache is lowered once for its id, wherever the id is met first.
pub fn caches()
    ensures one_reader { (F : Functions) → nodes_text F (node 2 memory_sink (one_input cached)) ≡ codes "0 in-memory-source 0 -\n1 in-memory-sink 2 0.0\n" }
    ensures two_readers { (F : Functions) → nodes_text F (node 3 memory_sink (one_input (node 2 (union None) (two_inputs cached cached)))) ≡ codes "0 in-memory-source 0 -\n1 ordered-union 2 0.0,0.0\n2 in-memory-sink 3 1.0\n" }
    ensures three_readers { (F : Functions) → nodes_text F (node 4 memory_sink (one_input (node 3 (union (Some (pos 1, 2))) (tree cached (two_inputs filtered_cache cached))))) ≡ codes "0 in-memory-source 0 -\n1 filter 2 0.0\n2 ordered-union 3 0.0,1.0,0.0\n3 slice 3 2.0\n4 in-memory-sink 4 3.0\n" }
    ensures over_another { (F : Functions) → nodes_text F (node 5 memory_sink (one_input (node 4 (union None) (tree cached_again (two_inputs filtered_cache cached_again))))) ≡ codes "0 in-memory-source 0 -\n1 filter 2 0.0\n2 filter 2 0.0\n3 ordered-union 4 1.0,2.0,1.0\n4 in-memory-sink 5 3.0\n" }
    ensures right_over_another { (F : Functions) → nodes_text F (node 4 memory_sink (one_input (node 3 (union None) (two_inputs (node 2 (cache 8) (one_input cached)) cached)))) ≡ codes "0 in-memory-source 0 -\n1 ordered-union 3 0.0,0.0\n2 in-memory-sink 4 1.0\n" }
{}
