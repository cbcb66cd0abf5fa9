//! Worked selects, as theorems of functions that do nothing.
ghost use Rattle.std.specs.Prelude.{◌≡◌, ◌∷◌, [], codes, false, true};
ghost use Rattle.ps_frame.specs.Functions.{Functions};
ghost use Rattle.ps_frame.specs.Trees.{Aggregation, Tree, Trees};
ghost use Rattle.ps_frame.specs.declared.expr.Operator.TheVariants as op;
ghost use Rattle.ps_meaning.specs.PlanTrees.{node};
ghost use Rattle.ps_meaning.specs.Shape.{in_memory_sink, in_memory_source, reduce, select_node};
ghost use Rattle.ps_meaning.specs.Steps.{memory_sink, select};
ghost use Rattle.ps_rules.specs.Names.{temporary};
ghost use Rattle.ps_rules.specs.Worked.{a_name, b_name, col_a, col_b, column_of, counter, int, reversed_b, sum_of};
ghost use Rattle.plan_rules.specs.Worked.{ab, distinct_values, filtered_a, kinds_of, kinds_with, nodes_text, one_input, plus, scanned, sunk};

/// Selects over a scan of the columns a and b.
pub fn worked_selects()
    ensures own_columns { (F : Functions) → nodes_text F (sunk (select ((a_name, col_a) ∷ (b_name, col_b) ∷ []))) ≡ codes "0 in-memory-source 0 -\n1 in-memory-sink 2 0.0\n" }
    ensures one_column { (F : Functions) → nodes_text F (sunk (select ((b_name, col_b) ∷ []))) ≡ codes "0 in-memory-source 0 -\n1 simple-projection 1 0.0\n2 in-memory-sink 2 1.0\n" }
    ensures literals { (F : Functions) → nodes_text F (sunk (select ((codes "x", int 1) ∷ (codes "y", int 1) ∷ []))) ≡ codes "0 input-independent-select 1 -\n1 in-memory-sink 2 0.0\n" }
    ensures sum_beside_a_column { (F : Functions) → nodes_text F (sunk (select ((codes "s", sum_of col_a) ∷ (b_name, col_b) ∷ []))) ≡ codes "0 in-memory-source 0 -\n1 reduce 1 0.0\n2 zip 1 0.0,1.0\n3 select 1 2.0\n4 in-memory-sink 2 3.0\n" }
{}

/// One reduce for all reductions of the input, after the other streams of the zip.
pub fn one_reduce()
    ensures { (F : Functions) → nodes_text F (sunk (select ((codes "x", plus (plus (sum_of col_a) col_b) (sum_of col_a)) ∷ (codes "y", filtered_a) ∷ []))) ≡ codes "0 in-memory-source 0 -\n1 select 1 0.0\n2 filter 1 1.0\n3 reduce 1 0.0\n4 zip 1 0.0,2.0,3.0\n5 select 1 4.0\n6 in-memory-sink 2 5.0\n" }
{}

/// A reduce over a zip, and sums beside filters.
pub fn reduce_over_a_zip()
    ensures { (F : Functions) → nodes_text F (sunk (select ((codes "x", Tree.aggregate Aggregation.max (Tree.binary op.Gt col_a (sum_of col_a))) ∷ (codes "y", filtered_a) ∷ (codes "z", plus (plus filtered_a (sum_of col_a)) col_b) ∷ []))) ≡ codes "0 in-memory-source 0 -\n1 reduce 1 0.0\n2 zip 1 0.0,1.0\n3 reduce 1 2.0\n4 select 1 0.0\n5 filter 1 4.0\n6 select 1 0.0\n7 filter 1 6.0\n8 reduce 1 0.0\n9 zip 1 3.0,5.0,7.0,0.0,8.0\n10 select 1 9.0\n11 in-memory-sink 2 10.0\n" }
{}

/// Each way in which an expression is lowered, in one select.
pub fn all_ways()
    ensures { (F : Functions) → nodes_text F (sunk (select ((codes "p", distinct_values col_a) ∷ (codes "q", Tree.sort_by (false ∷ []) (false ∷ []) col_a (Trees.tree col_b Trees.no_trees)) ∷ (codes "r", Tree.sort true false col_a) ∷ (codes "s", reversed_b) ∷ (codes "t", Tree.len) ∷ (codes "u", int 1) ∷ (codes "v", sum_of col_a) ∷ []))) ≡ codes "0 in-memory-source 0 -\n1 select 1 0.0\n2 sort 1 1.0\n3 simple-projection 1 2.0\n4 select 1 0.0\n5 sort 1 4.0\n6 in-memory-map 1 0.0\n7 reduce 1 0.0\n8 zip 1 3.0,5.0,6.0,7.0\n9 select 1 8.0\n10 in-memory-sink 2 9.0\n" }
{}

/// Fresh names: none that is in use, and none that another node took.
pub fn names_through_a_plan()
    ensures in_use { (F : Functions) → kinds_with (counter (0 ∷ []) 0) F (sunk (select ((codes "s", sum_of col_a) ∷ []))) ≡ in_memory_source ab ∷ reduce ((temporary 1, sum_of col_a) ∷ []) ∷ select_node ((codes "s", column_of 1) ∷ []) false ∷ in_memory_sink ∷ [] }
    ensures from_node_to_node { (F : Functions) → kinds_of F (node 3 memory_sink (one_input (node 2 (select ((codes "t", sum_of (Tree.column (codes "s"))) ∷ [])) (one_input (node 1 (select ((codes "s", sum_of col_a) ∷ [])) (one_input scanned)))))) ≡ in_memory_source ab ∷ reduce ((temporary 0, sum_of col_a) ∷ []) ∷ select_node ((codes "s", column_of 0) ∷ []) false ∷ reduce ((temporary 1, sum_of (Tree.column (codes "s"))) ∷ []) ∷ select_node ((codes "t", column_of 1) ∷ []) false ∷ in_memory_sink ∷ [] }
{}
