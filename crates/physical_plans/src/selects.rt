//! Worked selects with multiplexers, as theorems of functions that do nothing.
ghost use Rattle.std.specs.Prelude.{◌≡◌, ◌∷◌, [], codes, false, true};
ghost use Rattle.ps_frame.specs.Functions.{Functions};
ghost use Rattle.ps_frame.specs.Trees.{Aggregation, Tree, Trees};
ghost use Rattle.ps_frame.specs.declared.expr.Operator.TheVariants as op;
ghost use Rattle.ps_meaning.specs.Steps.{select};
ghost use Rattle.ps_rules.specs.Worked.{b_name, col_a, col_b, int, reversed_b, sum_of};
ghost use Rattle.plan_rules.specs.Worked.{distinct_values, filtered_a, plus, sunk};
ghost use Rattle.physical_plans.specs.Worked.{physical_text};

/// A sum beside a column: the zip reads the scan first, and then the reduce does.
pub fn sum_beside_a_column()
    ensures { (F : Functions) → physical_text F (sunk (select ((codes "s", sum_of col_a) ∷ (b_name, col_b) ∷ []))) ≡ codes "0 in-memory-source 0 -\n1 multiplexer 0 0.0\n2 reduce 1 1.1\n3 zip 1 1.0,2.0\n4 select 1 3.0\n5 in-memory-sink 2 4.0\n" }
{}

/// One reduce for all reductions of the input, after the other streams of the zip.
pub fn one_reduce()
    ensures { (F : Functions) → physical_text F (sunk (select ((codes "x", plus (plus (sum_of col_a) col_b) (sum_of col_a)) ∷ (codes "y", filtered_a) ∷ []))) ≡ codes "0 in-memory-source 0 -\n1 multiplexer 0 0.0\n2 select 1 1.2\n3 filter 1 2.0\n4 reduce 1 1.1\n5 zip 1 1.0,3.0,4.0\n6 select 1 5.0\n7 in-memory-sink 2 6.0\n" }
{}

/// A reduce over a zip, and sums beside filters.
pub fn reduce_over_a_zip()
    ensures { (F : Functions) → physical_text F (sunk (select ((codes "x", Tree.aggregate Aggregation.max (Tree.binary op.Gt col_a (sum_of col_a))) ∷ (codes "y", filtered_a) ∷ (codes "z", plus (plus filtered_a (sum_of col_a)) col_b) ∷ []))) ≡ codes "0 in-memory-source 0 -\n1 multiplexer 0 0.0\n2 reduce 1 1.5\n3 zip 1 1.4,2.0\n4 reduce 1 3.0\n5 select 1 1.3\n6 filter 1 5.0\n7 select 1 1.2\n8 filter 1 7.0\n9 reduce 1 1.1\n10 zip 1 4.0,6.0,8.0,1.0,9.0\n11 select 1 10.0\n12 in-memory-sink 2 11.0\n" }
{}

/// Each way in which an expression is lowered, in one select.
pub fn all_ways()
    ensures { (F : Functions) → physical_text F (sunk (select ((codes "p", distinct_values col_a) ∷ (codes "q", Tree.sort_by (false ∷ []) (false ∷ []) col_a (Trees.tree col_b Trees.no_trees)) ∷ (codes "r", Tree.sort true false col_a) ∷ (codes "s", reversed_b) ∷ (codes "t", Tree.len) ∷ (codes "u", int 1) ∷ (codes "v", sum_of col_a) ∷ []))) ≡ codes "0 in-memory-source 0 -\n1 multiplexer 0 0.0\n2 select 1 1.3\n3 sort 1 2.0\n4 simple-projection 1 3.0\n5 select 1 1.2\n6 sort 1 5.0\n7 in-memory-map 1 1.1\n8 reduce 1 1.0\n9 zip 1 4.0,6.0,7.0,8.0\n10 select 1 9.0\n11 in-memory-sink 2 10.0\n" }
{}
