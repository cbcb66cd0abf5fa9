//! Worked group-bys, as theorems of functions that do nothing.
ghost use Rattle.std.specs.Prelude.{◌≡◌, ◌∷◌, [], codes, false, negsuc, pos, true, None, Some};
ghost use Rattle.ps_frame.specs.Functions.{Functions};
ghost use Rattle.ps_frame.specs.Trees.{Aggregation, Tree};
ghost use Rattle.ps_frame.specs.declared.expr.FunctionExpr.TheVariants as fun;
ghost use Rattle.ps_frame.specs.declared.value.DataType.TheVariants as kind;
ghost use Rattle.ps_meaning.specs.Shape.{group_by_node, in_memory_map, in_memory_sink, in_memory_source, negative_slice, select_node, simple_projection, zip_node};
ghost use Rattle.ps_meaning.specs.Steps.{group_by, select};
ghost use Rattle.ps_rules.specs.Names.{temporary};
ghost use Rattle.ps_rules.specs.Worked.{a_name, ab_fields, b_name, col_a, col_b, column_of, counter, int, reversed_b, sum_of};
ghost use Rattle.plan_rules.specs.Reductions.{is_made_of_reductions, split_aggregates};
ghost use Rattle.plan_rules.specs.Worked.{a_sum_above_one, ab, distinct_values, groups_of, kinds_of, nodes_text, plus, schemas_of, sunk};

/// Which aggregates are made of reductions.
pub fn made_of_reductions()
    ensures height { is_made_of_reductions Tree.len ≡ true }
    ensures literal { is_made_of_reductions (int 1) ≡ true }
    ensures reduction { is_made_of_reductions (sum_of (plus col_a col_b)) ≡ true }
    ensures operators { is_made_of_reductions (Tree.ternary a_sum_above_one (sum_of col_b) (Tree.cast kind.Int64 true Tree.len)) ≡ true }
    ensures function_of_cells { is_made_of_reductions (Tree.function fun.IsNull (sum_of col_a)) ≡ true }
    ensures function_of_columns { is_made_of_reductions (Tree.function fun.Reverse (sum_of col_a)) ≡ false }
    ensures column { is_made_of_reductions col_a ≡ false }
    ensures distinct_counts { is_made_of_reductions (distinct_values col_a) ≡ false }
    ensures count { is_made_of_reductions (Tree.aggregate (Aggregation.count false) col_a) ≡ false }
    ensures reduction_of_a_whole_column { is_made_of_reductions (sum_of reversed_b) ≡ false }
{}

/// What several aggregates become: reductions under their own names or fresh ones, from left to right, and expressions over these.
pub fn split_of_aggregates()
    ensures { split_aggregates ((codes "x", plus (sum_of col_a) (sum_of col_b)) ∷ (codes "n", Tree.len) ∷ (codes "y", plus (sum_of col_b) (int 1)) ∷ (codes "z", int 2) ∷ []) (counter (1 ∷ []) 0)
        ≡ record {
          names = counter (1 ∷ []) 4;
          reductions = (temporary 0, sum_of col_a) ∷ (temporary 2, sum_of col_b) ∷ (codes "n", Tree.len) ∷ (temporary 3, sum_of col_b) ∷ [];
          above = (codes "x", plus (column_of 0) (column_of 2)) ∷ (codes "n", Tree.column (codes "n")) ∷ (codes "y", plus (column_of 3) (int 1)) ∷ (codes "z", int 2) ∷ [];
        } }
{}

/// Group-bys that stream.
pub fn streamed_groups()
    ensures a_reduction { (F : Functions) → nodes_text F (sunk (groups_of ((a_name, col_a) ∷ []) ((codes "s", sum_of col_b) ∷ []) None)) ≡ codes "0 in-memory-source 0 -\n1 group-by 1 0.0\n2 in-memory-sink 2 1.0\n" }
    ensures keys_alone { (F : Functions) → nodes_text F (sunk (groups_of ((a_name, col_a) ∷ []) [] None)) ≡ codes "0 in-memory-source 0 -\n1 group-by 1 0.0\n2 in-memory-sink 2 1.0\n" }
    ensures literal_key { (F : Functions) → nodes_text F (sunk (groups_of ((codes "k", int 1) ∷ []) ((codes "n", Tree.len) ∷ []) None)) ≡ codes "0 in-memory-source 0 -\n1 group-by 1 0.0\n2 in-memory-sink 2 1.0\n" }
    ensures key_of_a_whole_column { (F : Functions) → nodes_text F (sunk (groups_of ((codes "k", reversed_b) ∷ []) ((codes "n", Tree.len) ∷ []) None)) ≡ codes "0 in-memory-source 0 -\n1 simple-projection 1 0.0\n2 in-memory-map 1 1.0\n3 zip 1 0.0,2.0\n4 group-by 1 3.0\n5 in-memory-sink 2 4.0\n" }
{}

/// A select above the groups, and the slice above that.
pub fn select_above_groups()
    ensures text { (F : Functions) → nodes_text F (sunk (groups_of ((a_name, col_a) ∷ []) ((codes "s", plus (sum_of col_b) (int 1)) ∷ (codes "n", Tree.len) ∷ []) (Some (pos 0, 2)))) ≡ codes "0 in-memory-source 0 -\n1 group-by 1 0.0\n2 select 1 1.0\n3 slice 1 2.0\n4 in-memory-sink 2 3.0\n" }
    ensures kinds { (F : Functions) → kinds_of F (sunk (groups_of ((a_name, col_a) ∷ []) ((codes "s", plus (sum_of col_b) (int 1)) ∷ (codes "n", Tree.len) ∷ []) (Some (negsuc 1, 2)))) ≡ in_memory_source ab ∷ group_by_node ((a_name, col_a) ∷ []) ((temporary 0, sum_of col_b) ∷ (codes "n", Tree.len) ∷ []) ∷ select_node ((a_name, col_a) ∷ (codes "s", plus (column_of 0) (int 1)) ∷ (codes "n", Tree.column (codes "n")) ∷ []) false ∷ negative_slice 2 2 ∷ in_memory_sink ∷ [] }
{}

/// Fresh names in the order in which the rules ask: those of the keys, then those of the aggregates.
pub fn names_in_order()
    ensures kinds { (F : Functions) → kinds_of F (sunk (groups_of ((codes "k", reversed_b) ∷ []) ((codes "s", plus (sum_of col_a) (int 1)) ∷ []) None)) ≡ in_memory_source ab ∷ simple_projection (b_name ∷ []) ∷ in_memory_map (select ((temporary 0, reversed_b) ∷ [])) ∷ zip_node false ∷ group_by_node ((codes "k", column_of 0) ∷ []) ((temporary 1, sum_of col_a) ∷ []) ∷ select_node ((codes "k", Tree.column (codes "k")) ∷ (codes "s", plus (column_of 1) (int 1)) ∷ []) false ∷ in_memory_sink ∷ [] }
    ensures schemas { (F : Functions) → schemas_of F (sunk (groups_of ((a_name, col_a) ∷ []) ((codes "s", plus (sum_of col_b) (int 1)) ∷ (codes "n", Tree.len) ∷ []) None)) ≡ ab_fields ∷ ((a_name, kind.Int64) ∷ (temporary 0, kind.Int64) ∷ (codes "n", kind.IdxSize) ∷ []) ∷ ((a_name, kind.Int64) ∷ (codes "s", kind.Int64) ∷ (codes "n", kind.IdxSize) ∷ []) ∷ ((a_name, kind.Int64) ∷ (codes "s", kind.Int64) ∷ (codes "n", kind.IdxSize) ∷ []) ∷ [] }
{}

/// Group-bys that are left to a map over the whole input, with their slice.
pub fn mapped_groups()
    ensures in_order { (F : Functions) → nodes_text F (sunk (group_by (record { keys = (a_name, col_a) ∷ []; aggregates = (codes "s", sum_of col_b) ∷ []; maintain_order = true; cut = None }))) ≡ codes "0 in-memory-source 0 -\n1 in-memory-map 1 0.0\n2 in-memory-sink 2 1.0\n" }
    ensures independent_of_the_input { (F : Functions) → nodes_text F (sunk (groups_of ((codes "k", int 1) ∷ []) ((codes "n", int 2) ∷ []) None)) ≡ codes "0 in-memory-source 0 -\n1 in-memory-map 1 0.0\n2 in-memory-sink 2 1.0\n" }
    ensures distinct_counts { (F : Functions) → nodes_text F (sunk (groups_of ((a_name, col_a) ∷ []) ((codes "n", distinct_values col_a) ∷ []) (Some (pos 0, 2)))) ≡ codes "0 in-memory-source 0 -\n1 in-memory-map 1 0.0\n2 in-memory-sink 2 1.0\n" }
    ensures with_its_slice { (F : Functions) → kinds_of F (sunk (groups_of ((a_name, col_a) ∷ []) ((codes "n", distinct_values col_a) ∷ []) (Some (negsuc 1, 2)))) ≡ in_memory_source ab ∷ in_memory_map (groups_of ((a_name, col_a) ∷ []) ((codes "n", distinct_values col_a) ∷ []) (Some (negsuc 1, 2))) ∷ in_memory_sink ∷ [] }
{}
