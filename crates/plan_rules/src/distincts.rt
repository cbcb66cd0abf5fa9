//! Worked distincts, as theorems of functions that do nothing.
ghost use Rattle.std.specs.Prelude.{◌≡◌, ◌∷◌, [], codes, false, negsuc, pos, true, None, Some};
ghost use Rattle.ps_frame.specs.Functions.{Functions};
ghost use Rattle.ps_frame.specs.Trees.{Aggregation, Tree};
ghost use Rattle.ps_meaning.specs.Shape.{filter_node, group_by_node, in_memory_map, in_memory_sink, in_memory_source, simple_projection};
ghost use Rattle.ps_meaning.specs.Steps.{distinct};
ghost use Rattle.ps_meaning.specs.declared.options.UniqueKeepStrategy.TheVariants as keep;
ghost use Rattle.ps_rules.specs.Names.{temporary};
ghost use Rattle.ps_rules.specs.Worked.{a_name, b_name, col_a, col_b};
ghost use Rattle.plan_rules.specs.Distinct.{is_one};
ghost use Rattle.plan_rules.specs.Worked.{ab, distinct_by_b, kinds_of, nodes_text, sunk};

/// Distincts in whatever order: groups, and the columns in the order of the input.
pub fn distincts_by_groups()
    ensures any { (F : Functions) → nodes_text F (sunk (distinct_by_b keep.Any None)) ≡ codes "0 in-memory-source 0 -\n1 group-by 1 0.0\n2 simple-projection 1 1.0\n3 in-memory-sink 2 2.0\n" }
    ensures any_by_all_columns { (F : Functions) → nodes_text F (sunk (distinct (record { subset = None; maintain_order = false; keep = keep.Any; cut = None }))) ≡ codes "0 in-memory-source 0 -\n1 group-by 1 0.0\n2 in-memory-sink 2 1.0\n" }
    ensures keys_in_the_order_of_the_subset { (F : Functions) → nodes_text F (sunk (distinct (record { subset = Some (b_name ∷ a_name ∷ []); maintain_order = false; keep = keep.Any; cut = None }))) ≡ codes "0 in-memory-source 0 -\n1 group-by 1 0.0\n2 simple-projection 1 1.0\n3 in-memory-sink 2 2.0\n" }
    ensures first { (F : Functions) → kinds_of F (sunk (distinct_by_b keep.First None)) ≡ in_memory_source ab ∷ group_by_node ((b_name, col_b) ∷ []) ((a_name, Tree.aggregate Aggregation.first col_a) ∷ []) ∷ simple_projection (a_name ∷ b_name ∷ []) ∷ in_memory_sink ∷ [] }
    ensures last { (F : Functions) → kinds_of F (sunk (distinct_by_b keep.Last None)) ≡ in_memory_source ab ∷ group_by_node ((b_name, col_b) ∷ []) ((a_name, Tree.aggregate Aggregation.last col_a) ∷ []) ∷ simple_projection (a_name ∷ b_name ∷ []) ∷ in_memory_sink ∷ [] }
{}

/// Distincts that keep the rows of groups of one, with a slice above all else.
pub fn distincts_of_single_rows()
    ensures text { (F : Functions) → nodes_text F (sunk (distinct (record { subset = Some (b_name ∷ a_name ∷ []); maintain_order = false; keep = keep.None; cut = Some (pos 0, 5) }))) ≡ codes "0 in-memory-source 0 -\n1 group-by 1 0.0\n2 filter 1 1.0\n3 simple-projection 1 2.0\n4 slice 1 3.0\n5 in-memory-sink 2 4.0\n" }
    ensures from_the_end { (F : Functions) → nodes_text F (sunk (distinct_by_b keep.None (Some (negsuc 1, 5)))) ≡ codes "0 in-memory-source 0 -\n1 group-by 1 0.0\n2 filter 1 1.0\n3 simple-projection 1 2.0\n4 negative-slice 1 3.0\n5 in-memory-sink 2 4.0\n" }
    ensures kinds { (F : Functions) → kinds_of F (sunk (distinct_by_b keep.None None)) ≡ in_memory_source ab ∷ group_by_node ((b_name, col_b) ∷ []) ((a_name, Tree.aggregate Aggregation.first col_a) ∷ (temporary 0, Tree.len) ∷ []) ∷ filter_node (is_one (temporary 0)) ∷ simple_projection (a_name ∷ b_name ∷ []) ∷ in_memory_sink ∷ [] }
{}

/// Distincts that keep the order of the rows: the groups are left to a map, and with the last rows the whole distinct is.
pub fn distincts_in_order()
    ensures first { (F : Functions) → nodes_text F (sunk (distinct (record { subset = Some (b_name ∷ []); maintain_order = true; keep = keep.First; cut = None }))) ≡ codes "0 in-memory-source 0 -\n1 in-memory-map 1 0.0\n2 simple-projection 1 1.0\n3 in-memory-sink 2 2.0\n" }
    ensures none { (F : Functions) → nodes_text F (sunk (distinct (record { subset = Some (b_name ∷ []); maintain_order = true; keep = keep.None; cut = Some (pos 0, 1) }))) ≡ codes "0 in-memory-source 0 -\n1 in-memory-map 1 0.0\n2 filter 1 1.0\n3 simple-projection 1 2.0\n4 slice 1 3.0\n5 in-memory-sink 2 4.0\n" }
    ensures last { (F : Functions) → nodes_text F (sunk (distinct (record { subset = None; maintain_order = true; keep = keep.Last; cut = None }))) ≡ codes "0 in-memory-source 0 -\n1 in-memory-map 1 0.0\n2 in-memory-sink 2 1.0\n" }
    ensures last_with_its_slice { (F : Functions) → kinds_of F (sunk (distinct (record { subset = None; maintain_order = true; keep = keep.Last; cut = Some (negsuc 0, 1) }))) ≡ in_memory_source ab ∷ in_memory_map (distinct (record { subset = None; maintain_order = true; keep = keep.Last; cut = Some (negsuc 0, 1) })) ∷ in_memory_sink ∷ [] }
{}
