//! Worked plans of one step over a scan, as theorems of functions that do nothing.
ghost use Rattle.std.specs.Prelude.{◌≡◌, ◌∷◌, [], codes, false, None, Some};
ghost use Rattle.ps_frame.specs.Functions.{Functions};
ghost use Rattle.ps_frame.specs.Trees.{Tree};
ghost use Rattle.ps_frame.specs.declared.expr.Operator.TheVariants as op;
ghost use Rattle.ps_frame.specs.declared.value.DataType.TheVariants as kind;
ghost use Rattle.ps_meaning.specs.PlanTrees.{no_trees, node};
ghost use Rattle.ps_meaning.specs.Shape.{in_memory_sink, in_memory_source, reduce, select_node, zip_node};
ghost use Rattle.ps_meaning.specs.Steps.{filter, hstack, memory_sink, project, row_index, scan, user};
ghost use Rattle.ps_rules.specs.Names.{temporary};
ghost use Rattle.ps_rules.specs.Worked.{a_above_one, a_name, ab_fields, b_name, col_a, col_b, column_of, sum_of};
ghost use Rattle.plan_rules.specs.Worked.{ab, kinds_of, nodes_text, one_input, schemas_of, sorted_by_b, sunk, two_functions};

/// Scans, and projections of them.
pub fn scans()
    ensures all_columns { (F : Functions) → nodes_text F (node 1 memory_sink (one_input (node 0 (scan ab (Some (a_name ∷ b_name ∷ []))) no_trees))) ≡ codes "0 in-memory-source 0 -\n1 in-memory-sink 1 0.0\n" }
    ensures some_columns { (F : Functions) → nodes_text F (node 1 memory_sink (one_input (node 0 (scan ab (Some (b_name ∷ []))) no_trees))) ≡ codes "0 in-memory-source 0 -\n1 simple-projection 0 0.0\n2 in-memory-sink 1 1.0\n" }
    ensures projection { (F : Functions) → nodes_text F (sunk (project (a_name ∷ b_name ∷ []))) ≡ codes "0 in-memory-source 0 -\n1 simple-projection 1 0.0\n2 in-memory-sink 2 1.0\n" }
{}

/// Steps that give the rows of the scan, or some of them.
pub fn single_steps()
    ensures filtered { (F : Functions) → nodes_text F (sunk (filter a_above_one)) ≡ codes "0 in-memory-source 0 -\n1 filter 1 0.0\n2 in-memory-sink 2 1.0\n" }
    ensures filter_by_an_aggregate { (F : Functions) → nodes_text F (sunk (filter (Tree.binary op.Gt col_a (sum_of col_a)))) ≡ codes "0 in-memory-source 0 -\n1 reduce 1 0.0\n2 zip 1 0.0,1.0\n3 filter 1 2.0\n4 simple-projection 1 3.0\n5 in-memory-sink 2 4.0\n" }
    ensures row_numbers { (F : Functions) → nodes_text F (sunk (row_index (codes "n") None)) ≡ codes "0 in-memory-source 0 -\n1 with-row-index 1 0.0\n2 in-memory-sink 2 1.0\n" }
    ensures row_numbers_first { (F : Functions) → schemas_of F (sunk (row_index (codes "n") None)) ≡ ab_fields ∷ ((codes "n", kind.IdxSize) ∷ ab_fields) ∷ ((codes "n", kind.IdxSize) ∷ ab_fields) ∷ [] }
    ensures sorted { (F : Functions) → nodes_text F (sunk (sorted_by_b None)) ≡ codes "0 in-memory-source 0 -\n1 sort 1 0.0\n2 in-memory-sink 2 1.0\n" }
    ensures streaming_function { nodes_text two_functions (sunk (user 0)) ≡ codes "0 in-memory-source 0 -\n1 map 1 0.0\n2 in-memory-sink 2 1.0\n" }
    ensures other_function { nodes_text two_functions (sunk (user 1)) ≡ codes "0 in-memory-source 0 -\n1 in-memory-map 1 0.0\n2 in-memory-sink 2 1.0\n" }
{}

/// Columns that are put beside others, or in their place.
pub fn further_columns()
    ensures elementwise { (F : Functions) → nodes_text F (sunk (hstack ((codes "c", a_above_one) ∷ []))) ≡ codes "0 in-memory-source 0 -\n1 with-columns 1 0.0\n2 in-memory-sink 2 1.0\n" }
    ensures an_aggregate { (F : Functions) → nodes_text F (sunk (hstack ((a_name, sum_of col_a) ∷ (codes "c", col_b) ∷ []))) ≡ codes "0 in-memory-source 0 -\n1 reduce 1 0.0\n2 zip 1 0.0,1.0\n3 select 1 2.0\n4 in-memory-sink 2 3.0\n" }
    ensures in_their_places { (F : Functions) → kinds_of F (sunk (hstack ((a_name, sum_of col_a) ∷ (codes "c", col_b) ∷ []))) ≡ in_memory_source ab ∷ reduce ((temporary 0, sum_of col_a) ∷ []) ∷ zip_node false ∷ select_node ((a_name, column_of 0) ∷ (b_name, col_b) ∷ (codes "c", col_b) ∷ []) false ∷ in_memory_sink ∷ [] }
{}
