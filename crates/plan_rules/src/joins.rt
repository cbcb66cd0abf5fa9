//! Worked joins, as theorems of functions that do nothing.
ghost use Rattle.std.specs.Prelude.{◌≡◌, ◌∷◌, ◌++◌, [], codes, false, negsuc, pos, None, Some};
ghost use Rattle.ps_frame.specs.Functions.{Functions};
ghost use Rattle.ps_frame.specs.declared.value.DataType.TheVariants as kind;
ghost use Rattle.ps_meaning.specs.Shape.{equi_join, in_memory_join, in_memory_map, in_memory_sink, in_memory_source, simple_projection, streaming_slice, zip_node};
ghost use Rattle.ps_meaning.specs.Steps.{join, select};
ghost use Rattle.ps_meaning.specs.declared.options.JoinType.TheVariants as how;
ghost use Rattle.ps_rules.specs.Names.{temporary};
ghost use Rattle.ps_rules.specs.Worked.{ab_fields, b_name, col_a, col_b, column_of, reversed_b};
ghost use Rattle.plan_rules.specs.Worked.{ab, both_sunk, join_by, joined_to_a, kinds_of, nodes_text, schemas_of};

/// Joins by keys: a key of a whole column is lowered beside all columns of its side, and the slice is above.
pub fn joins_by_keys()
    ensures inner { (F : Functions) → nodes_text F (both_sunk (joined_to_a how.Inner reversed_b (Some (pos 0, 3)))) ≡ codes "0 in-memory-source 0 -\n1 simple-projection 1 0.0\n2 in-memory-map 1 1.0\n3 zip 1 0.0,2.0\n4 in-memory-source 0 -\n5 equi-join 1 3.0,4.0\n6 slice 1 5.0\n7 in-memory-sink 2 6.0\n" }
    ensures left { (F : Functions) → nodes_text F (both_sunk (joined_to_a how.Left col_b (Some (negsuc 2, 3)))) ≡ codes "0 in-memory-source 0 -\n1 in-memory-source 0 -\n2 equi-join 1 0.0,1.0\n3 negative-slice 1 2.0\n4 in-memory-sink 2 3.0\n" }
    ensures right { (F : Functions) → nodes_text F (both_sunk (joined_to_a how.Right col_b None)) ≡ codes "0 in-memory-source 0 -\n1 in-memory-source 0 -\n2 equi-join 1 0.0,1.0\n3 in-memory-sink 2 2.0\n" }
    ensures full { (F : Functions) → nodes_text F (both_sunk (joined_to_a how.Full col_b None)) ≡ codes "0 in-memory-source 0 -\n1 in-memory-source 0 -\n2 equi-join 1 0.0,1.0\n3 in-memory-sink 2 2.0\n" }
{}

/// Joins over whole inputs: keys and slice stay inside.
pub fn joins_of_whole_inputs()
    ensures semi { (F : Functions) → nodes_text F (both_sunk (joined_to_a how.Semi reversed_b (Some (pos 0, 3)))) ≡ codes "0 in-memory-source 0 -\n1 in-memory-source 0 -\n2 in-memory-join 1 0.0,1.0\n3 in-memory-sink 2 2.0\n" }
    ensures anti { (F : Functions) → nodes_text F (both_sunk (joined_to_a how.Anti col_b (Some (negsuc 2, 3)))) ≡ codes "0 in-memory-source 0 -\n1 in-memory-source 0 -\n2 in-memory-join 1 0.0,1.0\n3 in-memory-sink 2 2.0\n" }
    ensures cross { (F : Functions) → nodes_text F (both_sunk (join (join_by how.Cross [] [] None))) ≡ codes "0 in-memory-source 0 -\n1 in-memory-source 0 -\n2 in-memory-join 1 0.0,1.0\n3 in-memory-sink 2 2.0\n" }
{}

/// What joins do: one by keys has the answered keys and no slice, one over whole inputs all that it was asked.
pub fn kinds_of_joins()
    ensures by_keys { (F : Functions) → kinds_of F (both_sunk (joined_to_a how.Inner reversed_b (Some (pos 0, 3)))) ≡ in_memory_source ab ∷ simple_projection (b_name ∷ []) ∷ in_memory_map (select ((temporary 0, reversed_b) ∷ [])) ∷ zip_node false ∷ in_memory_source ab ∷ equi_join (join_by how.Inner (column_of 0 ∷ []) (col_a ∷ []) None) ∷ streaming_slice 0 3 ∷ in_memory_sink ∷ [] }
    ensures whole_inputs { (F : Functions) → kinds_of F (both_sunk (joined_to_a how.Semi reversed_b (Some (pos 0, 3)))) ≡ in_memory_source ab ∷ in_memory_source ab ∷ in_memory_join (join_by how.Semi (reversed_b ∷ []) (col_a ∷ []) (Some (pos 0, 3))) ∷ in_memory_sink ∷ [] }
    ensures schemas { (F : Functions) → schemas_of F (both_sunk (joined_to_a how.Inner reversed_b None)) ≡ ab_fields ∷ ((b_name, kind.Int64) ∷ []) ∷ ((temporary 0, kind.Int64) ∷ []) ∷ (ab_fields ++ (temporary 0, kind.Int64) ∷ []) ∷ ab_fields ∷ (ab_fields ++ (codes "b_r", kind.Int64) ∷ []) ∷ (ab_fields ++ (codes "b_r", kind.Int64) ∷ []) ∷ [] }
{}
