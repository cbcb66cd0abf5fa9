//! Worked slices, as theorems of functions that do nothing.
ghost use Rattle.std.specs.Prelude.{◌≡◌, codes, negsuc, pos, Some};
ghost use Rattle.ps_frame.specs.Functions.{Functions};
ghost use Rattle.ps_meaning.specs.Shape.{negative_slice, streaming_slice};
ghost use Rattle.ps_meaning.specs.Steps.{slice, union};
ghost use Rattle.plan_rules.specs.Slices.{slice_kind};
ghost use Rattle.plan_rules.specs.Worked.{both_sunk, nodes_text, sorted_by_b, sunk};

/// Which slice an offset and a length ask for.
pub fn kinds_of_slices()
    ensures from_the_front { slice_kind (pos 1) 2 ≡ streaming_slice 1 2 }
    ensures no_rows_from_the_front { slice_kind (pos 5) 0 ≡ streaming_slice 5 0 }
    ensures from_the_end { slice_kind (negsuc 2) 2 ≡ negative_slice 3 2 }
    ensures no_rows_from_the_end { slice_kind (negsuc 2) 0 ≡ streaming_slice 0 0 }
{}

/// Where slices stand.
pub fn places_of_slices()
    ensures node { (F : Functions) → nodes_text F (sunk (slice (pos 1) 2)) ≡ codes "0 in-memory-source 0 -\n1 slice 1 0.0\n2 in-memory-sink 2 1.0\n" }
    ensures node_from_the_end { (F : Functions) → nodes_text F (sunk (slice (negsuc 2) 2)) ≡ codes "0 in-memory-source 0 -\n1 negative-slice 1 0.0\n2 in-memory-sink 2 1.0\n" }
    ensures node_without_rows { (F : Functions) → nodes_text F (sunk (slice (negsuc 2) 0)) ≡ codes "0 in-memory-source 0 -\n1 slice 1 0.0\n2 in-memory-sink 2 1.0\n" }
    ensures inside_a_sort { (F : Functions) → nodes_text F (sunk (sorted_by_b (Some (pos 0, 3)))) ≡ codes "0 in-memory-source 0 -\n1 sort 1 0.0\n2 in-memory-sink 2 1.0\n" }
    ensures above_a_union { (F : Functions) → nodes_text F (both_sunk (union (Some (negsuc 0, 1)))) ≡ codes "0 in-memory-source 0 -\n1 in-memory-source 0 -\n2 ordered-union 1 0.0,1.0\n3 negative-slice 1 2.0\n4 in-memory-sink 2 3.0\n" }
{}
