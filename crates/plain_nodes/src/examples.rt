//! Worked examples, as theorems of functions that do nothing.
ghost use Rattle.std.specs.Prelude.{◌≡◌, ◌∷◌, [], codes};
ghost use Rattle.ps_frame.specs.declared.value.Value.TheVariants as value;
ghost use Rattle.ps_frame.specs.Trees.{aggregate, column, len, max, sum};
ghost use Rattle.ps_meaning.specs.Shape.{stream_map, streaming_slice};
ghost use Rattle.ps_meaning.specs.Steps.{user};
ghost use Rattle.plain_nodes.specs.Plain as plain;
ghost use Rattle.plain_nodes.specs.Reductions.{reduced, reduction_tree};
ghost use Rattle.plain_nodes.specs.Seen.{all_in_first, kind_of, node_seen, nothing_behind, seen};
ghost use Rattle.plain_nodes.specs.declared.reduction.Reduction.TheVariants as reduction;

/// What reductions make of a column, and those of a list of columns, by the names of their results.
pub fn reductions()
    ensures sum { reduction_tree reduction.Sum (column (codes "a")) ≡ aggregate sum (column (codes "a")) }
    ensures len { reduction_tree reduction.Len (column (codes "a")) ≡ len }
    ensures both { reduced (codes "x" ∷ codes "y" ∷ []) ((codes "a", column (codes "a")) ∷ (codes "b", column (codes "b")) ∷ []) (reduction.Max ∷ reduction.Len ∷ []) ≡ (codes "x", aggregate max (column (codes "a"))) ∷ (codes "y", len) ∷ [] }
{}

/// What updates see of nodes: a map by its function alone, a slice that booked three rows.
pub fn seen_nodes()
    ensures map { kind_of (plain.map (record { function = 2 })) ≡ stream_map (user 2) }
    ensures slice { seen (plain.streaming_slice (record { state = record { offset = 1; length = 2; booked = 3 } })) ≡ node_seen (streaming_slice 1 2) (record nothing_behind { booked = 3 }) [] }
{}

/// Lists of keys of which the first holds all.
pub fn lists_of_keys()
    ensures three { all_in_first ((value.IdxSize 4 ∷ []) ∷ []) 3 ≡ ((value.IdxSize 4 ∷ []) ∷ []) ∷ [] ∷ [] ∷ [] }
    ensures none { all_in_first ((value.IdxSize 4 ∷ []) ∷ []) 0 ≡ [] }
{}
