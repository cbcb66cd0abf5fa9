//! Worked examples, as theorems of functions that do nothing.
ghost use Rattle.std.specs.Prelude.{◌≡◌, [], None, codes};
ghost use Rattle.plain_nodes.specs.Seen.{node_seen, nothing_behind};
ghost use Rattle.ps_meaning.specs.Shape.{stream_map, streaming_slice};
ghost use Rattle.ps_meaning.specs.Steps.{user};
ghost use Rattle.ps_nodes.specs.Seen.{kind_of, seen};
ghost use Rattle.ps_nodes.specs.Told.{IsToldOf, answer_kept, word_of};
ghost use Rattle.ps_nodes.specs.declared.flow.FlowNode.TheVariants as flow;

/// What updates see of nodes: a map by its function alone, a slice that booked three rows.
pub fn seen_nodes()
    ensures map { kind_of (flow.Map (record { function = 2 })) ≡ stream_map (user 2) }
    ensures slice { seen (flow.StreamingSlice (record { state = record { offset = 1; length = 2; booked = 3 } })) ≡ node_seen (streaming_slice 1 2) (record nothing_behind { booked = 3 }) [] }
{}

/// A map of a streamable function: what it is called, that it stays as it was where it is told of three pieces of work, and
/// that it gives no answer.
pub fn told_nodes()
    ensures word { word_of (flow.Map (record { function = 2 })) ≡ codes "map" }
    ensures others { IsToldOf (flow.Map (record { function = 2 })) 3 (flow.Map (record { function = 2 })) }
    ensures no_answer { answer_kept (flow.Map (record { function = 2 })) ≡ None }
{}
