//! What is known of the readers of each node: how many they are, and the port that the next one takes.
ghost use Rattle.std.specs.Prelude.{◌≡◌, ◌≢◌, ◌+◌, ◌-◌, ◌<◌, ◌^◌, ◌++◌, ◌∷◌, [], ℕ, List, Option, Some, None, IfOk, IsSome, OnErr, OnOk, Err, length, map, option_map};
ghost use Rattle.keyed_slots.specs.Slots.{value_at};
ghost use Rattle.pu_base.specs.declared.arena.Node.{Node};
ghost use Rattle.ps_frame.specs.Trees.{Tree};
ghost use Rattle.ps_frame.specs.declared.refusal.PolarsError.{PolarsError};
ghost use Rattle.ps_multiplexers.specs.Multiplexers.{again, changed, inputs_through, multiplexer_of, port_or_stream, times, with_inputs};
ghost use Rattle.ps_multiplexers.specs.Readers.{AreNoted, Grows, HasPorts, IsFilledFrom, IsReadOnce, next_stream};
ghost use Rattle.ps_phys.specs.Shown.{inputs_of, kind_of, nodes_of, stream_of, streams_of};
ghost use Rattle.ps_phys.specs.Walks.{node_at, numbers_of};

use keyed_slots::{SecondaryMap, SlotMap};
use ps_frame::items::Items;
use ps_frame::refusal::{PolarsError, PolarsResult};
use ps_phys::phys::{PhysNode, PhysNodeKey, PhysNodeKind, PhysStream};
use std::alloc::Global;
use std::mem;

/// The readers of a node that is read: one, or several, and then the port of its multiplexer that the next of them takes.
#[derive(Clone, Copy, Debug, PartialEq, Eq)]
pub(crate) enum Readers {
    One,
    Several(PhysStream),
}

/// The readers of each node.
pub(crate) type ReadersOf = SecondaryMap<PhysNodeKey, Readers>;

impl Readers {
    /// The stream that the next reader takes, where there are several; the one after it takes the port behind.
    fn next(&mut self) -> Option<PhysStream>
        ensures stream { option_map stream_of result ≡ next_stream (Some self.old) }
        ensures none { next_stream (Some self.old) ≡ None → self.new ≡ self.old }
        ensures port { (m port : ℕ) → next_stream (Some self.old) ≡ Some (m, port) → port + 1 < 2 ^ 64 → next_stream (Some self.new) ≡ Some (m, port + 1) }
    {
        let Readers::Several(stream) = *self else {
            return None;
        };
        // There are fewer readers than a number of 64 bits tells, so no port is ever the last one.
        let behind = stream.port.saturating_add(1);
        *self = Readers::Several(PhysStream::new(stream.node, behind));
        Some(stream)
    }
}

/// The stream that the next reader of a node takes, where there are several.
fn next_of(readers: &mut ReadersOf, node: PhysNodeKey) -> Option<PhysStream>
    ensures stream { option_map stream_of result ≡ next_stream (value_at readers.old.slots node.0) }
    ensures others { (n : ℕ) → n ≢ node.0 → value_at readers.new.slots n ≡ value_at readers.old.slots n }
    ensures none { next_stream (value_at readers.old.slots node.0) ≡ None → value_at readers.new.slots node.0 ≡ value_at readers.old.slots node.0 }
    ensures port { (m port : ℕ) → next_stream (value_at readers.old.slots node.0) ≡ Some (m, port) → port + 1 < 2 ^ 64 → next_stream (value_at readers.new.slots node.0) ≡ Some (m, port + 1) }
{
    match readers.get_mut(node) {
        Some(known) => known.next(),
        None => None,
    }
}

/// What a reader of this stream takes: the next port of the multiplexer, where there is one.
fn through(readers: &mut ReadersOf, input: PhysStream) -> PhysStream
    ensures through { (number : ℕ → Option ℕ) (before : List ℕ) → HasPorts number before readers.old.slots → length before + 1 < 2 ^ 64 → (stream_of result ≡ port_or_stream (stream_of input) (number input.node.0) (times input.node.0 before)) × HasPorts number (before ++ input.node.0 ∷ []) readers.new.slots }
{
    match next_of(readers, input.node) {
        Some(stream) => stream,
        None => input,
    }
}

/// Lets a node with one input take what a reader of it takes.
fn go_through_one(readers: &mut ReadersOf, input: &mut PhysStream)
    ensures through { (number : ℕ → Option ℕ) (before : List ℕ) → HasPorts number before readers.old.slots → length before + 1 < 2 ^ 64 → (stream_of input.new ∷ [] ≡ inputs_through number before (stream_of input.old ∷ [])) × HasPorts number (before ++ numbers_of (stream_of input.old ∷ [])) readers.new.slots }
{
    *input = through(readers, *input);
}

/// The same for a node with two inputs, the left one first.
fn go_through_two(readers: &mut ReadersOf, left: &mut PhysStream, right: &mut PhysStream)
    ensures through { (number : ℕ → Option ℕ) (before : List ℕ) → HasPorts number before readers.old.slots → length before + 2 < 2 ^ 64 → (stream_of left.new ∷ stream_of right.new ∷ [] ≡ inputs_through number before (stream_of left.old ∷ stream_of right.old ∷ [])) × HasPorts number (before ++ numbers_of (stream_of left.old ∷ stream_of right.old ∷ [])) readers.new.slots }
{
    *left = through(readers, *left);
    *right = through(readers, *right);
}

/// The same for each of these inputs, in order.
fn go_through_each(readers: &mut ReadersOf, inputs: &mut [PhysStream])
    ensures through { (number : ℕ → Option ℕ) (before : List ℕ) → HasPorts number before readers.old.slots → length before + length inputs.old < 2 ^ 64 → (streams_of inputs.new ≡ inputs_through number before (streams_of inputs.old)) × HasPorts number (before ++ numbers_of (streams_of inputs.old)) readers.new.slots }
{
    for place in 0..inputs.len() {
        inputs[place] = through(readers, inputs[place]);
    }
}

/// The same for a list of inputs.
fn go_through_all(alloc: Global, readers: &mut ReadersOf, inputs: &mut Items<PhysStream>)
    ensures through { (number : ℕ → Option ℕ) (before : List ℕ) → HasPorts number before readers.old.slots → length before + length inputs.old < 2 ^ 64 → (streams_of inputs.new ≡ inputs_through number before (streams_of inputs.old)) × HasPorts number (before ++ numbers_of (streams_of inputs.old)) readers.new.slots }
{
    let mut streams = mem::replace(inputs, Items::new(Vec::new(alloc))).into_vec();
    go_through_each(readers, streams.as_mut_slice());
    *inputs = Items::new(streams);
}

/// Lets a kind of node read through the multiplexers of the nodes that it reads, where they have one.
fn go_through_kind(alloc: Global, readers: &mut ReadersOf, kind: &mut PhysNodeKind)
    ensures kind { (f : Node → Tree) → kind_of f kind.new ≡ kind_of f kind.old }
    ensures through { (number : ℕ → Option ℕ) (before : List ℕ) → HasPorts number before readers.old.slots → length before + length (inputs_of kind.old) < 2 ^ 64 → (inputs_of kind.new ≡ inputs_through number before (inputs_of kind.old)) × HasPorts number (before ++ numbers_of (inputs_of kind.old)) readers.new.slots }
{
    match kind {
        PhysNodeKind::InMemorySource { .. } | PhysNodeKind::InputIndependentSelect { .. } => {}
        PhysNodeKind::Select { input, .. } => go_through_one(readers, input),
        PhysNodeKind::WithRowIndex { input, .. } => go_through_one(readers, input),
        PhysNodeKind::Reduce { input, .. } => go_through_one(readers, input),
        PhysNodeKind::StreamingSlice { input, .. } => go_through_one(readers, input),
        PhysNodeKind::NegativeSlice { input, .. } => go_through_one(readers, input),
        PhysNodeKind::Filter { input, .. } => go_through_one(readers, input),
        PhysNodeKind::SimpleProjection { input, .. } => go_through_one(readers, input),
        PhysNodeKind::InMemorySink { input } => go_through_one(readers, input),
        PhysNodeKind::InMemoryMap { input, .. } => go_through_one(readers, input),
        PhysNodeKind::Map { input, .. } => go_through_one(readers, input),
        PhysNodeKind::Sort { input, .. } => go_through_one(readers, input),
        PhysNodeKind::Multiplexer { input } => go_through_one(readers, input),
        PhysNodeKind::GroupBy { input, .. } => go_through_one(readers, input),
        PhysNodeKind::OrderedUnion { inputs } => go_through_all(alloc, readers, inputs),
        PhysNodeKind::Zip { inputs, .. } => go_through_all(alloc, readers, inputs),
        PhysNodeKind::EquiJoin {
            input_left,
            input_right,
            ..
        } => go_through_two(readers, input_left, input_right),
        PhysNodeKind::InMemoryJoin {
            input_left,
            input_right,
            ..
        } => go_through_two(readers, input_left, input_right),
    }
}

/// Lets a node read through the multiplexers of the nodes that it reads.
fn go_through_node(alloc: Global, readers: &mut ReadersOf, node: &mut PhysNode)
    ensures schema { node.new.output_schema ≡ node.old.output_schema }
    ensures origin { node.new.origin ≡ node.old.origin }
    ensures kind { (f : Node → Tree) → kind_of f node.new.kind ≡ kind_of f node.old.kind }
    ensures through { (number : ℕ → Option ℕ) (before : List ℕ) → HasPorts number before readers.old.slots → length before + length (inputs_of node.old.kind) < 2 ^ 64 → (inputs_of node.new.kind ≡ inputs_through number before (inputs_of node.old.kind)) × HasPorts number (before ++ numbers_of (inputs_of node.old.kind)) readers.new.slots }
{
    go_through_kind(alloc, readers, &mut node.kind);
}

/// The same for the node of a key.
pub(crate) fn rewire(
    alloc: Global,
    readers: &mut ReadersOf,
    phys: &mut SlotMap<PhysNodeKey, PhysNode>,
    node: PhysNodeKey,
)
    ensures count { length phys.new.slots ≡ length phys.old.slots }
    ensures there { (n : ℕ) → IsSome (value_at phys.old.slots n) → IsSome (value_at phys.new.slots n) }
    ensures through { (f : Node → Tree) (number : ℕ → Option ℕ) (before : List ℕ) → HasPorts number before readers.old.slots → length before + length (node_at (nodes_of f phys.old.slots) node.0).inputs < 2 ^ 64 → (nodes_of f phys.new.slots ≡ changed node.0 (with_inputs (inputs_through number before (node_at (nodes_of f phys.old.slots) node.0).inputs)) (nodes_of f phys.old.slots)) × HasPorts number (before ++ numbers_of (node_at (nodes_of f phys.old.slots) node.0).inputs) readers.new.slots }
{
    match phys.get_mut(node) {
        Some(reader) => go_through_node(alloc, readers, reader),
        None => {}
    }
}

/// Inserts a multiplexer behind a node.
fn insert_behind(
    alloc: Global,
    phys: &mut SlotMap<PhysNodeKey, PhysNode>,
    node: PhysNodeKey,
) -> PolarsResult<PhysStream>
    requires there { IsSome (value_at phys.old.slots node.0) }
    requires room { length phys.old.slots < 2 ^ 32 - 1 }
    ensures nodes { (f : Node → Tree) → OnOk result (nodes_of f phys.new.slots ≡ nodes_of f phys.old.slots ++ multiplexer_of (nodes_of f phys.old.slots) node.0 ∷ []) }
    ensures first { IfOk result (λ s. stream_of s ≡ (length phys.old.slots, 0)) }
    ensures memory { OnErr result (result ≡ Err PolarsError.OutOfMemory) }
    ensures grown { Grows phys.old.slots phys.new.slots }
    ensures filled { (first : ℕ) → IsFilledFrom first phys.old.slots → OnOk result (IsFilledFrom first phys.new.slots) }
{
    let Some(read) = phys.get(node) else {
        unreachable!();
    };
    // A match and no `?`: a schema that isn't copied is want of memory, whatever else a frame's error may say.
    let Ok(schema) = read.output_schema.try_clone(alloc) else {
        return Err(PolarsError::OutOfMemory);
    };
    let origin = read.origin;
    let kind = PhysNodeKind::Multiplexer {
        input: PhysStream::first(node),
    };
    let key = phys.insert(PhysNode::new(schema, kind, origin))?;
    Ok(PhysStream::first(key))
}

/// Notes the first reader of a node.
fn note_first(readers: &mut ReadersOf, node: PhysNodeKey) -> PolarsResult<()>
    requires none { None ≡ value_at readers.old.slots node.0 }
    ensures noted { (first : ℕ) (read several : List ℕ) → AreNoted first read several readers.old.slots → OnOk result (AreNoted first (read ++ node.0 ∷ []) (several ++ again read node.0) readers.new.slots) }
    ensures memory { OnErr result (result ≡ Err PolarsError.OutOfMemory) }
{
    readers.insert(node, Readers::One)?;
    Ok(())
}

/// Notes the second reader of a node, which brings the multiplexer.
fn note_second(
    alloc: Global,
    readers: &mut ReadersOf,
    phys: &mut SlotMap<PhysNodeKey, PhysNode>,
    node: PhysNodeKey,
) -> PolarsResult<()>
    requires there { IsSome (value_at phys.old.slots node.0) }
    requires room { length phys.old.slots < 2 ^ 32 - 1 }
    requires once { IsReadOnce (value_at readers.old.slots node.0) }
    ensures noted { (first : ℕ) (read several : List ℕ) → AreNoted first read several readers.old.slots → length phys.old.slots ≡ first + length several → OnOk result (AreNoted first (read ++ node.0 ∷ []) (several ++ again read node.0) readers.new.slots) }
    ensures nodes { (f : Node → Tree) (first : ℕ) (read several : List ℕ) → AreNoted first read several readers.old.slots → OnOk result (nodes_of f phys.new.slots ≡ nodes_of f phys.old.slots ++ map (multiplexer_of (nodes_of f phys.old.slots)) (again read node.0)) }
    ensures memory { OnErr result (result ≡ Err PolarsError.OutOfMemory) }
    ensures grown { Grows phys.old.slots phys.new.slots }
    ensures filled { (first : ℕ) → IsFilledFrom first phys.old.slots → OnOk result (IsFilledFrom first phys.new.slots) }
{
    let first = insert_behind(alloc, phys, node)?;
    readers.insert(node, Readers::Several(first))?;
    Ok(())
}

/// What is known of the readers of a node.
fn known_of(readers: &ReadersOf, node: PhysNodeKey) -> Option<Readers>
    ensures { result ≡ value_at readers.now.slots node.0 }
{
    readers.get(node).copied()
}

/// Notes one more reader of a node. The second one brings the multiplexer.
pub(crate) fn note_reader(
    alloc: Global,
    readers: &mut ReadersOf,
    phys: &mut SlotMap<PhysNodeKey, PhysNode>,
    node: PhysNodeKey,
) -> PolarsResult<()>
    requires there { IsSome (value_at phys.old.slots node.0) }
    requires room { length phys.old.slots < 2 ^ 32 - 1 }
    ensures noted { (first : ℕ) (read several : List ℕ) → AreNoted first read several readers.old.slots → length phys.old.slots ≡ first + length several → OnOk result (AreNoted first (read ++ node.0 ∷ []) (several ++ again read node.0) readers.new.slots) }
    ensures nodes { (f : Node → Tree) (first : ℕ) (read several : List ℕ) → AreNoted first read several readers.old.slots → OnOk result (nodes_of f phys.new.slots ≡ nodes_of f phys.old.slots ++ map (multiplexer_of (nodes_of f phys.old.slots)) (again read node.0)) }
    ensures memory { OnErr result (result ≡ Err PolarsError.OutOfMemory) }
    ensures grown { Grows phys.old.slots phys.new.slots }
    ensures filled { (first : ℕ) → IsFilledFrom first phys.old.slots → OnOk result (IsFilledFrom first phys.new.slots) }
{
    let Some(known) = known_of(readers, node) else {
        return note_first(readers, node);
    };
    match known {
        Readers::One => note_second(alloc, readers, phys, node),
        Readers::Several(_) => Ok(()),
    }
}
