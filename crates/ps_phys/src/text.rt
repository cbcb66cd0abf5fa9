//! The text of a physical plan: a line for each node.
ghost use Rattle.std.specs.Prelude.{◌≡◌, ◌∷◌, ◌++◌, [], ℕ, List, IfOk, IsSome, OnErr, OnOk, Err, length, map, string_bytes, unwrap_or};
ghost use Rattle.keyed_slots.specs.Slots.{value_at};
ghost use Rattle.pu_base.specs.declared.arena.Node.{Node as Number};
ghost use Rattle.ps_frame.specs.Trees.{Tree};
ghost use Rattle.ps_frame.specs.declared.refusal.PolarsError.{PolarsError};
ghost use Rattle.ps_meaning.specs.Maps.{map_step};
ghost use Rattle.ps_phys.specs.Placed.{IsPlaced, placed, placed_node};
ghost use Rattle.ps_phys.specs.Printed.{head_text, input_text, inputs_text, kind_word, line_text, lines_from, map_word as word_of_map, plan_text as text_of};
ghost use Rattle.ps_phys.specs.Shown.{ReadsWhatIsThere, inputs_of, kind_of, nodes_of, physical_node, shown, stream_of};
ghost use Rattle.ps_phys.specs.Underway.{AreThere, numbers_in};
ghost use Rattle.ps_phys.specs.Walks.{place_in, shape_in};

use crate::order::leaving_order;
use crate::phys::{PhysNode, PhysNodeKey, PhysNodeKind, PhysStream};
use keyed_slots::{SecondaryMap, SlotMap};
use ps_frame::refusal::{PolarsError, PolarsResult};
use ps_meaning::map::MapKind;
use std::alloc::Global;

/// The places of nodes in an order.
type Places = SecondaryMap<PhysNodeKey, usize>;

/// Notes the place of a node behind those that have theirs, unless it stands among them.
fn note_place(places: &mut Places, key: PhysNodeKey, place: usize) -> PolarsResult<()>
    ensures placed { (before : List ℕ) → place ≡ length before → IsPlaced before places.old.slots → OnOk result (IsPlaced (before ++ key.0 ∷ []) places.new.slots) }
    ensures memory { OnErr result (result ≡ Err PolarsError.OutOfMemory) }
{
    if places.contains_key(key) {
        return Ok(());
    }
    places.insert(key, place)?;
    Ok(())
}

/// The first place of each node of an order.
fn places_in(alloc: Global, order: &[PhysNodeKey]) -> PolarsResult<Places>
    ensures places { IfOk result (λ places. (n : ℕ) → unwrap_or (value_at places.slots n) (length order.now) ≡ place_in (numbers_in order.now) n) }
    ensures memory { OnErr result (result ≡ Err PolarsError.OutOfMemory) }
{
    let mut places = SecondaryMap::new(alloc);
    for place in 0..order.len() {
        note_place(&mut places, order[place], place)?;
    }
    Ok(places)
}

/// The word of a kind.
fn word(kind: &PhysNodeKind) -> &'static str
    ensures { (f : Number → Tree) → result.now ≡ kind_word (kind_of f kind.now) }
{
    match kind {
        PhysNodeKind::InMemorySource { .. } => "in-memory-source",
        PhysNodeKind::Select {
            extend_original,
            ..
        } => {
            if *extend_original {
                "with-columns"
            } else {
                "select"
            }
        }
        PhysNodeKind::WithRowIndex { .. } => "with-row-index",
        PhysNodeKind::InputIndependentSelect { .. } => "input-independent-select",
        PhysNodeKind::Reduce { .. } => "reduce",
        PhysNodeKind::StreamingSlice { .. } => "slice",
        PhysNodeKind::NegativeSlice { .. } => "negative-slice",
        PhysNodeKind::Filter { .. } => "filter",
        PhysNodeKind::SimpleProjection { .. } => "simple-projection",
        PhysNodeKind::InMemorySink { .. } => "in-memory-sink",
        PhysNodeKind::InMemoryMap { map, .. } => map_word(map),
        PhysNodeKind::Map { .. } => "map",
        PhysNodeKind::Sort { .. } => "sort",
        PhysNodeKind::OrderedUnion { .. } => "ordered-union",
        PhysNodeKind::Zip { null_extend, .. } => {
            if *null_extend {
                "zip-null-extend"
            } else {
                "zip"
            }
        }
        PhysNodeKind::Multiplexer { .. } => "multiplexer",
        PhysNodeKind::GroupBy { .. } => "group-by",
        PhysNodeKind::EquiJoin { .. } => "equi-join",
        PhysNodeKind::InMemoryJoin { .. } => "in-memory-join",
    }
}

/// The word of a map over a whole table: a sort has its own.
fn map_word(map: &MapKind) -> &'static str
    ensures { (f : Number → Tree) → result.now ≡ word_of_map (map_step f map.now) }
{
    match map {
        MapKind::Sort { .. } => "sort",
        MapKind::Function(_)
        | MapKind::Select(_)
        | MapKind::GroupBy { .. }
        | MapKind::Distinct(_) => "in-memory-map",
    }
}

/// Writes an input: the place of its node (`count` where it has none), and its port.
fn push_input(
    text: &mut String,
    places: &Places,
    count: usize,
    input: PhysStream,
) -> PolarsResult<()>
    ensures text { OnOk result (string_bytes text.new ≡ string_bytes text.old ++ input_text (placed places.now.slots count (stream_of input))) }
    ensures memory { OnErr result (result ≡ Err PolarsError.OutOfMemory) }
{
    let place = match places.get(input.node) {
        Some(place) => *place,
        None => count,
    };
    text.write(place)?;
    text.push_str(".")?;
    text.write(input.port)?;
    Ok(())
}

/// Writes the inputs of a node, with commas between them, or `-`.
fn push_inputs(
    text: &mut String,
    places: &Places,
    count: usize,
    kind: &PhysNodeKind,
) -> PolarsResult<()>
    ensures text { OnOk result (string_bytes text.new ≡ string_bytes text.old ++ inputs_text (map (placed places.now.slots count) (inputs_of kind.now))) }
    ensures memory { OnErr result (result ≡ Err PolarsError.OutOfMemory) }
{
    let Some(first) = kind.input(0) else {
        text.push_str("-")?;
        return Ok(());
    };
    push_input(text, places, count, first)?;
    let mut place = 1;
    while let Some(input) = kind.input(place) {
        text.push_str(",")?;
        push_input(text, places, count, input)?;
        place += 1;
    }
    Ok(())
}

/// Writes the number of a node, its kind and the logical node that it comes from.
fn push_head(text: &mut String, number: usize, node: &PhysNode) -> PolarsResult<()>
    ensures text { (f : Number → Tree) → OnOk result (string_bytes text.new ≡ string_bytes text.old ++ head_text number (physical_node f node.now)) }
    ensures memory { OnErr result (result ≡ Err PolarsError.OutOfMemory) }
{
    text.write(number)?;
    text.push_str(" ")?;
    text.push_str(word(&node.kind))?;
    text.push_str(" ")?;
    text.write(node.origin.0)?;
    text.push_str(" ")?;
    Ok(())
}

/// Writes the line of a node.
fn push_line(
    text: &mut String,
    places: &Places,
    count: usize,
    number: usize,
    node: &PhysNode,
) -> PolarsResult<()>
    ensures text { (f : Number → Tree) → OnOk result (string_bytes text.new ≡ string_bytes text.old ++ line_text number (placed_node places.now.slots count (physical_node f node.now))) }
    ensures memory { OnErr result (result ≡ Err PolarsError.OutOfMemory) }
{
    push_head(text, number, node)?;
    push_inputs(text, places, count, &node.kind)?;
    text.push_str("\n")?;
    Ok(())
}

/// Writes the line of each node of an order, in which the nodes have these places.
fn push_lines(
    text: &mut String,
    phys: &SlotMap<PhysNodeKey, PhysNode>,
    places: &Places,
    order: &[PhysNodeKey],
) -> PolarsResult<()>
    requires places { (n : ℕ) → unwrap_or (value_at places.now.slots n) (length order.now) ≡ place_in (numbers_in order.now) n }
    requires there { AreThere phys.now.slots order.now }
    ensures text { (f : Number → Tree) → OnOk result (string_bytes text.new ≡ string_bytes text.old ++ lines_from 0 (shape_in (numbers_in order.now) (nodes_of f phys.now.slots))) }
    ensures memory { OnErr result (result ≡ Err PolarsError.OutOfMemory) }
{
    for number in 0..order.len() {
        let Some(node) = phys.get(order[number]) else {
            unreachable!();
        };
        push_line(text, places, order.len(), number, node)?;
    }
    Ok(())
}

/// The text of a physical plan: a line for each node that the root reaches, with its number, its kind, the logical node
/// that it comes from, and its inputs.
///
/// It takes time for each insert and each input. It fails only for want of memory.
pub fn plan_text(
    alloc: Global,
    phys: &SlotMap<PhysNodeKey, PhysNode>,
    root: PhysNodeKey,
) -> PolarsResult<String>
    requires root { IsSome (value_at phys.now.slots root.0) }
    requires whole { ReadsWhatIsThere phys.now.slots }
    ensures text { (f : Number → Tree) → IfOk result (λ text. string_bytes text ≡ text_of (shown f phys.now.slots root.0)) }
    ensures memory { OnErr result (result ≡ Err PolarsError.OutOfMemory) }
{
    let order = leaving_order(alloc, phys, root)?;
    let places = places_in(alloc, order.as_slice())?;
    let mut text = String::new(alloc);
    push_lines(&mut text, phys, &places, order.as_slice())?;
    Ok(text)
}
