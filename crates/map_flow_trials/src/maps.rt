//! The maps that are tried: over three rows of one column, cut into morsels of one row.
ghost use Rattle.std.specs.Prelude.{◌≡◌, IfOk};
ghost use Rattle.map_flow_trials.specs.Shown.{count_entries, count_map, count_named, numbers, over_numbers, reads, shown_of};
ghost use Rattle.ps_meaning.specs.Steps.{user};
ghost use Rattle.ps_owned_maps.specs.Owned.{step_of};

use crate::scripts::Turns;
use ps_frame::column::Column;
use ps_frame::error::FrameError;
use ps_frame::expr::AExpr;
use ps_frame::frame::DataFrame;
use ps_frame::items::Items;
use ps_frame::refusal::PolarsResult;
use ps_frame::schema::Schema;
use ps_frame::value::{DataType, Value};
use ps_meaning::map::MapKind;
use ps_meaning::options::{ExprIR, OutputName};
use ps_nodes::in_memory_map::InMemoryMapNode;
use ps_options::options::Options;
use ps_owned_maps::owned::OwnedMap;
use ps_ports::port_state::PortState;
use pu_base::{Arena, Node, PlSmallStr};
use std::alloc::Global;
use std::test::Fail;

impl Turns for InMemoryMapNode {
    ghost shown = { shown_of };

    fn turn(
        &mut self,
        alloc: Global,
        recv: &mut [PortState],
        send: &mut [PortState],
    ) -> PolarsResult<()> {
        self.update(alloc, recv, send)
    }

    fn claim(&mut self) {
        InMemoryMapNode::claim(self);
    }
}

// One column of numbers.
fn schema(alloc: Global) -> Result<Schema, Fail>
    ensures { IfOk result (λ s. s ≡ numbers) }
{
    let mut schema = Schema::new(alloc);
    let name = PlSmallStr::from_static(alloc, "a")?;
    schema.push(alloc, name, DataType::Int64)?;
    Ok(schema)
}

/// So many rows with this number.
pub fn table(alloc: Global, number: i64, count: usize) -> Result<DataFrame, Fail> {
    let mut values = Vec::new(alloc);
    for _ in 0..count {
        values.push(Value::Int64(number))?;
    }
    let columns = vec![in alloc; Column::new(alloc, DataType::Int64, values)?]?;
    Ok(DataFrame::new(alloc, schema(alloc)?, columns)?)
}

// One row of another kind.
fn flag(alloc: Global) -> Result<DataFrame, Fail> {
    let mut schema = Schema::new(alloc);
    let name = PlSmallStr::from_static(alloc, "a")?;
    schema.push(alloc, name, DataType::Boolean)?;
    let values = vec![in alloc; Value::Boolean(true)]?;
    let columns = vec![in alloc; Column::new(alloc, DataType::Boolean, values)?]?;
    Ok(DataFrame::new(alloc, schema, columns)?)
}

/// It stored so many rows with this number.
#[tactic(auto, using(crate::proofs::Turned::fed))]
pub fn fed(
    alloc: Global,
    mut map: InMemoryMapNode,
    number: i64,
    count: usize,
) -> Result<InMemoryMapNode, Fail>
    ensures { IfOk result (λ n. shown_of n ≡ shown_of map) }
{
    map.store(alloc, &table(alloc, number, count)?)?;
    Ok(map)
}

/// It refused a row of another kind.
#[tactic(auto, using(crate::proofs::Turned::dropped))]
pub fn refuses_flag(alloc: Global, mut map: InMemoryMapNode) -> Result<InMemoryMapNode, Fail>
    ensures { IfOk result (λ n. shown_of n ≡ shown_of map) }
{
    match map.store(alloc, &flag(alloc)?) {
        Ok(()) => Err(Fail::from("a row of another kind")),
        Err(FrameError::Kind) => Ok(map),
        Err(error) => Err(Fail::from(error)),
    }
}

// The column, and the count that is read off it: a negative number is none.
fn entries(alloc: Global) -> Result<Arena<AExpr>, Fail>
    ensures { IfOk result (λ arena. arena.items ≡ count_entries) }
{
    let mut entries = Arena::new(alloc);
    entries.add(AExpr::Column(PlSmallStr::from_static(alloc, "a")?))?;
    entries.add(AExpr::Cast {
        expr: Node(0),
        dtype: DataType::IdxSize,
        strict: true,
    })?;
    Ok(entries)
}

// The count in that arena, under the name of the column.
fn count(alloc: Global) -> Result<ExprIR, Fail>
    ensures { IfOk result (λ e. e ≡ count_named) }
{
    let name = PlSmallStr::from_static(alloc, "a")?;
    Ok(ExprIR {
        node: Node(1),
        output_name: OutputName::Alias(name),
    })
}

// The map that reads the count.
fn count_kind(alloc: Global) -> Result<MapKind, Fail>
    ensures { IfOk result (λ k. k ≡ count_map) }
{
    let exprs = vec![in alloc; count(alloc)?]?;
    Ok(MapKind::Select(Items::new(exprs)))
}

#[tactic(auto, using(crate::proofs::Counts::whole, crate::proofs::Counts::read))]
fn reading(alloc: Global) -> Result<OwnedMap, Fail>
    ensures { IfOk result (λ m. step_of m ≡ reads) }
{
    let kind = count_kind(alloc)?;
    let entries = entries(alloc)?;
    let map = OwnedMap::new(alloc, &kind, &entries)?;
    Ok(map)
}

fn calling(alloc: Global, function: usize) -> Result<OwnedMap, Fail>
    ensures { IfOk result (λ m. step_of m ≡ user function) }
{
    let map = OwnedMap::new(alloc, &MapKind::Function(function), &Arena::new(alloc))?;
    Ok(map)
}

// One worker, one row a morsel.
fn one_by_one() -> Result<Options, Fail> {
    match Options::new(1, 1, 1, 0) {
        Some(options) => Ok(options),
        None => Err(Fail::from("no options")),
    }
}

// A new node with this map.
fn over(alloc: Global, map: OwnedMap) -> Result<InMemoryMapNode, Fail>
    ensures { IfOk result (λ n. shown_of n ≡ over_numbers (step_of map)) }
{
    let schema = schema(alloc)?;
    let options = one_by_one()?;
    let mut node = InMemoryMapNode::new(schema, map);
    node.cut_by(options);
    Ok(node)
}

/// Reads counts off three rows with this number.
pub fn reads_counts(alloc: Global, number: i64) -> Result<InMemoryMapNode, Fail>
    ensures { IfOk result (λ n. shown_of n ≡ over_numbers reads) }
{
    let node = over(alloc, reading(alloc)?)?;
    fed(alloc, node, number, 3)
}

/// Calls this function with three rows.
pub fn calls_function(alloc: Global, function: usize) -> Result<InMemoryMapNode, Fail>
    ensures { IfOk result (λ n. shown_of n ≡ over_numbers (user function)) }
{
    let node = over(alloc, calling(alloc, function)?)?;
    fed(alloc, node, 7, 3)
}
