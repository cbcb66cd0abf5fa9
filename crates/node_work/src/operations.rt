//! What new nodes do with morsels, by their kinds.
ghost use Rattle.std.specs.Prelude.{◌≡◌, Err, IfOk, OnErr};
ghost use Rattle.node_work.specs.Working.{IsNewWork, IsOperationOf};
ghost use Rattle.plain_nodes.specs.Plain as plain;
ghost use Rattle.plain_nodes.specs.Seen.{kind_of};
ghost use Rattle.ps_frame.specs.declared.refusal.PolarsError.{PolarsError};
ghost use Rattle.ps_meaning.specs.Shape.{PhysicalKind, in_memory_sink};

use crate::copies::{copied, names_copied};
use crate::stored_morsels::StoredMorsels;
use crate::work::Work;
use plain_nodes::filter::FilterNode;
use plain_nodes::independent_select::InputIndependentSelectNode;
use plain_nodes::map::MapNode;
use plain_nodes::projection::SimpleProjectionNode;
use plain_nodes::row_index::WithRowIndexNode;
use plain_nodes::select::SelectNode;
use ps_frame::expr::AExpr;
use ps_frame::refusal::{PolarsError, PolarsResult};
use ps_frame::schema::Schema;
use ps_pieces::parameters::{Operation, Parameters};
use pu_base::{Arena, Node};
use std::alloc::Global;
use std::sync::Arc;

/// What a node computes, with its expressions in an arena of its own.
#[derive(Drop)]
struct Held {
    operation: Operation,
    exprs: Arena<AExpr>,
}

/// The node computes this, its table has this schema, and its faults are told of this logical node.
fn computes(
    alloc: Global,
    held: PolarsResult<Held>,
    schema: Schema,
    origin: Node,
) -> PolarsResult<Work>
    requires memory { OnErr held (held ≡ Err PolarsError.OutOfMemory) }
    ensures work { (kind : PhysicalKind) → IfOk held (λ h. IsOperationOf h.exprs.items kind h.operation) → IfOk result (IsNewWork kind schema origin.0) }
    ensures memory { OnErr result (result ≡ Err PolarsError.OutOfMemory) }
{
    let Held { operation, exprs } = match held {
        Ok(held) => held,
        Err(error) => return Err(error),
    };
    let parameters = Parameters {
        operation,
        exprs,
        schema,
        origin,
    };
    match Arc::new(alloc, parameters) {
        Ok(parameters) => Ok(Work::Computes(parameters)),
        Err(_parameters) => Err(PolarsError::OutOfMemory),
    }
}

/// Columns of expressions, alone or beside those of the input.
fn selected(alloc: Global, node: &SelectNode) -> PolarsResult<Held>
    ensures operation { IfOk result (λ h. IsOperationOf h.exprs.items (kind_of (plain.select node.now)) h.operation) }
    ensures memory { OnErr result (result ≡ Err PolarsError.OutOfMemory) }
{
    let mut exprs = Arena::new(alloc);
    match copied(alloc, node.selectors(), &mut exprs) {
        Ok(selectors) => {
            let operation = if node.extends_original() {
                Operation::HStack(selectors)
            } else {
                Operation::Select(selectors)
            };
            Ok(Held { operation, exprs })
        }
        Err(error) => Err(error),
    }
}

/// Columns of expressions that read no input.
fn selected_alone(alloc: Global, node: &InputIndependentSelectNode) -> PolarsResult<Held>
    ensures operation { IfOk result (λ h. IsOperationOf h.exprs.items (kind_of (plain.independent_select node.now)) h.operation) }
    ensures memory { OnErr result (result ≡ Err PolarsError.OutOfMemory) }
{
    let mut exprs = Arena::new(alloc);
    match copied(alloc, node.selectors(), &mut exprs) {
        Ok(selectors) => Ok(Held {
            operation: Operation::IndependentSelect(selectors),
            exprs,
        }),
        Err(error) => Err(error),
    }
}

/// The rows of which a predicate is true.
fn filtered(alloc: Global, node: &FilterNode) -> PolarsResult<Held>
    ensures operation { IfOk result (λ h. IsOperationOf h.exprs.items (kind_of (plain.filter node.now)) h.operation) }
    ensures memory { OnErr result (result ≡ Err PolarsError.OutOfMemory) }
{
    let mut exprs = Arena::new(alloc);
    match node.predicate().copy_into(alloc, &mut exprs) {
        Ok(predicate) => Ok(Held {
            operation: Operation::Filter(predicate),
            exprs,
        }),
        Err(error) => Err(error),
    }
}

/// Some columns, which need no expression.
fn projected(alloc: Global, node: &SimpleProjectionNode) -> PolarsResult<Held>
    ensures operation { IfOk result (λ h. IsOperationOf h.exprs.items (kind_of (plain.simple_projection node.now)) h.operation) }
    ensures memory { OnErr result (result ≡ Err PolarsError.OutOfMemory) }
{
    match names_copied(alloc, node.columns()) {
        Ok(columns) => Ok(Held {
            operation: Operation::SimpleProjection(columns),
            exprs: Arena::new(alloc),
        }),
        Err(error) => Err(error),
    }
}

/// The numbers of rows in front of them, which need no expression.
fn numbered(alloc: Global, node: &WithRowIndexNode) -> PolarsResult<Held>
    ensures operation { IfOk result (λ h. IsOperationOf h.exprs.items (kind_of (plain.with_row_index node.now)) h.operation) }
    ensures memory { OnErr result (result ≡ Err PolarsError.OutOfMemory) }
{
    match node.name().try_clone(alloc) {
        Ok(name) => Ok(Held {
            operation: Operation::WithRowIndex {
                name,
                offset: node.offset(),
            },
            exprs: Arena::new(alloc),
        }),
        Err(_error) => Err(PolarsError::OutOfMemory),
    }
}

/// What a select does, whose table has this schema and whose faults are told of this logical node.
///
/// Fails only for want of memory, as do the others below.
pub fn select(alloc: Global, node: &SelectNode, schema: Schema, origin: Node) -> PolarsResult<Work>
    ensures work { IfOk result (IsNewWork (kind_of (plain.select node.now)) schema origin.0) }
    ensures memory { OnErr result (result ≡ Err PolarsError.OutOfMemory) }
{
    computes(alloc, selected(alloc, node), schema, origin)
}

/// What a select does that reads no input.
pub fn independent_select(
    alloc: Global,
    node: &InputIndependentSelectNode,
    schema: Schema,
    origin: Node,
) -> PolarsResult<Work>
    ensures work { IfOk result (IsNewWork (kind_of (plain.independent_select node.now)) schema origin.0) }
    ensures memory { OnErr result (result ≡ Err PolarsError.OutOfMemory) }
{
    computes(alloc, selected_alone(alloc, node), schema, origin)
}

/// What a filter does.
pub fn filter(alloc: Global, node: &FilterNode, schema: Schema, origin: Node) -> PolarsResult<Work>
    ensures work { IfOk result (IsNewWork (kind_of (plain.filter node.now)) schema origin.0) }
    ensures memory { OnErr result (result ≡ Err PolarsError.OutOfMemory) }
{
    computes(alloc, filtered(alloc, node), schema, origin)
}

/// What a projection does.
pub fn projection(
    alloc: Global,
    node: &SimpleProjectionNode,
    schema: Schema,
    origin: Node,
) -> PolarsResult<Work>
    ensures work { IfOk result (IsNewWork (kind_of (plain.simple_projection node.now)) schema origin.0) }
    ensures memory { OnErr result (result ≡ Err PolarsError.OutOfMemory) }
{
    computes(alloc, projected(alloc, node), schema, origin)
}

/// What a row index does.
pub fn row_index(
    alloc: Global,
    node: &WithRowIndexNode,
    schema: Schema,
    origin: Node,
) -> PolarsResult<Work>
    ensures work { IfOk result (IsNewWork (kind_of (plain.with_row_index node.now)) schema origin.0) }
    ensures memory { OnErr result (result ≡ Err PolarsError.OutOfMemory) }
{
    computes(alloc, numbered(alloc, node), schema, origin)
}

/// What a map of a streamable function does.
pub fn map(alloc: Global, node: &MapNode, schema: Schema, origin: Node) -> PolarsResult<Work>
    ensures work { IfOk result (IsNewWork (kind_of (plain.map node.now)) schema origin.0) }
    ensures memory { OnErr result (result ≡ Err PolarsError.OutOfMemory) }
{
    let held = Held {
        operation: Operation::Map(node.function()),
        exprs: Arena::new(alloc),
    };
    computes(alloc, Ok(held), schema, origin)
}

/// What a sink does. It takes no memory.
pub fn sink(alloc: Global, schema: Schema, origin: Node) -> Work
    ensures { IsNewWork in_memory_sink schema origin.0 result }
{
    Work::Stores(StoredMorsels::new(alloc, schema, origin))
}
