// The table of a node's operation over one table.
ghost use Rattle.std.specs.Prelude.{◌≡◌, IfErr, IfOk};
ghost use Rattle.ps_pieces.specs.Computed.{MayFail};
ghost use Rattle.ps_pieces.specs.Operations.{IsFitFor, step_computed};
ghost use Rattle.ps_meaning.specs.Nodes.{GivesFrame};
ghost use Rattle.std.specs.Prelude.{◌∷◌, []};

use crate::called::called;
use crate::cases::{filtered, numbered, projected, selected, stacked};
use crate::parameters::{Operation, Parameters};
use ps_frame::frame::DataFrame;
use ps_frame::functions::Functions;
use ps_frame::refusal::PolarsResult;
use std::alloc::Global;

/// The table that a node gives over one which comes behind so many rows.
///
/// Fails by a fault that breaks the node there, by `Rows` where it gives too many rows, or for want of memory.
pub(crate) fn computed<F: Functions>(
    alloc: Global,
    parameters: &Parameters,
    before: usize,
    table: &DataFrame,
    functions: &F,
) -> PolarsResult<DataFrame>
    requires fit { IsFitFor (F.told functions.now) parameters.now before table.now }
    ensures table { IfOk result (λ f. GivesFrame (F.told functions.now) parameters.now.origin.0 (step_computed parameters.now before) (table.now ∷ []) f) }
    ensures fault { IfErr result (λ e. MayFail (F.told functions.now) parameters.now.origin.0 (step_computed parameters.now before) table.now e) }
{
    let at = parameters.origin;
    let exprs = &parameters.exprs;
    let schema = &parameters.schema;
    match &parameters.operation {
        Operation::Select(selectors) => {
            selected(alloc, at, selectors.as_slice(), exprs, table, schema)
        }
        Operation::HStack(selectors) => {
            stacked(alloc, at, selectors.as_slice(), exprs, table, schema)
        }
        Operation::IndependentSelect(selectors) => {
            selected(alloc, at, selectors.as_slice(), exprs, table, schema)
        }
        Operation::Filter(predicate) => filtered(alloc, at, predicate, exprs, table),
        Operation::SimpleProjection(columns) => {
            projected(alloc, columns.as_slice(), table, schema)
        }
        Operation::WithRowIndex { offset, .. } => {
            numbered(alloc, at, *offset, before, table, schema)
        }
        Operation::Map(function) => called(alloc, at, functions, *function, table),
    }
}
