// The schemas of nodes that name columns: scans, projections and distinct rows.
ghost use Rattle.std.specs.Prelude.{◌≡◌, ◌∷◌, Bool, IfErr, IfOk, List, None, OnOk, Some, []};
ghost use Rattle.ps_frame.specs.Functions.{Functions};
ghost use Rattle.ps_frame.specs.Tables.{Fields};
ghost use Rattle.ps_meaning.specs.Steps.{Cut, distinct as distinct_step, project as project_step, scan as scan_step};
ghost use Rattle.ps_meaning.specs.declared.options.UniqueKeepStrategy.{UniqueKeepStrategy};
ghost use Rattle.ps_validate.specs.Nodes.{GivesSchema, IsNodeError};

use crate::columns::{named_columns, shared_columns, some_columns};
use ps_frame::frame::DataFrame;
use ps_frame::refusal::PolarsResult;
use ps_frame::schema::Schema;
use pu_base::{Node, PlSmallStr};
use std::alloc::Global;

/// The schema of a scan of all columns: that of the table, which is shared.
pub fn scan_schema(alloc: Global, at: Node, df: &DataFrame) -> PolarsResult<Schema>
    ensures given { IfOk result (λ s. (F : Functions) → GivesSchema F (scan_step df.now None) [] s) }
    ensures refused { IfErr result (λ e. (F : Functions) → IsNodeError F at (scan_step df.now None) [] e) }
{
    let schema = df.schema();
    // A law: no name stands twice in it, so no rule on names refuses the step.
    schema.names_differ();
    shared_columns(alloc, at, schema)
}

/// The schema of a scan of named columns.
pub fn named_scan_schema(
    alloc: Global,
    at: Node,
    df: &DataFrame,
    names: &[PlSmallStr],
) -> PolarsResult<Schema>
    ensures given { IfOk result (λ s. (F : Functions) → GivesSchema F (scan_step df.now (Some names.now)) [] s) }
    ensures refused { IfErr result (λ e. (F : Functions) → IsNodeError F at (scan_step df.now (Some names.now)) [] e) }
{
    let schema = named_columns(alloc, at, names, df.schema())?;
    // A law: no name stands twice in it, so no rule on names refuses the step.
    schema.names_differ();
    some_columns(at, schema)
}

/// The schema of a projection.
pub fn project_schema(
    alloc: Global,
    at: Node,
    names: &[PlSmallStr],
    input: &Schema,
) -> PolarsResult<Schema>
    ensures given { IfOk result (λ s. (F : Functions) → GivesSchema F (project_step names.now) (input.now ∷ []) s) }
    ensures refused { IfErr result (λ e. (F : Functions) → IsNodeError F at (project_step names.now) (input.now ∷ []) e) }
{
    let schema = named_columns(alloc, at, names, input)?;
    // A law: no name stands twice in it, so no rule on names refuses the step.
    schema.names_differ();
    some_columns(at, schema)
}

/// The schema of a distinct over all columns: that of the input, which is shared.
pub fn distinct_schema(alloc: Global, at: Node, input: &Schema) -> PolarsResult<Schema>
    ensures given { IfOk result (λ s. (F : Functions) (maintain : Bool) (keep : UniqueKeepStrategy) (cut : Cut) → GivesSchema F (distinct_step (record { subset = None; maintain_order = maintain; keep = keep; cut = cut })) (input.now ∷ []) s) }
    ensures refused { IfErr result (λ e. (F : Functions) (maintain : Bool) (keep : UniqueKeepStrategy) (cut : Cut) → IsNodeError F at (distinct_step (record { subset = None; maintain_order = maintain; keep = keep; cut = cut })) (input.now ∷ []) e) }
{
    // A law: no name stands twice in it, so no rule on names refuses the step.
    input.names_differ();
    shared_columns(alloc, at, input)
}

/// The schema of a distinct over named columns: that of the input, which is shared.
pub fn named_distinct_schema(
    alloc: Global,
    at: Node,
    names: &[PlSmallStr],
    input: &Schema,
) -> PolarsResult<Schema>
    ensures given { IfOk result (λ s. (F : Functions) (maintain : Bool) (keep : UniqueKeepStrategy) (cut : Cut) → GivesSchema F (distinct_step (record { subset = Some names.now; maintain_order = maintain; keep = keep; cut = cut })) (input.now ∷ []) s) }
    ensures refused { IfErr result (λ e. (F : Functions) (maintain : Bool) (keep : UniqueKeepStrategy) (cut : Cut) → IsNodeError F at (distinct_step (record { subset = Some names.now; maintain_order = maintain; keep = keep; cut = cut })) (input.now ∷ []) e) }
{
    let columns = named_columns(alloc, at, names, input)?;
    // A law: no name stands twice in either, so no rule on names refuses the step.
    columns.names_differ();
    input.names_differ();
    shared_columns(alloc, at, input)
}
