// The nodes without expressions.
ghost use Rattle.std.specs.Prelude.{◌≡◌, IfErr, IfOk, List, length, ℕ};
ghost use Rattle.ps_frame.specs.Functions.{Functions as Answers};
ghost use Rattle.ps_meaning.specs.Nodes.{GivesFrame, MayFault};
ghost use Rattle.ps_meaning.specs.Steps.{cache, function_step, hconcat as hconcat_step, project as project_step, row_index as row_index_step, scan as scan_step, sink, slice as slice_step, union as union_step, user as user_step};
ghost use Rattle.ps_meaning.specs.declared.options.SinkType.{SinkType};
ghost use Rattle.ready_steps.specs.Ready.{IsReady, IsReadyFor};

use crate::inputs::only;
use ps_frame::frame::DataFrame;
use ps_frame::functions::Functions;
use ps_frame::items::Items;
use ps_frame::refusal::PolarsResult;
use ps_frame::schema::Schema;
use ps_meaning::options::FunctionIR;
use ps_tables::cut::slice;
use ps_tables::hconcat::hconcat;
use ps_tables::pass::pass;
use ps_tables::project::project;
use ps_tables::row_index::row_index;
use ps_tables::union::union;
use ps_tables::user::user;
use pu_base::{Node, PlSmallStr};
use std::alloc::Global;

// A scan: the table that it holds, or the columns of it that it names.
pub(crate) fn scanned(
    alloc: Global,
    at: Node,
    df: &DataFrame,
    projection: &Option<Items<PlSmallStr>>,
    inputs: &[DataFrame],
    schema: &Schema,
) -> PolarsResult<DataFrame>
    requires ready { IsReady (scan_step df.now projection.now) inputs.now schema.now }
    requires inputs { length inputs.now ≡ 0 }
    ensures table { IfOk result (λ f. (F : Answers) → GivesFrame F at.0 (scan_step df.now projection.now) inputs.now f) }
    ensures fault { IfErr result (λ e. (F : Answers) → MayFault F at.0 (scan_step df.now projection.now) inputs.now e) }
{
    match projection {
        Some(names) => project(alloc, df, names.as_slice(), schema),
        None => pass(alloc, df),
    }
}

pub(crate) fn projected(
    alloc: Global,
    at: Node,
    names: &[PlSmallStr],
    inputs: &[DataFrame],
    schema: &Schema,
) -> PolarsResult<DataFrame>
    requires ready { IsReady (project_step names.now) inputs.now schema.now }
    requires inputs { length inputs.now ≡ 1 }
    ensures table { IfOk result (λ f. (F : Answers) → GivesFrame F at.0 (project_step names.now) inputs.now f) }
    ensures fault { IfErr result (λ e. (F : Answers) → MayFault F at.0 (project_step names.now) inputs.now e) }
{
    project(alloc, only(inputs), names, schema)
}

pub(crate) fn sliced(
    alloc: Global,
    at: Node,
    offset: &i64,
    len: usize,
    inputs: &[DataFrame],
) -> PolarsResult<DataFrame>
    requires { length inputs.now ≡ 1 }
    ensures table { IfOk result (λ f. (F : Answers) → GivesFrame F at.0 (slice_step offset.now len) inputs.now f) }
    ensures fault { IfErr result (λ e. (F : Answers) → MayFault F at.0 (slice_step offset.now len) inputs.now e) }
{
    slice(alloc, only(inputs), *offset, len)
}

// A sink or a cache, each of which gives its input.
pub(crate) fn passed(alloc: Global, at: Node, inputs: &[DataFrame]) -> PolarsResult<DataFrame>
    requires { length inputs.now ≡ 1 }
    ensures sink { IfOk result (λ f. (F : Answers) (payload : SinkType) → GivesFrame F at.0 (sink payload) inputs.now f) }
    ensures sink_fault { IfErr result (λ e. (F : Answers) (payload : SinkType) → MayFault F at.0 (sink payload) inputs.now e) }
    ensures cache { IfOk result (λ f. (F : Answers) (id : ℕ) → GivesFrame F at.0 (cache id) inputs.now f) }
    ensures cache_fault { IfErr result (λ e. (F : Answers) (id : ℕ) → MayFault F at.0 (cache id) inputs.now e) }
{
    pass(alloc, only(inputs))
}

pub(crate) fn united(
    alloc: Global,
    at: Node,
    cut: Option<(i64, usize)>,
    inputs: &[DataFrame],
    schema: &Schema,
) -> PolarsResult<DataFrame>
    requires { IsReady (union_step cut) inputs.now schema.now }
    ensures table { IfOk result (λ f. (F : Answers) → GivesFrame F at.0 (union_step cut) inputs.now f) }
    ensures fault { IfErr result (λ e. (F : Answers) → MayFault F at.0 (union_step cut) inputs.now e) }
{
    union(alloc, at, inputs, schema, cut)
}

pub(crate) fn side_by_side(
    alloc: Global,
    at: Node,
    inputs: &[DataFrame],
    schema: &Schema,
) -> PolarsResult<DataFrame>
    requires { IsReady hconcat_step inputs.now schema.now }
    ensures table { IfOk result (λ f. (F : Answers) → GivesFrame F at.0 hconcat_step inputs.now f) }
    ensures fault { IfErr result (λ e. (F : Answers) → MayFault F at.0 hconcat_step inputs.now e) }
{
    hconcat(alloc, inputs, schema)
}

// A function of the engine or of the user.
pub(crate) fn mapped<F: Functions>(
    alloc: Global,
    at: Node,
    function: &FunctionIR,
    functions: &F,
    inputs: &[DataFrame],
    schema: &Schema,
) -> PolarsResult<DataFrame>
    requires ready { IsReadyFor (F.told functions.now) (function_step function.now) inputs.now schema.now }
    requires inputs { length inputs.now ≡ 1 }
    ensures table { IfOk result (λ f. GivesFrame (F.told functions.now) at.0 (function_step function.now) inputs.now f) }
    ensures fault { IfErr result (λ e. MayFault (F.told functions.now) at.0 (function_step function.now) inputs.now e) }
{
    match function {
        FunctionIR::RowIndex { offset, .. } => indexed(alloc, at, *offset, inputs, schema),
        FunctionIR::User(n) => called(alloc, at, *n, functions, inputs, schema),
    }
}

fn indexed(
    alloc: Global,
    at: Node,
    offset: Option<u32>,
    inputs: &[DataFrame],
    schema: &Schema,
) -> PolarsResult<DataFrame>
    requires ready { (name : List ℕ) × IsReady (row_index_step name offset) inputs.now schema.now }
    requires inputs { length inputs.now ≡ 1 }
    ensures table { IfOk result (λ f. (F : Answers) (name : List ℕ) → IsReady (row_index_step name offset) inputs.now schema.now → GivesFrame F at.0 (row_index_step name offset) inputs.now f) }
    ensures fault { IfErr result (λ e. (F : Answers) (name : List ℕ) → MayFault F at.0 (row_index_step name offset) inputs.now e) }
{
    row_index(alloc, at, offset, only(inputs), schema)
}

fn called<F: Functions>(
    alloc: Global,
    at: Node,
    n: usize,
    functions: &F,
    inputs: &[DataFrame],
    schema: &Schema,
) -> PolarsResult<DataFrame>
    requires ready { IsReadyFor (F.told functions.now) (user_step n) inputs.now schema.now }
    requires inputs { length inputs.now ≡ 1 }
    ensures table { IfOk result (λ f. GivesFrame (F.told functions.now) at.0 (user_step n) inputs.now f) }
    ensures fault { IfErr result (λ e. MayFault (F.told functions.now) at.0 (user_step n) inputs.now e) }
{
    // By hand, since the clause on faults speaks of the error itself.
    match pass(alloc, only(inputs)) {
        Ok(df) => user(alloc, at, functions, n, df),
        Err(error) => Err(error),
    }
}
