// The columns of aggregates: a value for each group.
ghost use Rattle.std.specs.Prelude.{◌≡◌, ◌<◌, ◌≤◌, ℕ, Err, IfErr, IfOk, IfSome, IsSome, IsTrue, OnErr, OnOk, Some, get_or, length, map};
ghost use Rattle.std.specs.List.{AllByRecursion, AllZip};
ghost use Rattle.ps_expr_eval.specs.Held.{values_of};
ghost use Rattle.ps_frame.specs.Frames.{HasKinds, kinds_of};
ghost use Rattle.ps_frame.specs.Lawful.{FitsFrame};
ghost use Rattle.ps_frame.specs.Eval.{eval};
ghost use Rattle.ps_frame.specs.Tables.{whole};
ghost use Rattle.ps_frame.specs.Trees.{IsComplete, IsExpression, tree_at};
ghost use Rattle.ps_frame.specs.Series.{all_fit};
ghost use Rattle.ps_frame.specs.Typing.{kind_over};
ghost use Rattle.ps_frame.specs.declared.value.Value.TheVariants as val;
ghost use Rattle.ps_groups.specs.Errors.{IsErrorAt};
ghost use Rattle.ps_groups.specs.Grouped.{GivesFirst, IsAggregate, IsFaultOfAny, IsFaultOver, IsValueOf, last_fields};
ghost use Rattle.ps_groups.specs.Reductions.{ReadsWithin, reduced_values};
ghost use Rattle.ps_groups.specs.GroupTables.{IsByGroup, IsNumberingOf, group_tables, part_in, parts_in};
ghost use Rattle.ps_keys.specs.KeyRows.{places_of_each};
ghost use Rattle.ps_meaning.specs.Groups.{only_value};
ghost use Rattle.ps_meaning.specs.Steps.{key_trees};

use crate::reductions::{Reduction, reduced, reduction_of};
use crate::tables::{table_by_group, table_of_group};
use expression_reads::read_columns::read_columns;
use ps_expr_eval::computed::{ComputedColumn, Values, copy_of};
use ps_expr_eval::evaluate::part_of;
use ps_frame::column::Column;
use ps_frame::expr::AExpr;
use ps_frame::frame::DataFrame;
use ps_frame::refusal::{PolarsError, PolarsResult};
use ps_frame::schema::Schema;
use ps_frame::value::{DataFault, DataType, Value};
use ps_keys::key_rows::{RowsByKey, rows_by_key};
use ps_keys::numbering::Numbering;
use ps_meaning::faults::fault_at;
use ps_meaning::options::ExprIR;
use ps_tables::fits::table_fits;
use ps_tables::framed::column_of_values;
use pu_base::{Arena, Node};
use std::alloc::{AllocError, Global};

/// The columns of aggregates over the groups of a table's rows by their key numbers, whose fields are the last ones of
/// a schema.
///
/// Fails by a fault that one of them has over a group, or for want of memory.
pub(crate) fn aggregate_columns(
    alloc: Global,
    at: Node,
    aggs: &[ExprIR],
    arena: &Arena<AExpr>,
    df: &DataFrame,
    numbering: &Numbering,
    schema: &Schema,
) -> PolarsResult<Vec<Column>>
    requires complete { AllByRecursion IsComplete (key_trees (tree_at arena.now.items) aggs.now) }
    requires kinds { map (kind_over df.now.schema) (key_trees (tree_at arena.now.items) aggs.now) ≡ map Some (kinds_of (last_fields (length aggs.now) schema.now)) }
    requires count { length aggs.now ≤ length schema.now }
    requires groups { IsNumberingOf df.now numbering.now }
    ensures kinds { IfOk result (λ columns. HasKinds (last_fields (length aggs.now) schema.now) columns.items) }
    ensures columns { IfOk result (λ columns. AllZip (IsAggregate at.0 (group_tables df.now numbering.now)) (key_trees (tree_at arena.now.items) aggs.now) columns.items) }
    ensures fault { IfErr result (IsErrorAt at.0 (IsFaultOfAny at.0 (group_tables df.now numbering.now) (key_trees (tree_at arena.now.items) aggs.now))) }
{
    // A law: each row has a value for each field, and so have the tables of the groups.
    table_fits(df);
    let from = schema.len() - aggs.len();
    let mut rows_of_keys = None;
    let mut by_group = None;
    let mut columns = Vec::with_capacity(alloc, aggs.len())?;
    for (i, agg) in aggs.iter().enumerate() {
        let dtype = schema.kind(from + i);
        // By hand: behind the conversion of `?` the proof would lose that this is the very error of the aggregate.
        match aggregate_column(
            alloc,
            at,
            agg.node,
            arena,
            df,
            numbering,
            &mut rows_of_keys,
            &mut by_group,
            dtype,
        ) {
            Ok(column) => columns.push(column)?,
            Err(error) => return Err(error),
        }
    }
    Ok(columns)
}

// The column of an aggregate over groups. Their rows are put together, and then a table of them, once that is needed.
fn aggregate_column(
    alloc: Global,
    at: Node,
    expr: Node,
    arena: &Arena<AExpr>,
    df: &DataFrame,
    numbering: &Numbering,
    rows_of_keys: &mut Option<RowsByKey>,
    by_group: &mut Option<DataFrame>,
    dtype: DataType,
) -> PolarsResult<Column>
    requires expression { IsExpression arena.now.items expr }
    requires kind { kind_over df.now.schema (tree_at arena.now.items expr) ≡ Some dtype }
    requires fit { FitsFrame df.now }
    requires groups { IsNumberingOf df.now numbering.now }
    requires together { IfSome rows_of_keys.old (λ rows. rows ≡ places_of_each (length numbering.now.firsts.items) numbering.now.keys.items) }
    requires apart { IfSome by_group.old (IsByGroup df.now (places_of_each (length numbering.now.firsts.items) numbering.now.keys.items)) }
    ensures kind { IfOk result (λ c. c.kind ≡ dtype) }
    ensures column { IfOk result (IsAggregate at.0 (group_tables df.now numbering.now) (tree_at arena.now.items expr)) }
    ensures error { IfErr result (IsErrorAt at.0 (IsFaultOver at.0 (group_tables df.now numbering.now) (tree_at arena.now.items expr))) }
    ensures together { OnOk result (IfSome rows_of_keys.new (λ rows. rows ≡ places_of_each (length numbering.now.firsts.items) numbering.now.keys.items)) }
    ensures apart { OnOk result (IfSome by_group.new (IsByGroup df.now (places_of_each (length numbering.now.firsts.items) numbering.now.keys.items))) }
{
    // Read for its clause alone: there are few enough rows that a count of them is a value.
    let _height = df.height();
    match reduction_of(expr, arena, df.schema()) {
        Some(reduction) => reduced_column(alloc, reduction, df, numbering, rows_of_keys, dtype),
        None => other_column(
            alloc,
            at,
            expr,
            arena,
            df,
            numbering,
            rows_of_keys,
            by_group,
            dtype,
        ),
    }
}

// The column of a reduction over groups.
fn reduced_column(
    alloc: Global,
    reduction: Reduction,
    df: &DataFrame,
    numbering: &Numbering,
    rows_of_keys: &mut Option<RowsByKey>,
    dtype: DataType,
) -> PolarsResult<Column>
    requires within { ReadsWithin (length df.now.schema) reduction }
    requires groups { IsNumberingOf df.now numbering.now }
    requires together { IfSome rows_of_keys.old (λ rows. rows ≡ places_of_each (length numbering.now.firsts.items) numbering.now.keys.items) }
    requires fit { IsTrue (all_fit dtype (reduced_values df.now (length numbering.now.firsts.items) numbering.now.keys.items reduction)) }
    ensures made { IfOk result (λ c. c ≡ record { kind = dtype; values = reduced_values df.now (length numbering.now.firsts.items) numbering.now.keys.items reduction }) }
    ensures together { OnOk result (IfSome rows_of_keys.new (λ rows. rows ≡ places_of_each (length numbering.now.firsts.items) numbering.now.keys.items)) }
    ensures memory { OnErr result (result ≡ Err PolarsError.OutOfMemory) }
{
    let keys = numbering.keys.as_slice();
    let count = numbering.firsts.len();
    let values = reduced(alloc, reduction, df, keys, count, rows_of_keys)?;
    column_of_values(alloc, dtype, values)
}

// The column of an aggregate that is no reduction.
fn other_column(
    alloc: Global,
    at: Node,
    expr: Node,
    arena: &Arena<AExpr>,
    df: &DataFrame,
    numbering: &Numbering,
    rows_of_keys: &mut Option<RowsByKey>,
    by_group: &mut Option<DataFrame>,
    dtype: DataType,
) -> PolarsResult<Column>
    requires expression { IsExpression arena.now.items expr }
    requires kind { kind_over df.now.schema (tree_at arena.now.items expr) ≡ Some dtype }
    requires fit { FitsFrame df.now }
    requires groups { IsNumberingOf df.now numbering.now }
    requires together { IfSome rows_of_keys.old (λ rows. rows ≡ places_of_each (length numbering.now.firsts.items) numbering.now.keys.items) }
    requires apart { IfSome by_group.old (IsByGroup df.now (places_of_each (length numbering.now.firsts.items) numbering.now.keys.items)) }
    ensures kind { IfOk result (λ c. c.kind ≡ dtype) }
    ensures column { IfOk result (IsAggregate at.0 (group_tables df.now numbering.now) (tree_at arena.now.items expr)) }
    ensures error { IfErr result (IsErrorAt at.0 (IsFaultOver at.0 (group_tables df.now numbering.now) (tree_at arena.now.items expr))) }
    ensures together { OnOk result (IfSome rows_of_keys.new (λ rows. rows ≡ places_of_each (length numbering.now.firsts.items) numbering.now.keys.items)) }
    ensures apart { OnOk result (IfSome by_group.new (IsByGroup df.now (places_of_each (length numbering.now.firsts.items) numbering.now.keys.items))) }
{
    let keys = numbering.keys.as_slice();
    let count = numbering.firsts.len();
    let groups = rows_of_keys.get_or_try_insert_with(|| rows_by_key(alloc, keys, count))?;
    grouped_column(
        alloc, at, expr, arena, df, numbering, groups, by_group, dtype,
    )
}

// The same, where the rows of each group are put together. Only the columns that the aggregate reads are cut by group.
fn grouped_column(
    alloc: Global,
    at: Node,
    expr: Node,
    arena: &Arena<AExpr>,
    df: &DataFrame,
    numbering: &Numbering,
    groups: &RowsByKey,
    by_group: &mut Option<DataFrame>,
    dtype: DataType,
) -> PolarsResult<Column>
    requires expression { IsExpression arena.now.items expr }
    requires kind { kind_over df.now.schema (tree_at arena.now.items expr) ≡ Some dtype }
    requires fit { FitsFrame df.now }
    requires groups { IsNumberingOf df.now numbering.now }
    requires together { groups.now ≡ places_of_each (length numbering.now.firsts.items) numbering.now.keys.items }
    requires apart { IfSome by_group.old (IsByGroup df.now (places_of_each (length numbering.now.firsts.items) numbering.now.keys.items)) }
    ensures kind { IfOk result (λ c. c.kind ≡ dtype) }
    ensures column { IfOk result (IsAggregate at.0 (group_tables df.now numbering.now) (tree_at arena.now.items expr)) }
    ensures error { IfErr result (IsErrorAt at.0 (IsFaultOver at.0 (group_tables df.now numbering.now) (tree_at arena.now.items expr))) }
    ensures apart { OnOk result (IfSome by_group.new (IsByGroup df.now (places_of_each (length numbering.now.firsts.items) numbering.now.keys.items))) }
{
    let table = by_group.get_or_try_insert_with(|| table_by_group(alloc, df, numbering, groups))?;
    let columns = read_columns(alloc, expr, arena, table)?;
    evaluated_column(alloc, at, expr, arena, &columns, groups, dtype)
}

// The column of an aggregate: its value over each group's part of a table.
fn evaluated_column(
    alloc: Global,
    at: Node,
    expr: Node,
    arena: &Arena<AExpr>,
    table: &DataFrame,
    groups: &RowsByKey,
    dtype: DataType,
) -> PolarsResult<Column>
    requires expression { IsExpression arena.now.items expr }
    requires kind { IsSome (kind_over table.now.schema (tree_at arena.now.items expr)) }
    requires fit { IsTrue (all_fit dtype (map (λ f. only_value (eval at.0 (whole f) (tree_at arena.now.items expr))) (parts_in table.now groups.now))) }
    ensures kind { IfOk result (λ c. c.kind ≡ dtype) }
    ensures column { IfOk result (IsAggregate at.0 (parts_in table.now groups.now) (tree_at arena.now.items expr)) }
    ensures error { IfErr result (IsErrorAt at.0 (IsFaultOver at.0 (parts_in table.now groups.now) (tree_at arena.now.items expr))) }
{
    let mut values = Vec::with_capacity(alloc, groups.len())?;
    for group in 0..groups.len() {
        match value_over(alloc, expr, arena, table, groups, group)? {
            Ok(value) => values.push(value)?,
            Err(fault) => return Err(fault_at(at, fault)),
        }
    }
    column_of_values(alloc, dtype, values)
}

// The value of an aggregate over a group's part of a table, or a fault.
fn value_over(
    alloc: Global,
    expr: Node,
    arena: &Arena<AExpr>,
    table: &DataFrame,
    groups: &RowsByKey,
    group: usize,
) -> Result<Result<Value, DataFault>, AllocError>
    requires expression { IsExpression arena.now.items expr }
    requires within { group < length groups.now }
    requires kind { IsSome (kind_over table.now.schema (tree_at arena.now.items expr)) }
    ensures { IfOk result (λ outcome. (at : ℕ) → IsValueOf at (part_in table.now groups.now group) (tree_at arena.now.items expr) outcome) }
{
    let part = table_of_group(alloc, table, groups, group)?;
    value_of(alloc, expr, arena, &part)
}

// The value of an expression over a table, or a fault.
fn value_of(
    alloc: Global,
    expr: Node,
    arena: &Arena<AExpr>,
    df: &DataFrame,
) -> Result<Result<Value, DataFault>, AllocError>
    requires expression { IsExpression arena.now.items expr }
    requires kind { IsSome (kind_over df.now.schema (tree_at arena.now.items expr)) }
    ensures { IfOk result (λ outcome. (at : ℕ) → IsValueOf at df.now (tree_at arena.now.items expr) outcome) }
{
    let part = part_of(alloc, expr, arena, df)?;
    first_value(alloc, part)
}

// The first value of a column, and null where there is none; or one of its faults.
fn first_value(alloc: Global, part: ComputedColumn) -> Result<Result<Value, DataFault>, AllocError>
    ensures { IfOk result (GivesFirst part) }
{
    match part.settled(alloc)? {
        Ok(values) => Ok(Ok(first_of(alloc, &values)?)),
        Err(fault) => Ok(Err(fault)),
    }
}

fn first_of(alloc: Global, values: &Values) -> Result<Value, AllocError>
    ensures { IfOk result (λ value. value ≡ get_or (values_of values.now) 0 val.Null) }
{
    match values.first() {
        Some(value) => copy_of(alloc, value),
        None => Ok(Value::Null),
    }
}
