// The plan of a query.
ghost use Rattle.std.specs.Prelude.{◌≡◌, ◌≢◌, List, AllPairs, Err, IfErr, IfOk, None, Some, length, vec_len, ℕ};
ghost use Rattle.ps_plan.specs.Plans.{plan_at};
ghost use Rattle.text_plans.specs.FoundTables.{tables_in};
ghost use Rattle.text_plans.specs.QueryPlans.{first_unknown, query_tables, query_tree, table_named};
ghost use Rattle.text_queries.specs.Views.{query_of};
ghost use Rattle.text_tokens.specs.declared.error.TextError.TheVariants as refusal;

use crate::entries::{add_scan, add_stage};
use crate::tables::NamedTables;
use ps_frame::expr::AExpr;
use ps_frame::frame::DataFrame;
use ps_plan::ir::{IR, SinkType};
use pu_base::{Arena, Node, PlSmallStr};
use std::alloc::Global;
use text_queries::query::Query;
use text_tokens::error::TextError;

/// The root of a query's plan, with its nodes and expressions: the scan of the table that it names, a node for each stage
/// in order, and a sink. The right input of a join is a scan that is made just before it. Names differ, and are as many as
/// the tables.
///
/// UnknownTable exactly where a name stands for no table, and it tells the first in the text; else no error but want of
/// memory.
pub fn query_plan(
    alloc: Global,
    query: &Query,
    names: &[PlSmallStr],
    tables: Vec<DataFrame>,
) -> Result<(Node, Arena<IR>, Arena<AExpr>), TextError>
    requires distinct { AllPairs (λ a b. a ≢ b) names.now }
    requires tables { length names.now ≡ vec_len tables }
    ensures plan { IfOk result (λ p. query_tree (table_named names.now tables.items) (query_of query.now) ≡ Some (plan_at p.1.items p.2.items p.0)) }
    ensures known { IfOk result (λ _. first_unknown (table_named names.now tables.items) (query_tables (query_of query.now)) ≡ None) }
    ensures unknown { (name : List ℕ) → result ≡ Err (refusal.UnknownTable name) → first_unknown (table_named names.now tables.items) (query_tables (query_of query.now)) ≡ Some name }
    ensures causes { IfErr result (λ e. e ≢ refusal.NoReading) }
{
    let tables = NamedTables::new(alloc, names, tables)?;
    plan_over(alloc, query, &tables)
}

// The same over tables that are found by their names.
fn plan_over(
    alloc: Global,
    query: &Query,
    tables: &NamedTables,
) -> Result<(Node, Arena<IR>, Arena<AExpr>), TextError>
    ensures plan { IfOk result (λ p. query_tree (tables_in tables.now) (query_of query.now) ≡ Some (plan_at p.1.items p.2.items p.0)) }
    ensures known { IfOk result (λ _. first_unknown (tables_in tables.now) (query_tables (query_of query.now)) ≡ None) }
    ensures unknown { (name : List ℕ) → result ≡ Err (refusal.UnknownTable name) → first_unknown (tables_in tables.now) (query_tables (query_of query.now)) ≡ Some name }
    ensures causes { IfErr result (λ e. e ≢ refusal.NoReading) }
{
    let mut nodes = Arena::new(alloc);
    let mut exprs = Arena::new(alloc);
    let mut last = add_scan(alloc, tables, &query.source, &mut nodes)?;
    for stage in query.stages.as_slice() {
        last = add_stage(alloc, tables, last, stage, &mut nodes, &mut exprs)?;
    }
    let sink = IR::Sink {
        input: last,
        payload: SinkType::Memory,
    };
    let root = nodes.add(sink)?;
    Ok((root, nodes, exprs))
}
