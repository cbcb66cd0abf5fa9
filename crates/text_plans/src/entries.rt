// The node of a stage, over its input. What stood in the arenas keeps its number and its tree.
ghost use Rattle.std.specs.Prelude.{◌≡◌, ◌≢◌, ◌+◌, List, [], ◌∷◌, Err, IfErr, IfOk, None, OnErr, OnOk, Some, ℕ, false, length, map, option_map};
ghost use Rattle.text_plans.specs.Arenas.{KeepsTrees};
ghost use Rattle.ps_frame.specs.Trees.{tree_at};
ghost use Rattle.ps_frame.specs.declared.expr.AExpr.{AExpr};
ghost use Rattle.ps_meaning.specs.PlanTrees.{node};
ghost use Rattle.ps_plan.specs.Entries.{entry_inputs, entry_step};
ghost use Rattle.ps_plan.specs.Plans.{IsPlan, plan_at, plan_trees_of};
ghost use Rattle.text_plans.specs.Arenas.{KeepsPlans};
ghost use Rattle.text_plans.specs.FoundTables.{tables_in};
ghost use Rattle.text_plans.specs.QueryPlans.{nodes_of, scan_at, stage_step, stage_table, stage_tree};
ghost use Rattle.text_queries.specs.Queries.{Join};
ghost use Rattle.text_queries.specs.Views.{key_of, stage_of};
ghost use Rattle.text_tokens.specs.declared.error.TextError.TheVariants as refusal;

use crate::entering::{add_both_sides, add_expr, add_items, add_keys, add_two_lists};
use crate::tables::NamedTables;
use ps_frame::expr::AExpr;
use ps_frame::frame::DataFrame;
use ps_frame::items::Items;
use ps_plan::ir::{
    DistinctOptions, ExprIR, GroupbyOptions, IR, JoinArgs, JoinType, JoinValidation, OutputName,
    SortMultipleOptions, UniqueKeepStrategy,
};
use pu_base::{Arena, Node, PlSmallStr};
use std::alloc::Global;
use text_queries::query::{Key, Stage};
use text_tokens::error::TextError;

/// Groups and distinct rows keep the order in which they come first.
const KEEPS_ORDER: bool = true;

/// A sort puts nulls first.
const NULLS_LAST: bool = false;

/// Adds the scan of the table of a name, whose columns it shares.
///
/// UnknownTable where there is none; else no error but want of memory.
pub fn add_scan(
    alloc: Global,
    tables: &NamedTables,
    name: &PlSmallStr,
    nodes: &mut Arena<IR>,
) -> Result<Node, TextError>
    ensures tree { IfOk result (λ n. (exprs : List AExpr) → option_map (scan_at (length nodes.old.items)) (tables_in tables.now name.now) ≡ Some (plan_at nodes.new.items exprs n)) }
    ensures kept { OnOk result ((exprs : List AExpr) → KeepsPlans nodes.old.items exprs nodes.new.items exprs) }
    ensures number { OnOk result (length nodes.new.items ≡ length nodes.old.items + 1) }
    ensures unknown { (missing : List ℕ) → result ≡ Err (refusal.UnknownTable missing) → (missing ≡ name.now) × (tables_in tables.now name.now ≡ None) }
    ensures causes { IfErr result (λ e. e ≢ refusal.NoReading) }
{
    match tables.get(name) {
        Some(table) => {
            let df = share(alloc, table)?;
            let entry = IR::DataFrameScan {
                df,
                projection: None,
            };
            let scan = nodes.add(entry)?;
            Ok(scan)
        }
        None => Err(TextError::UnknownTable {
            name: name.try_clone(alloc)?,
        }),
    }
}

// The same table, whose columns are shared.
fn share(alloc: Global, table: &DataFrame) -> Result<DataFrame, TextError>
    ensures same { IfOk result (λ df. df ≡ table.now) }
    ensures memory { OnErr result (result ≡ Err refusal.OutOfMemory) }
{
    // By hand: nothing turns the errors of tables into those of texts, since most have no counterpart.
    match table.share(alloc) {
        Ok(df) => Ok(df),
        Err(_error) => Err(TextError::OutOfMemory),
    }
}

/// Adds the node of a stage over its input; the right input of a join is a scan that is made just before it.
///
/// UnknownTable where a join names no table; else no error but want of memory. The arenas may then have grown.
pub fn add_stage(
    alloc: Global,
    tables: &NamedTables,
    input: Node,
    stage: &Stage,
    nodes: &mut Arena<IR>,
    exprs: &mut Arena<AExpr>,
) -> Result<Node, TextError>
    requires { IsPlan nodes.old.items exprs.old.items input }
    ensures tree { IfOk result (λ n. stage_tree (tables_in tables.now) (length nodes.old.items) (plan_at nodes.old.items exprs.old.items input) (stage_of stage.now) ≡ Some (plan_at nodes.new.items exprs.new.items n)) }
    ensures whole { IfOk result (λ n. IsPlan nodes.new.items exprs.new.items n) }
    ensures number { OnOk result (length nodes.new.items ≡ length nodes.old.items + nodes_of (stage_of stage.now)) }
    ensures unknown { (missing : List ℕ) → result ≡ Err (refusal.UnknownTable missing) → (stage_table (stage_of stage.now) ≡ Some missing) × (tables_in tables.now missing ≡ None) }
    ensures causes { IfErr result (λ e. e ≢ refusal.NoReading) }
{
    let entry = stage_entry(alloc, tables, input, stage, nodes, exprs)?;
    let node = nodes.add(entry)?;
    Ok(node)
}

// The entry of a stage over its input, before which a join's scan is added.
fn stage_entry(
    alloc: Global,
    tables: &NamedTables,
    input: Node,
    stage: &Stage,
    nodes: &mut Arena<IR>,
    exprs: &mut Arena<AExpr>,
) -> Result<IR, TextError>
    requires { IsPlan nodes.old.items exprs.old.items input }
    ensures tree { IfOk result (λ entry. stage_tree (tables_in tables.now) (length nodes.old.items) (plan_at nodes.old.items exprs.old.items input) (stage_of stage.now) ≡ Some (node (length nodes.new.items) (entry_step (tree_at exprs.new.items) entry) (plan_trees_of (plan_at nodes.new.items exprs.old.items) (entry_inputs entry)))) }
    ensures kept { OnOk result (KeepsTrees exprs.old.items exprs.new.items) }
    ensures number { OnOk result (length nodes.new.items + 1 ≡ length nodes.old.items + nodes_of (stage_of stage.now)) }
    ensures unknown { (missing : List ℕ) → result ≡ Err (refusal.UnknownTable missing) → (stage_table (stage_of stage.now) ≡ Some missing) × (tables_in tables.now missing ≡ None) }
    ensures causes { IfErr result (λ e. e ≢ refusal.NoReading) }
{
    match stage {
        Stage::Filter(predicate) => {
            let node = add_expr(alloc, predicate, exprs)?;
            let output_name = OutputName::Alias(PlSmallStr::empty(alloc));
            let predicate = ExprIR { node, output_name };
            Ok(IR::Filter { input, predicate })
        }
        Stage::Select(items) => {
            let expr = add_items(alloc, items.as_slice(), exprs)?;
            Ok(IR::Select { input, expr })
        }
        Stage::With(items) => {
            let exprs = add_items(alloc, items.as_slice(), exprs)?;
            Ok(IR::HStack { input, exprs })
        }
        Stage::Group { keys, aggs } => {
            let (keys, aggs) = add_two_lists(alloc, keys.as_slice(), aggs.as_slice(), exprs)?;
            Ok(IR::GroupBy {
                input,
                keys,
                aggs,
                maintain_order: KEEPS_ORDER,
                options: GroupbyOptions { slice: None },
            })
        }
        Stage::Sort(keys) => {
            let by_column = add_keys(alloc, keys.as_slice(), exprs)?;
            let sort_options = sort_options(alloc, keys.as_slice())?;
            Ok(IR::Sort {
                input,
                by_column,
                slice: None,
                sort_options,
            })
        }
        Stage::Slice { offset, length } => Ok(IR::Slice {
            input,
            offset: *offset,
            len: *length as usize,
        }),
        Stage::Distinct => Ok(IR::Distinct {
            input,
            options: DistinctOptions {
                subset: None,
                maintain_order: KEEPS_ORDER,
                keep_strategy: UniqueKeepStrategy::First,
                slice: None,
            },
        }),
        Stage::Join { how, table, on } => {
            let input_right = add_scan(alloc, tables, table, nodes)?;
            join_entry(alloc, input, input_right, *how, on.as_slice(), exprs)
        }
    }
}

// How a sort by the keys goes: nulls come first.
fn sort_options(alloc: Global, keys: &[Key]) -> Result<SortMultipleOptions, TextError>
    ensures descending { IfOk result (λ options. options.descending ≡ map (λ key. key.desc) (map key_of keys.now)) }
    ensures nulls_first { IfOk result (λ options. options.nulls_last ≡ map (λ key. false) (map key_of keys.now)) }
    ensures memory { OnErr result (result ≡ Err refusal.OutOfMemory) }
{
    let mut descending = Vec::with_capacity(alloc, keys.len())?;
    let mut nulls_last = Vec::with_capacity(alloc, keys.len())?;
    for key in keys {
        descending.push(key.desc)?;
        nulls_last.push(NULLS_LAST)?;
    }
    Ok(SortMultipleOptions {
        descending: Items::new(descending),
        nulls_last: Items::new(nulls_last),
    })
}

// The entry of a join of two nodes on the columns of the names.
fn join_entry(
    alloc: Global,
    input_left: Node,
    input_right: Node,
    how: JoinType,
    on: &[PlSmallStr],
    exprs: &mut Arena<AExpr>,
) -> Result<IR, TextError>
    ensures step { IfOk result (λ entry. entry_step (tree_at exprs.new.items) entry ≡ stage_step (Join how [] on.now)) }
    ensures inputs { IfOk result (λ entry. entry_inputs entry ≡ input_left ∷ input_right ∷ []) }
    ensures kept { OnOk result (KeepsTrees exprs.old.items exprs.new.items) }
    ensures memory { OnErr result (result ≡ Err refusal.OutOfMemory) }
{
    let (left_on, right_on) = add_both_sides(alloc, on, exprs)?;
    Ok(IR::Join {
        input_left,
        input_right,
        left_on,
        right_on,
        options: JoinArgs {
            how,
            suffix: None,
            join_nulls: false,
            validation: JoinValidation::ManyToMany,
            slice: None,
        },
    })
}
