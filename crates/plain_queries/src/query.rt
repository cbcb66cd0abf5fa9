//! Answers to queries.
ghost use Rattle.std.specs.Prelude.{◌≡◌, ◌++◌, ◌<◌, List, IfErr, IfOk, IfSome, IsSome};
ghost use Rattle.ps_frame.specs.declared.expr.AExpr.{AExpr as Expr};
ghost use Rattle.ps_survey.specs.Flaws.{plan_of};
ghost use Rattle.valid_plans.specs.Surveys.{IsSurvey};
ghost use Rattle.valid_plans.specs.Valid.{IsValidWith, plan_with};
ghost use Rattle.plain_queries.specs.Queries.{BeginsWith, IsQueryAnswer, IsQueryError};

use crate::gate::Gate;
use crate::readers::last_readers;
use crate::walk::walk;
use ps_frame::expr::AExpr;
use ps_frame::frame::DataFrame;
use ps_frame::functions::Functions;
use ps_frame::refusal::PolarsResult;
use ps_options::options::Options;
use ps_plan::ir::IR;
use ps_validate::validate::validate;
use pu_base::{Arena, Node, Steps};
use std::alloc::Global;
use std::marker::Brand;
use std::sync::Wait;
use std::sync::ledger::{Blank, Ledger};
use std::thread::Threads;
use valid_plans::valid::Valid;

/// The table of a plan's root, by workers. Its gate isn't called yet, and one worker computes the nodes in order.
///
/// Takes the root, the nodes and the expressions of a plan; the expressions stay as they are, and some may be added.
/// The answer is always some table: a whole one that the plan means. Fails by a refusal of the plan if it isn't valid,
/// before any function is called; by a fault of a node that breaks in some meaning of the plan, or by `Rows` where a
/// table or a column may be too large; or for want of memory.
pub fn run_query<R: Threads + Wait + Sync, F: Functions, G: Gate>(
    rt: &R,
    alloc: Global,
    node: Node,
    ir_arena: Arena<IR>,
    expr_arena: &mut Arena<AExpr>,
    functions: &F,
    gate: &G,
    options: &Options,
) -> PolarsResult<Option<DataFrame>>
    ensures some { IfOk result IsSome }
    ensures table { IfOk result (λ o. IfSome o (IsQueryAnswer (F.told functions.now) (plan_of node ir_arena.items expr_arena.old.items))) }
    ensures error { IfErr result (IsQueryError (F.told functions.now) (plan_of node ir_arena.items expr_arena.old.items)) }
    ensures exprs { BeginsWith expr_arena.old.items expr_arena.new.items }
{
    // Not used yet: no piece is cut, so no worker claims one.
    let _rt = rt;
    let _gate = gate;
    let _options = options;
    answer_of(alloc, node, ir_arena, expr_arena, functions)
}

/// The table of a plan's root, as [`run_query`] answers it, by this thread alone. It always returns.
pub fn run_query_serial<F: Functions>(
    alloc: Global,
    node: Node,
    ir_arena: Arena<IR>,
    expr_arena: &mut Arena<AExpr>,
    functions: &F,
    options: &Options,
) -> PolarsResult<Option<DataFrame>>
    ensures some { IfOk result IsSome }
    ensures table { IfOk result (λ o. IfSome o (IsQueryAnswer (F.told functions.now) (plan_of node ir_arena.items expr_arena.old.items))) }
    ensures error { IfErr result (IsQueryError (F.told functions.now) (plan_of node ir_arena.items expr_arena.old.items)) }
    ensures exprs { BeginsWith expr_arena.old.items expr_arena.new.items }
{
    // Not used yet: no piece is cut.
    let _options = options;
    answer_of(alloc, node, ir_arena, expr_arena, functions)
}

fn answer_of<F: Functions>(
    alloc: Global,
    node: Node,
    ir: Arena<IR>,
    exprs: &Arena<AExpr>,
    functions: &F,
) -> PolarsResult<Option<DataFrame>>
    ensures some { IfOk result IsSome }
    ensures table { IfOk result (λ o. IfSome o (IsQueryAnswer (F.told functions.now) (plan_of node ir.items exprs.now.items))) }
    ensures error { IfErr result (IsQueryError (F.told functions.now) (plan_of node ir.items exprs.now.items)) }
{
    // A match and no `?`: so the clause of the error is handed on as it stands.
    match table_of::<F, Brand>(alloc, Blank::new(1), node, ir, exprs, functions) {
        Ok(table) => Ok(Some(table)),
        Err(error) => Err(error),
    }
}

fn table_of<F: Functions, L: Ledger>(
    alloc: Global,
    blank: Blank,
    root: Node,
    ir: Arena<IR>,
    exprs: &Arena<AExpr>,
    functions: &F,
) -> PolarsResult<DataFrame>
    requires name { blank.name ≡ L.name }
    requires parts { blank.parts ≡ L.parts }
    requires some { 0 < L.parts }
    ensures table { IfOk result (IsQueryAnswer (F.told functions.now) (plan_of root ir.items exprs.now.items)) }
    ensures error { IfErr result (IsQueryError (F.told functions.now) (plan_of root ir.items exprs.now.items)) }
{
    let mut steps = Steps::<L>::new(blank);
    // A match and no `?`: so the clause of the error is handed on as it stands.
    match validate(alloc, root, ir, exprs, functions, &mut steps) {
        Ok(valid) => run(alloc, &valid, exprs, functions, valid.order()),
        Err(error) => Err(error),
    }
}

/// The table of a valid plan's root, by its nodes in order.
fn run<F: Functions>(
    alloc: Global,
    valid: &Valid,
    exprs: &Arena<AExpr>,
    functions: &F,
    order: &[usize],
) -> PolarsResult<DataFrame>
    requires valid { IsValidWith (F.told functions.now) valid.now exprs.now.items }
    requires survey { IsSurvey (plan_with valid.now exprs.now.items) order.now }
    ensures table { IfOk result (IsQueryAnswer (F.told functions.now) (plan_with valid.now exprs.now.items)) }
    ensures error { IfErr result (IsQueryError (F.told functions.now) (plan_with valid.now exprs.now.items)) }
{
    // A match and no `?`: so the clause of the error is handed on as it stands.
    match last_readers(alloc, valid.root(), order, valid.ir()) {
        Ok(until) => walk(alloc, valid, exprs, functions, order, until.as_slice()),
        Err(error) => Err(error),
    }
}
