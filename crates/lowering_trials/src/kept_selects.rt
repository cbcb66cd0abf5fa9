// A select of every kind of expression over a scan, with what its stream means.
ghost use Rattle.std.specs.Prelude.{◌≡◌, [], IfOk};
ghost use Rattle.ps_frame.specs.Functions.{Functions};
ghost use Rattle.ps_frame.specs.Trees.{tree_at};
ghost use Rattle.ps_fresh.specs.InPlans.{IsNameUnder};
ghost use Rattle.ps_fresh.specs.Known.{Remembers};
ghost use Rattle.ps_meaning.specs.Sound.{IsSoundButForReaders};
ghost use Rattle.ps_meaning.specs.Steps.{named_trees};
ghost use Rattle.ps_phys.specs.Shown.{stream_of};
ghost use Rattle.ps_rules.specs.Names.{Knows};
ghost use Rattle.valid_plans.specs.Valid.{IsValidWith, plan_with};
ghost use Rattle.lowering_laws.specs.Kept.{KeepsSelect};
ghost use Rattle.lowering_parts.specs.Gathered.{Later, state_of};
ghost use Rattle.lowering_trials.specs.Scanned.{SelectsScan, source_made};

use crate::beginnings::{begun, source_of};
use crate::every_kind::{expressions, nodes};
use crate::valid::select_of;
use kept_lowering::exprs::build_select_stream;
use lowering_scripts::documents::valid_plan;
use ps_frame::expr::AExpr;
use ps_frame::frame::DataFrame;
use ps_fresh::lowering::Lowering;
use ps_meaning::options::ExprIR;
use ps_phys::phys::PhysStream;
use ps_tables::fits::table_fits;
use pu_base::{Arena, Node};
use std::alloc::Global;
use std::test::Fail;
use valid_plans::valid::Valid;

// The select over the source of the table that it scans: whatever the source means, the stream means the select of it,
// no node breaks or grows for another reason, and all nodes are those of a sound shape, but for readers.
fn select_over_scan(
    alloc: Global,
    valid: &Valid,
    exprs: &mut Arena<AExpr>,
    low: &mut Lowering,
    table: &DataFrame,
    asked: &[ExprIR],
) -> Result<PhysStream, Fail>
    requires valid { (F : Functions) × IsValidWith F valid.now exprs.old.items }
    requires selects { SelectsScan (plan_with valid.now exprs.old.items) asked.now table.now }
    requires none { low.old.phys_sm.slots ≡ [] }
    requires names { (F : Functions) → IsValidWith F valid.now exprs.old.items → Knows low.old.names (IsNameUnder F (plan_with valid.now exprs.old.items)) }
    requires cache { Remembers exprs.old.items low.old.cache }
    ensures keeps { (F : Functions) → IfOk result (λ s. Later exprs.new.items (λ f. KeepsSelect F low.old.origin.0 (source_made (state_of f low.old) low.old.origin.0 table.now).state (state_of f low.new) (source_made (state_of f low.old) low.old.origin.0 table.now).stream (named_trees (tree_at exprs.old.items) asked.now) (stream_of s))) }
    ensures sound { (F : Functions) → IfOk result (λ s. Later exprs.new.items (λ f. IsSoundButForReaders F (state_of f low.new).nodes)) }
{
    // The plan speaks of the names and the kinds; no code looks at it.
    let _plan = valid;
    table_fits(table);
    let input = source_of(alloc, table, low)?;
    match build_select_stream(alloc, exprs, low, input, asked) {
        Ok(stream) => Ok(stream),
        Err(_error) => Err(Fail::from("no stream")),
    }
}

// How many nodes are made for a select of every kind of expression, and its source.
fn nodes_of_select(alloc: Global) -> Result<usize, Fail> {
    let mut exprs = expressions(alloc)?;
    let valid = valid_plan(alloc, Node(2), nodes(alloc)?, &exprs)?;
    let (asked, table) = select_of(&valid, &exprs)?;
    let mut low = begun(alloc, &valid, &exprs)?;
    select_over_scan(alloc, &valid, &mut exprs, &mut low, table, asked)?;
    Ok(low.phys_sm.inserts())
}

#[test]
fn a_select_of_every_kind_means_what_it_says(rt: HostRuntime) -> Result<(), Fail> {
    let count = nodes_of_select(rt.alloc())?;
    // The source, two of the sort, three of the sort by a column, two of the filter, the map, the reduce, the zip, the select.
    assert_eq!(rt; count, 12);
    Ok(())
}
