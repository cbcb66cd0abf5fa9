// Plans of steps of kept kinds, and their physical plans, which are lowerings of them with no condition.
ghost use Rattle.std.specs.Prelude.{◌-◌, IfOk, IfSome, IsSome, length};
ghost use Rattle.keyed_slots.specs.Slots.{value_at};
ghost use Rattle.lowering_parts.specs.Gathered.{Later};
ghost use Rattle.ps_phys.specs.Shown.{ReadsWhatIsThere, shown};
ghost use Rattle.ps_plan.specs.Lowering.{IsLoweringOf};
ghost use Rattle.valid_plans.specs.Valid.{IsValidWith, plan_with};

use crate::kinds::are_always_kept;
use kept_planning::plans::build_physical_plan;
use keyed_slots::SlotMap;
use lowering_scripts::documents::validated;
use plan_scripts::documents::{CASES, document, in_one_line};
use plan_scripts::functions::TwoSame;
use ps_document::document::Document;
use ps_frame::expr::AExpr;
use ps_frame::functions::Functions;
use ps_phys::phys::{PhysNode, PhysNodeKey};
use ps_phys::text::plan_text;
use pu_base::Arena;
use std::alloc::Global;
use std::test::Fail;
use valid_keeps::laws::valid_plans_are_kept;
use valid_plans::valid::Valid;

// The physical plan of a valid plan, if each of its steps is of a kept kind, whatever its expressions are: it is a lowering of the plan.
fn lowering_of_kept<F: Functions>(
    alloc: Global,
    valid: &Valid,
    exprs: &mut Arena<AExpr>,
    functions: &F,
) -> Result<Option<(SlotMap<PhysNodeKey, PhysNode>, PhysNodeKey)>, Fail>
    requires { IsValidWith (F.told functions.now) valid.now exprs.old.items }
    ensures lowering { IfOk result (λ p. IfSome p (λ r. Later exprs.new.items (λ f. IsLoweringOf (F.told functions.now) (plan_with valid.now exprs.old.items) (shown f r.0.slots r.1.0) (length (shown f r.0.slots r.1.0) - 1)))) }
    ensures root { IfOk result (λ p. IfSome p (λ r. IsSome (value_at r.0.slots r.1.0))) }
    ensures whole { IfOk result (λ p. IfSome p (λ r. ReadsWhatIsThere r.0.slots)) }
{
    if !are_always_kept(valid.ir()) {
        return Ok(None);
    }
    // A law, which takes the condition away.
    valid_plans_are_kept();
    match build_physical_plan(alloc, valid, exprs, functions) {
        Ok(planned) => Ok(Some(planned)),
        Err(_error) => Err(Fail::from("no physical plan")),
    }
}

// The text of the physical plan of these nodes, with `/` for the end of a line, if their steps are of kept kinds.
fn lowered(alloc: Global, nodes: &str) -> Result<Option<String>, Fail> {
    let Document {
        nodes,
        mut exprs,
        root,
    } = document(alloc, nodes)?;
    let valid = validated(alloc, root, nodes, &exprs, &TwoSame)?;
    let Some((phys, root)) = lowering_of_kept(alloc, &valid, &mut exprs, &TwoSame)? else {
        return Ok(None);
    };
    let Ok(text) = plan_text(alloc, &phys, root) else {
        return Err(Fail::from("no text"));
    };
    Ok(Some(in_one_line(alloc, text.as_str())?))
}

// The plan of which it isn't said with no condition: a distinct that keeps rows without an equal.
const OTHERS: &str = r#"
["scan",0,null]; ["distinct",0,["b","a"],false,"none",[0,5]]; ["sink",1]
"#;

#[test]
fn plans_of_kept_kinds_are_lowered(rt: HostRuntime) -> Result<(), Fail> {
    let alloc = rt.alloc();
    let mut others = String::new(alloc);
    for case in CASES.trim().lines() {
        let Some((nodes, wanted)) = case.split_once(" -> ") else {
            return Err(Fail::from("a plan without an answer"));
        };
        match lowered(alloc, nodes)? {
            Some(given) => assert_eq!(rt; given.as_str(), wanted, "at {nodes}"),
            None => {
                others.push_str(nodes)?;
                others.push('\n')?;
            }
        }
    }
    assert_eq!(rt; others.trim(), OTHERS.trim());
    Ok(())
}
