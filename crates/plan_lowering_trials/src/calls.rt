// The call that lowers a node of a plan, by itself, over functions of which it is told no more than whether they stream.
ghost use Rattle.std.specs.Prelude.{IfOk};
ghost use Rattle.ps_frame.specs.Functions.{Functions as FunctionsTold};
ghost use Rattle.ps_fresh.specs.Known.{Remembers};
ghost use Rattle.valid_plans.specs.Valid.{IsValidWith};

use kept_plans::plans::lower_ir;
use keyed_slots::{Key, SlotMap};
use lowering_scripts::documents::validated;
use plan_scripts::documents::document;
use plan_scripts::functions::{StreamsAlone, TwoSame};
use ps_document::document::Document;
use ps_frame::expr::AExpr;
use ps_frame::functions::Functions;
use ps_fresh::expr_cache::ExprCache;
use ps_fresh::lowering::Lowering;
use ps_fresh::name_source::NameSource;
use ps_phys::phys::PhysStream;
use pu_base::Arena;
use std::alloc::Global;
use std::collections::BTreeMap;
use std::test::Fail;
use valid_plans::valid::Valid;

// A lowering that has made nothing yet.
fn begun(alloc: Global, valid: &Valid, exprs: &Arena<AExpr>) -> Result<Lowering, Fail>
    requires { (F : FunctionsTold) × IsValidWith F valid.now exprs.now.items }
    ensures cache { IfOk result (λ low. Remembers exprs.now.items low.cache) }
{
    let Ok(names) = NameSource::new(alloc, valid, exprs) else {
        return Err(Fail::from("no names"));
    };
    let Ok(cache) = ExprCache::with_capacity(alloc, 0) else {
        return Err(Fail::from("no cache"));
    };
    let phys_sm = SlotMap::with_capacity_and_key(alloc, 0)?;
    Ok(Lowering {
        phys_sm,
        cache,
        names,
        origin: valid.root(),
    })
}

// The stream of the root of a plan.
fn stream_of_root<F: Functions>(
    alloc: Global,
    valid: &Valid,
    exprs: &mut Arena<AExpr>,
    low: &mut Lowering,
    functions: &F,
) -> Result<PhysStream, Fail>
    requires valid { IsValidWith (F.told functions.now) valid.now exprs.old.items }
    requires cache { Remembers exprs.old.items low.old.cache }
{
    let mut cache_nodes = BTreeMap::new(alloc);
    match lower_ir(
        alloc,
        valid.root(),
        valid,
        exprs,
        functions,
        low,
        &mut cache_nodes,
    ) {
        Ok(stream) => Ok(stream),
        Err(_error) => Err(Fail::from("no stream")),
    }
}

// How many nodes are made for the root of a plan, and the number of that of its stream.
fn lowered_alone(alloc: Global, nodes: &str) -> Result<(usize, u32), Fail> {
    let Document {
        nodes,
        mut exprs,
        root,
    } = document(alloc, nodes)?;
    let valid = validated(alloc, root, nodes, &exprs, &TwoSame)?;
    let mut low = begun(alloc, &valid, &exprs)?;
    let stream = stream_of_root(alloc, &valid, &mut exprs, &mut low, &StreamsAlone)?;
    Ok((low.phys_sm.inserts(), stream.node.number()))
}

// Plans, and behind `->` how many nodes are made for each, and the number of the last: multiplexers come later.
const PLANS: &str = r#"
["scan",0,null]; ["sink",0] -> 2 1
["scan",0,null]; ["map",0,0]; ["map",1,1]; ["sink",2] -> 4 3
["scan",0,null]; ["cache",0,7]; ["union",[1,1],null]; ["sink",2] -> 3 2
["scan",0,null]; ["union",[0,0],null]; ["sink",1] -> 4 3
"#;

#[test]
fn nodes_are_lowered_by_themselves(rt: HostRuntime) -> Result<(), Fail> {
    let alloc = rt.alloc();
    for case in PLANS.trim().lines() {
        let Some((nodes, wanted)) = case.split_once(" -> ") else {
            return Err(Fail::from("a plan without an answer"));
        };
        let (count, last) = lowered_alone(alloc, nodes)?;
        let given = format!(in alloc; "{count} {last}")?;
        assert_eq!(rt; given.as_str(), wanted, "at {nodes}");
    }
    Ok(())
}
