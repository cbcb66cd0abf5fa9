// What the calls of a trial begin with: a lowering that has made nothing, and the source of a table.
ghost use Rattle.std.specs.Prelude.{◌≡◌, [], IfOk, OnOk};
ghost use Rattle.pu_base.specs.declared.arena.Node.{Node as ANode};
ghost use Rattle.ps_frame.specs.Functions.{Functions};
ghost use Rattle.ps_frame.specs.Trees.{Tree};
ghost use Rattle.ps_fresh.specs.InPlans.{IsNameUnder};
ghost use Rattle.ps_fresh.specs.Known.{Remembers};
ghost use Rattle.ps_rules.specs.Names.{Knows};
ghost use Rattle.valid_plans.specs.Valid.{IsValidWith, plan_with};
ghost use Rattle.lowering_parts.specs.Gathered.{made_of, state_of};
ghost use Rattle.lowering_trials.specs.Scanned.{source_made};

use keyed_slots::SlotMap;
use lowering_parts::nodes::insert;
use ps_frame::expr::AExpr;
use ps_frame::frame::DataFrame;
use ps_fresh::expr_cache::ExprCache;
use ps_fresh::lowering::Lowering;
use ps_fresh::name_source::NameSource;
use ps_phys::phys::{PhysNodeKind, PhysStream};
use pu_base::{Arena, Node};
use std::alloc::Global;
use std::test::Fail;
use valid_plans::valid::Valid;

/// A lowering that has made nothing yet.
pub fn begun(alloc: Global, valid: &Valid, exprs: &Arena<AExpr>) -> Result<Lowering, Fail>
    requires { (F : Functions) × IsValidWith F valid.now exprs.now.items }
    ensures none { IfOk result (λ low. low.phys_sm.slots ≡ []) }
    ensures names { IfOk result (λ low. (F : Functions) → IsValidWith F valid.now exprs.now.items → Knows low.names (IsNameUnder F (plan_with valid.now exprs.now.items))) }
    ensures cache { IfOk result (λ low. Remembers exprs.now.items low.cache) }
{
    let Ok(names) = NameSource::new(alloc, valid, exprs) else {
        return Err(Fail::from("no names"));
    };
    let Ok(cache) = ExprCache::with_capacity(alloc, 0) else {
        return Err(Fail::from("no cache"));
    };
    let phys_sm = SlotMap::with_capacity_and_key(alloc, 0)?;
    Ok(Lowering {
        phys_sm,
        cache,
        names,
        origin: Node(0),
    })
}

/// The source of a table.
pub fn source_of(alloc: Global, df: &DataFrame, low: &mut Lowering) -> Result<PhysStream, Fail>
    ensures made { (f : ANode → Tree) → IfOk result (λ s. made_of f low.new s ≡ source_made (state_of f low.old) low.old.origin.0 df.now) }
    ensures others { OnOk result (low.new ≡ record low.old { phys_sm = low.new.phys_sm }) }
    ensures cache { OnOk result (low.new.cache ≡ low.old.cache) }
{
    let Ok(copy) = df.share(alloc) else {
        return Err(Fail::from("no table"));
    };
    let Ok(schema) = df.schema().try_clone(alloc) else {
        return Err(Fail::from("no schema"));
    };
    let source = PhysNodeKind::InMemorySource { df: copy };
    let Ok(stream) = insert(alloc, low, schema, source) else {
        return Err(Fail::from("no source"));
    };
    Ok(stream)
}
