//! Whether a physical plan is sound.
ghost use Rattle.std.specs.Prelude.{◌≡◌, ◌<◌, Err, IfOk, IsSome, IsTrue, OnErr, length};
ghost use Rattle.keyed_slots.specs.Slots.{value_at};
ghost use Rattle.ps_frame.specs.Trees.{tree_at};
ghost use Rattle.ps_frame.specs.declared.refusal.PolarsError.{PolarsError};
ghost use Rattle.ps_meaning.specs.Sound.{IsSound, IsSoundButForReaders, all_inputs};
ghost use Rattle.ps_phys.specs.Placed.{IsPlaced};
ghost use Rattle.ps_phys.specs.Shown.{ReadsWhatIsThere, shown};
ghost use Rattle.ps_phys.specs.Underway.{numbers_in};
ghost use Rattle.plan_readers.specs.Ordered.{ordered};

use crate::named::{are_in_order, node_names_below};
use crate::nodes::is_fit;
use keyed_slots::SlotMap;
use plan_readers::places::{Places, are_earlier, places_in};
use plan_readers::plans::check_readers;
use ps_frame::expr::AExpr;
use ps_frame::functions::Functions;
use ps_frame::refusal::PolarsResult;
use ps_fresh::expr_cache::ExprCache;
use ps_phys::order::leaving_order;
use ps_phys::phys::{PhysNode, PhysNodeKey};
use pu_base::{Arena, Steps};
use std::alloc::Global;
use std::marker::Brand;
use std::sync::ledger::{Blank, Ledger};

/// What a look over a plan tells: whether it is sound, how many nodes its root reaches, and how many inputs these have in all.
#[derive(Clone, Copy, Debug, PartialEq, Eq)]
pub struct PlanCheck {
    pub is_sound: bool,
    pub nodes: usize,
    pub inputs: usize,
}

// Whether each node of an order is fit, whatever number of readers it has.
fn are_fit<F: Functions, L: Ledger>(
    alloc: Global,
    blank: Blank,
    phys: &SlotMap<PhysNodeKey, PhysNode>,
    places: &Places,
    order: &[PhysNodeKey],
    functions: &F,
    arena: &Arena<AExpr>,
) -> PolarsResult<bool>
    requires name { blank.name ≡ L.name }
    requires parts { blank.parts ≡ L.parts }
    requires some { 0 < L.parts }
    requires places { IsPlaced (numbers_in order.now) places.now.slots }
    ensures fit { IfOk result (λ fit. IsTrue fit → IsSoundButForReaders (F.told functions.now) (ordered (tree_at arena.now.items) phys.now.slots order.now)) }
    ensures memory { OnErr result (result ≡ Err PolarsError.OutOfMemory) }
{
    let in_order = are_in_order(arena);
    if !in_order {
        return Ok(false);
    }
    let mut steps = Steps::<L>::new(blank);
    let mut cache = ExprCache::with_capacity(alloc, arena.len())?;
    for number in 0..order.len() {
        let Some(node) = phys.get(order[number]) else {
            return Ok(false);
        };
        let earlier = are_earlier(places, &node.kind, number);
        if !earlier {
            return Ok(false);
        }
        let named = node_names_below(&node.kind, arena.len());
        if !named {
            return Ok(false);
        }
        let fit = is_fit(
            alloc,
            &node.kind,
            phys,
            functions,
            &node.output_schema,
            arena,
            &mut cache,
            &mut steps,
        )?;
        if !fit {
            return Ok(false);
        }
    }
    Ok(true)
}

/// Looks over the nodes that a root reaches: if it answers that the plan is sound, each of them reads earlier nodes, as many as its
/// kind asks for, its schema and its parameters keep all rules, and each of its ports has one reader.
///
/// It never answers so where an expression of the arena names a later one. It looks once at each node, each input and each expression of
/// the arena, and a fixed number of times at each expression that a node names. Fails only for want of memory.
pub fn check_plan<F: Functions>(
    alloc: Global,
    phys: &SlotMap<PhysNodeKey, PhysNode>,
    root: PhysNodeKey,
    functions: &F,
    arena: &Arena<AExpr>,
) -> PolarsResult<PlanCheck>
    requires root { IsSome (value_at phys.now.slots root.0) }
    requires whole { ReadsWhatIsThere phys.now.slots }
    ensures sound { IfOk result (λ check. IsTrue check.is_sound → IsSound (F.told functions.now) (shown (tree_at arena.now.items) phys.now.slots root.0)) }
    ensures nodes { IfOk result (λ check. check.nodes ≡ length (shown (tree_at arena.now.items) phys.now.slots root.0)) }
    ensures inputs { IfOk result (λ check. check.inputs ≡ length (all_inputs (shown (tree_at arena.now.items) phys.now.slots root.0))) }
    ensures memory { OnErr result (result ≡ Err PolarsError.OutOfMemory) }
{
    let readers = check_readers(alloc, phys, root)?;
    let one_each = readers.one_each;
    if !one_each {
        return Ok(PlanCheck {
            is_sound: false,
            nodes: readers.nodes,
            inputs: readers.inputs,
        });
    }
    let order = leaving_order(alloc, phys, root)?;
    let places = places_in(alloc, order.as_slice())?;
    let fit = are_fit::<F, Brand>(
        alloc,
        Blank::new(1),
        phys,
        &places,
        order.as_slice(),
        functions,
        arena,
    )?;
    Ok(PlanCheck {
        is_sound: fit,
        nodes: readers.nodes,
        inputs: readers.inputs,
    })
}
