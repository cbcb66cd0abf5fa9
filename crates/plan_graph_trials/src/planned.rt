// The graphs of documents' plans.
ghost use Rattle.std.specs.Prelude.{IsSome};
ghost use Rattle.keyed_slots.specs.Slots.{value_at};
ghost use Rattle.ps_phys.specs.Shown.{ReadsWhatIsThere};

use keyed_slots::{SecondaryMap, SlotMap};
use lowering_scripts::documents::validated;
use plan_graphs::graphs::physical_plan_to_graph;
use plan_lowering::physical::build_physical_plan;
use plan_scripts::functions::TwoSame;
use ps_document::document::Document;
use ps_frame::expr::AExpr;
use ps_frame::functions::Functions;
use ps_graph::graph::Graph;
use ps_graph::key::GraphNodeKey;
use ps_nodes::flow::FlowNode;
use ps_phys::order::leaving_order;
use ps_phys::phys::{PhysNode, PhysNodeKey};
use ps_phys::text::plan_text;
use pu_base::Arena;
use sound_plans::plans::check_plan;
use std::alloc::Global;
use std::test::Fail;

/// The graph of a plan, which node each physical node became, the physical nodes in the order of the plan's text, that text, and how
/// many nodes and inputs were counted in it.
#[derive(Drop)]
pub struct Planned {
    pub graph: Graph<FlowNode>,
    pub keys: SecondaryMap<PhysNodeKey, GraphNodeKey>,
    pub order: Vec<PhysNodeKey>,
    pub text: String,
    pub nodes: usize,
    pub inputs: usize,
}

/// The most nodes and inputs of a plan here.
const MOST: usize = 1 << 20;

// What a physical plan becomes, once it was found sound.
fn checked<F: Functions>(
    alloc: Global,
    phys: &SlotMap<PhysNodeKey, PhysNode>,
    root: PhysNodeKey,
    functions: &F,
    exprs: &Arena<AExpr>,
) -> Result<Planned, Fail>
    requires root { IsSome (value_at phys.now.slots root.0) }
    requires whole { ReadsWhatIsThere phys.now.slots }
{
    let Ok(check) = check_plan(alloc, phys, root, functions, exprs) else {
        return Err(Fail::from("no look at the plan"));
    };
    let sound = check.is_sound;
    if !sound {
        return Err(Fail::from("a plan that isn't sound"));
    }
    if check.nodes > MOST || check.inputs > MOST {
        return Err(Fail::from("too large a plan"));
    }
    let Ok(order) = leaving_order(alloc, phys, root) else {
        return Err(Fail::from("no order"));
    };
    let Ok(text) = plan_text(alloc, phys, root) else {
        return Err(Fail::from("no text"));
    };
    let Ok((graph, keys)) = physical_plan_to_graph(alloc, root, phys, exprs) else {
        return Err(Fail::from("no graph"));
    };
    Ok(Planned {
        graph,
        keys,
        order,
        text,
        nodes: check.nodes,
        inputs: check.inputs,
    })
}

/// What the plan of a document becomes; its functions are two that answer a table by itself.
pub fn lowered(alloc: Global, document: Document) -> Result<Planned, Fail> {
    let Document {
        nodes,
        mut exprs,
        root,
    } = document;
    let valid = validated(alloc, root, nodes, &exprs, &TwoSame)?;
    let Ok((phys, root)) = build_physical_plan(alloc, &valid, &mut exprs, &TwoSame) else {
        return Err(Fail::from("no physical plan"));
    };
    checked(alloc, &phys, root, &TwoSame, &exprs)
}
