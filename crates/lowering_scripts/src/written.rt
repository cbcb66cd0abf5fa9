//! What stands once a plan is lowered, as text.

use crate::kinds::push_kind;
use keyed_slots::Key;
use physical_scripts::building::{Nodes, is_whole};
use plan_scripts::documents::in_one_line;
use ps_frame::expr::AExpr;
use ps_phys::phys::{PhysNode, PhysNodeKey, PhysStream};
use ps_phys::text::plan_text;
use pu_base::Arena;
use std::alloc::Global;
use std::test::Fail;

// The number of a node, and what it computes.
fn push_node(
    arena: &Arena<AExpr>,
    key: PhysNodeKey,
    node: &PhysNode,
    text: &mut String,
) -> Result<(), Fail> {
    text.push_str(" ")?;
    text.write(key.number())?;
    text.push_str(":")?;
    push_kind(arena, &node.kind, text)
}

fn plan_of(alloc: Global, phys: &Nodes, root: PhysNodeKey) -> Result<String, Fail> {
    if !phys.contains_key(root) {
        return Err(Fail::from("no root"));
    }
    if !is_whole(phys) {
        return Err(Fail::from("an input that isn't there"));
    }
    let Ok(text) = plan_text(alloc, phys, root) else {
        return Err(Fail::from("no text"));
    };
    Ok(text)
}

/// The plan that a stream leads to, and behind `|` what each node computes, by its key.
pub fn told(
    alloc: Global,
    arena: &Arena<AExpr>,
    phys: &Nodes,
    stream: PhysStream,
) -> Result<String, Fail> {
    let plan = plan_of(alloc, phys, stream.node)?;
    let mut text = in_one_line(alloc, plan.as_str())?;
    text.push_str(" |")?;
    for (key, node) in phys.iter() {
        push_node(arena, key, node, &mut text)?;
    }
    Ok(text)
}
