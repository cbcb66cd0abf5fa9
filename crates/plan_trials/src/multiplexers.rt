// Nodes that several readers take.
use keyed_slots::Key;
use physical_scripts::building::{Nodes, built_in_order};
use ps_multiplexers::multiplexers::insert_multiplexers;
use ps_phys::phys::{PhysNodeKind, PhysStream};
use std::alloc::Global;
use std::test::Fail;

// The inputs of a node, in order.
fn inputs_of(alloc: Global, kind: &PhysNodeKind) -> Result<Vec<PhysStream>, Fail> {
    let mut inputs = Vec::new(alloc);
    for place in 0..1000 {
        let Some(input) = kind.input(place) else {
            break;
        };
        inputs.push(input)?;
    }
    Ok(inputs)
}

// The inputs of each node, in the order of their keys; `+` in front of those that are multiplexers.
fn listed(alloc: Global, phys: &Nodes) -> Result<String, Fail> {
    let mut text = String::new(alloc);
    for (_, node) in phys.iter() {
        text.push_str(" | ")?;
        if let PhysNodeKind::Multiplexer { .. } = &node.kind {
            text.push_str("+")?;
        }
        let inputs = inputs_of(alloc, &node.kind)?;
        if inputs.is_empty() {
            text.push_str("-")?;
        }
        let mut comma = "";
        for input in inputs.iter() {
            text.push_str(comma)?;
            text.write(input.node.number())?;
            text.push_str(".")?;
            text.write(input.port)?;
            comma = ",";
        }
    }
    Ok(text)
}

// Whether each stream that a node takes is taken once, and each port below one that is taken is taken too.
fn has_one_reader_each(alloc: Global, phys: &Nodes) -> Result<bool, Fail> {
    let mut taken = Vec::new(alloc);
    for (_, node) in phys.iter() {
        let inputs = inputs_of(alloc, &node.kind)?;
        for input in inputs.iter() {
            taken.push(*input)?;
        }
    }
    for stream in taken.iter() {
        let once = taken.iter().filter(|other| **other == *stream).count() == 1;
        let dense = stream.port == 0
            || taken.iter().any(|other| other.node == stream.node
                && other.port.saturating_add(1) == stream.port);
        if !once || !dense {
            return Ok(false);
        }
    }
    Ok(true)
}

// Nodes, of which the last is the root, and behind `->` what each of them then reads. Behind the nodes are the multiplexers.
const PLANS: &str = "
source 0 -; filter 1 0.0; sink 2 1.0 -> | - | 0.0 | 1.0
source 0 -; zip 1 0.0,0.0; sink 2 1.0 -> | - | 3.0,3.1 | 1.0 | +0.0
source 0 -; join 1 0.0,0.0; sink 2 1.0 -> | - | 3.0,3.1 | 1.0 | +0.0
source 0 -; filter 1 0.0; slice 1 0.0; zip 1 1.0,2.0; sink 2 3.0 -> | - | 5.1 | 5.0 | 1.0,2.0 | 3.0 | +0.0
source 0 -; filter 1 0.0; slice 2 0.0; union 3 0.0,1.0,2.0; sink 4 3.0 -> | - | 5.2 | 5.1 | 5.0,1.0,2.0 | 3.0 | +0.0
source 0 -; filter 1 0.0; slice 2 1.0; negative-slice 3 1.0; union 4 2.0,3.0,1.0; sink 5 4.0 -> | - | 0.0 | 6.2 | 6.1 | 2.0,3.0,6.0 | 4.0 | +1.0
source 0 -; union 1 0.0,0.0,0.0; union 2 1.0,1.0; sink 3 2.0 -> | - | 5.0,5.1,5.2 | 4.0,4.1 | 2.0 | +1.0 | +0.0
source 0 -; source 1 -; join 2 0.0,1.0; join 3 2.0,0.0; join 4 3.0,1.0; sink 5 4.0 -> | - | - | 6.1,7.1 | 2.0,6.0 | 3.0,7.0 | 4.0 | +0.0 | +1.0
";

#[test]
fn readers_take_ports_in_the_order_of_the_walk(rt: HostRuntime) -> Result<(), Fail> {
    let alloc = rt.alloc();
    for line in PLANS.trim().lines() {
        let Some((nodes, wanted)) = line.split_once(" ->") else {
            return Err(Fail::from("a plan without what it reads"));
        };
        let (mut phys, root) = built_in_order(alloc, nodes)?;
        let Ok(()) = insert_multiplexers(alloc, root, &mut phys) else {
            return Err(Fail::from("no multiplexers"));
        };
        let given = listed(alloc, &phys)?;
        assert_eq!(rt; given.as_str(), wanted, "at {nodes}");
        assert!(rt; has_one_reader_each(alloc, &phys)?, "at {nodes}");
    }
    Ok(())
}

// A node that the root doesn't reach is no reader, and stays as it is.
#[test]
fn what_the_root_does_not_reach_counts_for_nothing(rt: HostRuntime) -> Result<(), Fail> {
    let alloc = rt.alloc();
    let (mut phys, root) = built_in_order(
        alloc,
        "source 0 -; filter 9 0.0; zip 9 0.0,1.0; slice 1 0.0; sink 2 3.0",
    )?;
    let Ok(()) = insert_multiplexers(alloc, root, &mut phys) else {
        return Err(Fail::from("no multiplexers"));
    };
    let given = listed(alloc, &phys)?;
    assert_eq!(rt; given.as_str(), " | - | 0.0 | 0.0,1.0 | 0.0 | 3.0");
    Ok(())
}

// Sixteen unions, each of the node before it twice.
#[test]
fn unions_of_the_node_before_twice(rt: HostRuntime) -> Result<(), Fail> {
    let alloc = rt.alloc();
    let mut nodes = String::new(alloc);
    nodes.push_str("source 0 -")?;
    for below in 0..16usize {
        nodes.push_str("; union 1 ")?;
        nodes.write(below)?;
        nodes.push_str(".0,")?;
        nodes.write(below)?;
        nodes.push_str(".0")?;
    }
    nodes.push_str("; sink 1 16.0")?;
    let (mut phys, root) = built_in_order(alloc, nodes.as_str())?;
    let Ok(()) = insert_multiplexers(alloc, root, &mut phys) else {
        return Err(Fail::from("no multiplexers"));
    };
    assert_eq!(rt; phys.len(), 34);
    assert!(rt; has_one_reader_each(alloc, &phys)?);
    Ok(())
}
