// Graphs of plans of many nodes.
use crate::graphs::plan_of;
use crate::planned::Planned;
use crate::told::{graph_text, is_whole, named_text};
use std::alloc::Global;
use std::test::Fail;

// Whether a graph shows its plan's text, and its nodes and pipes name each other as they should.
fn shows_its_plan(alloc: Global, planned: &Planned) -> Result<bool, Fail> {
    let given = graph_text(alloc, &planned.graph)?;
    let wanted = named_text(alloc, planned.text.as_str(), "\n")?;
    Ok(given.as_str() == wanted.as_str() && is_whole(planned))
}

// How many nodes and pipes the graph of a plan has, behind `shown` where it shows the plan.
fn told(alloc: Global, nodes: &str) -> Result<String, Fail> {
    let planned = plan_of(alloc, nodes)?;
    let word = if shows_its_plan(alloc, &planned)? {
        "shown"
    } else {
        "other"
    };
    let mut text = String::new(alloc);
    text.push_str(word)?;
    text.push_str(" ")?;
    text.write(planned.graph.nodes.len())?;
    text.push_str(" ")?;
    text.write(planned.graph.pipes.len())?;
    Ok(text)
}

// A scan, and so many unions, each of the node before it twice.
fn unions(alloc: Global, count: usize) -> Result<String, Fail> {
    let mut nodes = String::new(alloc);
    nodes.push_str("[\"scan\",0,null]")?;
    for below in 0..count {
        write!(nodes, "; [\"union\",[{below},{below}],null]")?;
    }
    write!(nodes, "; [\"sink\",{count}]")?;
    Ok(nodes)
}

// A cache of a scan, so many filters over it, and a union of all of these.
fn shared(alloc: Global, count: u32) -> Result<String, Fail> {
    let mut nodes = String::new(alloc);
    nodes.push_str("[\"scan\",0,null]; [\"cache\",0,7]")?;
    for _ in 0..count {
        nodes.push_str("; [\"filter\",1,3]")?;
    }
    nodes.push_str("; [\"union\",[")?;
    let mut separator = "";
    for filter in 0..count {
        nodes.push_str(separator)?;
        nodes.write(filter as u64 + 2)?;
        separator = ",";
    }
    let union = count as u64 + 2;
    write!(nodes, "],null]; [\"sink\",{union}]")?;
    Ok(nodes)
}

// Outside a cache a node that is read twice is lowered twice.
#[test]
fn unions_of_unions(rt: HostRuntime) -> Result<(), Fail> {
    let alloc = rt.alloc();
    let nodes = unions(alloc, 10)?;
    let given = told(alloc, nodes.as_str())?;
    assert_eq!(rt; given.as_str(), "shown 2048 2047");
    Ok(())
}

#[test]
fn many_readers_of_a_cache(rt: HostRuntime) -> Result<(), Fail> {
    let alloc = rt.alloc();
    let nodes = shared(alloc, 2000)?;
    let given = told(alloc, nodes.as_str())?;
    assert_eq!(rt; given.as_str(), "shown 2004 4002");
    Ok(())
}
