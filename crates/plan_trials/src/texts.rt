// Physical plans and their texts.

use physical_scripts::building::built_in_order;
use plan_scripts::documents::in_one_line;
use ps_phys::text::plan_text;
use std::alloc::Global;
use std::test::Fail;

fn text_of(alloc: Global, nodes: &str) -> Result<String, Fail> {
    let (phys, root) = built_in_order(alloc, nodes)?;
    let Ok(text) = plan_text(alloc, &phys, root) else {
        return Err(Fail::from("no text"));
    };
    Ok(text)
}

// Nodes, of which the last is the root, and behind `->` the text of their plan.
const PLANS: &str = "
source 0 - -> 0 in-memory-source 0 -/
source 0 -; sink 1 0.0 -> 0 in-memory-source 0 -/1 in-memory-sink 1 0.0/
source 0 -; source 3 -; filter 5 1.0 -> 0 in-memory-source 3 -/1 filter 5 0.0/
source 0 -; source 1 -; zip 2 1.0,0.0 -> 0 in-memory-source 1 -/1 in-memory-source 0 -/2 zip 2 0.0,1.0/
source 0 -; zip-null-extend 1 0.0,0.0 -> 0 in-memory-source 0 -/1 zip-null-extend 1 0.0,0.0/
source 7 -; multiplexer 7 0.0; slice 2 1.0; negative-slice 3 1.1; union 4 3.0,2.0,1.2 -> 0 in-memory-source 7 -/1 multiplexer 7 0.0/2 negative-slice 3 1.1/3 slice 2 1.0/4 ordered-union 4 2.0,3.0,1.2/
source 0 -; filter 1 0.0; slice 2 1.0; zip 3 2.0,0.0,1.0 -> 0 in-memory-source 0 -/1 filter 1 0.0/2 slice 2 1.0/3 zip 3 2.0,0.0,1.0/
";

#[test]
fn what_a_node_reads_stands_before_it(rt: HostRuntime) -> Result<(), Fail> {
    let alloc = rt.alloc();
    for line in PLANS.trim().lines() {
        let Some((nodes, wanted)) = line.split_once(" -> ") else {
            return Err(Fail::from("a plan without its text"));
        };
        let text = text_of(alloc, nodes)?;
        let given = in_one_line(alloc, text.as_str())?;
        assert_eq!(rt; given.as_str(), wanted, "at {nodes}");
    }
    Ok(())
}
