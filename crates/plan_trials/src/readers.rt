// The readers of the ports of plans.
use physical_scripts::building::built_in_order;
use plan_readers::plans::check_readers;
use std::alloc::Global;
use std::test::Fail;

// Whether each port has one reader, how many nodes there are, and how many inputs.
fn readers_of(alloc: Global, nodes: &str) -> Result<String, Fail> {
    let (phys, root) = built_in_order(alloc, nodes)?;
    let Ok(readers) = check_readers(alloc, &phys, root) else {
        return Err(Fail::from("no look at readers"));
    };
    let mut text = String::new(alloc);
    let word = if readers.one_each { "yes" } else { "no" };
    write!(text, "{word} {} {}", readers.nodes, readers.inputs)?;
    Ok(text)
}

// Nodes, of which the last is the root, and behind `->` what is told of their readers. Not so are a root that is no sink, a sink that is
// read, a port that two nodes or two inputs read, and ports from 0 on of which one is passed over.
const READERS: &str = "
source 0 -; sink 1 0.0 -> yes 2 1
source 0 -; multiplexer 0 0.0; slice 2 1.1; negative-slice 3 1.0; union 4 3.0,2.0,1.2; sink 5 4.0 -> yes 6 7
source 0 -; source 1 -; zip 2 1.0,0.0; sink 3 2.0 -> yes 4 3
source 0 -; source 1 -; sink 3 1.0 -> yes 2 1
source 0 - -> no 1 0
source 0 -; multiplexer 0 0.0 -> no 2 1
source 0 -; sink 1 0.0; sink 2 1.0 -> no 3 2
source 0 -; filter 1 0.0; slice 2 0.0; union 3 1.0,2.0; sink 4 3.0 -> no 5 5
source 0 -; zip-null-extend 1 0.0,0.0; sink 2 1.0 -> no 3 3
source 0 -; filter 1 0.1; sink 2 1.0 -> no 3 2
source 0 -; multiplexer 0 0.0; slice 2 1.1; sink 3 2.0 -> no 4 3
source 0 -; multiplexer 0 0.0; slice 2 1.0; filter 3 1.2; union 4 2.0,3.0; sink 5 4.0 -> no 6 6
";

#[test]
fn each_port_has_one_reader(rt: HostRuntime) -> Result<(), Fail> {
    let alloc = rt.alloc();
    for line in READERS.trim().lines() {
        let Some((nodes, wanted)) = line.split_once(" -> ") else {
            return Err(Fail::from("a plan without its readers"));
        };
        let given = readers_of(alloc, nodes)?;
        assert_eq!(rt; given.as_str(), wanted, "at {nodes}");
    }
    Ok(())
}
