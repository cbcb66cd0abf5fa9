// Unions: what they answer to all states of two inputs and their output, and to some of one input and of three.
use flow_scripts::script::{obeys, obeys_table};
use ps_nodes::flow::FlowNode;
use ps_nodes::ordered_union::OrderedUnionNode;
use std::test::Fail;
use turn_scripts::tables::TWO_INPUTS;

// It passes its first input that isn't done; those behind it are blocked, and once all are done its output is.
const UNION: &str = "
DD/* -> DD/D
D*/D -> DD/D
*D/D -> DD/D
**/D -> DB/D
BD/B -> BD/B
BD/R -> RD/B
RD/B -> BD/R
RD/R -> RD/R
DB/B -> DB/B
DB/R -> DR/B
DR/B -> DB/R
DR/R -> DR/R
B*/B -> BB/B
B*/R -> RB/B
R*/B -> BB/R
R*/R -> RB/R
";

// Of three inputs.
const LONG_UNION: &str = "
RRR/R -> RBB/R
DRR/R -> DRB/R
DDR/R -> DDR/R
DBR/R -> DRB/B
RDR/B -> BDB/R
DDB/R -> DDR/B
BRR/D -> DBB/D
DDD/R -> DDD/D
";

#[test]
fn a_union_passes_its_first_input_that_is_not_done(rt: HostRuntime) -> Result<(), Fail> {
    let alloc = rt.alloc();
    let node = FlowNode::OrderedUnion(OrderedUnionNode::new());
    obeys_table(alloc, node, 2, 1, TWO_INPUTS, UNION)?;
    let node = FlowNode::OrderedUnion(OrderedUnionNode::new());
    obeys(alloc, node, 3, 1, LONG_UNION)?;
    let node = FlowNode::OrderedUnion(OrderedUnionNode::new());
    obeys(
        alloc,
        node,
        1,
        1,
        "B/R -> R/B\nR/R -> R/R\nR/D -> D/D\nD/R -> D/D",
    )
}
