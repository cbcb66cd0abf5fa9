// Joins over whole tables: what they answer to all states of two inputs and their output, in each stage.
ghost use Rattle.std.specs.Prelude.{◌≡◌, IfOk};
ghost use Rattle.flow_trials.specs.Tested.{HasInputs, plain_join};
ghost use Rattle.ps_nodes.specs.declared.flow.FlowNode.TheVariants as flow;

use crate::keys::{key, schema, table};
use crate::scripts::{answers, stands_behind};
use ps_graph::compute_node::ComputeNode;
use ps_meaning::options::{JoinArgs, JoinType, JoinValidation};
use ps_nodes::flow::FlowNode;
use ps_nodes::in_memory_join::InMemoryJoinNode;
use std::alloc::Global;
use std::test::Fail;
use turn_scripts::tables::{TWO_INPUTS, answer_in};

// A new one. It takes each input that isn't done, and blocks its output meanwhile; once both are done it is ready to give its
// table. Once its output is done, all is.
const TAKES: &str = "
**/D -> DD/D
DD/* -> DD/R
D*/* -> DR/B
*D/* -> RD/B
**/* -> RR/B
";

// One that gives its table: its inputs stay done.
const GIVES: &str = "
**/D -> DD/D
**/* -> DD/R
";

// One that is done stays so.
const OVER: &str = "**/* -> DD/D";

fn args(how: JoinType) -> JoinArgs
    ensures { result ≡ plain_join how }
{
    JoinArgs {
        how,
        suffix: None,
        join_nulls: false,
        validation: JoinValidation::ManyToMany,
        slice: None,
    }
}

// Each pair of rows.
#[tactic(auto, using(crate::proofs::Fitting::joins, crate::proofs::Fitting::join_unclaimed, crate::proofs::Rules::can_cross))]
fn crossing(alloc: Global) -> Result<InMemoryJoinNode, Fail>
    ensures inputs { IfOk result (λ n. HasInputs 2 (flow.InMemoryJoin n)) }
    ensures sent { IfOk result (λ n. n.made.sent ≡ 0) }
{
    let left = schema(alloc)?;
    let right = schema(alloc)?;
    let given = schema(alloc)?;
    let left_on = Vec::new(alloc);
    let right_on = Vec::new(alloc);
    let how = args(JoinType::Cross);
    let join = InMemoryJoinNode::new(left, right, left_on, right_on, how, given);
    Ok(join)
}

// The pairs of rows whose numbers are the same.
#[tactic(auto, using(crate::proofs::Fitting::joins, crate::proofs::Fitting::join_unclaimed, crate::proofs::Rules::can_match))]
fn matching(alloc: Global) -> Result<InMemoryJoinNode, Fail>
    ensures inputs { IfOk result (λ n. HasInputs 2 (flow.InMemoryJoin n)) }
    ensures sent { IfOk result (λ n. n.made.sent ≡ 0) }
{
    let left = schema(alloc)?;
    let right = schema(alloc)?;
    let given = schema(alloc)?;
    let left_on = vec![in alloc; key(alloc)?]?;
    let right_on = vec![in alloc; key(alloc)?]?;
    let how = args(JoinType::Inner);
    let join = InMemoryJoinNode::new(left, right, left_on, right_on, how, given);
    Ok(join)
}

// So many morsels of its own are claimed.
#[tactic(auto, using(crate::proofs::Fitting::join_claimed_inputs))]
fn claimed(join: InMemoryJoinNode, claims: u8) -> InMemoryJoinNode
    requires sent { join.made.sent ≡ 0 }
    requires inputs { HasInputs 2 (flow.InMemoryJoin join) }
    ensures { HasInputs 2 (flow.InMemoryJoin result) }
{
    let mut join = join;
    for _ in 0..claims {
        join.claim();
    }
    join
}

// It stored so many rows of each input, with these texts.
#[tactic(auto, using(crate::proofs::Fitting::join_left_inputs, crate::proofs::Fitting::join_right_inputs))]
fn fed(
    alloc: Global,
    mut join: InMemoryJoinNode,
    left: (&str, usize),
    right: (&str, usize),
) -> Result<InMemoryJoinNode, Fail>
    requires { HasInputs 2 (flow.InMemoryJoin join) }
    ensures { IfOk result (λ n. HasInputs 2 (flow.InMemoryJoin n)) }
{
    join.store_left(alloc, &table(alloc, left.0, left.1)?)?;
    join.store_right(alloc, &table(alloc, right.0, right.1)?)?;
    Ok(join)
}

// It is told that there are so many pieces of work.
#[tactic(auto, using(crate::proofs::Fitting::join_told_inputs))]
fn node_of(join: InMemoryJoinNode, pieces: usize) -> FlowNode
    requires { HasInputs 2 (flow.InMemoryJoin join) }
    ensures { HasInputs 2 result }
{
    let mut node = FlowNode::InMemoryJoin(join);
    node.initialize(pieces);
    node
}

// Two left rows and two right ones, so four pairs; for so many pieces of work, and so many morsels are claimed.
fn crossing_node(alloc: Global, pieces: usize, claims: u8) -> Result<FlowNode, Fail>
    ensures { IfOk result (λ n. HasInputs 2 n) }
{
    let new = crossing(alloc)?;
    let join = fed(alloc, claimed(new, claims), ("x", 2), ("y", 2))?;
    Ok(node_of(join, pieces))
}

// Three left rows with a text and a right one with the same, for so many pieces of work; so many morsels are claimed.
fn matching_node(alloc: Global, text: &str, pieces: usize, claims: u8) -> Result<FlowNode, Fail>
    ensures { IfOk result (λ n. HasInputs 2 n) }
{
    let new = matching(alloc)?;
    let join = fed(alloc, claimed(new, claims), (text, 3), (text, 1))?;
    Ok(node_of(join, pieces))
}

// What a join answers behind a script.
fn holds_behind(alloc: Global, before: &str, table: &str) -> Result<(), Fail> {
    for states in TWO_INPUTS.split_whitespace() {
        let wanted = answer_in(&[table], states)?;
        let node = crossing_node(alloc, 1, 0)?;
        answers(alloc, node, 2, before, states, wanted)?;
    }
    Ok(())
}

#[test]
fn a_join_takes_its_inputs_and_then_gives(rt: HostRuntime) -> Result<(), Fail> {
    let alloc = rt.alloc();
    holds_behind(alloc, "", TAKES)?;
    holds_behind(alloc, "BB/B -> RR/B\nDR/R -> DR/B", TAKES)?;
    holds_behind(alloc, "DD/B -> DD/R", GIVES)?;
    holds_behind(alloc, "DR/D -> DD/D", OVER)?;
    holds_behind(alloc, "DD/R -> DD/R\nDD/D -> DD/D", OVER)
}

// Four pairs: one morsel for one piece of work, four for four. Once they are claimed the join is done.
#[test]
fn a_join_gives_as_a_source_does(rt: HostRuntime) -> Result<(), Fail> {
    let alloc = rt.alloc();
    for (pieces, claims, before, states, wanted) in [
        (1, 0, "DD/R -> DD/R\nDD/R -> DD/R", "DD/B", "DD/R"),
        (1, 1, "DD/R -> DD/R\nDD/R -> DD/D", "DD/B", "DD/D"),
        (4, 3, "DD/R -> DD/R\nDD/R -> DD/R", "DD/B", "DD/R"),
        (4, 4, "DD/R -> DD/R\nDD/B -> DD/D", "DD/R", "DD/D"),
    ] {
        let node = crossing_node(alloc, pieces, claims)?;
        answers(alloc, node, 2, before, states, wanted)?;
    }
    Ok(())
}

// Three pairs of rows that match, for three pieces of work.
#[test]
fn a_join_on_keys_gives_its_matches(rt: HostRuntime) -> Result<(), Fail> {
    let alloc = rt.alloc();
    for (claims, before, states, wanted) in [
        (2, "DD/R -> DD/R\nDD/R -> DD/R", "DD/B", "DD/R"),
        (3, "DD/R -> DD/R\nDD/B -> DD/D", "DD/R", "DD/D"),
    ] {
        let node = matching_node(alloc, "1", 3, claims)?;
        answers(alloc, node, 2, before, states, wanted)?;
    }
    Ok(())
}

// A key that is no number is a fault where the join makes its table. It makes none while an input isn't done, nor where its
// output is.
#[test]
fn a_join_fails_where_it_makes_its_table(rt: HostRuntime) -> Result<(), Fail> {
    let alloc = rt.alloc();
    for (before, states, wanted) in [
        (
            "BB/B -> RR/B\nDR/R -> DR/B\nRD/R -> RD/B",
            "DD/R",
            "ComputeError StrictCast",
        ),
        ("DD/D -> DD/D", "DD/D", "DD/D"),
        ("RD/D -> DD/D", "DD/R", "DD/D"),
    ] {
        let node = matching_node(alloc, "x", 1, 0)?;
        answers(alloc, node, 2, before, states, wanted)?;
    }
    Ok(())
}

#[test]
fn a_join_is_memory_intensive_while_it_takes(rt: HostRuntime) -> Result<(), Fail> {
    let alloc = rt.alloc();
    for (before, is_intensive, stages) in [
        ("RR/R -> RR/B", true, 0),
        ("RD/R -> RD/B", true, 0),
        ("DD/R -> DD/R", false, 1),
        ("RR/D -> DD/D", false, 2),
    ] {
        let node = crossing_node(alloc, 1, 0)?;
        let stand = ("in_memory_join", is_intensive, stages);
        stands_behind(alloc, node, 2, before, stand)?;
    }
    Ok(())
}
