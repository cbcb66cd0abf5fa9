// Reduces: what they answer to each pair of states, in each of their stages.
ghost use Rattle.std.specs.Prelude.{◌≡◌, IfOk};

use crate::keepers::{GIVES, OVER, TAKES, answers_behind, gives_morsels};
use plain_nodes::reduce::ReduceNode;
use plain_nodes::reduction::Reduction;
use std::alloc::Global;
use std::test::Fail;
use turn_scripts::fixtures::{column, schema};
use turn_scripts::tables::{ONE_INPUT, answer_in};

fn reduce(alloc: Global) -> Result<ReduceNode, Fail>
    ensures { IfOk result (λ n. n.sent ≡ 0) }
{
    let selectors = vec![in alloc; column(alloc)?]?;
    let reductions = vec![in alloc; Reduction::Sum]?;
    let schema = schema(alloc)?;
    let reduce = ReduceNode::new(selectors, reductions, schema);
    Ok(reduce)
}

// All states behind a script and so many claims, each for a reduce of its own.
fn holds_behind(alloc: Global, before: &str, claims: u16, table: &str) -> Result<(), Fail> {
    for states in ONE_INPUT.split_whitespace() {
        let wanted = answer_in(&[table], states)?;
        let reduce = reduce(alloc)?;
        answers_behind(alloc, reduce, before, claims, states, wanted)?;
    }
    Ok(())
}

#[test]
fn a_reduce_takes_its_input_gives_a_row_and_is_done(rt: HostRuntime) -> Result<(), Fail> {
    let alloc = rt.alloc();
    for (before, claims, table) in [
        ("", 0, TAKES),
        ("R/R -> R/B", 0, TAKES),
        ("B/B -> R/B\nR/R -> R/B\nB/R -> R/B", 0, TAKES),
        ("D/B -> D/R", 0, GIVES),
        ("R/B -> R/B\nD/R -> D/R\nD/R -> D/R", 0, GIVES),
        ("D/R -> D/R", 1, OVER),
        ("B/D -> D/D", 0, OVER),
        ("R/R -> R/B\nR/D -> D/D", 0, OVER),
        ("D/D -> D/D", 0, OVER),
        ("D/R -> D/R\nD/D -> D/D", 0, OVER),
        ("D/R -> D/R\nD/D -> D/D", 1, OVER),
    ] {
        holds_behind(alloc, before, claims, table)?;
    }
    gives_morsels(alloc, reduce(alloc)?, 1)
}
