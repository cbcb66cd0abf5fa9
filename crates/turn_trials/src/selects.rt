// Selects without an input: what they answer to each state of their one port.
ghost use Rattle.std.specs.Prelude.{◌≡◌, IfOk};

use plain_nodes::independent_select::InputIndependentSelectNode;
use std::alloc::Global;
use std::test::Fail;
use turn_scripts::fixtures::column;
use turn_scripts::script::{follow, update};
use turn_scripts::tables::{NO_INPUT, answer_in};

// Ready until its morsel is claimed or its output is done.
const READY: &str = "
/D -> /D
/* -> /R
";

const EXHAUSTED: &str = "/* -> /D";

fn select(alloc: Global) -> Result<InputIndependentSelectNode, Fail>
    ensures { IfOk result (λ n. n.sent ≡ 0) }
{
    let selectors = vec![in alloc; column(alloc)?, column(alloc)?]?;
    let select = InputIndependentSelectNode::new(selectors);
    Ok(select)
}

// What it answers behind a script and so many claims, twice.
fn answers_behind(
    alloc: Global,
    before: &str,
    claims: u8,
    states: &str,
    wanted: &str,
) -> Result<(), Fail> {
    let mut select = select(alloc)?;
    follow(alloc, &mut select, 0, before)?;
    for _ in 0..claims {
        select.claim();
    }
    if select.sent() != claims as usize {
        return Err(Fail::from("another count of claims"));
    }
    update(alloc, &mut select, 0, states, wanted)?;
    update(alloc, &mut select, 0, states, wanted)
}

// All states, each for a select of its own.
fn holds_behind(alloc: Global, before: &str, claims: u8, table: &str) -> Result<(), Fail> {
    for states in NO_INPUT.split_whitespace() {
        let wanted = answer_in(&[table], states)?;
        answers_behind(alloc, before, claims, states, wanted)?;
    }
    Ok(())
}

#[test]
fn a_select_without_input_is_ready_until_its_morsel_is_claimed(
    rt: HostRuntime,
) -> Result<(), Fail> {
    let alloc = rt.alloc();
    for (before, claims, table) in [
        ("", 0, READY),
        ("/B -> /R", 0, READY),
        ("/R -> /R\n/B -> /R", 0, READY),
        ("", 1, EXHAUSTED),
        ("/R -> /R", 1, EXHAUSTED),
        ("/B -> /R\n/R -> /R", 2, EXHAUSTED),
    ] {
        holds_behind(alloc, before, claims, table)?;
    }
    Ok(())
}
