// Equi joins: what they answer to all states of their left input, of their right one and of their output, in each stage.
ghost use Rattle.std.specs.Prelude.{◌≡◌, IfOk};

use node_states::stage::Stage;
use plain_nodes::equi_join::EquiJoinNode;
use ps_meaning::options::{JoinArgs, JoinType, JoinValidation};
use std::alloc::Global;
use std::test::Fail;
use turn_scripts::fixtures::{column, schema};
use turn_scripts::script::{answers, follow};
use turn_scripts::tables::{TWO_INPUTS, answer_in};

// A new one. While its right input isn't done it builds: that gets ready, the left one and the output blocked. Once it is
// done the left input is passed. Once the output is done all are.
const BUILDS: &str = "
**/D -> DD/D
DB/* -> DR/B
DR/* -> DR/B
*B/* -> BR/B
*R/* -> BR/B
BD/B -> BD/B
BD/R -> RD/B
RD/B -> BD/R
RD/R -> RD/R
";

// One that probes: its right input stays done.
const PROBES: &str = "
**/D -> DD/D
B*/B -> BD/B
B*/R -> RD/B
R*/B -> BD/R
R*/R -> RD/R
";

// Once its left input is done, and the right one too where it builds, all is.
const OWES_NOTHING: &str = "D*/* -> DD/D";

// One that gives right rows without a match at the end isn't done with its left input.
const OWES_RIGHT_ROWS: &str = "D*/* -> DD/R";

// One that is done stays so.
const OVER: &str = "**/* -> DD/D";

fn args(how: JoinType) -> JoinArgs {
    JoinArgs {
        how,
        suffix: None,
        join_nulls: false,
        validation: JoinValidation::ManyToMany,
        slice: None,
    }
}

fn join(alloc: Global, how: JoinType) -> Result<EquiJoinNode, Fail>
    ensures { IfOk result (λ n. n.sent ≡ 0) }
{
    let left_on = vec![in alloc; column(alloc)?]?;
    let right_on = vec![in alloc; column(alloc)?]?;
    let (left, right, given) = (schema(alloc)?, schema(alloc)?, schema(alloc)?);
    let join = EquiJoinNode::new(left, right, left_on, right_on, args(how), given);
    Ok(join)
}

// What a new join of this kind answers behind a script.
fn holds_behind(alloc: Global, how: JoinType, before: &str, table: &[&str]) -> Result<(), Fail> {
    for states in TWO_INPUTS.split_whitespace() {
        let wanted = answer_in(table, states)?;
        let join = join(alloc, how)?;
        answers(alloc, join, 2, before, states, wanted)?;
    }
    Ok(())
}

fn holds_of(alloc: Global, how: JoinType, owed: &str) -> Result<(), Fail> {
    holds_behind(alloc, how, "", &[BUILDS, owed])?;
    holds_behind(alloc, how, "RB/R -> BR/B\nRR/R -> BR/B", &[BUILDS, owed])?;
    holds_behind(alloc, how, "BD/B -> BD/B", &[PROBES, owed])?;
    holds_behind(alloc, how, "RR/D -> DD/D", &[OVER])?;
    holds_behind(alloc, how, "RD/R -> RD/R\nRD/D -> DD/D", &[OVER])
}

#[test]
fn an_equi_join_builds_probes_and_is_done(rt: HostRuntime) -> Result<(), Fail> {
    let alloc = rt.alloc();
    holds_of(alloc, JoinType::Inner, OWES_NOTHING)?;
    holds_of(alloc, JoinType::Left, OWES_NOTHING)
}

#[test]
fn a_join_that_owes_right_rows_is_not_done_with_its_left(rt: HostRuntime) -> Result<(), Fail> {
    let alloc = rt.alloc();
    holds_of(alloc, JoinType::Right, OWES_RIGHT_ROWS)?;
    holds_of(alloc, JoinType::Full, OWES_RIGHT_ROWS)
}

// A join of this kind that probed, and whose last rows are claimed.
fn claimed(alloc: Global, how: JoinType) -> Result<EquiJoinNode, Fail> {
    let mut join = join(alloc, how)?;
    follow(
        alloc,
        &mut join,
        2,
        "RD/R -> RD/R\nDD/R -> DD/R\nDD/B -> DD/R",
    )?;
    join.claim_last();
    Ok(join)
}

// Once its last rows are claimed it is done with its left, as one that owes none.
fn holds_of_last_claim(alloc: Global, how: JoinType) -> Result<(), Fail> {
    for states in TWO_INPUTS.split_whitespace() {
        let wanted = answer_in(&[PROBES, OWES_NOTHING], states)?;
        let join = claimed(alloc, how)?;
        answers(alloc, join, 2, "", states, wanted)?;
    }
    Ok(())
}

#[test]
fn a_join_is_done_once_its_last_rows_are_claimed(rt: HostRuntime) -> Result<(), Fail> {
    let alloc = rt.alloc();
    holds_of_last_claim(alloc, JoinType::Right)?;
    holds_of_last_claim(alloc, JoinType::Full)
}

// The stage behind a script.
fn stands_behind(alloc: Global, script: &str, stage: Stage) -> Result<(), Fail> {
    let mut join = join(alloc, JoinType::Full)?;
    follow(alloc, &mut join, 2, script)?;
    if join.stage() != stage {
        return Err(Fail::new(format_args!("another stage behind {script}")));
    }
    Ok(())
}

#[test]
fn an_equi_join_takes_while_it_builds(rt: HostRuntime) -> Result<(), Fail> {
    let alloc = rt.alloc();
    stands_behind(alloc, "", Stage::Taking)?;
    stands_behind(alloc, "RR/R -> BR/B", Stage::Taking)?;
    stands_behind(alloc, "DB/R -> DR/B", Stage::Taking)?;
    stands_behind(alloc, "BD/B -> BD/B", Stage::Giving)?;
    stands_behind(alloc, "RD/R -> RD/R\nDD/R -> DD/R", Stage::Giving)?;
    stands_behind(alloc, "RR/D -> DD/D", Stage::Spent)
}
