// Group-bys: what they answer to each pair of states, in each of their stages.
ghost use Rattle.std.specs.Prelude.{◌≡◌, IfOk};

use crate::keepers::{GIVES, OVER, TAKES, answers_behind, gives_morsels};
use plain_nodes::group_by::GroupByNode;
use plain_nodes::reduction::Reduction;
use ps_frame::schema::Schema;
use ps_frame::value::DataType;
use ps_options::options::Options;
use pu_base::PlSmallStr;
use std::alloc::Global;
use std::test::Fail;
use turn_scripts::fixtures::{column, column_named, schema};
use turn_scripts::tables::{ONE_INPUT, answer_in};

// How a query is run that spreads its keys over so many partitions.
fn spread(partitions: u16) -> Result<Options, Fail> {
    match Options::new(7, 2, partitions as usize, 5) {
        Some(options) => Ok(options),
        None => Err(Fail::from("no options")),
    }
}

// The key and the greatest value of another column, one column each.
fn schema_of_both(alloc: Global) -> Result<Schema, Fail> {
    let mut schema = schema(alloc)?;
    let name = PlSmallStr::from_static(alloc, "b")?;
    schema.push(alloc, name, DataType::Int64)?;
    Ok(schema)
}

// One with so many partitions.
fn group_by(alloc: Global, partitions: u16) -> Result<GroupByNode, Fail>
    ensures { IfOk result (λ n. n.sent ≡ 0) }
{
    let keys = vec![in alloc; column(alloc)?]?;
    let selectors = vec![in alloc; column_named(alloc, "b")?]?;
    let reductions = vec![in alloc; Reduction::Max]?;
    let schema = schema_of_both(alloc)?;
    let options = spread(partitions)?;
    let mut group_by = GroupByNode::new(keys, selectors, reductions, schema);
    group_by.cut_by(options);
    Ok(group_by)
}

// All states behind a script and so many claims, each for a group-by of its own.
fn holds_behind(
    alloc: Global,
    partitions: u16,
    before: &str,
    claims: u16,
    table: &str,
) -> Result<(), Fail> {
    for states in ONE_INPUT.split_whitespace() {
        let wanted = answer_in(&[table], states)?;
        let group_by = group_by(alloc, partitions)?;
        answers_behind(alloc, group_by, before, claims, states, wanted)?;
    }
    Ok(())
}

#[test]
fn a_group_by_takes_its_input_gives_morsels_and_is_done(rt: HostRuntime) -> Result<(), Fail> {
    let alloc = rt.alloc();
    for (partitions, before, claims, table) in [
        (3, "", 0, TAKES),
        (3, "R/R -> R/B", 0, TAKES),
        (1, "B/B -> R/B\nR/R -> R/B\nB/R -> R/B", 0, TAKES),
        (3, "D/B -> D/R", 0, GIVES),
        (3, "R/B -> R/B\nD/R -> D/R\nD/R -> D/R", 2, GIVES),
        (1024, "D/R -> D/R", 1023, GIVES),
        (1, "D/R -> D/R", 1, OVER),
        (3, "R/B -> R/B\nD/B -> D/R", 3, OVER),
        (1024, "D/B -> D/R", 1024, OVER),
        (3, "B/D -> D/D", 0, OVER),
        (3, "R/R -> R/B\nR/D -> D/D", 0, OVER),
        (3, "D/D -> D/D", 0, OVER),
        (3, "D/R -> D/R\nD/D -> D/D", 0, OVER),
        (3, "D/R -> D/R\nD/D -> D/D", 1, OVER),
    ] {
        holds_behind(alloc, partitions, before, claims, table)?;
    }
    Ok(())
}

// Also of an empty input.
#[test]
fn a_group_by_gives_a_morsel_for_each_partition(rt: HostRuntime) -> Result<(), Fail> {
    let alloc = rt.alloc();
    for partitions in [1, 2, 3, 1024] {
        gives_morsels(alloc, group_by(alloc, partitions)?, partitions)?;
    }
    Ok(())
}
