// Zips: what they answer to all states of two inputs and their output, by what their heads have.
ghost use Rattle.std.specs.Prelude.{◌≡◌, ◌∷◌, [], IfOk, length};
ghost use Rattle.turn_scripts.specs.Stores.{HasStores};

use plain_nodes::zip::ZipNode;
use ps_frame::schema::Schema;
use std::alloc::Global;
use std::test::Fail;
use turn_scripts::fixtures::schema;
use turn_scripts::script::{answers, follow, follow_table};
use turn_scripts::tables::{TWO_INPUTS, answer_in};

// While an input may bring more: all are blocked where an input is; else the output gets ready, and the inputs are blocked where
// it is. Once the output is done all are.
const COMING: &str = "
**/D -> DD/D
BD/* -> BD/B
DB/* -> DB/B
B*/* -> BB/B
*B/* -> BB/B
RR/B -> BB/R
RR/R -> RR/R
RD/B -> BD/R
RD/R -> RD/R
DR/B -> DB/R
DR/R -> DR/R
";

// Once all inputs are done, where its heads have rows.
const WAITING: &str = "DD/* -> DD/R";

// Where they have nothing left to give.
const SPENT: &str = "DD/* -> DD/D";

// Where they differ for good.
const DIFFERING: &str = "DD/* -> ShapeMismatch";

fn two_schemas(alloc: Global) -> Result<Vec<Schema>, Fail>
    ensures { IfOk result (λ s. length s.items ≡ 2) }
{
    let schemas = vec![in alloc; schema(alloc)?, schema(alloc)?]?;
    Ok(schemas)
}

// A new zip of two inputs, with or without extension by nulls.
fn new_zip(alloc: Global, null_extend: bool) -> Result<ZipNode, Fail>
    ensures came { IfOk result (λ n. n.came.items ≡ 0 ∷ 0 ∷ []) }
    ensures booked { IfOk result (λ n. n.booked ≡ 0) }
    ensures heads { IfOk result (λ n. length n.heads.items ≡ 2) }
{
    let schemas = two_schemas(alloc)?;
    let zip = ZipNode::new(alloc, null_extend, schemas)?;
    Ok(zip)
}

// So many rows came of the first input.
fn fed_first(zip: ZipNode, rows: u8) -> ZipNode
    requires came { zip.came.items ≡ 0 ∷ 0 ∷ [] }
    ensures came { result.came.items ≡ rows ∷ 0 ∷ [] }
    ensures others { result ≡ record zip { came = result.came } }
{
    let mut zip = zip;
    zip.store(0, rows as usize);
    zip
}

// And so many of the second.
fn fed_second(zip: ZipNode, first: u8, rows: u8) -> ZipNode
    requires came { zip.came.items ≡ first ∷ 0 ∷ [] }
    ensures came { result.came.items ≡ first ∷ rows ∷ [] }
    ensures others { result ≡ record zip { came = result.came } }
{
    let mut zip = zip;
    zip.store(1, rows as usize);
    zip
}

// So many of each are claimed.
fn booked(zip: ZipNode, rows: u8) -> ZipNode
    requires { zip.booked ≡ 0 }
    ensures { result ≡ record zip { booked = result.booked } }
{
    let mut zip = zip;
    zip.book(rows as usize);
    zip
}

// A zip with or without extension, of whose inputs so many rows came, and so many were claimed.
fn zip_with(alloc: Global, null_extend: bool, rows: (u8, u8, u8)) -> Result<ZipNode, Fail>
    ensures { IfOk result (λ n. HasStores 2 n) }
{
    let (first, second, claimed) = rows;
    let new = new_zip(alloc, null_extend)?;
    let one = fed_first(new, first);
    let both = fed_second(one, first, second);
    Ok(booked(both, claimed))
}

// What it answers to all states, each by a zip of its own, and one after the other.
fn holds_of(
    alloc: Global,
    null_extend: bool,
    rows: (u8, u8, u8),
    all_came: &str,
) -> Result<(), Fail> {
    for states in TWO_INPUTS.split_whitespace() {
        let wanted = answer_in(&[COMING, all_came], states)?;
        let zip = zip_with(alloc, null_extend, rows)?;
        answers(alloc, zip, 2, "", states, wanted)?;
    }
    let mut zip = zip_with(alloc, null_extend, rows)?;
    follow_table(alloc, &mut zip, 2, TWO_INPUTS, &[COMING, all_came])
}

// Rows wait in both, or in one beside the one row of the other, or each has one row.
#[test]
fn a_zip_gives_while_its_heads_have_rows(rt: HostRuntime) -> Result<(), Fail> {
    let alloc = rt.alloc();
    for rows in [
        (2, 2, 0),
        (5, 5, 3),
        (1, 3, 0),
        (1, 3, 2),
        (3, 1, 2),
        (1, 1, 0),
    ] {
        holds_of(alloc, false, rows, WAITING)?;
    }
    for rows in [(2, 2, 0), (2, 3, 2), (0, 1, 0), (1, 3, 2), (3, 0, 2)] {
        holds_of(alloc, true, rows, WAITING)?;
    }
    Ok(())
}

// Nothing came, or all was claimed, or nothing came beside one row that is repeated.
#[test]
fn a_zip_is_done_once_its_heads_are_spent(rt: HostRuntime) -> Result<(), Fail> {
    let alloc = rt.alloc();
    for rows in [
        (0, 0, 0),
        (2, 2, 2),
        (1, 3, 3),
        (3, 1, 3),
        (1, 1, 1),
        (0, 1, 0),
        (1, 0, 0),
    ] {
        holds_of(alloc, false, rows, SPENT)?;
    }
    for rows in [(0, 0, 0), (2, 3, 3), (1, 3, 3), (1, 1, 1)] {
        holds_of(alloc, true, rows, SPENT)?;
    }
    Ok(())
}

// Several lengths, of which none is one row alone: a fault, once all inputs are done and while the output isn't.
#[test]
fn heads_that_differ_are_a_fault_once_all_came(rt: HostRuntime) -> Result<(), Fail> {
    let alloc = rt.alloc();
    for rows in [
        (2, 3, 0),
        (3, 2, 0),
        (0, 2, 0),
        (2, 0, 0),
        (4, 5, 4),
        (5, 3, 2),
    ] {
        holds_of(alloc, false, rows, DIFFERING)?;
    }
    Ok(())
}

fn one_schema(alloc: Global) -> Result<Vec<Schema>, Fail>
    ensures { IfOk result (λ s. length s.items ≡ 1) }
{
    let schemas = vec![in alloc; schema(alloc)?]?;
    Ok(schemas)
}

fn one_zip(alloc: Global) -> Result<ZipNode, Fail>
    ensures { IfOk result (λ n. HasStores 1 n) }
{
    let schemas = one_schema(alloc)?;
    let zip = ZipNode::new(alloc, false, schemas)?;
    Ok(zip)
}

fn three_schemas(alloc: Global) -> Result<Vec<Schema>, Fail>
    ensures { IfOk result (λ s. length s.items ≡ 3) }
{
    let schemas = vec![in alloc; schema(alloc)?, schema(alloc)?, schema(alloc)?]?;
    Ok(schemas)
}

fn three_zip(alloc: Global) -> Result<ZipNode, Fail>
    ensures { IfOk result (λ n. HasStores 3 n) }
{
    let schemas = three_schemas(alloc)?;
    let zip = ZipNode::new(alloc, false, schemas)?;
    Ok(zip)
}

const OF_ONE_INPUT: &str = "
B/B -> B/B
B/R -> B/B
B/D -> D/D
R/B -> B/R
R/R -> R/R
R/D -> D/D
D/B -> D/D
D/R -> D/D
D/D -> D/D
";

const OF_THREE_INPUTS: &str = "
RRR/R -> RRR/R
RRR/B -> BBB/R
RRB/R -> BBB/B
DRB/R -> DBB/B
DRD/B -> DBD/R
DRR/R -> DRR/R
RBD/D -> DDD/D
DDD/R -> DDD/D
";

// Of one input, and of three, of which nothing came.
#[test]
fn a_zip_has_as_many_inputs_as_schemas(rt: HostRuntime) -> Result<(), Fail> {
    let alloc = rt.alloc();
    let mut zip = one_zip(alloc)?;
    follow(alloc, &mut zip, 1, OF_ONE_INPUT)?;
    let mut zip = three_zip(alloc)?;
    follow(alloc, &mut zip, 3, OF_THREE_INPUTS)
}
