// Pieces that compute and pieces that hand rows on, over worked tables.
ghost use Rattle.std.specs.Prelude.{◌≡◌, ◌<◌, IfOk};
ghost use Rattle.ps_pieces.specs.Operations.{IsFitFor};
ghost use Rattle.run_part_trials.specs.Answers.{same_or_none};
ghost use Rattle.run_part_trials.specs.Tested.{numbers_counted};

use crate::functions::SameOrNone;
use crate::tables::{numbers_of, schema_of, table_of};
use ps_frame::frame::DataFrame;
use ps_frame::schema::Schema;
use ps_frame::value::{DataFault, DataType};
use ps_pieces::answer::{Answer, handed};
use ps_pieces::parameters::{Operation, Parameters};
use ps_pieces::piece::{Piece, Task};
use ps_pieces::work::work;
use pu_base::{Arena, Node, PlSmallStr};
use std::alloc::Global;
use std::sync::Arc;
use std::test::Fail;
use world_records::records::Handed;

// The rows of a piece's first column, or its fault.
#[derive(Drop)]
enum Outcome {
    Numbers(Vec<i64>),
    Fault(DataFault),
}

// What a worker makes of parameters over a table that comes behind so many rows.
fn computed(
    alloc: Global,
    parameters: Parameters,
    before: usize,
    table: DataFrame,
) -> Result<Outcome, Fail>
    requires { IsFitFor same_or_none parameters before table }
{
    let Ok(parameters) = Arc::new(alloc, parameters) else {
        return Err(Fail::from("no memory"));
    };
    let task = Task::Computes {
        parameters,
        before,
        table,
    };
    let piece = Piece {
        node: 1,
        input: 0,
        number: 4,
        worker: 0,
        gives: 4,
        task,
    };
    outcome_of(alloc, work(alloc, &piece, &SameOrNone)?)
}

fn outcome_of(alloc: Global, answer: Result<Answer, DataFault>) -> Result<Outcome, Fail> {
    match answer {
        Ok(Answer::Rows(table)) => Ok(Outcome::Numbers(numbers_of(alloc, &table, 0)?)),
        Err(fault) => Ok(Outcome::Fault(fault)),
    }
}

fn is_numbers(outcome: &Outcome, wanted: &[i64]) -> bool {
    match outcome {
        Outcome::Numbers(numbers) => numbers.as_slice() == wanted,
        Outcome::Fault(_) => false,
    }
}

fn is_fault(outcome: &Outcome, wanted: DataFault) -> bool {
    match outcome {
        Outcome::Numbers(_) => false,
        Outcome::Fault(fault) => *fault == wanted,
    }
}

fn counted_schema(alloc: Global) -> Result<Schema, Fail>
    ensures { IfOk result (λ s. s ≡ numbers_counted) }
{
    let mut schema = Schema::new(alloc);
    schema.push(alloc, PlSmallStr::from_str(alloc, "i")?, DataType::IdxSize)?;
    schema.push(alloc, PlSmallStr::from_str(alloc, "a")?, DataType::Int64)?;
    Ok(schema)
}

// The row numbers of a table that comes behind so many rows.
fn counted(
    alloc: Global,
    offset: Option<u32>,
    before: usize,
    numbers: &[i64],
) -> Result<Outcome, Fail> {
    let name = PlSmallStr::from_str(alloc, "i")?;
    let parameters = Parameters {
        operation: Operation::WithRowIndex { name, offset },
        exprs: Arena::new(alloc),
        schema: counted_schema(alloc)?,
        origin: Node(7),
    };
    computed(alloc, parameters, before, table_of(alloc, numbers)?)
}

// Whether its rows have these numbers.
fn counts(
    alloc: Global,
    offset: Option<u32>,
    before: usize,
    numbers: &[i64],
    wanted: &[i64],
) -> Result<bool, Fail> {
    let outcome = counted(alloc, offset, before, numbers)?;
    Ok(is_numbers(&outcome, wanted))
}

// Whether the second of two rows has none.
fn has_no_number(alloc: Global, offset: Option<u32>, before: usize) -> Result<bool, Fail> {
    let outcome = counted(alloc, offset, before, &[5, 5])?;
    Ok(is_fault(&outcome, DataFault::RowIndex))
}

#[test]
fn a_row_index_counts_on(rt: HostRuntime) -> Result<(), Fail> {
    let alloc = rt.alloc();
    assert!(rt; counts(alloc, None, 0, &[5, 5], &[0, 1])?);
    assert!(rt; counts(alloc, Some(5), 3, &[5, 5], &[8, 9])?);
    // No row stands behind so many, so none lacks a number.
    assert!(rt; counts(alloc, None, usize::MAX, &[], &[])?);
    Ok(())
}

#[test]
fn no_row_is_behind_the_last_number(rt: HostRuntime) -> Result<(), Fail> {
    let alloc = rt.alloc();
    assert!(rt; counts(alloc, Some(4_294_967_293), 1, &[5], &[4_294_967_294])?);
    assert!(rt; has_no_number(alloc, Some(4_294_967_293), 1)?);
    Ok(())
}

// The answer of a function to a table.
fn mapped(alloc: Global, function: usize, numbers: &[i64]) -> Result<Outcome, Fail>
    requires { function < 2 }
{
    let parameters = Parameters {
        operation: Operation::Map(function),
        exprs: Arena::new(alloc),
        schema: schema_of(alloc)?,
        origin: Node(7),
    };
    computed(alloc, parameters, 0, table_of(alloc, numbers)?)
}

// Whether function 0 answers the table itself.
fn gives_itself(alloc: Global, numbers: &[i64]) -> Result<bool, Fail> {
    let outcome = mapped(alloc, 0, numbers)?;
    Ok(is_numbers(&outcome, numbers))
}

// Whether function 1 breaks its node.
fn breaks(alloc: Global) -> Result<bool, Fail> {
    let outcome = mapped(alloc, 1, &[1])?;
    Ok(is_fault(&outcome, DataFault::Function))
}

#[test]
fn a_map_asks_its_function(rt: HostRuntime) -> Result<(), Fail> {
    let alloc = rt.alloc();
    assert!(rt; gives_itself(alloc, &[1, 2])?);
    assert!(rt; gives_itself(alloc, &[])?);
    assert!(rt; breaks(alloc)?);
    Ok(())
}

// A piece that hands on these rows is answered by them, and the journal says how many.
fn hands_on(alloc: Global, numbers: &[i64], rows: u64) -> Result<bool, Fail> {
    let piece = Piece {
        node: 0,
        input: 0,
        number: 0,
        worker: 1,
        gives: 0,
        task: Task::HandsOn(table_of(alloc, numbers)?),
    };
    let answer = work(alloc, &piece, &SameOrNone)?;
    let told = handed(&answer) == Handed::Rows(rows);
    let outcome = outcome_of(alloc, answer)?;
    Ok(told && is_numbers(&outcome, numbers))
}

#[test]
fn rows_are_handed_on(rt: HostRuntime) -> Result<(), Fail> {
    let alloc = rt.alloc();
    assert!(rt; hands_on(alloc, &[1, 2], 2)?);
    assert!(rt; hands_on(alloc, &[], 0)?);
    Ok(())
}
