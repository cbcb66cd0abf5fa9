// The journal of a run: records in order, and many of them.
use crate::comparing::is;
use std::test::Fail;
use world_records::{Handed, Journal, Move, Record};

#[test]
fn keeps_records_in_order(rt: HostRuntime) -> Result<(), Fail> {
    let mut journal = Journal::new(rt.alloc());
    is("records", journal.records().len(), 0)?;
    journal.reserve(4)?;
    journal.append(Record::Open { phase: 0 });
    journal.append(Record::Claim {
        node: 3,
        input: 1,
        number: 7,
        worker: 2,
    });
    journal.append(Record::HandIn {
        node: 3,
        input: 1,
        number: 7,
        worker: 2,
        answer: Handed::Rows(5),
    });
    journal.append(Record::End { phase: 0 });
    is("claims", journal.claims(), 1)?;
    is("records", journal.records().len(), 4)?;
    is(
        "move of the first",
        journal.records()[0].move_made(),
        Some(Move::Open),
    )?;
    let claim = Some(Move::Claim { node: 3, input: 1 });
    is(
        "move of the second",
        journal.records()[1].move_made(),
        claim,
    )?;
    is("move of the third", journal.records()[2].move_made(), None)?;
    assert!(rt; journal.records()[1].is_claim());
    assert!(rt; !journal.records()[2].is_claim());
    is("the last", journal.records()[3], Record::End { phase: 0 })?;
    Ok(())
}

#[test]
fn keeps_many_records(rt: HostRuntime) -> Result<(), Fail> {
    let mut journal = Journal::new(rt.alloc());
    for number in 0..10_000_u64 {
        journal.reserve(1)?;
        journal.append(Record::Pull {
            node: 0,
            input: 0,
            number,
        });
    }
    is("records", journal.records().len(), 10_000)?;
    is("claims", journal.claims(), 0)?;
    Ok(())
}
