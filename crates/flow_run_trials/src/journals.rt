// Journals as text.
use ps_flow::Record;
use std::alloc::{AllocError, Global};
use world_records::Handed;

// Writes how many rows an answer has, or that it is a fault.
fn push_answer(text: &mut String, answer: &Handed) -> Result<(), AllocError> {
    match answer {
        Handed::Rows(rows) => text.write(*rows),
        Handed::Fault(_) => text.push_str("fault"),
    }
}

// Writes a record.
fn push_record(text: &mut String, record: &Record) -> Result<(), AllocError> {
    match record {
        Record::Open { phase } => write!(text, "open {phase}"),
        Record::Claim {
            node,
            input,
            number,
            worker,
        } => write!(text, "claim {node} {input} {number} {worker}"),
        Record::HandIn {
            node,
            input,
            number,
            worker,
            answer,
        } => {
            write!(text, "handin {node} {input} {number} {worker} ")?;
            push_answer(text, answer)
        }
        Record::Pull {
            node,
            input,
            number,
        } => write!(text, "pull {node} {input} {number}"),
        Record::Close { node } => write!(text, "close {node}"),
        Record::End { phase } => write!(text, "end {phase}"),
    }
}

/// The text of a journal, a record a line.
pub fn journal_text(alloc: Global, records: &[Record]) -> Result<String, AllocError> {
    let mut text = String::new(alloc);
    for record in records {
        push_record(&mut text, record)?;
        text.push('\n')?;
    }
    Ok(text)
}
