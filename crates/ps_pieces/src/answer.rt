//! Answers to pieces.
ghost use Rattle.std.specs.Prelude.{◌≡◌, ℕ};
ghost use Rattle.ps_pieces.specs.Shown.{answer_shown};
ghost use Rattle.ps_turns.specs.Tasks.{handed_of};
ghost use Rattle.world_records.specs.Shown.{handed_shown};

use ps_frame::frame::DataFrame;
use ps_frame::value::DataFault;
use world_records::records::Handed;

/// What a worker made of a piece.
#[derive(Drop)]
pub enum Answer {
    Rows(DataFrame),
}

/// What a journal says of this answer.
pub fn handed(answer: &Result<Answer, DataFault>) -> Handed
    ensures { (origin : ℕ) → handed_shown result ≡ handed_of (answer_shown origin answer.now) }
{
    match answer {
        Ok(Answer::Rows(table)) => Handed::Rows(table.height() as u64),
        Err(fault) => Handed::Fault(*fault),
    }
}
