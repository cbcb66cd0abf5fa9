//! What nodes of a run give out, and what is handed in for it.
ghost use Rattle.std.specs.Prelude.{◌≡◌};
ghost use Rattle.flow_runs.specs.Handing.{given_for, schema_in};
ghost use Rattle.ps_pieces.specs.Shown.{Shows as ShowsPiece, origin_of};

use crate::node::RunningNode;
use ps_flow::PieceNode;
use ps_flow::piece_node::Place;
use ps_frame::frame::DataFrame;
use ps_frame::refusal::PolarsError;
use ps_frame::value::DataFault;
use ps_meaning::faults::fault_at;
use ps_pieces::answer::{Answer, handed};
use ps_pieces::piece::{Piece, Task};
use pu_base::Node;
use world_records::Handed;

/// The logical node that the faults of a task are told of. What hands rows on has none.
fn origin(task: &Task) -> Node
    ensures { result.0 ≡ origin_of task.now }
{
    match task {
        Task::HandsOn(_) => Node(0),
        Task::Computes { parameters, .. } => parameters.origin,
    }
}

impl PieceNode for RunningNode {
    type Piece = Piece;

    type Answer = Result<Answer, DataFault>;

    ghost Shows = { ShowsPiece };

    ghost given = { given_for };

    ghost schema_given = { schema_in };

    fn place_of(piece: &Piece) -> Place {
        Place {
            node: piece.node,
            input: piece.input,
            number: piece.number,
            worker: piece.worker,
            gives: piece.gives,
        }
    }

    fn handed(answer: &Result<Answer, DataFault>) -> Handed {
        handed(answer)
    }

    fn told(piece: &Piece, answer: Result<Answer, DataFault>) -> Result<DataFrame, PolarsError> {
        match answer {
            Ok(Answer::Rows(rows)) => Ok(rows),
            Err(fault) => Err(fault_at(origin(&piece.task), fault)),
        }
    }
}
