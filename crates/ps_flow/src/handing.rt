//! How the answer to a piece is handed in.
ghost use Rattle.std.specs.Prelude.{◌≡◌, ◌++◌, ◌∷◌, [], IfSome, List, None};
ghost use Rattle.ps_flow.specs.Handing.{IsPlaceOf, MayHandIn};
ghost use Rattle.ps_flow.specs.Standing.{Stands};
ghost use Rattle.ps_frame.specs.Causes.{Cause};
ghost use Rattle.ps_frame.specs.Functions.{Functions};
ghost use Rattle.ps_frame.specs.Tables.{Row};
ghost use Rattle.ps_meaning.specs.Errors.{cause_error};
ghost use Rattle.ps_turns.specs.Tasks.{Piece, bad, good, handed_of};
ghost use Rattle.ps_world.specs.Answers.{answered};
ghost use Rattle.ps_world.specs.World.{Node, World as RunWorld};
ghost use Rattle.world_records.specs.Shown.{handed_shown};

use crate::outputs::put_out;
use crate::piece_node::{PieceNode, Place};
use crate::world::World;
use ps_frame::frame::DataFrame;
use ps_frame::refusal::PolarsError;
use world_records::{Handed, Record};

/// The record of a hand-in.
fn record_of(place: Place, answer: Handed) -> Record
    ensures { result ≡ Record.HandIn place.node place.input place.number place.worker answer }
{
    Record::HandIn {
        node: place.node,
        input: place.input,
        number: place.number,
        worker: place.worker,
        answer,
    }
}

impl<N: PieceNode> World<N> {
    /// Rows are handed in for a piece.
    fn hand_rows(&mut self, place: Place, handed: Handed, rows: DataFrame)
        requires { (F : Functions) × (w : RunWorld) × (q : Piece) × (x : Node) × Stands N.Has w self.old × MayHandIn F w q x × IsPlaceOf q place }
        ensures { (F : Functions) (w : RunWorld) (q : Piece) (x : Node) → Stands N.Has w self.old → MayHandIn F w q x → IsPlaceOf q place → rows.schema ≡ x.node.schema → handed_shown handed ≡ handed_of (good rows.rows) → Stands N.Has (answered w q (good rows.rows)) self.new }
    {
        put_out(&self.graph, &mut self.pipes, place.node, place.gives, rows);
        self.outs.take_back(place.worker);
        self.journal.append(record_of(place, handed));
    }

    /// A fault is handed in for a piece.
    fn hand_fault(&mut self, place: Place, handed: Handed, fault: PolarsError)
        requires { (F : Functions) × (w : RunWorld) × (q : Piece) × (x : Node) × Stands N.Has w self.old × MayHandIn F w q x × IsPlaceOf q place }
        ensures { (F : Functions) (w : RunWorld) (q : Piece) (x : Node) (cause : Cause) → Stands N.Has w self.old → MayHandIn F w q x → IsPlaceOf q place → fault ≡ cause_error cause → handed_shown handed ≡ handed_of (bad cause) → Stands N.Has (answered w q (bad cause)) self.new }
    {
        self.fault = Some(fault);
        self.outs.take_back(place.worker);
        self.journal.append(record_of(place, handed));
    }

    /// What a worker made of a piece that is out is handed in: its rows go into their place in the pipe that leaves the piece's
    /// node, unless nobody wants them any more, and a fault ends the run. It takes no memory.
    ///
    /// In a run that has a fault already, both are let go, and nothing changes.
    pub fn hand_in(&mut self, piece: N::Piece, answer: N::Answer)
        requires { self.old.fault ≡ None → (F : Functions) × (w : RunWorld) × (q : Piece) × (x : Node) × Stands N.Has w self.old × MayHandIn F w q x × N.Shows q piece }
        ensures faulty { IfSome self.old.fault (λ e. self.new ≡ self.old) }
        ensures answered { self.old.fault ≡ None → (F : Functions) (w : RunWorld) (q : Piece) (x : Node) → Stands N.Has w self.old → MayHandIn F w q x → N.Shows q piece → ((rs : List Row) → N.given piece answer ≡ good rs → N.schema_given answer ≡ x.node.schema) → Stands N.Has (answered w q (N.given piece answer)) self.new }
    {
        if self.fault.is_some() {
            return;
        }
        let place = N::place_of(&piece);
        let handed = N::handed(&answer);
        match N::told(&piece, answer) {
            Ok(rows) => self.hand_rows(place, handed, rows),
            Err(fault) => self.hand_fault(place, handed, fault),
        }
    }
}
