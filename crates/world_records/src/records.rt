//! Records of a run, and the moves that a worker may make.
ghost use Rattle.std.specs.Prelude.{◌≡◌};
ghost use Rattle.world_records.specs.Shown.{is_claimed, move_made, record_shown};

use ps_frame::value::DataFault;

/// What a journal says of an answer: how many rows it has, over all of its tables, or which fault came in its place.
#[derive(Clone, Copy, Debug, PartialEq, Eq)]
pub enum Handed {
    Rows(u64),
    Fault(DataFault),
}

/// What was done in one step of a run. Nodes are named by their place in the graph, inputs and workers from 0 on.
#[derive(Clone, Copy, Debug, PartialEq, Eq)]
pub enum Record {
    Open {
        phase: u32,
    },
    Claim {
        node: u32,
        input: u32,
        number: u64,
        worker: u32,
    },
    HandIn {
        node: u32,
        input: u32,
        number: u64,
        worker: u32,
        answer: Handed,
    },
    Pull {
        node: u32,
        input: u32,
        number: u64,
    },
    Close {
        node: u32,
    },
    End {
        phase: u32,
    },
}

/// What a worker without a piece may do.
#[derive(Clone, Copy, Debug, PartialEq, Eq)]
pub enum Move {
    Open,
    Claim { node: u32, input: u32 },
    Pull { node: u32, input: u32 },
    Close { node: u32 },
    End,
}

impl Record {
    /// Whether a piece was claimed.
    pub fn is_claim(&self) -> bool
        ensures { result ≡ is_claimed (record_shown self.now) }
    {
        matches!(self, Record::Claim { .. })
    }

    /// The move that was made, if it wasn't a hand-in.
    pub fn move_made(&self) -> Option<Move>
        ensures { result ≡ move_made (record_shown self.now) }
    {
        match self {
            Record::Open { .. } => Some(Move::Open),
            Record::Claim { node, input, .. } => Some(Move::Claim {
                node: *node,
                input: *input,
            }),
            Record::HandIn { .. } => None,
            Record::Pull { node, input, .. } => Some(Move::Pull {
                node: *node,
                input: *input,
            }),
            Record::Close { node } => Some(Move::Close { node: *node }),
            Record::End { .. } => Some(Move::End),
        }
    }
}
