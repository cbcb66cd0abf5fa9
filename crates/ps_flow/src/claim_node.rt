//! What a world asks of nodes whose work is claimed.
ghost use Rattle.std.specs.Prelude.{◌≡◌, ℕ, Bool, Err, IfOk, IfSome, IsTrue, List, OnErr, Option, is_some, option_copied};
ghost use Rattle.ps_flow.specs.Claiming.{HasClaimed, IsClaimOf, streams};
ghost use Rattle.ps_frame.specs.Functions.{Functions};
ghost use Rattle.ps_frame.specs.declared.refusal.PolarsError.{PolarsError};
ghost use Rattle.ps_meaning.specs.Shape.{PhysicalNode};

use crate::piece_node::PieceNode;
use ps_frame::frame::DataFrame;
use ps_frame::refusal::PolarsResult;
use std::alloc::Global;

/// Who claims: a worker, for an input of a node.
#[derive(Clone, Copy, Debug, PartialEq, Eq)]
pub struct Seat {
    pub node: u32,
    pub input: u32,
    pub worker: u32,
}

/// The piece of a claim that may be made: how many rows the input's next morsel has, whether the claim takes that morsel, and
/// whether nobody wants the input's rows after it.
#[derive(Drop)]
pub struct Claimed<P> {
    pub piece: P,
    pub rows: usize,
    pub takes_morsel: bool,
    pub drops_input: bool,
}

/// A node that may give out pieces of work to workers who claim them.
pub trait ClaimNode: PieceNode {
    /// Whether a piece may be computed with these functions, and its rows are those of this node of a shape.
    ghost IsFor: { Functions → PhysicalNode → Self.Piece → Type 0 };

    /// Whether it may count one more claim, of a morsel with so many rows.
    ghost HasCount: { Self → (rows : ℕ) → Type 0 };

    /// The piece of the claim that the node has on an input whose next morsel is this one, under this number, if it has one.
    /// The claim isn't made yet.
    ///
    /// Fails only for want of memory, as where 64 bits don't hold the count of the node's claims or rows.
    fn prepare(
        &self,
        alloc: Global,
        seat: Seat,
        number: u64,
        morsel: Option<&DataFrame>,
    ) -> PolarsResult<Option<Claimed<Self::Piece>>>
        ensures claim { IfOk result (IsClaimOf Self.Shows IsFor Self.Has self.now seat number (option_copied morsel.entry)) }
        ensures count { IfOk result (λ found. IfSome found (λ y. HasCount self.now y.rows)) }
        ensures memory { OnErr result (result ≡ Err PolarsError.OutOfMemory) };

    /// The claim on an input is made, of a morsel with so many rows.
    fn claim(&mut self, input: u32, rows: usize)
        requires { HasCount self.old rows }
        ensures { HasClaimed Self.Has input rows self.old self.new };
}
