// The errors of data faults.
ghost use Rattle.std.specs.Prelude.{◌≡◌};
ghost use Rattle.ps_meaning.specs.Errors.{fault_error};

use ps_frame::refusal::{Bound, Compute, PolarsError};
use ps_frame::value::DataFault;
use pu_base::Node;

/// The error of a data fault at a node.
pub fn fault_at(node: Node, fault: DataFault) -> PolarsError
    ensures { result ≡ fault_error node.0 fault }
{
    match fault {
        DataFault::StrictCast => PolarsError::ComputeError {
            node,
            why: Compute::StrictCast,
        },
        DataFault::SliceBound => PolarsError::ComputeError {
            node,
            why: Compute::SliceBound,
        },
        DataFault::Function => PolarsError::ComputeError {
            node,
            why: Compute::Function,
        },
        DataFault::Shape => PolarsError::ShapeMismatch { node },
        DataFault::RowIndex => PolarsError::OutOfBounds {
            node,
            why: Bound::RowIndex,
        },
        DataFault::Gather => PolarsError::OutOfBounds {
            node,
            why: Bound::Gather,
        },
        DataFault::Rows => PolarsError::OutOfBounds {
            node,
            why: Bound::Rows,
        },
    }
}
