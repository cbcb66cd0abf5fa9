//! The errors with which runs end.
ghost use Rattle.std.specs.Prelude.{◌≡◌};
ghost use Rattle.worker_pieces.specs.Faults.{as_fault};

use ps_frame::refusal::PolarsError;

/// The error of a fault, once more. It has no text, so this takes no memory. An error that stands for no fault is taken for want
/// of memory.
pub fn fault_again(error: &PolarsError) -> PolarsError
    ensures { result ≡ as_fault error.now }
{
    match error {
        PolarsError::ComputeError { node, why } => PolarsError::ComputeError {
            node: *node,
            why: *why,
        },
        PolarsError::ShapeMismatch { node } => PolarsError::ShapeMismatch { node: *node },
        PolarsError::OutOfBounds { node, why } => PolarsError::OutOfBounds {
            node: *node,
            why: *why,
        },
        _ => PolarsError::OutOfMemory,
    }
}
