// Why a table can't be made.
use pu_base::PlSmallStr;
use std::alloc::{AllocError, AllocFailed};
use thiserror::Error;

/// Why a call on tables, columns or schemas gives none.
#[derive(Debug, Drop, Error)]
pub enum FrameError {
    /// A name would stand twice.
    #[error("the name {name} stands twice")]
    Duplicate { name: PlSmallStr },
    /// A value or a column hasn't the kind that is asked for, or two schemas differ.
    #[error("the kinds differ")]
    Kind,
    /// Numbers of columns or rows differ.
    #[error("the heights differ")]
    Height,
    /// There would be more rows than `u32::MAX`.
    #[error("too many rows")]
    Rows,
    /// An allocation was refused.
    #[error("out of memory")]
    OutOfMemory,
}

impl From<AllocError> for FrameError {
    ghost use Rattle.std.specs.Prelude.{◌≡◌};
    ghost use Rattle.ps_frame.specs.declared.error.FrameError.TheVariants as refusal;

    ghost from_gives = { λ e r. r ≡ refusal.OutOfMemory };

    fn from(_: AllocError) -> FrameError {
        FrameError::OutOfMemory
    }
}

impl<T: Drop> From<AllocFailed<T>> for FrameError {
    ghost use Rattle.std.specs.Prelude.{◌≡◌};
    ghost use Rattle.ps_frame.specs.declared.error.FrameError.TheVariants as refusal;

    ghost from_gives = { λ e r. r ≡ refusal.OutOfMemory };

    fn from(_: AllocFailed<T>) -> FrameError {
        FrameError::OutOfMemory
    }
}
