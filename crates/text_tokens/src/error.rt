// Why a text gives no tokens, no query or no plan.
use pu_base::{PlSmallStr, PolarsUtilsError};
use std::alloc::{AllocError, AllocFailed};
use thiserror::Error;

/// Why a text of the pipeline language isn't answered.
#[derive(Debug, Drop, Error)]
pub enum TextError {
    /// The grammar gives the text no reading.
    #[error("the text is no query")]
    NoReading,
    /// A name that stands for a table is the name of none.
    #[error("there is no table {name}")]
    UnknownTable { name: PlSmallStr },
    /// An allocation was refused.
    #[error("out of memory")]
    OutOfMemory,
}

impl From<AllocError> for TextError {
    ghost use Rattle.std.specs.Prelude.{◌≡◌};
    ghost use Rattle.text_tokens.specs.declared.error.TextError.TheVariants as refusal;

    ghost from_gives = { λ e r. r ≡ refusal.OutOfMemory };

    fn from(_: AllocError) -> TextError {
        TextError::OutOfMemory
    }
}

impl<T: Drop> From<AllocFailed<T>> for TextError {
    ghost use Rattle.std.specs.Prelude.{◌≡◌};
    ghost use Rattle.text_tokens.specs.declared.error.TextError.TheVariants as refusal;

    ghost from_gives = { λ e r. r ≡ refusal.OutOfMemory };

    fn from(_: AllocFailed<T>) -> TextError {
        TextError::OutOfMemory
    }
}

impl From<PolarsUtilsError> for TextError {
    ghost use Rattle.std.specs.Prelude.{◌≡◌};
    ghost use Rattle.text_tokens.specs.declared.error.TextError.TheVariants as refusal;

    ghost from_gives = { λ e r. r ≡ refusal.OutOfMemory };

    /// What the utilities refuse here is memory alone.
    fn from(_: PolarsUtilsError) -> TextError {
        TextError::OutOfMemory
    }
}
