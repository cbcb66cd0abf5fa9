// What a query answers in place of a table.
ghost use Rattle.std.specs.Prelude.{◌≡◌};
ghost use Rattle.ps_frame.specs.Lines.{bound_name, compute_name, why_name};

use crate::expr::What;
use pu_base::{Node, PlSmallStr};
use std::alloc::{AllocError, AllocFailed};
use std::fmt;

/// Why a plan has no sound form.
#[derive(Clone, Copy, Debug, PartialEq, Eq)]
pub enum Why {
    Shape,
    Keys,
    Limits,
}

impl Why {
    /// The variant's name.
    pub fn name(self) -> &'static str
        ensures { result.now ≡ why_name self }
    {
        match self {
            Why::Shape => "Shape",
            Why::Keys => "Keys",
            Why::Limits => "Limits",
        }
    }
}

/// What can't be computed.
#[derive(Clone, Copy, Debug, PartialEq, Eq)]
pub enum Compute {
    NoKey,
    StrictCast,
    SliceBound,
    Function,
}

impl Compute {
    /// The variant's name.
    pub fn name(self) -> &'static str
        ensures { result.now ≡ compute_name self }
    {
        match self {
            Compute::NoKey => "NoKey",
            Compute::StrictCast => "StrictCast",
            Compute::SliceBound => "SliceBound",
            Compute::Function => "Function",
        }
    }
}

/// Which bound is passed.
#[derive(Clone, Copy, Debug, PartialEq, Eq)]
pub enum Bound {
    RowIndex,
    Gather,
    Rows,
}

impl Bound {
    /// The variant's name.
    pub fn name(self) -> &'static str
        ensures { result.now ≡ bound_name self }
    {
        match self {
            Bound::RowIndex => "RowIndex",
            Bound::Gather => "Gather",
            Bound::Rows => "Rows",
        }
    }
}

/// A refusal or a data fault at a logical node, or want of memory.
///
/// It is shown on one line: its name, why, the node and a name, as far as it has them, as
/// `InvalidPlan Shape at 0`, `ColumnNotFound at 1: z` or `OutOfMemory`.
#[derive(Debug, Drop)]
pub enum PolarsError {
    InvalidPlan { node: Node, why: Why },
    ColumnNotFound { node: Node, name: PlSmallStr },
    Duplicate { node: Node, name: PlSmallStr },
    SchemaMismatch { node: Node },
    ComputeError { node: Node, why: Compute },
    ShapeMismatch { node: Node },
    OutOfBounds { node: Node, why: Bound },
    Unsupported { node: Node, what: What },
    OutOfMemory,
}

/// The result of a call that may refuse a plan.
pub type PolarsResult<T> = Result<T, PolarsError>;

impl fmt::Display for PolarsError {
    ghost use Rattle.std.specs.Prelude.{Some};
    ghost use Rattle.ps_frame.specs.Lines.{refusal_line};

    ghost output = { λ e. Some (refusal_line e) };

    fn fmt<W: fmt::Write>(&self, f: &mut fmt::Formatter<W>) -> fmt::Result {
        match self {
            PolarsError::InvalidPlan { node, why } => {
                write!(f, "InvalidPlan {} at {}", why.name(), node.0)
            }
            PolarsError::ColumnNotFound { node, name } => {
                write!(f, "ColumnNotFound at {}: {}", node.0, name.as_str())
            }
            PolarsError::Duplicate { node, name } => {
                write!(f, "Duplicate at {}: {}", node.0, name.as_str())
            }
            PolarsError::SchemaMismatch { node } => write!(f, "SchemaMismatch at {}", node.0),
            PolarsError::ComputeError { node, why } => {
                write!(f, "ComputeError {} at {}", why.name(), node.0)
            }
            PolarsError::ShapeMismatch { node } => write!(f, "ShapeMismatch at {}", node.0),
            PolarsError::OutOfBounds { node, why } => {
                write!(f, "OutOfBounds {} at {}", why.name(), node.0)
            }
            PolarsError::Unsupported { node, what } => {
                write!(f, "Unsupported {} at {}", what.name(), node.0)
            }
            PolarsError::OutOfMemory => f.write_str("OutOfMemory"),
        }
    }
}

impl std::error::Error for PolarsError {}

impl From<AllocError> for PolarsError {
    ghost use Rattle.std.specs.Prelude.{◌≡◌};
    ghost use Rattle.ps_frame.specs.declared.refusal.PolarsError.TheVariants as refusal;

    ghost from_gives = { λ e r. r ≡ refusal.OutOfMemory };

    fn from(_: AllocError) -> PolarsError {
        PolarsError::OutOfMemory
    }
}

impl<T: Drop> From<AllocFailed<T>> for PolarsError {
    ghost use Rattle.std.specs.Prelude.{◌≡◌};
    ghost use Rattle.ps_frame.specs.declared.refusal.PolarsError.TheVariants as refusal;

    ghost from_gives = { λ e r. r ≡ refusal.OutOfMemory };

    fn from(_: AllocFailed<T>) -> PolarsError {
        PolarsError::OutOfMemory
    }
}
