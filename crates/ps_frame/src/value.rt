// Kinds, values, faults and cells.
use crate::text::CellText;

/// The kind of a column.
#[derive(Clone, Copy, Debug, PartialEq, Eq)]
pub enum DataType {
    Boolean,
    Int64,
    IdxSize,
    String,
}

/// One value; every kind has null.
#[derive(Debug, Drop)]
pub enum Value {
    Null,
    Boolean(bool),
    Int64(i64),
    IdxSize(u32),
    String(CellText),
}

/// What went wrong with data.
#[derive(Clone, Copy, Debug, PartialEq, Eq)]
pub enum DataFault {
    StrictCast,
    SliceBound,
    Function,
    Shape,
    RowIndex,
    Gather,
    Rows,
}

/// A value, or a fault in its place.
#[derive(Debug, Drop)]
pub enum Cell {
    Val(Value),
    Bad(DataFault),
}

/// The column that an expression gives.
#[derive(Debug, Drop)]
pub struct Evaluated {
    pub dtype: DataType,
    pub cells: Vec<Cell>,
    pub broken: Vec<DataFault>,
}

ghost use Rattle.std.specs.Prelude.{◌≡◌, ◌↔◌, IfOk, IsTrue, OnErr, Err};
ghost use Rattle.ps_frame.specs.Values.{fits_kind, is_true as is_true_value};
ghost use Rattle.ps_frame.specs.Series.{all_fit};

use crate::error::FrameError;
use std::alloc::Global;

impl Value {
    /// Whether the value may stand in a column of this kind.
    pub fn fits(&self, dtype: DataType) -> bool
        ensures { result ≡ fits_kind dtype self.now }
    {
        match self {
            Value::Null => true,
            Value::Boolean(_) => dtype == DataType::Boolean,
            Value::Int64(_) => dtype == DataType::Int64,
            Value::IdxSize(_) => dtype == DataType::IdxSize,
            Value::String(_) => dtype == DataType::String,
        }
    }

    /// Whether this is the truth value true.
    pub fn is_true(&self) -> bool
        ensures { result ≡ is_true_value self.now }
    {
        match self {
            Value::Boolean(b) => *b,
            _ => false,
        }
    }

    /// Whether this is the same value as another; null is the same as null.
    pub fn same(&self, other: &Value) -> bool
        ensures { IsTrue result ↔ (self.now ≡ other.now) }
    {
        match self {
            Value::Null => matches!(other, Value::Null),
            Value::Boolean(a) => match other {
                Value::Boolean(b) => a == b,
                _ => false,
            },
            Value::Int64(a) => match other {
                Value::Int64(b) => a == b,
                _ => false,
            },
            Value::IdxSize(a) => match other {
                Value::IdxSize(b) => a == b,
                _ => false,
            },
            Value::String(a) => match other {
                Value::String(b) => a.eq_str(b.as_str()),
                _ => false,
            },
        }
    }

    /// Whether this is that whole number.
    pub(crate) fn is_number(&self, number: i64) -> bool
        ensures { IsTrue result ↔ (self.now ≡ Value.Int64 number) }
    {
        match self {
            Value::Int64(z) => *z == number,
            _ => false,
        }
    }

    /// Whether this is that text.
    pub(crate) fn is_text(&self, text: &str) -> bool
        ensures { IsTrue result ↔ (self.now ≡ Value.String text.now) }
    {
        match self {
            Value::String(name) => name.eq_str(text),
            _ => false,
        }
    }

    /// The value of a text, which is copied.
    ///
    /// Fails only for want of memory.
    pub fn of_text(alloc: Global, text: &str) -> Result<Value, FrameError>
        ensures made { IfOk result (λ v. v ≡ Value.String text.now) }
        ensures memory { OnErr result (result ≡ Err FrameError.OutOfMemory) }
    {
        Ok(Value::String(CellText::from_str(alloc, text)?))
    }

    /// An equal value; a text's bytes are shared.
    ///
    /// Fails only for want of memory.
    pub fn try_clone(&self, _: Global) -> Result<Value, FrameError>
        ensures same { IfOk result (λ v. v ≡ self.now) }
        ensures memory { OnErr result (result ≡ Err FrameError.OutOfMemory) }
    {
        match self {
            Value::Null => Ok(Value::Null),
            Value::Boolean(b) => Ok(Value::Boolean(*b)),
            Value::Int64(z) => Ok(Value::Int64(*z)),
            Value::IdxSize(n) => Ok(Value::IdxSize(*n)),
            Value::String(s) => Ok(Value::String(s.try_clone()?)),
        }
    }
}

/// Whether each value may stand in a column of this kind.
pub fn all_fit_kind(values: &[Value], dtype: DataType) -> bool
    ensures { result ≡ all_fit dtype values.now }
{
    values.iter().all(|v| v.fits(dtype))
}
