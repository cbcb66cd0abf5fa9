// A column that is made value by value.
ghost use Rattle.std.specs.Prelude.{◌≡◌, ◌≢◌, ◌↔◌, [], Err, IfOk, IsFalse, IsTrue, OnErr, OnOk, ◌++◌, if◌then◌else◌, take};
ghost use Rattle.ps_frame.specs.Frames.{above};
ghost use Rattle.ps_frame.specs.Pushed.{with_value};
ghost use Rattle.ps_frame.specs.Series.{Series, all_fit};
ghost use Rattle.ps_frame.specs.Values.{fits_kind};

use crate::column::{Column, push_clones};
use crate::error::FrameError;
use crate::packed::Packed;
use crate::runs::MOST_RUNS;
use crate::value::{DataType, Value};
use std::alloc::Global;
use std::marker::Model;

/// A kind, and values of it that are pushed one after another: a column in the making.
///
/// As long as few values differ, each of them is held once, and a cell takes 4 bytes. Long columns
/// that are put in whole are shared, and stand in front of what was pushed since.
#[derive(Drop)]
pub struct ColumnBuilder {
    front: Option<Column>,
    packed: Packed,
    rest: Vec<Value>,
}

impl Model for ColumnBuilder {
    ghost use Rattle.std.specs.Prelude.{◌≡◌, ◌++◌, IfSome, IsTrue};
    ghost use Rattle.ps_frame.specs.Pushed.{values_of};
    ghost use Rattle.ps_frame.specs.Series.{Series, all_fit};

    ghost Value = { Series };

    ghost view = { λ a. record { kind = a.packed.kind; values = values_of a.front ++ (a.packed.values ++ a.rest.items) } };

    ghost invariant = { λ a. IfSome a.front (λ front. front.kind ≡ a.packed.kind) × IsTrue (all_fit a.packed.kind a.rest.items) };
}

impl ColumnBuilder {
    /// A builder of a column of this kind that has no values yet. It takes no memory.
    pub fn new(alloc: Global, dtype: DataType) -> ColumnBuilder
        ensures { result ≡ record { kind = dtype; values = [] } }
    {
        ColumnBuilder {
            front: None,
            packed: Packed::new(alloc, dtype),
            rest: Vec::new(alloc),
        }
    }

    /// Puts a value at the end, which is null or of the kind.
    ///
    /// It fails with `Kind` for another value, and else only for want of memory; the builder then
    /// stays as it was.
    pub fn push(&mut self, alloc: Global, value: Value) -> Result<(), FrameError>
        ensures added { OnOk result (self.new ≡ with_value self.old value) }
        ensures kind { (result ≡ Err FrameError.Kind) ↔ IsFalse (fits_kind self.old.kind value) }
        ensures errors { OnErr result (IsTrue (fits_kind self.old.kind value) → result ≡ Err FrameError.OutOfMemory) }
        ensures refused { OnErr result (self.new ≡ self.old) }
    {
        if !value.fits(self.packed.dtype()) {
            return Err(FrameError::Kind);
        }
        // Not by `?`: the clauses tell want of memory from `Kind`, so it is named here.
        match self.put(alloc, value) {
            Ok(()) => Ok(()),
            Err(_) => Err(FrameError::OutOfMemory),
        }
    }

    /// Puts a whole number at the end, as `push` does, but faster: where the number was there before
    /// and few differ, no value is made of it.
    ///
    /// It fails with `Kind` where the kind isn't `Int64`, and else only for want of memory; the
    /// builder then stays as it was.
    pub fn push_number(&mut self, alloc: Global, number: i64) -> Result<(), FrameError>
        ensures added { OnOk result (self.new ≡ with_value self.old (Value.Int64 number)) }
        ensures kind { (result ≡ Err FrameError.Kind) ↔ (self.old.kind ≢ DataType.Int64) }
        ensures errors { OnErr result (self.old.kind ≡ DataType.Int64 → result ≡ Err FrameError.OutOfMemory) }
        ensures refused { OnErr result (self.new ≡ self.old) }
    {
        if self.packed.dtype() != DataType::Int64 {
            return Err(FrameError::Kind);
        }
        // Not by `?`: the clauses tell want of memory from `Kind`, so it is named here.
        match self.put_number(alloc, number) {
            Ok(()) => Ok(()),
            Err(_) => Err(FrameError::OutOfMemory),
        }
    }

    /// Puts a text at the end, as `push` does, but faster: where the text was there before and few
    /// differ, it isn't copied.
    ///
    /// It fails with `Kind` where the kind isn't `String`, and else only for want of memory; the
    /// builder then stays as it was.
    pub fn push_text(&mut self, alloc: Global, text: &str) -> Result<(), FrameError>
        ensures added { OnOk result (self.new ≡ with_value self.old (Value.String text.now)) }
        ensures kind { (result ≡ Err FrameError.Kind) ↔ (self.old.kind ≢ DataType.String) }
        ensures errors { OnErr result (self.old.kind ≡ DataType.String → result ≡ Err FrameError.OutOfMemory) }
        ensures refused { OnErr result (self.new ≡ self.old) }
    {
        if self.packed.dtype() != DataType::String {
            return Err(FrameError::Kind);
        }
        // Not by `?`: the clauses tell want of memory from `Kind`, so it is named here.
        match self.put_text(alloc, text) {
            Ok(()) => Ok(()),
            Err(_) => Err(FrameError::OutOfMemory),
        }
    }

    fn put_number(&mut self, alloc: Global, number: i64) -> Result<(), FrameError>
        requires { self.old.kind ≡ DataType.Int64 }
        ensures added { OnOk result (self.new ≡ with_value self.old (Value.Int64 number)) }
        ensures refused { OnErr result (self.new ≡ self.old) }
    {
        if self.push_packed_number(alloc, number)? {
            return Ok(());
        }
        self.unpack(alloc)?;
        self.push_apart(Value::Int64(number))
    }

    fn put_text(&mut self, alloc: Global, text: &str) -> Result<(), FrameError>
        requires { self.old.kind ≡ DataType.String }
        ensures added { OnOk result (self.new ≡ with_value self.old (Value.String text.now)) }
        ensures refused { OnErr result (self.new ≡ self.old) }
    {
        if self.push_packed_text(alloc, text)? {
            return Ok(());
        }
        self.unpack(alloc)?;
        let value = Value::of_text(alloc, text)?;
        self.push_apart(value)
    }

    // Puts a number at the end of the packed ones, where it may and there is room: that is the answer.
    fn push_packed_number(&mut self, alloc: Global, number: i64) -> Result<bool, FrameError>
        requires { self.old.kind ≡ DataType.Int64 }
        ensures taken { IfOk result (λ taken. self.new ≡ (if taken then with_value self.old (Value.Int64 number) else self.old)) }
        ensures refused { OnErr result (self.new ≡ self.old) }
    {
        if !self.rest.is_empty() {
            return Ok(false);
        }
        self.packed.push_number(alloc, number)
    }

    // The same of a text.
    fn push_packed_text(&mut self, alloc: Global, text: &str) -> Result<bool, FrameError>
        requires { self.old.kind ≡ DataType.String }
        ensures taken { IfOk result (λ taken. self.new ≡ (if taken then with_value self.old (Value.String text.now) else self.old)) }
        ensures refused { OnErr result (self.new ≡ self.old) }
    {
        if !self.rest.is_empty() {
            return Ok(false);
        }
        self.packed.push_text(alloc, text)
    }

    fn put(&mut self, alloc: Global, value: Value) -> Result<(), FrameError>
        requires { IsTrue (fits_kind self.old.kind value) }
        ensures added { OnOk result (self.new ≡ with_value self.old value) }
        ensures refused { OnErr result (self.new ≡ self.old) }
    {
        // Once values stand apart, the next one does too.
        if !self.rest.is_empty() {
            return self.push_apart(value);
        }
        if self.push_packed(alloc, &value)? {
            return Ok(());
        }
        self.unpack(alloc)?;
        self.push_apart(value)
    }

    // Puts an equal value at the end of the packed ones, where it may and there is room: that is the answer.
    fn push_packed(&mut self, alloc: Global, value: &Value) -> Result<bool, FrameError>
        requires { IsTrue (fits_kind self.old.kind value.now) }
        ensures taken { IfOk result (λ taken. self.new ≡ (if taken then with_value self.old value.now else self.old)) }
        ensures refused { OnErr result (self.new ≡ self.old) }
    {
        if !self.rest.is_empty() {
            return Ok(false);
        }
        self.packed.push(alloc, value)
    }

    // From here on each cell has a value of its own.
    fn unpack(&mut self, alloc: Global) -> Result<(), FrameError>
        ensures same { self.new ≡ self.old }
        ensures memory { OnErr result (result ≡ Err FrameError.OutOfMemory) }
    {
        if self.rest.is_empty() {
            // A law: what is taken over fits the kind, as `rest` has to.
            self.packed.values_fit();
            let rest = self.packed.values(alloc)?;
            self.packed = Packed::new(alloc, self.packed.dtype());
            self.rest = rest;
        }
        Ok(())
    }

    // Puts a value behind all others, in a cell of its own.
    fn push_apart(&mut self, value: Value) -> Result<(), FrameError>
        requires { IsTrue (fits_kind self.old.kind value) }
        ensures added { OnOk result (self.new ≡ with_value self.old value) }
        ensures refused { OnErr result (self.new ≡ self.old) }
    {
        self.rest.push(value)?;
        Ok(())
    }

    /// Puts the values of a column at the end; those of a long one are shared where that is possible.
    ///
    /// It fails with `Kind` for a column of another kind, and else only for want of memory.
    pub fn with_column(self, alloc: Global, column: &Column) -> Result<ColumnBuilder, FrameError>
        ensures added { IfOk result (λ builder. builder ≡ above self column.now) }
        ensures kind { (result ≡ Err FrameError.Kind) ↔ (self.kind ≢ column.now.kind) }
        ensures errors { OnErr result (self.kind ≡ column.now.kind → result ≡ Err FrameError.OutOfMemory) }
    {
        if self.packed.dtype() != column.dtype() {
            return Err(FrameError::Kind);
        }
        // Not by `?`: the clauses tell want of memory from `Kind`, so it is named here.
        match self.followed_by(alloc, column) {
            Ok(builder) => Ok(builder),
            Err(_) => Err(FrameError::OutOfMemory),
        }
    }

    fn followed_by(self, alloc: Global, column: &Column) -> Result<ColumnBuilder, FrameError>
        requires { self.kind ≡ column.now.kind }
        ensures added { IfOk result (λ builder. builder ≡ above self column.now) }
    {
        if self.can_share(column) {
            return self.sharing(alloc, column);
        }
        let mut builder = self;
        let height = column.len();
        let count = builder.push_packed_values(alloc, column)?;
        if count == height {
            return Ok(builder);
        }
        builder.unpack(alloc)?;
        let rest = column.slice(alloc, count, height)?;
        builder.with_clones(alloc, &rest)
    }

    // Whether it pays to share the values of a column, and there is room for its runs, for what was
    // pushed so far and for what comes behind.
    fn can_share(&self, column: &Column) -> bool {
        let runs = match &self.front {
            Some(front) => front.n_chunks(),
            None => 0,
        };
        column.is_wide() && runs.saturating_add(column.n_chunks()) <= MOST_RUNS - 2
    }

    // What `with_column` answers; the values of the column are shared, if there is room.
    fn sharing(self, alloc: Global, column: &Column) -> Result<ColumnBuilder, FrameError>
        requires { self.kind ≡ column.now.kind }
        ensures added { IfOk result (λ builder. builder ≡ above self column.now) }
    {
        let mut builder = self;
        builder.unpack(alloc)?;
        let upper = builder.finish(alloc)?;
        let front = upper.append(alloc, column)?;
        let dtype = front.dtype();
        Ok(ColumnBuilder {
            front: Some(front),
            packed: Packed::new(alloc, dtype),
            rest: Vec::new(alloc),
        })
    }

    // Puts the first values of a column at the end of the packed ones, where they may and there is room: how many is the answer.
    fn push_packed_values(&mut self, alloc: Global, column: &Column) -> Result<usize, FrameError>
        requires { self.old.kind ≡ column.now.kind }
        ensures added { IfOk result (λ count. self.new ≡ record { kind = self.old.kind; values = self.old.values ++ take count column.now.values }) }
    {
        // Once values stand apart, the next ones do too.
        if !self.rest.is_empty() {
            return Ok(0);
        }
        self.packed.push_first(alloc, column)
    }

    // Puts the values of a column at the end, each in a cell of its own, without a look for any of them.
    fn with_clones(self, alloc: Global, column: &Column) -> Result<ColumnBuilder, FrameError>
        requires { self.kind ≡ column.now.kind }
        ensures added { IfOk result (λ builder. builder ≡ above self column.now) }
    {
        // A law: what is put in fits the kind, as `rest` has to.
        column.values_fit();
        let ColumnBuilder {
            front,
            packed,
            rest,
        } = self;
        let mut rest = rest;
        push_clones(alloc, &mut rest, column)?;
        Ok(ColumnBuilder {
            front,
            packed,
            rest,
        })
    }

    /// The column of the values.
    ///
    /// Fails only for want of memory.
    pub fn finish(self, alloc: Global) -> Result<Column, FrameError>
        ensures made { IfOk result (λ c. c ≡ self) }
        ensures memory { OnErr result (result ≡ Err FrameError.OutOfMemory) }
    {
        let mut builder = self;
        if builder.front.is_some() {
            // What stands behind shared runs is to be one of them.
            builder.unpack(alloc)?;
        }
        builder.put_together(alloc)
    }

    fn put_together(self, alloc: Global) -> Result<Column, FrameError>
        ensures made { IfOk result (λ c. c ≡ self) }
        ensures memory { OnErr result (result ≡ Err FrameError.OutOfMemory) }
    {
        let ColumnBuilder {
            front,
            packed,
            rest,
        } = self;
        let pushed = pushed_column(alloc, packed, rest)?;
        match front {
            Some(front) => front.append(alloc, &pushed),
            None => Ok(pushed),
        }
    }
}

// The column of what was pushed.
fn pushed_column(alloc: Global, packed: Packed, rest: Vec<Value>) -> Result<Column, FrameError>
    requires { IsTrue (all_fit packed.kind rest.items) }
    ensures made { IfOk result (λ c. c ≡ record { kind = packed.kind; values = packed.values ++ rest.items }) }
    ensures memory { OnErr result (result ≡ Err FrameError.OutOfMemory) }
{
    let dtype = packed.dtype();
    let front = packed.into_column(alloc)?;
    let rest = Column::of_values(alloc, dtype, rest)?;
    front.append(alloc, &rest)
}
