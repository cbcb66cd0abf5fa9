// Few values that stand in many cells: each is held once, and a cell tells its place among them.
ghost use Rattle.std.specs.Prelude.{◌≡◌, ◌<◌, ◌++◌, [], Err, IfOk, IfSome, IsTrue, OnErr, if◌then◌else◌, length, take};
ghost use Rattle.std.specs.List.{All};
ghost use Rattle.ps_frame.specs.Frames.{above};
ghost use Rattle.ps_frame.specs.Gathered.{gathered_or_null, value_or_null};
ghost use Rattle.ps_frame.specs.Pushed.{with_value};
ghost use Rattle.ps_frame.specs.Series.{Series, all_fit};
ghost use Rattle.ps_frame.specs.Values.{fits_kind};
ghost use Rattle.ps_frame.specs.Zip.{below};

use crate::column::{Column, clones_at};
use crate::error::FrameError;
use crate::guesses::Guesses;
use crate::hints::Hints;
use crate::value::{DataType, Value};
use crate::view::ColumnView;
use std::alloc::Global;
use std::marker::Model;

// At most so many values are told apart.
const MOST_VALUES: usize = 65_536;

// So many are few however seldom they repeat.
pub(crate) const FEW_VALUES: usize = 4096;

// Beyond those, one in so many pushed values was there before: many values lie far apart in memory,
// so to look one up takes longer than to hold it a second time.
const SELDOM: usize = 8;

// A text that is held a second time takes memory of its own.
const SELDOM_TEXT: usize = 32;

// Fewer cells have a value each.
pub(crate) const FEWEST_CELLS: usize = 1024;

// So have those that are there already, if each value stands in fewer of them on average.
const CELLS_EACH: usize = 8;

/// Whether values are few enough to be packed with others in that many cells.
pub(crate) fn are_few(values: usize, cells: usize) -> bool {
    FEWEST_CELLS <= cells && values <= FEW_VALUES.max(MOST_VALUES.min(cells / CELLS_EACH))
}

/// Values of a kind, each told by its place among a few. A cell takes 4 bytes.
#[derive(Drop)]
pub(crate) struct Packed {
    dtype: DataType,
    few: Vec<Value>,
    places: Vec<u32>,
    guesses: Guesses,
    hints: Hints,
}

impl Model for Packed {
    ghost use Rattle.std.specs.Prelude.{◌<◌, IsTrue, Some, length};
    ghost use Rattle.std.specs.List.{All};
    ghost use Rattle.ps_frame.specs.Gathered.{picked};
    ghost use Rattle.ps_frame.specs.Series.{Series, all_fit};

    ghost Value = { Series };

    ghost view = { λ a. record { kind = a.dtype; values = picked (Some a.places.items) a.few.items } };

    ghost invariant = { λ a. All (λ i. i < length a.few.items) a.places.items × IsTrue (all_fit a.dtype a.few.items) };
}

impl Packed {
    /// No values of this kind, which take no memory.
    pub(crate) fn new(alloc: Global, dtype: DataType) -> Packed
        ensures { result ≡ record { kind = dtype; values = [] } }
    {
        Packed {
            dtype,
            few: Vec::new(alloc),
            places: Vec::new(alloc),
            guesses: Guesses::new(alloc),
            hints: Hints::new(alloc),
        }
    }

    pub(crate) fn dtype(&self) -> DataType
        ensures { result ≡ self.now.kind }
    {
        self.dtype
    }

    /// Puts an equal value at the end, where there is room for it: that is the answer.
    ///
    /// Fails only for want of memory.
    pub(crate) fn push(&mut self, alloc: Global, value: &Value) -> Result<bool, FrameError>
        requires { IsTrue (fits_kind self.old.kind value.now) }
        ensures taken { IfOk result (λ taken. self.new ≡ (if taken then with_value self.old value.now else self.old)) }
        ensures refused { OnErr result (self.new ≡ self.old) }
        ensures memory { OnErr result (result ≡ Err FrameError.OutOfMemory) }
    {
        match self.guesses.place_of(self.few.as_slice(), value) {
            Some(place) => {
                self.places.push(place)?;
                Ok(true)
            }
            None => {
                let copy = value.try_clone(alloc)?;
                self.push_new(alloc, copy)
            }
        }
    }

    /// Puts a whole number at the end, where there is room for it: that is the answer.
    ///
    /// Fails only for want of memory.
    pub(crate) fn push_number(&mut self, alloc: Global, number: i64) -> Result<bool, FrameError>
        requires { self.old.kind ≡ DataType.Int64 }
        ensures taken { IfOk result (λ taken. self.new ≡ (if taken then with_value self.old (Value.Int64 number) else self.old)) }
        ensures refused { OnErr result (self.new ≡ self.old) }
        ensures memory { OnErr result (result ≡ Err FrameError.OutOfMemory) }
    {
        match self.guesses.place_of_number(self.few.as_slice(), number) {
            Some(place) => {
                self.places.push(place)?;
                Ok(true)
            }
            None => self.push_new(alloc, Value::Int64(number)),
        }
    }

    /// Puts a text at the end, where there is room for it: that is the answer. It is copied only where
    /// it isn't among the few.
    ///
    /// Fails only for want of memory.
    pub(crate) fn push_text(&mut self, alloc: Global, text: &str) -> Result<bool, FrameError>
        requires { self.old.kind ≡ DataType.String }
        ensures taken { IfOk result (λ taken. self.new ≡ (if taken then with_value self.old (Value.String text.now) else self.old)) }
        ensures refused { OnErr result (self.new ≡ self.old) }
        ensures memory { OnErr result (result ≡ Err FrameError.OutOfMemory) }
    {
        match self.guesses.place_of_text(self.few.as_slice(), text) {
            Some(place) => {
                self.places.push(place)?;
                Ok(true)
            }
            None => {
                let copy = Value::of_text(alloc, text)?;
                self.push_new(alloc, copy)
            }
        }
    }

    /// Puts the first values of a column at the end, as far as there is room: how many is the answer.
    ///
    /// Fails only for want of memory.
    pub(crate) fn push_first(&mut self, alloc: Global, column: &Column) -> Result<usize, FrameError>
        requires { self.old.kind ≡ column.now.kind }
        ensures added { IfOk result (λ count. self.new ≡ record { kind = self.old.kind; values = self.old.values ++ take count column.now.values }) }
        ensures kind { self.new.kind ≡ self.old.kind }
        ensures memory { OnErr result (result ≡ Err FrameError.OutOfMemory) }
    {
        // A law: each value fits the kind, as pushing it asks.
        column.values_fit();
        match column.view() {
            Some(view) => self.push_shown(alloc, &view),
            None => self.push_each(alloc, column),
        }
    }

    // The same of the cells of a view.
    fn push_shown(&mut self, alloc: Global, view: &ColumnView<'_>) -> Result<usize, FrameError>
        requires { IsTrue (all_fit self.old.kind view.now) }
        ensures added { IfOk result (λ count. self.new ≡ record { kind = self.old.kind; values = self.old.values ++ take count view.now }) }
        ensures kind { self.new.kind ≡ self.old.kind }
        ensures memory { OnErr result (result ≡ Err FrameError.OutOfMemory) }
    {
        let count = view.len();
        for i in 0..count {
            let taken = self.push_at(alloc, view.value(i), view.place(i))?;
            if !taken {
                return Ok(i);
            }
        }
        Ok(count)
    }

    // The same of a column whose values lie in several runs.
    fn push_each(&mut self, alloc: Global, column: &Column) -> Result<usize, FrameError>
        requires { IsTrue (all_fit self.old.kind column.now.values) }
        ensures added { IfOk result (λ count. self.new ≡ record { kind = self.old.kind; values = self.old.values ++ take count column.now.values }) }
        ensures kind { self.new.kind ≡ self.old.kind }
        ensures memory { OnErr result (result ≡ Err FrameError.OutOfMemory) }
    {
        let count = column.len();
        for i in 0..count {
            let taken = self.push(alloc, column.value(i))?;
            if !taken {
                return Ok(i);
            }
        }
        Ok(count)
    }

    // Puts an equal value at the end, as `push` does. It is looked for first where the value was found that stood last
    // at the same place of its own run, if a place tells it.
    fn push_at(
        &mut self,
        alloc: Global,
        value: &Value,
        at: Option<usize>,
    ) -> Result<bool, FrameError>
        requires { IsTrue (fits_kind self.old.kind value.now) }
        ensures taken { IfOk result (λ taken. self.new ≡ (if taken then with_value self.old value.now else self.old)) }
        ensures kind { self.new.kind ≡ self.old.kind }
        ensures memory { OnErr result (result ≡ Err FrameError.OutOfMemory) }
    {
        match self.hints.place_of(self.few.as_slice(), value, at) {
            Some(place) => {
                self.places.push(place)?;
                Ok(true)
            }
            None => self.push_noted(alloc, value, at),
        }
    }

    // Puts an equal value at the end, as `push` does, and notes its place for the next one that stands there.
    fn push_noted(
        &mut self,
        alloc: Global,
        value: &Value,
        at: Option<usize>,
    ) -> Result<bool, FrameError>
        requires { IsTrue (fits_kind self.old.kind value.now) }
        ensures taken { IfOk result (λ taken. self.new ≡ (if taken then with_value self.old value.now else self.old)) }
        ensures kind { self.new.kind ≡ self.old.kind }
        ensures memory { OnErr result (result ≡ Err FrameError.OutOfMemory) }
    {
        let Some(at) = at else {
            return self.push(alloc, value);
        };
        self.hints.reach(at)?;
        let taken = self.push(alloc, value)?;
        self.hints.note(at, self.places.as_slice());
        Ok(taken)
    }

    // Puts a value that wasn't found at the end, where there is room for it: that is the answer.
    fn push_new(&mut self, alloc: Global, value: Value) -> Result<bool, FrameError>
        requires { IsTrue (fits_kind self.old.kind value) }
        ensures taken { IfOk result (λ taken. self.new ≡ (if taken then with_value self.old value else self.old)) }
        ensures refused { OnErr result (self.new ≡ self.old) }
        ensures memory { OnErr result (result ≡ Err FrameError.OutOfMemory) }
    {
        if self.few.len() >= MOST_VALUES || self.seldom_repeat() {
            return Ok(false);
        }
        let place = self.few.len() as u32;
        self.guesses
            .note(alloc, self.few.as_slice(), &value, place)?;
        self.few.push(value)?;
        self.places.push(place)?;
        Ok(true)
    }

    // Whether there are many values, of which too few stood there before.
    fn seldom_repeat(&self) -> bool {
        let repeats = self.places.len().saturating_sub(self.few.len());
        let least = match self.dtype {
            DataType::String => self.places.len() / SELDOM_TEXT,
            _ => self.places.len() / SELDOM,
        };
        self.few.len() >= FEW_VALUES && repeats < least
    }

    /// How many values are held.
    fn count(&self) -> usize {
        self.few.len()
    }

    /// The values, one for each cell.
    ///
    /// Fails only for want of memory.
    pub(crate) fn values(&self, alloc: Global) -> Result<Vec<Value>, FrameError>
        ensures same { IfOk result (λ values. values.items ≡ self.now.values) }
        ensures memory { OnErr result (result ≡ Err FrameError.OutOfMemory) }
    {
        clones_at(alloc, self.few.as_slice(), self.places.as_slice())
    }

    /// Each value is null or of the kind: a law for proofs, which does nothing.
    pub(crate) fn values_fit(&self)
        ensures { IsTrue (all_fit self.now.kind self.now.values) }
    {
        // A field is read, for then the invariant is known, which is the law.
        let _dtype = &self.dtype;
    }

    /// The column of the values.
    ///
    /// Fails only for want of memory.
    pub(crate) fn into_column(self, alloc: Global) -> Result<Column, FrameError>
        ensures made { IfOk result (λ c. c ≡ self) }
        ensures memory { OnErr result (result ≡ Err FrameError.OutOfMemory) }
    {
        let Packed {
            dtype,
            few,
            places,
            guesses: _guesses,
            hints: _hints,
        } = self;
        if few.len() == places.len() && are_in_order(places.as_slice()) {
            return Column::of_values(alloc, dtype, few);
        }
        // Fewer cells are worth their places only where each value stands in many of them.
        if places.len() < FEWEST_CELLS && few.len() > places.len() / CELLS_EACH {
            return Column::of_copies(alloc, dtype, few.as_slice(), places.as_slice());
        }
        Column::of_few(alloc, dtype, few, places)
    }
}

/// The values packed, where there are many of them and few differ.
///
/// Fails only for want of memory.
pub(crate) fn pack(
    alloc: Global,
    dtype: DataType,
    values: &[Value],
) -> Result<Option<Packed>, FrameError>
    requires { IsTrue (all_fit dtype values.now) }
    ensures same { IfOk result (λ o. IfSome o (λ packed. packed ≡ record { kind = dtype; values = values.now })) }
    ensures memory { OnErr result (result ≡ Err FrameError.OutOfMemory) }
{
    if values.len() < FEWEST_CELLS {
        return Ok(None);
    }
    let most = values.len() / CELLS_EACH;
    let mut packed = Packed::new(alloc, dtype);
    for value in values {
        if most < packed.count() {
            return Ok(None);
        }
        let taken = packed.push(alloc, value)?;
        if !taken {
            return Ok(None);
        }
    }
    Ok(Some(packed))
}

/// The values of a column above those of another one of its kind, packed if there is room.
///
/// Fails only for want of memory.
pub(crate) fn pack_above(
    alloc: Global,
    upper: &Column,
    lower: &Column,
) -> Result<Option<Packed>, FrameError>
    requires { upper.now.kind ≡ lower.now.kind }
    ensures same { IfOk result (λ o. IfSome o (λ packed. packed ≡ above upper.now lower.now)) }
    ensures memory { OnErr result (result ≡ Err FrameError.OutOfMemory) }
{
    let mut packed = Packed::new(alloc, upper.dtype());
    let upper_count = packed.push_first(alloc, upper)?;
    if upper_count < upper.len() {
        return Ok(None);
    }
    let lower_count = packed.push_first(alloc, lower)?;
    if lower_count < lower.len() {
        return Ok(None);
    }
    Ok(Some(packed))
}

/// What stands at these places of a column, with null where there is no place, packed if there is room.
///
/// Fails only for want of memory.
pub(crate) fn pack_or_null(
    alloc: Global,
    column: &Column,
    rows: &[Option<usize>],
) -> Result<Option<Packed>, FrameError>
    requires { All (λ place. IfSome place (λ i. i < length column.now.values)) rows.now }
    ensures same { IfOk result (λ o. IfSome o (λ packed. packed ≡ gathered_or_null rows.now column.now)) }
    ensures memory { OnErr result (result ≡ Err FrameError.OutOfMemory) }
{
    let mut packed = Packed::new(alloc, column.dtype());
    for row in rows {
        let taken = push_or_null(alloc, &mut packed, column, *row)?;
        if !taken {
            return Ok(None);
        }
    }
    Ok(Some(packed))
}

fn push_or_null(
    alloc: Global,
    packed: &mut Packed,
    column: &Column,
    row: Option<usize>,
) -> Result<bool, FrameError>
    requires kinds { packed.old.kind ≡ column.now.kind }
    requires there { IfSome row (λ i. i < length column.now.values) }
    ensures added { IfOk result (λ taken. IsTrue taken → packed.new ≡ with_value packed.old (value_or_null column.now.values row)) }
    ensures memory { OnErr result (result ≡ Err FrameError.OutOfMemory) }
{
    // A law: the value fits the kind, as `push` asks.
    column.values_fit();
    match row {
        Some(i) => packed.push(alloc, column.value(i)),
        None => {
            let null = Value::Null;
            packed.push(alloc, &null)
        }
    }
}

// Whether each place is its own number.
fn are_in_order(places: &[u32]) -> bool
    ensures { IsTrue result → places.now ≡ below (length places.now) }
{
    for i in 0..places.len() {
        if places[i] as usize != i {
            return false;
        }
    }
    true
}
