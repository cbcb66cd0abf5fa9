//! The morsels that a sink stores.
ghost use Rattle.std.specs.Prelude.{◌≡◌, ℕ, ◌-◌, ◌^◌, ◌++◌, ◌∷◌, ◌≤◌, [], Err, IfOk, None, OnErr, OnOk, Some, if◌then◌else◌, length, min, nat_lt};
ghost use Rattle.node_work.specs.Stored.{as_table, rows_in};
ghost use Rattle.ps_frame.specs.Aggregates.{max_rows};
ghost use Rattle.ps_frame.specs.declared.refusal.PolarsError.{PolarsError};
ghost use Rattle.ps_frame.specs.declared.value.DataFault.TheVariants as fault;
ghost use Rattle.ps_meaning.specs.Errors.{fault_error};

use ps_frame::frame::DataFrame;
use ps_frame::frame_builder::FrameBuilder;
use ps_frame::refusal::{PolarsError, PolarsResult};
use ps_frame::schema::Schema;
use ps_frame::value::DataFault;
use ps_meaning::faults::fault_at;
use pu_base::Node;
use std::alloc::Global;
use std::marker::Model;
use std::mem;

/// The morsels that came to a sink, in order. They are put together once, where their table is asked for.
///
/// Memory is taken before a morsel is stored, so that none is lost for want of it.
#[derive(Drop)]
pub struct StoredMorsels {
    schema: Schema,
    origin: Node,
    morsels: Vec<DataFrame>,
    // How many rows they have; from the greatest number on it stands for all greater ones.
    rows: usize,
}

impl Model for StoredMorsels {
    ghost use Rattle.std.specs.Prelude.{◌≡◌, ◌-◌, ◌^◌, length, min, vec_capacity, vec_len};
    ghost use Rattle.node_work.specs.Stored.{Morsels, rows_in};

    ghost Value = { Morsels };

    ghost view = { λ s. record { schema = s.schema; origin = s.origin; morsels = s.morsels.items; spare = vec_capacity s.morsels - vec_len s.morsels } };

    ghost invariant = { λ s. s.rows ≡ min (length (rows_in s.morsels.items)) (2 ^ 64 - 1) };
}

/// Tables of a schema as one, each behind the one before.
///
/// Fails only for want of memory.
fn put_together(alloc: Global, schema: &Schema, tables: &[DataFrame]) -> PolarsResult<DataFrame>
    ensures table { IfOk result (λ t. t ≡ record { schema = schema.now; rows = rows_in tables.now }) }
    ensures memory { OnErr result (result ≡ Err PolarsError.OutOfMemory) }
{
    let Ok(mut builder) = FrameBuilder::new(alloc, schema) else {
        return Err(PolarsError::OutOfMemory);
    };
    for table in tables {
        // In a run they have this schema and few enough rows, so that memory alone can be wanting.
        builder = match builder.with_table(alloc, table) {
            Ok(builder) => builder,
            Err(_error) => return Err(PolarsError::OutOfMemory),
        };
    }
    match builder.finish(alloc) {
        Ok(table) => Ok(table),
        Err(_error) => Err(PolarsError::OutOfMemory),
    }
}

/// Whether so many rows, counted up to the greatest number, are more than a table may have.
fn are_too_many(rows: usize) -> bool
    ensures { (n : ℕ) → rows ≡ min n (2 ^ 64 - 1) → result ≡ nat_lt max_rows n }
{
    rows > u32::MAX as usize
}

/// The error of the fault that so many rows, counted up to the greatest number, are more than a table may have.
fn fault_of(rows: usize, origin: Node) -> Option<PolarsError>
    ensures { (n : ℕ) → rows ≡ min n (2 ^ 64 - 1) → result ≡ (if nat_lt max_rows n then Some (fault_error origin.0 fault.Rows) else None) }
{
    if are_too_many(rows) {
        Some(fault_at(origin, DataFault::Rows))
    } else {
        None
    }
}

impl StoredMorsels {
    /// None came yet. The table is to have this schema, and a fault is told of this logical node. It takes no memory.
    pub fn new(alloc: Global, schema: Schema, origin: Node) -> StoredMorsels
        ensures { result ≡ record { schema = schema; origin = origin; morsels = []; spare = 0 } }
    {
        StoredMorsels {
            schema,
            origin,
            morsels: Vec::new(alloc),
            rows: 0,
        }
    }

    /// Takes memory for one more morsel.
    ///
    /// Fails only for want of memory; all is then as before.
    pub fn reserve(&mut self) -> PolarsResult<()>
        ensures same { self.new ≡ record self.old { spare = self.new.spare } }
        ensures room { OnOk result (1 ≤ self.new.spare) }
        ensures memory { OnErr result (result ≡ Err PolarsError.OutOfMemory) }
    {
        let Ok(()) = self.morsels.reserve(1) else {
            return Err(PolarsError::OutOfMemory);
        };
        Ok(())
    }

    /// Stores a morsel behind the others, for which memory was taken. It tells the error of the fault that they then have more
    /// rows than a table may have.
    pub fn push(&mut self, morsel: DataFrame) -> Option<PolarsError>
        requires { 1 ≤ self.old.spare }
        ensures stored { self.new ≡ record self.old { morsels = self.old.morsels ++ morsel ∷ []; spare = self.new.spare } }
        ensures fault { result ≡ (if nat_lt max_rows (length (rows_in self.new.morsels)) then Some (fault_error self.new.origin.0 fault.Rows) else None) }
    {
        self.rows = self.rows.saturating_add(morsel.height());
        self.morsels.push_reserved(morsel);
        fault_of(self.rows, self.origin)
    }

    /// Gives the morsels as one table. There are none then, also where the table can't be made.
    ///
    /// Fails only for want of memory.
    pub fn give(&mut self, alloc: Global) -> PolarsResult<DataFrame>
        ensures table { IfOk result (λ t. t ≡ as_table self.old) }
        ensures memory { OnErr result (result ≡ Err PolarsError.OutOfMemory) }
        ensures given { self.new ≡ record self.old { morsels = []; spare = 0 } }
    {
        let morsels = mem::replace(&mut self.morsels, Vec::new(alloc));
        self.rows = 0;
        put_together(alloc, &self.schema, morsels.as_slice())
    }
}
