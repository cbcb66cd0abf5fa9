//! The tables that a plan scans: a law for proofs, which goes once over the plan's nodes and the columns of the tables.
ghost use Rattle.std.specs.Prelude.{ℕ, IfSome, slice_get};
ghost use Rattle.scanned_tables.specs.Tables.{HoldsFitTable};

use ps_plan::ir::IR;
use ps_tables::fits::table_fits;
use pu_base::{Arena, Node};

/// The rows of each table that a node scans fit its schema, in which no name stands twice.
pub fn tables_fit(ir: &Arena<IR>)
    ensures { (n : ℕ) → IfSome (slice_get ir.now.items n) HoldsFitTable }
{
    for number in 0..ir.len() {
        // The law of one node: what holds of each then holds of all.
        table_of_entry_fits(ir.get(Node(number)));
    }
}

fn table_of_entry_fits(entry: &IR)
    ensures { HoldsFitTable entry.now }
{
    match entry {
        IR::DataFrameScan { df, .. } => {
            // Laws of the table and of its schema, which their types keep.
            table_fits(df);
            df.schema().names_differ();
        }
        IR::SimpleProjection { .. } => {}
        IR::Select { .. } => {}
        IR::HStack { .. } => {}
        IR::Filter { .. } => {}
        IR::Slice { .. } => {}
        IR::Sink { .. } => {}
        IR::MapFunction { .. } => {}
        IR::Sort { .. } => {}
        IR::Union { .. } => {}
        IR::HConcat { .. } => {}
        IR::Cache { .. } => {}
        IR::GroupBy { .. } => {}
        IR::Join { .. } => {}
        IR::Distinct { .. } => {}
        IR::LeftOut(_) => {}
    }
}
