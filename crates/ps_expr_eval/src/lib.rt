// The column that an expression gives over a table.
#![tactic(auto)]

pub mod aggregate;
pub mod computed;
mod decided;
pub mod elementwise;
pub mod evaluate;
pub mod filter;
mod growing;
pub mod lengths;
mod operand;
mod operands;
mod picked_cells;
mod shared;
pub mod sort_by;
pub mod sources;
pub mod whole;
