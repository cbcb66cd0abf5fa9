// What the nodes with expressions make of whole tables.
#![tactic(auto)]

pub mod filter;
pub mod gathered;
pub mod hstack;
pub mod keyed;
pub mod select;
pub mod sort;
