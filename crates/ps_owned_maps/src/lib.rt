// Maps over a whole table, with the expressions that they name.
#![tactic(auto)]

mod fields;
pub mod owned;
