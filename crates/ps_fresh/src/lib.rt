// What a lowering keeps while it goes on: fresh names, what is known of expressions, and the schemas of selects.
#![tactic(auto)]

mod elementwise;
pub mod expr_cache;
mod independent;
mod known;
pub mod lowering;
pub mod name_source;
mod names_in_use;
pub mod schemas;
mod temporary;
