// What the nodes without expressions make of whole tables.
#![tactic(auto)]

pub mod cut;
pub mod fits;
pub mod framed;
pub mod hconcat;
pub mod pass;
pub mod project;
pub mod row_index;
pub mod union;
pub mod user;
