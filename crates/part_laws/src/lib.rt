// Reduces and group-bys over parts of their rows: what they give and find as parts is what they mean as a whole.
#![tactic(auto)]

pub mod group_bys;
pub mod reduces;
