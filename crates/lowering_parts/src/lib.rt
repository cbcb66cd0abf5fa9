// What a call of lowering is made of: the streams and reductions that it gathers, the names that it gives, what expressions read, and the nodes that it makes at its end.
#![tactic(auto)]

pub mod bundles;
pub mod gathered;
pub mod leaves;
pub mod names;
pub mod nodes;
pub mod operation;
pub mod reads;
pub mod schemas;
pub mod streams;
