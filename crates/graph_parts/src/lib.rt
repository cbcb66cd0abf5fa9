// What a graph takes of a physical plan, whatever its nodes are: schemas, expressions and reductions as nodes hold them, keys and ports; and what the nodes and the pipes of a sound shape are.
#![tactic(auto)]

pub mod columns;
pub mod examples;
pub mod keys;
pub mod reductions;
pub mod schemas;
