// Valid plans: what a node of a plan refuses, the schema that it gives, and the plan whose nodes all give one.
#![tactic(auto)]

pub mod caches;
pub mod columns;
pub mod entries;
pub mod functions;
pub mod joins;
pub mod keys;
pub mod nodes;
pub mod positions;
pub mod projections;
pub mod schemas;
pub mod stacks;
pub mod validate;
