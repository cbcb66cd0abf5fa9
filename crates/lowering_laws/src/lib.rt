// What the calls that lower expressions and selects keep, by what their contracts say of the nodes that they make.
#![tactic(auto)]

pub mod examples;
pub mod laws;
