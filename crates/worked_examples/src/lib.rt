// What the definitions of tables, expressions and their lowering give on small examples, as theorems. No code.
#![tactic(auto)]

pub mod lowering;
pub mod tables;
