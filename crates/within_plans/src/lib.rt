//! Laws of lowering whole plans: whatever sizes tables have, those of the nodes lie within those of the plan. No code.
#![tactic(auto)]

pub mod laws;
