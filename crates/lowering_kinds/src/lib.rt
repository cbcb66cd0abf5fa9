// The kinds of what lowering answers, whatever tables there are. No code.
#![tactic(auto)]

pub mod laws;
