// What a group-by or a distinct that is fit for its input may count on. No code.
#![tactic(auto)]

pub mod laws;
