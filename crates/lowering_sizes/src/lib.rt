// Laws of how large the tables are that lowering makes: only where what was asked is large, or the input. No code.
#![tactic(auto)]

pub mod laws;
