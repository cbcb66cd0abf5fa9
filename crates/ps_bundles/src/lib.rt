// Laws of the bundles that lowering gathers: what their streams mean ends as what was asked. No code.
#![tactic(auto)]

pub mod laws;
