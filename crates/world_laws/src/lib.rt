// Laws of worlds whatever their nodes do: from what each node keeps to what every reached world keeps.
#![tactic(auto)]

pub mod laws;
