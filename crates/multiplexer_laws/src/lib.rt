// Laws of multiplexers, in the shape that a root shows: each port has one reader, and a sound shape stays sound. No code.
#![tactic(auto)]

pub mod laws;
