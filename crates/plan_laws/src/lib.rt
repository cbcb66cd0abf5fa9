// Laws of meanings and worked examples, which nothing else stands on.
#![tactic(auto)]

pub mod broken;
pub mod examples;
pub mod laws;
pub mod lowering;
pub mod ordered;
pub mod shapes;
pub mod unbroken;
