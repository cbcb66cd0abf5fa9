// What the families of nodes that stream keep in every reached world, and that one choice serves all pipes of a graph of such nodes.
#![tactic(auto)]

pub mod keeping;
