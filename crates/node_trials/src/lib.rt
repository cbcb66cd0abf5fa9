// Trials of maps that own their expressions, and how benches compute a node with all that is below it. What nodes answer
// stands as text in trials/, at the top of the repository.
#![tactic(auto)]

pub mod functions;
#[cfg(test)]
mod lines;
#[cfg(test)]
mod owned_maps;
pub mod tables;
