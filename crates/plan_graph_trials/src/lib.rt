// Trials of the graphs of physical plans, as text: documents, and the nodes and pipes that were worked out by hand.
#![tactic(auto)]

#[cfg(test)]
mod graphs;
#[cfg(test)]
mod large;
#[cfg(test)]
mod planned;
#[cfg(test)]
mod told;
