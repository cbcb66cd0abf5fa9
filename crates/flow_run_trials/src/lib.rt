//! Trials of whole runs of graphs whose nodes stream: worked queries with their journals, and small random plans under random
//! orders of steps, each compared with the plain answer. And how the graph of a run is made of a document's plan.
#![tactic(auto)]

#[cfg(test)]
mod answers;
#[cfg(test)]
mod driving;
#[cfg(test)]
mod flight;
#[cfg(test)]
mod journals;
mod looks;
pub mod planned;
#[cfg(test)]
mod random;
#[cfg(test)]
mod random_plans;
#[cfg(test)]
mod runs;
mod schemas;
#[cfg(test)]
mod worked;
