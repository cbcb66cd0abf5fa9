//! Trials of the pipeline language: texts with their tokens, queries with their texts and with the nodes of their plans, and
//! texts that read as none.
#![tactic(auto)]

#[cfg(test)]
mod cutting;
#[cfg(test)]
mod planning;
#[cfg(test)]
mod printing;
#[cfg(test)]
mod reading;
