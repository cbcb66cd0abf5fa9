// Trials of the nodes of a graph, those that keep nothing and in-memory joins: what each answers to its ports, line by line of its
// table.
#![tactic(auto)]

#[cfg(test)]
mod in_memory_joins;
#[cfg(test)]
mod keys;
#[cfg(test)]
mod multiplexers;
#[cfg(test)]
mod passing;
#[cfg(test)]
mod scripts;
#[cfg(test)]
mod sources;
#[cfg(test)]
mod unions;
