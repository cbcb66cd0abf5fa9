// Trials of in-memory maps, which make a table of their whole input: what one answers to its ports, line by line of its table, and
// how the table of a function of the caller is filled in.
#![tactic(auto)]

#[cfg(test)]
mod fills;
#[cfg(test)]
mod functions;
#[cfg(test)]
mod maps;
#[cfg(test)]
mod scripts;
#[cfg(test)]
mod tables;
#[cfg(test)]
mod updates;
