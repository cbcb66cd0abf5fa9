// Trials of tables and columns, as their callers make them.
#![tactic(auto)]

#[cfg(test)]
mod cells;
#[cfg(test)]
mod columns;
#[cfg(test)]
mod refusals;
#[cfg(test)]
mod schemas;
#[cfg(test)]
mod tables;
