// The options of a query's run.
#![tactic(auto)]

pub mod options;
#[cfg(test)]
mod tests;
