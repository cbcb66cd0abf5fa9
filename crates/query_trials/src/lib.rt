// Trials of the program that need a source, a sink or functions of their own: reads and writes that fail, and how often
// functions are called. What a document and words give stands as text in trials/, at the top of the repository.
#![tactic(auto)]

#[cfg(test)]
mod calls;
pub mod counting;
#[cfg(test)]
mod runs;
#[cfg(test)]
mod tool_functions;
