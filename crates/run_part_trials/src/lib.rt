// Tests of the parts of a run, over their public items: its pieces of work and which are out, its pipes with the numbered slots
// that they are made of, and its journal.
#![tactic(auto)]

#[cfg(test)]
mod comparing;
#[cfg(test)]
mod cuts;
#[cfg(test)]
mod functions;
#[cfg(test)]
mod journals;
#[cfg(test)]
mod outs;
#[cfg(test)]
mod pieces;
#[cfg(test)]
mod pipes;
#[cfg(test)]
mod slots;
#[cfg(test)]
mod tables;
