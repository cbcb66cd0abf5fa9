// Trials of graphs: how they are put together, come to rest, and which part of them runs next.
#![tactic(auto)]

#[cfg(test)]
mod adding;
mod kind;
mod node;
#[cfg(test)]
mod phases;
#[cfg(test)]
mod settling;
