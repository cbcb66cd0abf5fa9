// Trials of physical plans that are put together from words: their texts, the multiplexers that they get, the readers of their ports,
// and whether they are sound.
#![tactic(auto)]

#[cfg(test)]
mod checks;
#[cfg(test)]
mod large;
#[cfg(test)]
mod multiplexers;
#[cfg(test)]
mod readers;
#[cfg(test)]
mod texts;
