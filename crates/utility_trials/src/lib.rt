// Tests of the utility crates over their public items: what no clause says, values from outside, and printed texts.
#![tactic(auto)]

#[cfg(test)]
mod arenas;
#[cfg(test)]
mod byte_maps;
#[cfg(test)]
mod cached_functions;
#[cfg(test)]
mod caches;
#[cfg(test)]
mod hash_maps;
#[cfg(test)]
mod hashed;
#[cfg(test)]
mod hashes;
#[cfg(test)]
mod iterators;
#[cfg(test)]
mod list_texts;
#[cfg(test)]
mod lists;
#[cfg(test)]
mod names;
#[cfg(test)]
mod nulls;
#[cfg(test)]
mod numbers;
#[cfg(test)]
mod orders;
#[cfg(test)]
mod read_bytes;
#[cfg(test)]
mod rings;
#[cfg(test)]
mod rows;
#[cfg(test)]
mod shared;
#[cfg(test)]
mod sketches;
#[cfg(test)]
mod slots;
#[cfg(test)]
mod steps;
#[cfg(test)]
mod unit_vecs;
