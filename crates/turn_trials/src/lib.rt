// Trials of nodes by their own updates, line by line of their tables: of those that put inputs together as they come, zips and
// equi joins, of those that take their input before they give anything, and of the select that has no input.
#![tactic(auto)]

#[cfg(test)]
mod equi_joins;
#[cfg(test)]
mod group_bys;
#[cfg(test)]
mod keepers;
#[cfg(test)]
mod negative_slices;
#[cfg(test)]
mod reduces;
#[cfg(test)]
mod selects;
#[cfg(test)]
mod stored;
#[cfg(test)]
mod zips;
