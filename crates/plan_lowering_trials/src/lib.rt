// Trials of the lowering of whole plans: documents, and the physical plans that were worked out by hand, as text; that the promise of
// physical plans is met with no condition; and the calls for whole queries.
#![tactic(auto)]

#[cfg(test)]
mod calls;
#[cfg(test)]
mod kinds;
#[cfg(test)]
mod plans;
#[cfg(test)]
mod promises;
#[cfg(test)]
mod queries;
