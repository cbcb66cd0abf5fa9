// Trials of expressions: operators, kinds, computed columns, and evaluation over a table.
#![tactic(auto)]

#[cfg(test)]
mod computed;
#[cfg(test)]
mod evaluation;
#[cfg(test)]
mod kinds;
#[cfg(test)]
mod operands;
#[cfg(test)]
mod operators;
#[cfg(test)]
mod picked_texts;
#[cfg(test)]
mod words;
