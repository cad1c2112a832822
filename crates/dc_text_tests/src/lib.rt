//! Tests of the crates below: texts and what is read from them.
#![tactic(auto)]

#[cfg(test)]
mod acts;
#[cfg(test)]
mod check;
#[cfg(test)]
mod holding;
#[cfg(test)]
mod kernel;
#[cfg(test)]
mod links;
#[cfg(test)]
mod model;
#[cfg(test)]
mod plan;
#[cfg(test)]
mod schedule;
#[cfg(test)]
mod words;
