//! Tests of the program's call.
#![tactic(auto)]

#[cfg(test)]
mod runs;
#[cfg(test)]
mod words;
