//! Tests of whole runs over stores in memory, and so of worlds.
#![tactic(auto)]

#[cfg(test)]
mod runs;
