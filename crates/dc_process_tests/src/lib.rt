//! Tests of the crates below: the protocols, processes and their stores.
#![tactic(auto)]

#[cfg(test)]
mod holding;
#[cfg(test)]
mod proc;
#[cfg(test)]
mod protocols;
#[cfg(test)]
mod recovery;
#[cfg(test)]
mod redo;
#[cfg(test)]
mod twophase;
#[cfg(test)]
mod vista;
