//! Tests of the crates below: devices, the sink and the library in memory, files and streams of the host, and planned stops.
#![tactic(auto)]

#[cfg(test)]
mod armed;
#[cfg(test)]
mod calling;
#[cfg(test)]
mod files;
#[cfg(test)]
mod media;
#[cfg(test)]
mod memmedia;
#[cfg(test)]
mod region;
