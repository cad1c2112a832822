//! Tests of the crates below: the machine and its guests.
#![tactic(auto)]

#[cfg(test)]
mod asm;
#[cfg(test)]
mod calls;
#[cfg(test)]
mod elf;
#[cfg(test)]
mod events;
#[cfg(test)]
mod guest;
#[cfg(test)]
mod holding;
#[cfg(test)]
mod isa;
#[cfg(test)]
mod plain;
#[cfg(test)]
mod rv32;
#[cfg(test)]
mod seams;
