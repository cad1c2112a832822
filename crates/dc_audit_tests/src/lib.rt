//! Tests of `dc_audit` and `dc_journal`: journals as text, each with what comes of it, and written again from their lines; and journals
//! drawn at random, judged by a relation of all pairs of lines that is written out.
#![tactic(auto)]

#[cfg(test)]
mod cases;
#[cfg(test)]
mod drawing;
#[cfg(test)]
mod holding;
#[cfg(test)]
mod journals;
#[cfg(test)]
mod pairs;
#[cfg(test)]
mod random;
#[cfg(test)]
mod written;
