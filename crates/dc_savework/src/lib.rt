//! Save-work of runs: the journal of a run that nothing stops, how it grows by each entry, that it is a journal, and that it has Save-work
//! in the protocols in which each process commits by itself and in those in which all commit together.
//!
//! What happens before what, and Save-work, are the definitions of `dc_audit`; what a turn does is that of `dc_recovery`. Together they
//! say that an audit of such a journal finds nothing.
#![tactic(auto)]

mod laws;

pub use laws::{
    causal_journals_have_save_work, guests_are_addressed, journals_grow, lines_are_few,
    runs_have_save_work,
};
