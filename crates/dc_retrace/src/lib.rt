//! Whether what the stores of processes stand for suits the acts that their run reported, by one play of the acts: each process is
//! compared with its store where it has come to that one's position, and what it was told since is kept.
#![tactic(auto)]

mod comparing;
mod deciding;
mod noting;
mod trail;
mod walking;

pub use deciding::first_unsuited;
pub use trail::Trail;
pub use walking::walk;
