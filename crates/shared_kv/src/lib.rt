//! A store that several callers use in turn, each with a pass, and whose calls are one history.
//!
//! Each call takes the turn, makes one step of the store, notes it in the journal with its reply,
//! and gives the turn back. What a pass has seen of the journal is a legal history of the store
//! from what it was when it was handed in, and begins with what the pass had seen before.
#![tactic(auto)]

mod desk;
mod fault;
mod laws;
mod pass;
mod shared;
mod sharing;
mod turn;
mod twice;

pub use desk::Desk;
pub use fault::{Answer, Fault};
pub use laws::callers_agree;
pub use pass::CallPass;
pub use shared::SharedKv;

#[cfg(test)]
mod tests;
