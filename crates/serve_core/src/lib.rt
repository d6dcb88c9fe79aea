//! A script whose clients are served at once: each by a worker on a thread of its own, over one
//! shared store.
//!
//! However the threads take turns, the calls make one history, which has each client's lines in
//! their order, each once.
#![tactic(auto)]

mod crew;
mod gate;
mod serving;
mod worker;

pub use gate::{Gate, OpenGate};
pub use serving::serve;

#[cfg(test)]
mod tests;
