//! Turns: one value that several callers use in turn, each with a pass that knows the history so
//! far.
#![tactic(auto)]

mod booked;
mod held;
mod laws;
mod pass;
mod plays;
mod sharing;
mod table;
mod turns;
mod view;

pub use booked::Booked;
pub use held::{Held, Taken};
pub use laws::passes_agree;
pub use pass::Pass;
pub use table::Turns;

#[cfg(test)]
mod tests;
