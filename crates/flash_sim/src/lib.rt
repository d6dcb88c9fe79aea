//! A simulated chip: a device in memory that can be torn at a named write, as by a power cut, and
//! made to fail at named reads and writes. It keeps no writes and tells no moments.
#![tactic(auto)]

mod arming;
mod chip;
mod device;
mod fate;
mod pattern;
mod plan;
mod ranges;

pub use arming::Tear;
pub use chip::Chip;

#[cfg(test)]
mod tests;
