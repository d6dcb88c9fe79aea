//! What every crate of the store may use: sizes in whole units, counts that only rise, and the
//! answer for want of memory.
//!
//! Sizes are in bytes. A unit is what a device programs at least at once.
#![tactic(auto)]

mod laws;
mod no_memory;
mod units;

pub use laws::{padding_is_least, sizes_of_records};
pub use no_memory::NoMemory;
pub use units::round_up;
