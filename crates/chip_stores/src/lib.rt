//! Stores over simulated chips, as a session mounts them: one chip as a plain store, and two as a
//! secure store whose tags are completed by the mount.
//!
//! Power is put on before each mount, and no call of a chip is to fail then. So a mount is refused
//! for want of memory alone, and gives the chips back.
#![tactic(auto)]

mod arming;
mod calls;
mod lending;
mod mounting;
mod pair;
mod plain;

pub use pair::{PairParts, SecurePair};
pub use plain::{mount_plain, power_on};
