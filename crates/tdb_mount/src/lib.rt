//! Mounting a device of two areas, whatever its bytes: which area is active, its version, where its
//! records end, whether what is behind them is erased, and a table of each key's last record.
//!
//! Where no area is valid the first one is formatted: it is erased, and gets a master record of
//! version 1. Nothing else is written. Places and sizes are in bytes.
#![tactic(auto)]

mod active;
mod builder;
mod format;
mod keys;
mod laws;
mod lookup;
mod mount;

pub use keys::DeviceKeys;
pub use laws::{
    keys_are_told_as_spelled, last_record_has_the_place, mounting_keeps_the_map,
    versions_count_in_a_circle,
};
pub use lookup::{Seen, look_up, place_of};
pub use mount::{MountError, Parts, area_at, mount_parts};

#[cfg(test)]
mod fickle_tests;
#[cfg(test)]
mod moment_tests;
#[cfg(test)]
mod tests;
