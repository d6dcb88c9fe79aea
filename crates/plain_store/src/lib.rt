//! The calls of a plain store over a flash device. Each asks that the store's invariant holds, and
//! keeps it.
//!
//! A store is a log that was mounted, what its callers have begun, and a note of the state once a
//! failed write has stopped it. Keys, values and prefixes are bytes; sizes and offsets are in
//! bytes.
#![tactic(auto)]

mod active;
mod feeding;
mod finishing;
mod mounting;
mod notes;
mod plain;
mod removing;
mod resetting;
mod setting;

pub use active::{ActiveSet, Begun};
pub use plain::PlainStore;
