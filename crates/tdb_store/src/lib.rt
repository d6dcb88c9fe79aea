//! The plain store over a flash device: a log of records on two areas.
//!
//! [`TdbStore`] is a `Kv`: each call is one step of the plain store, or a read or a write that
//! failed in its place. At each moment of each device call a power cut leaves an image that mounts
//! to the map before the call or to the one after it, as far as chance goes.
#![tactic(auto)]

mod arming;
mod calls;
mod mounting;
mod store;

pub use store::TdbStore;

#[cfg(test)]
mod drawn_tests;
#[cfg(test)]
mod tests;
