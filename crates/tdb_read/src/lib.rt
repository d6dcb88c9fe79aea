//! The log of a plain store as it is mounted and read: the value and the facts of a key, and the
//! next key of an iterator.
//!
//! A mounted log keeps its device, what a mount found on it, and the iterators of its callers. Each
//! call that reads is one step of a plain store, or a read that failed in its place, whatever set is
//! active beside it. Nothing is written but by a mount, which formats a device without a valid area.
#![tactic(auto)]

mod get;
mod iterate;
mod laws;
mod log;

pub use laws::a_log_stands_for_what_its_image_mounts_to;
pub use log::MountedLog;

#[cfg(test)]
mod count_tests;
#[cfg(test)]
mod tests;
