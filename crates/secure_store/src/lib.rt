//! A secure store: a store over two others, which seals values and notices an old value that was
//! put back. It makes each call on the two stores as sealed_pair does, and keeps what is between
//! calls: the next number, the set that is active, and what a store tells in which a write failed.
//!
//! All calls of a store stand, and the recover that a mount makes.
#![tactic(auto)]

mod arming;
#[cfg(test)]
mod arming_tests;
mod asking;
mod calls;
mod doubt;
#[cfg(test)]
mod drawn_model;
#[cfg(test)]
mod drawn_tests;
#[cfg(test)]
mod image_tests;
mod incremental;
mod iterating;
mod reads;
mod recovering;
#[cfg(test)]
mod row_tests;
mod sets;
mod starts;
mod stop;
mod store;
#[cfg(test)]
mod tests;
mod writes;

pub use sealed_pair::{MAX_SECURE_VALUE, SEAL_SIZE, TAG_SIZE};
pub use store::SecureStore;
