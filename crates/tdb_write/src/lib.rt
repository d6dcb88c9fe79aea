//! The log of a plain store as it is written: records at its end, in one piece or in many, and its
//! collection.
//!
//! Each function takes a mounted log and leaves one. What a power cut leaves at any moment mounts
//! to the map before the call or to that after it, as far as chance goes. What is told of a log has
//! the bytes of the area that isn't active too: only copies change them.
#![tactic(auto)]

mod collect;
mod reserving;
mod room;
mod space;
mod writing;

pub use collect::{complete, copy_without, reset};
pub use reserving::reserve;
pub use room::make_room;
pub use space::check_room;
pub use writing::{begin, feed, seal};

#[cfg(test)]
mod life_tests;
#[cfg(test)]
mod tests;
