//! One area of a device as a log of records behind a master record.
//!
//! An area begins with the room of its master record; its records follow, each directly behind the
//! one before, up to the first place that has none. An area appends a record, reads the value of
//! one, tells whether what is behind a place is erased, and walks over all of its records. Places
//! and sizes are in bytes. No call takes memory.
#![tactic(auto)]

mod area;
mod laws;
mod read;
mod scan;

pub use area::Area;
pub use laws::{lists_are_one, lists_go_on, rest_of_a_value_is_given};
pub use read::PlacedHeader;
pub use scan::Visitor;

#[cfg(test)]
mod tests;
