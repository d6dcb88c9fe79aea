//! The long writer: a record whose value comes in pieces, and which counts only from its end.
//!
//! The key and the value are programmed behind the place of the header as their bytes come, each
//! program unit once and in ascending order; what is below a unit waits in a buffer of one unit
//! that the caller lends. The header is programmed last, so until then no record stands at the
//! place. Places and sizes are in bytes. No call takes memory or reads the device.
#![tactic(auto)]

mod laws;
mod open_set;
mod payload;
#[cfg(test)]
mod tests;
mod units;

pub use laws::no_record_stands_before_the_header;
pub use open_set::OpenSet;
