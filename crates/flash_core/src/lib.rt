//! The flash device that everything above is generic over: its geometry, the trait `Flash` with all
//! that a contract may say of a device, and a device in memory.
//!
//! Places and lengths are in bytes. A program unit is the least that is programmed at once; an
//! erase unit is the least that is erased at once, to 0xFF. The device has two areas of equal size,
//! area 0 first.
#![tactic(auto)]

mod erases;
mod flash;
mod geometry;
mod record_flash;
mod two_programs;
mod write_log;

pub use base_core::NoMemory;
pub use erases::erase_units;
pub use flash::{Flash, FlashFault};
pub use geometry::Geometry;
pub use record_flash::RecordFlash;
pub use two_programs::program_payload_then_header;

#[cfg(test)]
mod tests;
