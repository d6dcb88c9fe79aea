//! The host: named files, and a place to print. `Host` is the trait, `MemHost` a host in memory
//! that tells its contents and can be made to fail, and `StdHost` real files and standard output.
#![tactic(auto)]

mod count;
#[cfg(test)]
mod fake_tests;
#[cfg(test)]
mod file_tests;
mod interface;
pub mod laws;
mod memory;
mod place;
mod replace;
mod system;
mod table;
#[cfg(test)]
mod tests;
mod whole;

pub use interface::{Host, HostFault};
pub use memory::MemHost;
pub use system::StdHost;
