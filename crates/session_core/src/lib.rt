//! Sessions: a store over its chips, on which the lines of a script are run, power cuts among them.
//!
//! A chip can be armed to be torn at a write, as by a power cut, and is mounted again when power is
//! on. A record that a torn write leaves by chance, and that nobody wrote, is found before that.
#![tactic(auto)]

mod arming;
mod backing;
mod chance;
mod ended;
mod images;
mod lending;
mod replay;
mod session;
mod session_calls;
mod settling;
mod store_calls;

pub use chance::chance_of;
pub use ended::Ended;
pub use replay::Outcome;
pub use session::Session;

#[cfg(test)]
mod tests;
