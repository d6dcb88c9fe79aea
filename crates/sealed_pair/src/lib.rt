//! The calls of a secure store on its two stores: of sealed records in the primary store, and of
//! their tags in the rollback store. The definitions in specs/ say what a secure store may answer,
//! and [`laws`] what these mean.
//!
//! Each function makes one call on both stores. What a secure store keeps between its calls is
//! handed in.
#![tactic(auto)]

mod active;
mod beginning;
mod finishing;
mod keys;
pub mod laws;
mod limits;
mod opening;
mod partial;
mod pieces;
mod reading;
mod recovering;
mod removing;
mod setting;
mod viewing;
mod walking;
mod writing;

pub use active::{Active, Begun, check_free, may_take, take_own};
pub use beginning::begin_both;
pub use finishing::abort_both;
pub use keys::key_of;
pub use limits::{MAX_SECURE_VALUE, SEAL_SIZE, TAG_SIZE};
pub use opening::Found;
pub use partial::{PartialSet, SetStart};
pub use pieces::{add_both, finish_both, start_set};
pub use removing::remove_both;
pub use setting::{WholeSet, is_numbered, is_secure, set_both};
pub use viewing::view_key;
pub use walking::heal_all;
pub use writing::reset_both;
