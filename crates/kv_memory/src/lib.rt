//! Stores in memory: one that tells its state, the plain program against which other stores are
//! compared, and one that tells nothing and fails as it is told to. And callers of any stores.
#![tactic(auto)]

mod checks;
mod cursor;
mod entries;
mod going;
mod held;
mod iterators;
mod memory;
mod pair;
mod silent;
mod store;
mod walk;

pub use cursor::Cursor;
pub use entries::{Entries, Item};
pub use going::run_calls;
pub use held::HeldSet;
pub use iterators::{Iterators, Slot};
pub use memory::MemoryStore;
pub use pair::{PairRefusal, set_in_both};
pub use silent::SilentStore;
pub use walk::{bytes_used, is_below, least_of, record_bytes};

#[cfg(test)]
mod store_tests;
#[cfg(test)]
mod tests;
