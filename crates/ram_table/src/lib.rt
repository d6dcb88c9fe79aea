//! The index of a log store in memory: a list of hashes of keys and offsets of records, in the
//! order of the keys.
//!
//! A hash is the low bits of a key's CRC. Keys are in the order of their hashes, and those with
//! equal hashes in the order of their bytes, a prefix before what it begins. The table keeps no
//! keys: where hashes are equal, a `KeyReader` reads the key at an offset.
#![tactic(auto)]

mod find;
mod laws;
mod reader;
mod steps;
mod table;

pub use laws::{
    changes_keep_the_order, inserts_keep_the_order, more_keys_keep_the_order, places_are_unique,
};
pub use reader::KeyReader;
pub use steps::Steps;
pub use table::{Entry, Place, RamTable};

#[cfg(test)]
mod tests;
