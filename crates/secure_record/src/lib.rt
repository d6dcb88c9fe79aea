//! Sealed records: a value that is authenticated, and enciphered where it is confidential, in the
//! form in which a secure store keeps it.
//!
//! A record is its metadata, the stored bytes of the value, and a CMAC over the metadata, the key
//! that the value is stored under and the stored bytes. The keys of the cipher and of the CMAC are
//! derived from a root key and the stored key, so a record opens under the key that it was sealed
//! for alone. Records of revision 2, with metadata of 40 bytes, are written and read; those of
//! revision 1, with 20 bytes, are read.
//!
//! Values come in pieces: every cutting into pieces gives the same record and the same value. No
//! call takes memory. The bytes that an [`OpenStream`] gives are not authenticated before its
//! `finish` has answered Ok.
#![tactic(auto)]

mod body;
pub mod laws;
mod metadata;
mod open;
mod seal;
#[cfg(test)]
mod tests;

pub use open::OpenStream;
pub use seal::SealStream;
