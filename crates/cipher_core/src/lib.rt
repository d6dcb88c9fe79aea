//! Counter mode, CMAC and derived keys over AES-128, for bytes that come in pieces.
//!
//! No call allocates or fails, and every cutting of the bytes into pieces gives the same result.
#![tactic(auto)]

mod blocks;
mod cmac;
mod ctr;
mod derivation;
pub mod laws;
#[cfg(test)]
mod tests;

pub use cmac::CmacStream;
pub use ctr::CtrStream;
pub use derivation::{Salt, derive};
