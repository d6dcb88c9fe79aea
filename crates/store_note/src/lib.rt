//! What a store notes for proofs alone. Nothing of it exists at run time.
//!
//! A store that a failed write stopped tells the state before the call in doubt, with that call, and
//! a set that is written in pieces tells the bytes that it was fed. No code keeps these: bytes are
//! gone once they are programmed. So the store notes them.
#![tactic(auto)]

mod bytes;
mod noted;

pub use bytes::{note_bytes, note_more};
pub use noted::{Noted, NotedBytes, Notes, NotesBytes};
