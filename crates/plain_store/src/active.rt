// The set that is active.
use inc_set::OpenSet;
use kv_model::Key;
use ram_table::Place;
use store_note::NotedBytes;

/// What its owner has begun. The place is where the key stands in the table, or would stand, so
/// that the finish reads nothing.
#[derive(Drop)]
pub enum Begun {
    /// A set whose value comes in pieces, with a note of those that came.
    Set {
        set: OpenSet,
        place: Place,
        fed: NotedBytes,
    },
    /// A remove that the finish completes. `copied` is where the copies end that it made of all
    /// other live records, where its own record found no room.
    Remove {
        key: Key,
        place: Place,
        copied: Option<u32>,
    },
}

/// A set or a remove that was begun, and its owner.
#[derive(Drop)]
pub struct ActiveSet {
    pub owner: u8,
    pub begun: Begun,
}
