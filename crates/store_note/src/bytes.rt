// Notes of bytes as they are, and of bytes behind others.
ghost use Rattle.std.specs.Prelude.{◌≡◌, ◌++◌};

use crate::noted::{NotedBytes, NotesBytes};

// How the bytes of a note are read off a value.
struct Same;

#[derive(Drop)]
struct Joined {
    front: NotedBytes,
    back: NotedBytes,
}

impl<'a> NotesBytes<&'a [u8]> for Same {
    ghost bytes = { λ bytes. bytes.now };
}

impl NotesBytes<Joined> for Joined {
    ghost bytes = { λ both. both.front.bytes ++ both.back.bytes };
}

/// A note of these bytes.
pub fn note_bytes(bytes: &[u8]) -> NotedBytes
    ensures { result.bytes ≡ bytes.now }
{
    NotedBytes::of::<&[u8], Same>(&bytes)
}

/// A note of these bytes behind others.
pub fn note_more(front: NotedBytes, bytes: &[u8]) -> NotedBytes
    ensures { result.bytes ≡ front.bytes ++ bytes.now }
{
    let joined = Joined {
        front,
        back: note_bytes(bytes),
    };
    NotedBytes::of::<Joined, Joined>(&joined)
}
