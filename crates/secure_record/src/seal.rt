// The making of a sealed record.
ghost use Rattle.std.specs.Prelude.{◌≡◌, ◌++◌, ◌+◌, ◌≤◌, ℕ, List, [], length, Option};
ghost use Rattle.secure_record.specs.Sealed.{seal, sealed_metadata, sealed_vector, stored};
ghost use Rattle.secure_record.specs.Streams.{HasSealed};
ghost use Rattle.secure_record.specs.declared.metadata.Metadata.{Metadata};

use crate::body::BodyStream;
use crate::metadata::{Metadata, Revision};
use kv_model::{Flags, Key};
use std::marker::Model;

/// A value that is sealed piece by piece, in a record of revision 2.
///
/// The record is `head`, the bytes that `seal` leaves, and the CMAC that `finish` gives.
#[derive(Drop)]
pub struct SealStream {
    head: [u8; 40],
    body: BodyStream,
}

impl Model for SealStream {
    ghost use Rattle.secure_record.specs.States.{SealState};

    ghost Value = { SealState };

    ghost view = { λ s. record { head = s.head; body = s.body } };
}

// The vector of a record: the number of its seal, and zero where there are no flags.
fn vector_for(flags: Flags, iv: u64) -> u64
    ensures { result ≡ sealed_vector flags.bits iv }
{
    if flags == Flags::NONE { 0 } else { iv }
}

impl SealStream {
    /// A record for the key, of a value of `size` bytes. `iv` is the number of this seal, which the
    /// record has as its vector unless there are no flags; `prior` is the CMAC of the record that
    /// it replaces, where that is kept.
    pub fn new(
        root: &[u8; 16],
        key: &Key,
        flags: Flags,
        iv: u64,
        prior: Option<[u8; 16]>,
        size: u32,
    ) -> SealStream
        ensures sealed { let m = sealed_metadata size flags.bits iv prior in
            HasSealed result root.now key.now m [] }
        ensures left { result.body.left ≡ size }
    {
        let metadata = Metadata {
            revision: Revision::Second,
            size,
            flags: flags.bits,
            vector: vector_for(flags, iv),
            prior,
        };
        let head = metadata.to_bytes();
        let body = BodyStream::new(root, key, &metadata, &head);
        SealStream { head, body }
    }

    /// The metadata of the record.
    pub fn head(&self) -> [u8; 40]
        ensures { result ≡ self.now.head }
    {
        self.head
    }

    /// Puts the next bytes of the value into their stored form, in place. They are at most as many
    /// as are left of the record's size.
    pub fn seal(&mut self, buf: &mut [u8])
        requires { length buf.old ≤ self.old.body.left }
        ensures left { self.new.body.left + length buf.old ≡ self.old.body.left }
        ensures head { self.new.head ≡ self.old.head }

        // So it doesn't matter how a value is cut into pieces.
        ensures sealed { (root key : List ℕ) (m : Metadata) (front : List ℕ)
            → HasSealed self.old root key m front
            → HasSealed self.new root key m (front ++ buf.old) }
        ensures pieces { (root key : List ℕ) (m : Metadata) (front : List ℕ)
            → HasSealed self.old root key m front
            → stored root key m.flags m.vector (front ++ buf.old)
            ≡ stored root key m.flags m.vector front ++ buf.new }
    {
        self.body.seal(buf);
    }

    /// The CMAC of the record, once the whole value is sealed.
    pub fn finish(self) -> [u8; 16]
        requires { self.body.left ≡ 0 }
        ensures { (root key : List ℕ) (flags iv : ℕ) (prior : Option (List ℕ)) (value : List ℕ)
            → HasSealed self root key (sealed_metadata (length value) flags iv prior) value
            → self.head ++ stored root key flags (sealed_vector flags iv) value ++ result
            ≡ seal root key flags iv prior value }
    {
        let SealStream { body, .. } = self;
        body.finish()
    }
}
