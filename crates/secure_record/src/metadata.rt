// The metadata of a sealed record.
ghost use Rattle.std.specs.Prelude.{◌≡◌, ◌+◌, ◌≤◌, length, slice_range, take};
ghost use Rattle.std.specs.Str.{bytes_eq};
ghost use Rattle.std.specs.Int.{from_be_bytes, from_le_bytes, w32, w64};
ghost use Rattle.secure_record.specs.Metadata.{first_in, front, is_metadata, metadata_of, metadata_size, prior_bytes, prior_in, revision_number, second_in, spelling, IsHead};
ghost use Rattle.secure_record.specs.declared.metadata.Revision.TheVariants.{First, Second};

use byteorder::{BigEndian, ByteOrder, LittleEndian};

const MAX_VALUE: u32 = 65_536;

const TAG_SIZE: u32 = 16;

// Write-once, confidential and replay-protected.
const SECURE_FLAGS: u32 = 1 | 2 | 8;

/// The forms that metadata has.
#[derive(Clone, Copy, Debug, PartialEq, Eq)]
pub enum Revision {
    /// Metadata of 20 bytes, which is read alone.
    First,
    /// Metadata of 40 bytes, with the CMAC that is replaced.
    Second,
}

/// What a sealed record says in front of its stored bytes.
#[derive(Clone, Copy, Debug)]
pub struct Metadata {
    pub revision: Revision,
    /// How many bytes the value has.
    pub size: u32,
    pub flags: u32,
    /// The number of the seal.
    pub vector: u64,
    /// The CMAC that the record's own replaces.
    pub prior: Option<[u8; 16]>,
}

impl Revision {
    fn number(self) -> u16
        ensures { result ≡ revision_number self }
    {
        match self {
            Revision::First => 1,
            Revision::Second => 2,
        }
    }

    /// How many bytes the metadata has.
    pub fn metadata_size(self) -> u16
        ensures { result ≡ metadata_size self }
    {
        match self {
            Revision::First => 20,
            Revision::Second => 40,
        }
    }
}

// The number of four bytes from this place on, the lowest first.
fn u32_at(bytes: &[u8], at: usize) -> u32
    requires { at + 4 ≤ length bytes.now }
    ensures { result ≡ from_le_bytes w32 (slice_range bytes.now at (at + 4)) }
{
    u32::from_le_bytes([bytes[at], bytes[at + 1], bytes[at + 2], bytes[at + 3]])
}

// The vector that stands in a head, its highest byte first.
fn vector_in(head: &[u8]) -> u64
    requires { 20 ≤ length head.now }
    ensures { result ≡ from_be_bytes w64 (slice_range head.now 12 20) }
{
    u64::from_be_bytes([
        head[12], head[13], head[14], head[15], head[16], head[17], head[18], head[19],
    ])
}

// The prior that stands in a head of revision 2.
fn prior_in(head: &[u8]) -> Option<[u8; 16]>
    requires { 40 ≤ length head.now }
    ensures { result ≡ prior_in head.now }
{
    if u32_at(head, 20) == 0 {
        return None;
    }
    let mut prior = [0; 16];
    prior.copy_from_slice(&head[24..40]);
    Some(prior)
}

impl Metadata {
    // The 20 bytes that both revisions begin with.
    fn front(&self) -> [u8; 20]
        ensures { result ≡ front self.now }
    {
        let mut out = [0; 20];
        LittleEndian::write_u16(&mut out, self.revision.metadata_size());
        LittleEndian::write_u16(&mut out[2..], self.revision.number());
        LittleEndian::write_u32(&mut out[4..], self.size);
        LittleEndian::write_u32(&mut out[8..], self.flags);
        BigEndian::write_u64(&mut out[12..], self.vector);
        out
    }

    /// The bytes of metadata of revision 2.
    #[tactic(auto, unfolding(crate::specs::Metadata::spelling))]
    pub fn to_bytes(&self) -> [u8; 40]
        requires { self.now.revision ≡ Second }
        ensures { result ≡ spelling self.now }
    {
        let mut out = [0; 40];
        out[..20].copy_from_slice(&self.front());
        if let Some(prior) = &self.prior {
            LittleEndian::write_u32(&mut out[20..], 1);
            out[24..].copy_from_slice(prior);
        }
        out
    }

    // What stands at the places of the fields in a head, if it is one of revision 1.
    fn first_in(head: &[u8]) -> Metadata
        requires { 20 ≤ length head.now }
        ensures { result ≡ first_in head.now }
    {
        Metadata {
            revision: Revision::First,
            size: u32_at(head, 4),
            flags: u32_at(head, 8),
            vector: vector_in(head),
            prior: None,
        }
    }

    // The same of revision 2.
    fn second_in(head: &[u8]) -> Metadata
        requires { 40 ≤ length head.now }
        ensures { result ≡ second_in head.now }
    {
        Metadata {
            revision: Revision::Second,
            prior: prior_in(head),
            ..Metadata::first_in(head)
        }
    }

    // Whether a record of this size, which begins with this head, has just this metadata.
    #[tactic(auto, unfolding(crate::specs::Metadata::spelling))]
    fn is_in(&self, head: &[u8], size: u32) -> bool
        requires { metadata_size self.now.revision ≤ length head.now }
        ensures { result ≡ is_metadata self.now head.now size }
    {
        self.is_spelled_in(head)
            && self.size <= MAX_VALUE
            && self.flags & SECURE_FLAGS == self.flags
            && size == u32::from(self.revision.metadata_size()) + self.size + TAG_SIZE
    }

    // Whether the head begins with the bytes of this metadata.
    #[tactic(auto, unfolding(crate::specs::Metadata::spelling))]
    fn is_spelled_in(&self, head: &[u8]) -> bool
        requires { metadata_size self.now.revision ≤ length head.now }
        ensures { result
            ≡ bytes_eq (take (metadata_size self.now.revision) head.now) (spelling self.now) }
    {
        match self.revision {
            Revision::First => head[..20] == self.front()[..],
            Revision::Second => head[..40] == self.to_bytes()[..],
        }
    }

    /// The metadata of a record of this size that begins with this head: its first 40 bytes, or all
    /// where it is shorter. None comes exactly where they are metadata of neither revision for that
    /// size.
    #[tactic(auto, unfolding(crate::specs::Metadata::metadata_of))]
    pub fn read(head: &[u8], size: u32) -> Option<Metadata>
        requires { IsHead head.now size }
        ensures { result ≡ metadata_of head.now size }
    {
        if head.len() < 20 {
            return None;
        }
        let first = Metadata::first_in(head);
        if first.is_in(head, size) {
            return Some(first);
        }
        if head.len() < 40 {
            return None;
        }
        let second = Metadata::second_in(head);
        if second.is_in(head, size) {
            Some(second)
        } else {
            None
        }
    }
}
