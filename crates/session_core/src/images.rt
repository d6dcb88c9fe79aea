// The images before, after and within a program or erase that was torn.
ghost use Rattle.std.specs.Prelude.{◌≡◌, ◌↔◌, ◌+◌, ◌<◌, ◌∷◌, ◌^◌, [], length, IsTrue, IfOk};
ghost use Rattle.flash_core.specs.Images.{part, put};
ghost use Rattle.record_core.specs.Mounts.{StandsIn};
ghost use Rattle.session_core.specs.Search.{GoesOn};

use kv_model::NoMemory;
use std::alloc::Global;

/// An image that a tear left, and the whole images before and after the call that was torn.
#[derive(Clone, Copy)]
pub(crate) struct CutImages<'a> {
    pub torn: &'a [u8],
    pub before: &'a [u8],
    pub after: &'a [u8],
}

/// The image with these bytes at this place.
pub(crate) fn with_bytes(
    alloc: Global,
    image: &[u8],
    place: u32,
    bytes: &[u8],
) -> Result<Vec<u8>, NoMemory>
    ensures { IfOk result (λ whole. whole.items ≡ put image.now place bytes.now) }
{
    let start = (place as usize).min(image.len());
    let end = (place as usize + bytes.len()).min(image.len());
    let mut whole = Vec::with_capacity(alloc, image.len())?;
    whole.extend_from_slice(&image[..start])?;
    whole.extend_from_slice(bytes)?;
    whole.extend_from_slice(&image[end..])?;
    Ok(whole)
}

// At most `size` bytes from the place on, as many as there are.
fn part_of(image: &[u8], place: usize, size: usize) -> &[u8]
    requires { place + size < 2 ^ 64 }
    ensures { result.now ≡ part image.now place size }
{
    let start = place.min(image.len());
    let end = (place + size).min(image.len());
    &image[start..end]
}

// Whether these bytes stand at the place.
fn stands_in(image: &[u8], place: u32, read: &[u8]) -> bool
    ensures { IsTrue result ↔ StandsIn image.now (place, read.now) }
{
    let there = part_of(image, place as usize, read.len());
    let stands = *there == *read;
    stands
}

impl CutImages<'_> {
    /// Looks at the record of this size at this place, unless a break was found before it: whether
    /// its bytes stand in neither whole image.
    pub(crate) fn look(&self, found: Option<u32>, place: u32, size: u32) -> Option<u32>
        ensures { GoesOn self.now.before.now self.now.after.now found
            ((place, part self.now.torn.now place size) ∷ []) result }
    {
        if found.is_some() {
            return found;
        }
        let read = part_of(self.torn, place as usize, size as usize);
        let is_before = stands_in(self.before, place, read);
        let is_after = stands_in(self.after, place, read);
        if is_before {
            return None;
        }
        if is_after {
            return None;
        }
        Some(place)
    }
}
