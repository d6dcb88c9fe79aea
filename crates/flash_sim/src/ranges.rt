// Ranges of an image.
ghost use Rattle.std.specs.Prelude.{◌≡◌, ◌+◌, ◌≤◌, length, replicate};
ghost use Rattle.flash_core.specs.Images.{part, put};
ghost use Rattle.flash_sim.specs.Patterns.{torn_bytes};

use crate::pattern::leave;
use kv_model::Pattern;

/// Writes the bytes over what stands at the place.
pub fn overwrite(image: &mut Vec<u8>, place: usize, bytes: &[u8])
    requires { place + length bytes.now ≤ length image.old.items }
    ensures image { image.new.items ≡ put image.old.items place bytes.now }
    ensures sized { length image.new.items ≡ length image.old.items }
{
    image[place..place + bytes.len()].copy_from_slice(bytes);
}

/// Makes n bytes from the place on 0xFF.
pub fn clear(image: &mut Vec<u8>, place: usize, n: usize)
    requires { place + n ≤ length image.old.items }
    ensures image { image.new.items ≡ put image.old.items place (replicate n 255) }
    ensures sized { length image.new.items ≡ length image.old.items }
{
    image[place..place + n].fill(0xFF);
}

/// Leaves a range as the pattern says.
pub fn leave_at(image: &mut Vec<u8>, place: usize, pattern: Pattern, after: &[u8])
    requires { place + length after.now ≤ length image.old.items }
    ensures image { image.new.items
        ≡ put image.old.items place (torn_bytes pattern
        (part image.old.items place (length after.now)) after.now) }
    ensures sized { length image.new.items ≡ length image.old.items }
{
    leave(pattern, &mut image[place..place + after.len()], after);
}

/// n bytes from the place on.
pub fn range_of(image: &[u8], place: usize, n: usize) -> &[u8]
    requires { place + n ≤ length image.now }
    ensures { result.now ≡ part image.now place n }
{
    &image[place..place + n]
}
