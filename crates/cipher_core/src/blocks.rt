// The exclusive or of bytes in place.
ghost use Rattle.std.specs.Prelude.{◌≡◌, ◌≤◌, length};
ghost use Rattle.aes_core.specs.Aes.{xor_bytes};

/// Combines the bytes with the front of a pad that is at least as long.
#[inline(always)]
pub fn combine(bytes: &mut [u8], pad: &[u8])
    requires { length bytes.old ≤ length pad.now }
    ensures { bytes.new ≡ xor_bytes bytes.old pad.now }
{
    for i in 0..bytes.len() {
        bytes[i] ^= pad[i];
    }
}
