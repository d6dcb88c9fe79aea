// What a torn program or erase leaves of its range.
ghost use Rattle.std.specs.Prelude.{◌≡◌, length};
ghost use Rattle.flash_sim.specs.Patterns.{mixed, next_number, torn_bytes};

use kv_model::Pattern;

// The generator's next number.
fn next_of(y: u32) -> u32
    ensures { result ≡ next_number y }
{
    y.wrapping_mul(1_664_525).wrapping_add(1_013_904_223)
}

// The high bytes of the generator's numbers from this seed.
fn mix(seed: u32, range: &mut [u8])
    ensures { range.new ≡ mixed seed (length range.old) }
{
    let mut y = seed;
    for byte in range.iter_mut() {
        y = next_of(y);
        *byte = (y >> 24) as u8;
    }
}

/// Leaves a range as the pattern says, from the bytes that it has and those that a whole call would
/// leave there.
pub fn leave(pattern: Pattern, range: &mut [u8], after: &[u8])
    requires { length after.now ≡ length range.old }
    ensures { range.new ≡ torn_bytes pattern range.old after.now }
{
    match pattern {
        Pattern::None => {}
        Pattern::Half => {
            let half = after.len() / 2;
            range[..half].copy_from_slice(&after[..half]);
        }
        Pattern::Zero => range.fill(0),
        Pattern::All => range.copy_from_slice(after),
        Pattern::Mix { seed } => mix(seed, range),
    }
}
