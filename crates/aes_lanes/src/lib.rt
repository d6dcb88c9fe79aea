//! AES-128 in counter mode over whole blocks, eight at a time in vectors.
//!
//! The vectors are sliced: a register has one bit of each byte of eight blocks, and the S-box is a
//! circuit. What is left over is combined block by block with the tables of `aes_core`. Nothing
//! here allocates or fails, and nothing is said of the time that a call takes.
#![tactic(auto)]

ghost use Rattle.std.specs.Prelude.{◌≡◌, ◌/◌, ◌%◌, length};
ghost use Rattle.std.specs.Int.{from_be_bytes, w128};
ghost use Rattle.aes_lanes.specs.Ctr.{counter_block, ctr_text};

mod ctr;
mod packing;
mod registers;
mod rounds;
mod s_box;
#[cfg(test)]
mod tests;

use aes_core::Aes128;
use ctr::{combine_eights, combine_singles};

/// Combines each block of `buf`, whose length is a multiple of 16, with the cipher of the counter,
/// which goes up by one for each, modulo 2 ^ 128. Afterwards `counter` is the next one.
pub fn ctr_blocks(aes: &Aes128, counter: &mut [u8; 16], buf: &mut [u8])
    requires { length buf.old % 16 ≡ 0 }
    ensures text { buf.new ≡ ctr_text aes.now (from_be_bytes w128 counter.old) 0 buf.old }
    ensures counter { counter.new
        ≡ counter_block (from_be_bytes w128 counter.old) (length buf.old / 16) }
{
    let start = u128::from_be_bytes(*counter);
    let blocks = (buf.len() / 16) as u128;
    let (eights, rest) = buf.split_at_mut(buf.len() / 128 * 128);
    let done = (eights.len() / 16) as u128;
    combine_eights(aes, start, eights);
    combine_singles(aes, start.wrapping_add(done), rest);
    *counter = start.wrapping_add(blocks).to_be_bytes();
}
