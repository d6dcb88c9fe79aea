// Eight blocks sliced, and sliced registers as blocks again: for each lane the bits of eight bytes
// are transposed, in three layers that exchange halves, quarters and single bits.
ghost use Rattle.std.specs.Prelude.{◌≡◌, ◌<◌, ℕ};
ghost use Rattle.aes_lanes.specs.Sliced.{register, IsBit};
ghost use Rattle.aes_lanes.specs.Transposed.{IsExchanged, IsLayer};

use crate::registers::Registers;
use std::simd::prelude::*;

// Two registers.
#[derive(Clone, Copy)]
struct Pair {
    low: u8x16,
    high: u8x16,
}

// Single bits, every second one of `low` with the one before it in `high`.
#[inline(always)]
fn exchanged_bits(low: u8x16, high: u8x16) -> Pair
    ensures { IsExchanged 1 low high result.low result.high }
{
    let even = u8x16::splat(0x55);
    let odd = u8x16::splat(0xaa);
    Pair {
        low: (low & even) ^ ((high & even) << 1),
        high: ((low & odd) >> 1) ^ (high & odd),
    }
}

// The same of two bits each.
#[inline(always)]
fn exchanged_pairs(low: u8x16, high: u8x16) -> Pair
    ensures { IsExchanged 2 low high result.low result.high }
{
    let even = u8x16::splat(0x33);
    let odd = u8x16::splat(0xcc);
    Pair {
        low: (low & even) ^ ((high & even) << 2),
        high: ((low & odd) >> 2) ^ (high & odd),
    }
}

// The same of four bits each.
#[inline(always)]
fn exchanged_halves(low: u8x16, high: u8x16) -> Pair
    ensures { IsExchanged 4 low high result.low result.high }
{
    let even = u8x16::splat(0x0f);
    let odd = u8x16::splat(0xf0);
    Pair {
        low: (low & even) ^ ((high & even) << 4),
        high: ((low & odd) >> 4) ^ (high & odd),
    }
}

#[inline(always)]
fn layer_of_bits(q: Registers) -> Registers
    ensures { IsLayer 1 q result }
{
    let first = exchanged_bits(q.bit0, q.bit1);
    let second = exchanged_bits(q.bit2, q.bit3);
    let third = exchanged_bits(q.bit4, q.bit5);
    let fourth = exchanged_bits(q.bit6, q.bit7);
    Registers {
        bit0: first.low,
        bit1: first.high,
        bit2: second.low,
        bit3: second.high,
        bit4: third.low,
        bit5: third.high,
        bit6: fourth.low,
        bit7: fourth.high,
    }
}

#[inline(always)]
fn layer_of_pairs(q: Registers) -> Registers
    ensures { IsLayer 2 q result }
{
    let first = exchanged_pairs(q.bit0, q.bit2);
    let second = exchanged_pairs(q.bit1, q.bit3);
    let third = exchanged_pairs(q.bit4, q.bit6);
    let fourth = exchanged_pairs(q.bit5, q.bit7);
    Registers {
        bit0: first.low,
        bit1: second.low,
        bit2: first.high,
        bit3: second.high,
        bit4: third.low,
        bit5: fourth.low,
        bit6: third.high,
        bit7: fourth.high,
    }
}

#[inline(always)]
fn layer_of_halves(q: Registers) -> Registers
    ensures { IsLayer 4 q result }
{
    let first = exchanged_halves(q.bit0, q.bit4);
    let second = exchanged_halves(q.bit1, q.bit5);
    let third = exchanged_halves(q.bit2, q.bit6);
    let fourth = exchanged_halves(q.bit3, q.bit7);
    Registers {
        bit0: first.low,
        bit1: second.low,
        bit2: third.low,
        bit3: fourth.low,
        bit4: first.high,
        bit5: second.high,
        bit6: third.high,
        bit7: fourth.high,
    }
}

/// Bit i of each lane of register n goes to bit n of that lane of register i.
pub fn transposed(q: Registers) -> Registers
    ensures { (lane i n bit : ℕ) → lane < 16 → i < 8 → n < 8
        → IsBit lane i (register q n) bit → IsBit lane n (register result i) bit }
{
    layer_of_bits(layer_of_pairs(layer_of_halves(q)))
}
