// Eight registers, and the steps of a round that are linear.
ghost use Rattle.std.specs.Prelude.{◌≡◌, ◌+◌, ◌*◌, ◌/◌, ◌%◌, ◌<◌, ℕ, List};
ghost use Rattle.aes_core.specs.Aes.{◌⊕◌, times_x, shift_rows, mix_columns, add_round_key};
ghost use Rattle.aes_lanes.specs.Sliced.{HasByte, HasBlock};

use std::simd::prelude::*;

// The lane that each lane of a row takes its byte from, where row r turns left by r places.
const TURNED_ROWS: [usize; 16] = [0, 5, 10, 15, 4, 9, 14, 3, 8, 13, 2, 7, 12, 1, 6, 11];

// The same for the byte below in the column, the first row behind the last.
const NEXT_ROWS: [usize; 16] = [1, 2, 3, 0, 5, 6, 7, 4, 9, 10, 11, 8, 13, 14, 15, 12];

// The same for the byte two places below.
const ROWS_AFTER: [usize; 16] = [2, 3, 0, 1, 6, 7, 4, 5, 10, 11, 8, 9, 14, 15, 12, 13];

/// Eight vectors: eight blocks one after another, or sliced, register i with bit i of each byte.
#[derive(Clone, Copy)]
pub struct Registers {
    pub bit0: u8x16,
    pub bit1: u8x16,
    pub bit2: u8x16,
    pub bit3: u8x16,
    pub bit4: u8x16,
    pub bit5: u8x16,
    pub bit6: u8x16,
    pub bit7: u8x16,
}

impl Registers {
    // The exclusive or of each byte with the other's.
    #[inline(always)]
    fn xored(self, other: Registers) -> Registers
        ensures { (lane place x y : ℕ) → lane < 16 → HasByte self lane place x
            → HasByte other lane place y → HasByte result lane place (x ⊕ y) }
    {
        Registers {
            bit0: self.bit0 ^ other.bit0,
            bit1: self.bit1 ^ other.bit1,
            bit2: self.bit2 ^ other.bit2,
            bit3: self.bit3 ^ other.bit3,
            bit4: self.bit4 ^ other.bit4,
            bit5: self.bit5 ^ other.bit5,
            bit6: self.bit6 ^ other.bit6,
            bit7: self.bit7 ^ other.bit7,
        }
    }

    // Each byte times x in the field.
    #[inline(always)]
    fn doubled(self) -> Registers
        ensures { (lane place byte : ℕ) → lane < 16 → HasByte self lane place byte
            → HasByte result lane place (times_x byte) }
    {
        Registers {
            bit0: self.bit7,
            bit1: self.bit0 ^ self.bit7,
            bit2: self.bit1,
            bit3: self.bit2 ^ self.bit7,
            bit4: self.bit3 ^ self.bit7,
            bit5: self.bit4,
            bit6: self.bit5,
            bit7: self.bit6,
        }
    }

    // In each place the byte of the next row.
    #[inline(always)]
    fn next_rows(self) -> Registers
        ensures { (lane place byte : ℕ) → lane < 16
            → HasByte self (4 * (lane / 4) + (lane + 1) % 4) place byte
            → HasByte result lane place byte }
    {
        Registers {
            bit0: self.bit0.swizzle(NEXT_ROWS),
            bit1: self.bit1.swizzle(NEXT_ROWS),
            bit2: self.bit2.swizzle(NEXT_ROWS),
            bit3: self.bit3.swizzle(NEXT_ROWS),
            bit4: self.bit4.swizzle(NEXT_ROWS),
            bit5: self.bit5.swizzle(NEXT_ROWS),
            bit6: self.bit6.swizzle(NEXT_ROWS),
            bit7: self.bit7.swizzle(NEXT_ROWS),
        }
    }

    // In each place the byte of the row after the next one.
    #[inline(always)]
    fn rows_after(self) -> Registers
        ensures { (lane place byte : ℕ) → lane < 16
            → HasByte self (4 * (lane / 4) + (lane + 2) % 4) place byte
            → HasByte result lane place byte }
    {
        Registers {
            bit0: self.bit0.swizzle(ROWS_AFTER),
            bit1: self.bit1.swizzle(ROWS_AFTER),
            bit2: self.bit2.swizzle(ROWS_AFTER),
            bit3: self.bit3.swizzle(ROWS_AFTER),
            bit4: self.bit4.swizzle(ROWS_AFTER),
            bit5: self.bit5.swizzle(ROWS_AFTER),
            bit6: self.bit6.swizzle(ROWS_AFTER),
            bit7: self.bit7.swizzle(ROWS_AFTER),
        }
    }

    /// Turns the rows of each block.
    #[inline(always)]
    pub fn shift_rows(self) -> Registers
        ensures { (place : ℕ) (block : List ℕ) → HasBlock self place block
            → HasBlock result place (shift_rows block) }
    {
        Registers {
            bit0: self.bit0.swizzle(TURNED_ROWS),
            bit1: self.bit1.swizzle(TURNED_ROWS),
            bit2: self.bit2.swizzle(TURNED_ROWS),
            bit3: self.bit3.swizzle(TURNED_ROWS),
            bit4: self.bit4.swizzle(TURNED_ROWS),
            bit5: self.bit5.swizzle(TURNED_ROWS),
            bit6: self.bit6.swizzle(TURNED_ROWS),
            bit7: self.bit7.swizzle(TURNED_ROWS),
        }
    }

    /// Mixes the columns of each block: a byte becomes 2 a + 3 b + c + d, where b, c and d are the
    /// next ones below it.
    #[inline(always)]
    pub fn mix_columns(self) -> Registers
        ensures { (place : ℕ) (block : List ℕ) → HasBlock self place block
            → HasBlock result place (mix_columns block) }
    {
        let next = self.next_rows();
        let sums = self.xored(next);
        sums.doubled().xored(next).xored(sums.rows_after())
    }

    /// Combines each block with its round key.
    #[inline(always)]
    pub fn add_round_key(self, key: Registers) -> Registers
        ensures { (place : ℕ) (block round_key : List ℕ) → HasBlock self place block
            → HasBlock key place round_key
            → HasBlock result place (add_round_key block round_key) }
    {
        self.xored(key)
    }
}
