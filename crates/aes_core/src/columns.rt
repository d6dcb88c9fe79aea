// The four columns of a state, and the rounds over them.
ghost use Rattle.std.specs.Prelude.{◌≡◌, ◌∷◌, [], length};
ghost use Rattle.std.specs.Int.{to_be_bytes, w32};
ghost use Rattle.aes_core.specs.Aes.{s_box, mixed_column, xor_bytes, add_round_key, mix_columns, shift_rows, sub_bytes, next_round_key, turned_word};
ghost use Rattle.aes_core.specs.Words.{bytes_of, row_of};

use crate::tables::{
    from_first_row, from_fourth_row, from_second_row, from_third_row, substituted,
};

/// The columns of a state or a round key, each with its row 0 as the highest byte.
#[derive(Clone, Copy)]
pub struct Columns {
    pub first: u32,
    pub second: u32,
    pub third: u32,
    pub fourth: u32,
}

// A column of the state after a round: row 0 comes from column a, row 1 from b, row 2 from c, row 3
// from d.
#[inline(always)]
fn round_column(a: u32, b: u32, c: u32, d: u32, key: u32) -> u32
    ensures { to_be_bytes w32 result
        ≡ xor_bytes (mixed_column (s_box (row_of a 0)) (s_box (row_of b 1)) (s_box (row_of c 2))
        (s_box (row_of d 3))) (to_be_bytes w32 key) }
{
    from_first_row(a.to_be_bytes()[0])
        ^ from_second_row(b.to_be_bytes()[1])
        ^ from_third_row(c.to_be_bytes()[2])
        ^ from_fourth_row(d.to_be_bytes()[3])
        ^ key
}

// The same after the last round, which mixes no columns.
#[inline(always)]
fn last_column(a: u32, b: u32, c: u32, d: u32, key: u32) -> u32
    ensures { to_be_bytes w32 result
        ≡ xor_bytes (s_box (row_of a 0) ∷ s_box (row_of b 1) ∷ s_box (row_of c 2)
        ∷ s_box (row_of d 3) ∷ []) (to_be_bytes w32 key) }
{
    let bytes = [
        substituted(a.to_be_bytes()[0]),
        substituted(b.to_be_bytes()[1]),
        substituted(c.to_be_bytes()[2]),
        substituted(d.to_be_bytes()[3]),
    ];
    u32::from_be_bytes(bytes) ^ key
}

// What the key schedule adds to the first word, from the last one.
fn turned_word(word: u32, constant: u8) -> u32
    ensures { to_be_bytes w32 result ≡ turned_word constant (to_be_bytes w32 word) }
{
    let [first, second, third, fourth] = word.to_be_bytes();
    u32::from_be_bytes([
        substituted(second) ^ constant,
        substituted(third),
        substituted(fourth),
        substituted(first),
    ])
}

impl Columns {
    /// A round: column n takes its row r from column n + r.
    #[inline(always)]
    pub fn round(self, key: Columns) -> Columns
        ensures { bytes_of result ≡ add_round_key
            (mix_columns (shift_rows (sub_bytes (bytes_of self)))) (bytes_of key) }
    {
        let Columns {
            first: a,
            second: b,
            third: c,
            fourth: d,
        } = self;
        Columns {
            first: round_column(a, b, c, d, key.first),
            second: round_column(b, c, d, a, key.second),
            third: round_column(c, d, a, b, key.third),
            fourth: round_column(d, a, b, c, key.fourth),
        }
    }

    /// The last round.
    #[inline(always)]
    pub fn last_round(self, key: Columns) -> Columns
        ensures { bytes_of result ≡ add_round_key (shift_rows (sub_bytes (bytes_of self)))
            (bytes_of key) }
    {
        let Columns {
            first: a,
            second: b,
            third: c,
            fourth: d,
        } = self;
        Columns {
            first: last_column(a, b, c, d, key.first),
            second: last_column(b, c, d, a, key.second),
            third: last_column(c, d, a, b, key.third),
            fourth: last_column(d, a, b, c, key.fourth),
        }
    }

    /// The exclusive or with a round key.
    #[inline(always)]
    pub fn with_key(self, key: Columns) -> Columns
        ensures { bytes_of result ≡ add_round_key (bytes_of self) (bytes_of key) }
    {
        Columns {
            first: self.first ^ key.first,
            second: self.second ^ key.second,
            third: self.third ^ key.third,
            fourth: self.fourth ^ key.fourth,
        }
    }

    /// The next round key.
    pub fn next_round_key(self, constant: u8) -> Columns
        ensures { bytes_of result ≡ next_round_key constant (bytes_of self) }
    {
        let first = self.first ^ turned_word(self.fourth, constant);
        let second = self.second ^ first;
        let third = self.third ^ second;
        let fourth = self.fourth ^ third;
        Columns {
            first,
            second,
            third,
            fourth,
        }
    }

    /// The columns of a block of sixteen bytes.
    #[inline(always)]
    pub fn from_bytes(block: &[u8]) -> Columns
        requires { length block.now ≡ 16 }
        ensures { bytes_of result ≡ block.now }
    {
        Columns {
            first: u32::from_be_bytes([block[0], block[1], block[2], block[3]]),
            second: u32::from_be_bytes([block[4], block[5], block[6], block[7]]),
            third: u32::from_be_bytes([block[8], block[9], block[10], block[11]]),
            fourth: u32::from_be_bytes([block[12], block[13], block[14], block[15]]),
        }
    }

    /// The block of the columns.
    #[inline(always)]
    pub fn to_block(self) -> [u8; 16]
        ensures { result ≡ bytes_of self }
    {
        let [a0, a1, a2, a3] = self.first.to_be_bytes();
        let [b0, b1, b2, b3] = self.second.to_be_bytes();
        let [c0, c1, c2, c3] = self.third.to_be_bytes();
        let [d0, d1, d2, d3] = self.fourth.to_be_bytes();
        [
            a0, a1, a2, a3, b0, b1, b2, b3, c0, c1, c2, c3, d0, d1, d2, d3,
        ]
    }
}
