// The kernels, each with the checksum of its work.
ghost use Rattle.std.specs.Prelude.{◌≡◌, IfSome};
ghost use Rattle.std.specs.Int.{to_be_bytes, w128};
ghost use Rattle.cipher_core.specs.Cmac.{cmac};
ghost use Rattle.kv_model.specs.Crc.{crc_of};
ghost use Rattle.kv_bench.specs.Passes.{name_of, repeated, passed, first_state, checksum_of};

use cipher_core::{CmacStream, CtrStream};
use record_core::{CRC_START, crc};

// The key and the first counter block of the examples in SP 800-38A.
const KEY: [u8; 16] = [
    0x2b, 0x7e, 0x15, 0x16, 0x28, 0xae, 0xd2, 0xa6, 0xab, 0xf7, 0x15, 0x88, 0x09, 0xcf, 0x4f, 0x3c,
];

const START: [u8; 16] = [
    0xf0, 0xf1, 0xf2, 0xf3, 0xf4, 0xf5, 0xf6, 0xf7, 0xf8, 0xf9, 0xfa, 0xfb, 0xfc, 0xfd, 0xfe, 0xff,
];

/// What is measured.
#[derive(Clone, Copy, Debug, PartialEq, Eq)]
pub enum Kernel {
    /// Counter mode.
    Ctr,
    /// CMAC.
    Cmac,
    /// The CRC of records.
    Crc,
}

impl Kernel {
    ghost use Rattle.kv_bench.specs.declared.kernels.Kernel.{Kernel};

    /// The kernel of this name.
    pub fn from_word(word: &str) -> Option<Kernel>
        ensures named { IfSome result (λ kernel. word.now ≡ name_of kernel) }
        ensures known { (kernel : Kernel) → word.now ≡ name_of kernel → result ≡ Some kernel }
    {
        match word {
            "ctr" => Some(Kernel::Ctr),
            "cmac" => Some(Kernel::Cmac),
            "crc" => Some(Kernel::Crc),
            _ => None,
        }
    }

    /// Goes over the buffer so many times, and gives the CMAC of what was computed, or of the CRC
    /// the number itself, its high bytes first.
    pub fn checksum(self, buffer: &mut [u8], rounds: u32) -> [u8; 16]
        ensures { result ≡ checksum_of self buffer.old rounds }
    {
        match self {
            Kernel::Ctr => ctr_checksum(buffer, rounds),
            Kernel::Cmac => cmac_checksum(buffer, rounds),
            Kernel::Crc => crc_checksum(buffer, rounds),
        }
    }
}

// The buffer as one text after another in counter mode, and the CMAC of what it is then.
fn ctr_checksum(buffer: &mut [u8], rounds: u32) -> [u8; 16]
    ensures { result ≡ cmac KEY (passed first_state buffer.old rounds) }
{
    let mut stream = CtrStream::new(&KEY, &START);
    for _round in 0..rounds {
        stream.update(buffer);
    }
    cmac_checksum(buffer, 1)
}

// The CMAC of the buffer, so many times one after another.
fn cmac_checksum(buffer: &[u8], rounds: u32) -> [u8; 16]
    ensures { result ≡ cmac KEY (repeated buffer.now rounds) }
{
    let mut stream = CmacStream::new(&KEY);
    for _round in 0..rounds {
        stream.update(buffer);
    }
    stream.finish()
}

// The CRC of the buffer, so many times one after another.
fn crc_checksum(buffer: &[u8], rounds: u32) -> [u8; 16]
    ensures { result ≡ to_be_bytes w128 (crc_of (repeated buffer.now rounds)) }
{
    let mut sum = CRC_START;
    for _round in 0..rounds {
        sum = crc(sum, buffer);
    }
    u128::from(sum).to_be_bytes()
}
