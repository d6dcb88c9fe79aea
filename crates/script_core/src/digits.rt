ghost use Rattle.std.specs.Prelude.{◌≡◌, IfOk, IsOk};
ghost use Rattle.hex.specs.Hex.{decode_of};
ghost use Rattle.script_core.specs.HexDigits.{decoded};

use kv_model::{Bytes, NoMemory};
use std::alloc::Global;

// Hexadecimal digits, two for each byte.
#[derive(Clone, Copy)]
pub(crate) struct Digits<'a> {
    word: &'a [u8],
    ghost paired: { IsOk (decode_of word.now) },
}

impl<'a> Digits<'a> {
    pub(crate) fn new(word: &'a [u8]) -> Digits<'a>
        requires { IsOk (decode_of word.now) }
        ensures { result.word ≡ word.entry }
    {
        Digits { word }
    }

    // The bytes. It refuses for want of memory alone.
    pub(crate) fn decoded(self, alloc: Global) -> Result<Bytes, NoMemory>
        ensures { IfOk result (λ bytes. bytes ≡ decoded self.entry.word.now) }
    {
        match hex::decode(alloc, self.word) {
            Ok(bytes) => Ok(Bytes::from_vec(bytes)),
            Err(_) => Err(NoMemory),
        }
    }
}
