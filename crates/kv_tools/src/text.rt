// Texts as they grow. Each call refuses for want of memory alone.
ghost use Rattle.std.specs.Prelude.{◌≡◌, ◌++◌, OnOk};
ghost use Rattle.std.specs.Fmt.{decimal};

use base_core::NoMemory;
use std::alloc::Global;

/// Appends some bytes.
pub(crate) fn push_bytes(text: &mut Vec<u8>, bytes: &[u8]) -> Result<(), NoMemory>
    ensures { OnOk result (text.new.items ≡ text.old.items ++ bytes.now) }
{
    Ok(text.extend_from_slice(bytes)?)
}

/// Appends some bytes, and a number behind them.
pub(crate) fn push_field(
    alloc: Global,
    text: &mut Vec<u8>,
    name: &[u8],
    number: u32,
) -> Result<(), NoMemory>
    ensures { OnOk result (text.new.items ≡ text.old.items ++ (name.now ++ decimal number)) }
{
    let digits = number.to_string(alloc)?;
    push_bytes(text, name)?;
    push_bytes(text, digits.as_bytes())
}
