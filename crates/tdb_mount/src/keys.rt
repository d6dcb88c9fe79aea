//! The keys of an area, read from the device.
ghost use Rattle.std.specs.Prelude.{◌≤◌};
ghost use Rattle.flash_core.specs.Sizes.{IsValid, size_of};
ghost use Rattle.area_log.specs.Areas.{end_of};

use area_log::{Area, PlacedHeader};
use flash_core::Flash;
use kv_model::{Key, KvError};
use ram_table::KeyReader;
use record_core::read_keyed_header_at;

/// Reads the keys of the records of one area of a device by their places, which are its offsets. A
/// read makes no program and no erase. `Corrupt` comes where the header breaks a rule, its record
/// would end behind the area, or what stands behind it is no key. It counts the reads that it
/// refused.
#[derive(Drop)]
pub struct DeviceKeys<'a, F: Flash> {
    pub flash: &'a mut F,
    pub area: Area,
    /// How many low bits of a key's CRC are its hash.
    pub hash_bits: u8,
    /// How many reads were refused. The count stands still at its last value.
    pub refusals: u64,
    /// The header of the record whose key was read last.
    pub last: Option<PlacedHeader>,
    ghost valid: { IsValid (F.state flash.now).geometry },
    ghost inside: { end_of area ≤ size_of (F.state flash.now).geometry },
    ghost least: { 24 ≤ end_of area },
}

impl<F: Flash> KeyReader for DeviceKeys<'_, F> {
    ghost use Rattle.std.specs.Prelude.{◌≡◌, refl};
    ghost use Rattle.std.proofs.Common.{◌∙◌};
    ghost use Rattle.flash_core.specs.Calls.{OnlyReads};
    ghost use Rattle.flash_core.proofs.KeptLaws.{OnlyReads-refl, OnlyReads-trans};
    ghost use Rattle.tdb_mount.specs.Keys.{IsLast, keys_of};

    ghost state = { λ reader.
        keys_of (F.state reader.flash.now) reader.area reader.hash_bits reader.refusals };

    ghost may_follow = { λ a b. OnlyReads (F.state a.flash.now) (F.state b.flash.now)
        × (b.flash.ghost_name ≡ a.flash.ghost_name) × (b.area ≡ a.area) };

    ghost read_last = { λ reader.
        IsLast (F.state reader.flash.now) reader.area reader.last };

    fn key_at(&mut self, offset: u32, out: &mut Key) -> Result<(), KvError> {
        let end = self.area.base + self.area.size;
        match read_keyed_header_at(self.flash, offset, end) {
            Ok(keyed) => {
                *out = keyed.key;
                self.last = Some(PlacedHeader {
                    at: offset,
                    header: keyed.header,
                });
                Ok(())
            }
            Err(error) => {
                self.refusals = self.refusals.saturating_add(1);
                Err(error)
            }
        }
    }

    ghost stays = { λ a. (OnlyReads-refl (F.state a.flash.now), refl, refl) };

    ghost chains = { λ a b c first second.
        (OnlyReads-trans first.0 second.0, second.1 ∙ first.1, second.2 ∙ first.2) };
}
