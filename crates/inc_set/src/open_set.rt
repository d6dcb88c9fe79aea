// A set whose value comes in pieces.
ghost use Rattle.std.specs.Prelude.{◌≡◌, ◌+◌, ◌%◌, ◌≤◌, ℕ, List, [], ◌++◌, length, take, IsTrue, IfErr, IfOk, OnErr, OnOk, Option};
ghost use Rattle.std.specs.Option.{ForSome};
ghost use Rattle.std.specs.Int.{is_power_of_two};
ghost use Rattle.base_core.specs.Sizes.{record_size};
ghost use Rattle.base_core.specs.Units.{IsMultipleOf};
ghost use Rattle.flash_core.specs.declared.geometry.Geometry.{Geometry};
ghost use Rattle.flash_core.specs.Images.{IsErased};
ghost use Rattle.flash_core.specs.Sizes.{IsValid};
ghost use Rattle.kv_model.specs.declared.error.KvError.TheVariants.{WriteFault};
ghost use Rattle.record_core.specs.Cuts.{IsInArea};
ghost use Rattle.record_core.specs.Endings.{kv_ended};
ghost use Rattle.record_core.specs.Header.{IsHeader};

use crate::payload::{finish, push_bytes};
use crate::units::copy_at;
use flash_core::Flash;
use kv_model::{Key, KvError};
use record_core::{Header, crc, crc_of_front, size_of_record};

/// A record on its way to a device: its key, its flags, the size of its value, how many bytes of
/// that came so far, its place, and the CRC so far.
#[derive(Debug, Drop)]
pub struct OpenSet {
    pub(crate) key: Key,
    pub(crate) flags: u32,
    pub(crate) size: u32,
    pub(crate) fed: u32,
    pub(crate) at: u32,
    pub(crate) crc: u32,
}

impl OpenSet {
    ghost use Rattle.inc_set.specs.Sets.{Appends, Feeds, Holds, IsAhead, IsPlaced, opened, set_size, with_bytes};

    /// A set of `size` bytes under this key, of which none came yet, to stand from `at` on. `flags`
    /// is 0, 1 (write-once) or 2^31 (a remove, whose size is 0). `rest` has one program unit of the
    /// device, and `at` is a multiple of it. It makes no device call.
    pub fn begin(key: &Key, flags: u32, size: u32, at: u32, rest: &mut [u8]) -> OpenSet
        requires power { IsTrue (is_power_of_two (length rest.old)) }
        requires most { length rest.old ≤ 4096 }
        requires aligned { IsMultipleOf (length rest.old) at }
        requires header { IsHeader flags (length key.now) size }
        ensures set { result ≡ opened key.now flags size at }
        ensures len { length rest.new ≡ length rest.old }
        // It holds no bytes, on each device on which the record's range lies in an area, erased.
        ensures holds { (g : Geometry) (told : Option (List ℕ)) (area : ℕ) → IsValid g
            → length rest.old ≡ g.prog
            → IsInArea g area at (record_size g.prog (length key.now) size)
            → ForSome told (λ image. IsErased image at (record_size g.prog (length key.now) size))
            → Holds g told rest.new result [] }
    {
        let bytes = key.as_slice();
        let front = Header {
            flags,
            key_size: bytes.len() as u16,
            value_size: size,
            crc: 0,
        };
        let whole = bytes.len() - bytes.len() % rest.len();
        copy_at(rest, 0, &bytes[whole..]);
        OpenSet {
            key: key.copied(),
            flags,
            size,
            fed: 0,
            at,
            crc: crc(crc_of_front(&front), bytes),
        }
    }

    /// Lends the key.
    pub fn key(&self) -> &Key
        ensures { result.now ≡ self.now.key }
    {
        &self.key
    }

    /// The flags: 0, 1 (write-once) or 2^31 (a remove).
    pub fn flags(&self) -> u32
        ensures { result ≡ self.now.flags }
    {
        self.flags
    }

    /// How many bytes the value will have.
    pub fn size(&self) -> u32
        ensures { result ≡ self.now.size }
    {
        self.size
    }

    /// How many of them came so far.
    pub fn fed(&self) -> u32
        ensures { result ≡ self.now.fed }
    {
        self.fed
    }

    /// Takes the next bytes of the value, at most as many as are still missing, and programs each
    /// unit that they complete; the first byte also programs the key's whole units, and no bytes
    /// program nothing. `WriteFault` comes only where the count of write faults rose, and leaves
    /// the set as it was. `rest` has one program unit, as the calls before left it.
    pub fn feed<F: Flash>(
        &mut self,
        flash: &mut F,
        bytes: &[u8],
        rest: &mut [u8],
    ) -> Result<(), KvError>
        requires placed { IsPlaced (F.state flash.old).geometry rest.old self.old }
        requires ahead { ForSome (F.state flash.old).image
            (λ image. IsAhead (F.state flash.old).geometry image self.old) }
        requires fits { self.old.fed + length bytes.now ≤ self.old.size }
        ensures set { OnOk result (self.new ≡ with_bytes self.old bytes.now) }
        ensures failed { OnErr result (self.new ≡ self.old) }
        ensures fault { IfErr result (λ e. e ≡ WriteFault) }
        ensures feeds { Feeds (F.state flash.old) (F.state flash.new) rest.old self.old bytes.now
            (kv_ended result) }
        // What it held it holds with the bytes behind it.
        ensures holds { (before : List ℕ)
            → Holds (F.state flash.old).geometry (F.state flash.old).image rest.old self.old before
            → OnOk result (Holds (F.state flash.new).geometry (F.state flash.new).image rest.new
            self.new (before ++ bytes.now)) }
    {
        if bytes.is_empty() {
            return Ok(());
        }
        match push_bytes(self, flash, bytes, rest) {
            Ok(()) => {
                self.fed += bytes.len() as u32;
                self.crc = crc(self.crc, bytes);
                Ok(())
            }
            Err(_) => Err(KvError::WriteFault),
        }
    }

    /// Programs what of the key and the value is not yet programmed, padded with 0xFF, and then the
    /// header in one call, once the whole value came. The answer is the place behind the record.
    /// `WriteFault` comes only where the count of write faults rose. `rest` has one program unit,
    /// as the calls before left it, and what it holds of the set stays.
    pub fn seal<F: Flash>(&mut self, flash: &mut F, rest: &mut [u8]) -> Result<u32, KvError>
        requires placed { IsPlaced (F.state flash.old).geometry rest.old self.old }
        requires ahead { ForSome (F.state flash.old).image
            (λ image. IsAhead (F.state flash.old).geometry image self.old) }
        requires whole { self.old.fed ≡ self.old.size }
        ensures end { IfOk result (λ end. end ≡ self.old.at
            + set_size (F.state flash.old).geometry.prog self.old) }
        ensures fault { IfErr result (λ e. e ≡ WriteFault) }
        ensures appends { Appends (F.state flash.old) (F.state flash.new) rest.old self.old
            (kv_ended result) }
        ensures set { self.new ≡ self.old }
        ensures held { take ((length self.old.key + self.old.fed) % length rest.old) rest.new
            ≡ take ((length self.old.key + self.old.fed) % length rest.old) rest.old }
        ensures len { length rest.new ≡ length rest.old }
    {
        let key_size = self.key.as_slice().len() as u32;
        let end = self.at + size_of_record(rest.len() as u32, key_size, self.size);
        match finish(self, flash, rest) {
            Ok(()) => Ok(end),
            Err(_) => Err(KvError::WriteFault),
        }
    }
}
