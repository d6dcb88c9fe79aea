// The value of a record, read back from an area.
ghost use Rattle.std.specs.Prelude.{◌≡◌, ◌⊎◌, ◌+◌, ◌-◌, ◌<◌, ◌≤◌, length, replicate, IfOk, IfErr, OnErr};
ghost use Rattle.flash_core.specs.Calls.{OnlyReads};
ghost use Rattle.flash_core.specs.Runs.{IsCounted};
ghost use Rattle.flash_core.specs.Sizes.{IsValid as IsValidGeometry, size_of};
ghost use Rattle.record_core.specs.Endings.{kv_ended};
ghost use Rattle.record_core.specs.Header.{IsValid};
ghost use Rattle.record_core.specs.Lookup.{IsReadFault, KeyedSeen};
ghost use Rattle.area_log.specs.Areas.{CanWork, end_of, IsAreaOf, IsRange};
ghost use Rattle.area_log.specs.Checked.{ChecksWrong, GivesChecked, IsBegun, IsTooFar, Passes};
ghost use Rattle.area_log.specs.Reading.{IsWithin, ReadsValue};

use crate::Area;
use flash_core::Flash;
use kv_model::{Flags, Got, Key, KvError};
use record_core::{
    HEADER_SIZE, Header, crc, crc_of_front, crc_of_piece, crc_of_range, padded_size, read_header_at,
};

/// A header that was read, and where it stands.
#[derive(Clone, Copy, Debug, PartialEq, Eq)]
pub struct PlacedHeader {
    pub at: u32,
    pub header: Header,
}

// Reads the value's bytes from `skipped` on into the whole of `out`, and checks the CRC of the
// whole record, whose payload begins at `place`; `start` is the CRC of what stands before the
// value. Each byte of the value is read once.
fn read_checked<F: Flash>(
    flash: &mut F,
    place: u32,
    start: u32,
    header: &Header,
    skipped: u32,
    out: &mut [u8],
    work: &mut [u8],
) -> Result<(), KvError>
    requires header { IsValid header.now }
    requires begun { IsBegun (F.state flash.old) place header.now start }
    requires inside { place + (header.now.key_size + header.now.value_size)
        ≤ size_of (F.state flash.old).geometry }
    requires limit { size_of (F.state flash.old).geometry ≤ 16777216 }
    requires some { 1 ≤ length work.old }
    requires within { skipped + length out.old ≤ header.now.value_size }
    ensures reads { OnlyReads (F.state flash.old) (F.state flash.new) }
    ensures counts { IsCounted (F.state flash.old) (F.state flash.new) (kv_ended result) }
    ensures cause { IfErr result (λ e. IsReadFault (F.state flash.old) (F.state flash.new) e
        ⊎ ChecksWrong (F.state flash.old) place header.now e) }
    ensures right { IfOk result (λ _. Passes (F.state flash.old) place header.now skipped out.new) }
{
    let value = place + u32::from(header.key_size);
    let read = out.len() as u32;
    let behind = header.value_size - skipped - read;
    let before = crc_of_range(flash, value, skipped, start, work)?;
    let through = crc_of_piece(flash, value + skipped, before, out)?;
    let computed = crc_of_range(flash, value + skipped + read, behind, through, work)?;
    if computed != header.crc {
        return Err(KvError::Corrupt {
            stored: header.crc,
            computed,
        });
    }
    Ok(())
}

// Reads as much of the value from the offset on as there is and fits, once the record's CRC was
// found right. Its payload begins at `place`; `start` is the CRC of what stands before the value.
fn read_value<F: Flash>(
    flash: &mut F,
    place: u32,
    start: u32,
    header: &Header,
    offset: u32,
    buf: &mut [u8],
    work: &mut [u8],
) -> Result<Got, KvError>
    requires header { IsValid header.now }
    requires begun { IsBegun (F.state flash.old) place header.now start }
    requires inside { place + (header.now.key_size + header.now.value_size)
        ≤ size_of (F.state flash.old).geometry }
    requires limit { size_of (F.state flash.old).geometry ≤ 16777216 }
    requires some { 1 ≤ length work.old }
    requires zeros { buf.old ≡ replicate (length buf.old) 0 }
    ensures reads { OnlyReads (F.state flash.old) (F.state flash.new) }
    ensures counts { IsCounted (F.state flash.old) (F.state flash.new) (kv_ended result) }
    ensures cause { IfErr result (λ e. IsReadFault (F.state flash.old) (F.state flash.new) e
        ⊎ (ChecksWrong (F.state flash.old) place header.now e
        ⊎ IsTooFar (F.state flash.old) place header.now offset e)) }
    ensures gives { IfOk result (GivesChecked (F.state flash.old) place header.now offset buf.new) }
{
    let size = header.value_size;
    let skipped = offset.min(size);
    let read = buf.len().min((size - skipped) as usize);
    read_checked(flash, place, start, header, skipped, &mut buf[..read], work)?;
    if offset > size {
        return Err(KvError::InvalidSize);
    }
    Ok(Got {
        flags: Flags { bits: header.flags },
        size,
        read: read as u32,
    })
}

// As `read_value`, with zeros in the buffer after a refusal.
fn read_or_zeros<F: Flash>(
    flash: &mut F,
    place: u32,
    start: u32,
    header: &Header,
    offset: u32,
    buf: &mut [u8],
    work: &mut [u8],
) -> Result<Got, KvError>
    requires header { IsValid header.now }
    requires begun { IsBegun (F.state flash.old) place header.now start }
    requires inside { place + (header.now.key_size + header.now.value_size)
        ≤ size_of (F.state flash.old).geometry }
    requires limit { size_of (F.state flash.old).geometry ≤ 16777216 }
    requires some { 1 ≤ length work.old }
    requires zeros { buf.old ≡ replicate (length buf.old) 0 }
    ensures reads { OnlyReads (F.state flash.old) (F.state flash.new) }
    ensures counts { IsCounted (F.state flash.old) (F.state flash.new) (kv_ended result) }
    ensures cause { IfErr result (λ e. IsReadFault (F.state flash.old) (F.state flash.new) e
        ⊎ (ChecksWrong (F.state flash.old) place header.now e
        ⊎ IsTooFar (F.state flash.old) place header.now offset e)) }
    ensures gives { IfOk result (GivesChecked (F.state flash.old) place header.now offset buf.new) }
    ensures zeros { OnErr result (buf.new ≡ replicate (length buf.old) 0) }
{
    match read_value(flash, place, start, header, offset, buf, work) {
        Ok(got) => Ok(got),
        Err(error) => {
            buf.fill(0);
            Err(error)
        }
    }
}

impl Area {
    /// Reads the value of the record at `at` from `offset` on into `buf`, as many bytes as there
    /// are and fit, with zeros behind them. The answer has the flags, the size of the whole value,
    /// and how many bytes were read. After a refusal each byte of `buf` is 0. Nothing is asked of
    /// the bytes at `at`.
    ///
    /// `Corrupt` comes exactly where the header breaks a rule or its record would end behind the
    /// area, with the CRC that stands there and its complement, and where the CRC isn't that of the
    /// record, with the one that stands there and the one of what was read. `InvalidSize` comes
    /// exactly where the CRC is right and the offset is above the size of the value. The bytes that
    /// are given are those whose CRC was checked. `ReadFault` comes exactly where the count of read
    /// faults rose, and on no steady device. The header at `at` lies in the area, and `work` has at
    /// least 64 bytes and at least a program unit.
    pub fn read_at<F: Flash>(
        &self,
        flash: &mut F,
        at: u32,
        offset: u32,
        buf: &mut [u8],
        work: &mut [u8],
    ) -> Result<Got, KvError>
        requires can { CanWork (F.state flash.old).geometry self.now work.old }
        requires inside { IsRange self.now at 24 }

        ensures reads { OnlyReads (F.state flash.old) (F.state flash.new) }
        ensures counts { IsCounted (F.state flash.old) (F.state flash.new) (kv_ended result) }
        ensures answer { ReadsValue (F.state flash.old) (F.state flash.new) at
            (end_of self.now - at)
            offset buf.new result }
        ensures within { IfOk result (IsWithin offset (length buf.old)) }
        ensures zeros { OnErr result (buf.new ≡ replicate (length buf.old) 0) }
    {
        buf.fill(0);
        let header = read_header_at(flash, at, self.base + self.size)?;
        let place = at + padded_size(flash.geometry().prog, HEADER_SIZE);
        let front = crc_of_front(&header);
        let start = crc_of_range(flash, place, u32::from(header.key_size), front, work)?;
        read_or_zeros(flash, place, start, &header, offset, buf, work)
    }

    /// Reads the value of a record from `offset` on, as `read_at` does, where its header and its
    /// key were read before: neither is read again, and the value is read once, its bytes straight
    /// into `buf`. The CRC that is checked is that of the header and the key as they are given, and
    /// of the value as it is read.
    pub fn read_behind<F: Flash>(
        &self,
        flash: &mut F,
        head: &PlacedHeader,
        key: &Key,
        offset: u32,
        buf: &mut [u8],
        work: &mut [u8],
    ) -> Result<Got, KvError>
        requires can { CanWork (F.state flash.old).geometry self.now work.old }
        requires inside { IsRange self.now head.now.at 24 }
        requires seen { KeyedSeen (F.state flash.old) head.now.at (end_of self.now - head.now.at)
            head.now.header key.now }

        ensures reads { OnlyReads (F.state flash.old) (F.state flash.new) }
        ensures counts { IsCounted (F.state flash.old) (F.state flash.new) (kv_ended result) }
        ensures answer { ReadsValue (F.state flash.old) (F.state flash.new) head.now.at
            (end_of self.now - head.now.at)
            offset buf.new result }
        ensures within { IfOk result (IsWithin offset (length buf.old)) }
        ensures zeros { OnErr result (buf.new ≡ replicate (length buf.old) 0) }
    {
        buf.fill(0);
        let place = head.at + padded_size(flash.geometry().prog, HEADER_SIZE);
        let start = crc(crc_of_front(&head.header), key.as_slice());
        read_or_zeros(flash, place, start, &head.header, offset, buf, work)
    }
}
