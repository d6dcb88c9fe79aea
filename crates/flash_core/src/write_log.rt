// The writes that a device in memory keeps.
ghost use Rattle.std.specs.Prelude.{◌≡◌, ◌≤◌, ◌<◌, ◌+◌, ◌↔◌, [], ◌∷◌, ◌++◌, length, vec_capacity, IsTrue, IfOk};
ghost use Rattle.flash_core.specs.WriteLog.{with_refusal, with_write};

use base_core::NoMemory;
use std::alloc::Global;
use std::marker::Model;

/// Where a write stood, and how many bytes it had.
#[derive(Clone, Copy, Debug, PartialEq, Eq)]
pub struct Range {
    pub place: u32,
    pub size: usize,
}

/// The writes of a device since its first image, each with its range and the bytes that it left
/// there.
#[derive(Drop)]
pub struct WriteLog {
    first: Vec<u8>,
    ranges: Vec<Range>,
    bytes: Vec<u8>,
    left: u32,
    faults: u64,
}

impl Model for WriteLog {
    ghost use Rattle.std.specs.Prelude.{◌≡◌, ◌≤◌, ◌+◌, length, vec_capacity};
    ghost use Rattle.flash_core.specs.WriteLog.{LogState, total, writes_of};

    ghost Value = { LogState };

    ghost view = { λ log. record {
      first = log.first.items;
      writes = writes_of log.ranges.items log.bytes.items;
      left = log.left;
      faults = log.faults;
    } };

    ghost invariant = { λ log. record {
      whole : total log.ranges.items ≡ length log.bytes.items;
      room_for_bytes : length log.bytes.items + log.left ≤ vec_capacity log.bytes;
      room_for_ranges : length log.ranges.items + log.left ≤ vec_capacity log.ranges;
    } };
}

// A push for which there is room.
fn push_range(ranges: &mut Vec<Range>, range: Range)
    requires { length ranges.old.items < vec_capacity ranges.old }
    ensures items { ranges.new.items ≡ ranges.old.items ++ range ∷ [] }
    ensures capacity { vec_capacity ranges.old ≤ vec_capacity ranges.new }
{
    let _ = ranges.push(range);
}

// Bytes behind others, for which there is room.
fn append(bytes: &mut Vec<u8>, more: &[u8])
    requires { length bytes.old.items + length more.now ≤ vec_capacity bytes.old }
    ensures items { bytes.new.items ≡ bytes.old.items ++ more.now }
    ensures capacity { vec_capacity bytes.old ≤ vec_capacity bytes.new }
{
    let _ = bytes.extend_from_slice(more);
}

impl WriteLog {
    /// An empty log with room for so many bytes of written ranges. It refuses for want of memory
    /// alone.
    pub fn new(alloc: Global, image: &[u8], room: u32) -> Result<WriteLog, NoMemory>
        ensures { IfOk result (λ log.
            log ≡ record { first = image.now; writes = []; left = room; faults = 0 }) }
    {
        Ok(WriteLog {
            first: image.to_vec(alloc)?,
            ranges: Vec::with_capacity(alloc, room as usize)?,
            bytes: Vec::with_capacity(alloc, room as usize)?,
            left: room,
            faults: 0,
        })
    }

    /// Whether a range of so many bytes has room.
    pub fn has_room(&self, size: usize) -> bool
        ensures { IsTrue result ↔ (size ≤ self.now.left) }
    {
        size <= self.left as usize
    }

    /// Keeps one write more. It takes no memory.
    pub fn keep(&mut self, place: u32, bytes: &[u8])
        requires some { 1 ≤ length bytes.now }
        requires room { length bytes.now ≤ self.old.left }
        ensures { self.new ≡ with_write self.old place bytes.now }
    {
        let size = bytes.len();
        push_range(&mut self.ranges, Range { place, size });
        append(&mut self.bytes, bytes);
        self.left -= size as u32;
    }

    /// Counts a write that found no room.
    pub fn refuse(&mut self)
        ensures { self.new ≡ with_refusal self.old }
    {
        self.faults = self.faults.saturating_add(1);
    }
}
