//! A host in memory, which tells its contents and can be made to fail.
ghost use Rattle.std.specs.Prelude.{◌≡◌, ◌≢◌, ℕ, ◌≤◌, ◌<◌, ◌↔◌, [], take, Option, Some, Err, true, false, if◌then◌else◌, IsOk, IsErr, IsTrue, IfOk, IfErr, OnOk, OnErr, ◌+◌, length, vec_len, vec_capacity, IfSome};
ghost use Rattle.std.specs.Option.{option_copied, option_map};
ghost use Rattle.std.specs.FinMap as map;
ghost use Rattle.kv_host.specs.Contents.{HostContents, file_at, with_file, with_printed};
ghost use Rattle.base_core.specs.Counts.{Rose};
ghost use Rattle.kv_host.specs.Refusal.{IsLengthRefusal, ReadRefusal};
ghost use Rattle.kv_host.specs.Table.{IsReserved};
ghost use Rattle.kv_host.specs.MemState.{IsCalm, MemState, CanStore, called, faulted, fails_next, new_state, shown, stored};

use crate::count::counted_up;
use crate::interface::{Host, HostFault};
use crate::place::{store, stored};
use crate::table::{Entry, NAME_LENGTH, NAMES};
use std::alloc::{AllocError, Global};
use std::marker::Model;

/// A host that keeps its files and its printed bytes in memory that it takes once, in `new`.
///
/// It makes the calls fail whose numbers are listed: the calls of `read_file`, `write_file` and
/// `print` are counted together, from 1. A call that fails changes nothing but the counts.
#[derive(Drop)]
pub struct MemHost {
    arena: Vec<u8>,
    entries: Vec<Entry>,
    printed: Vec<u8>,
    left: usize,
    faults: u64,
    calls: u64,
    failing: Vec<u32>,
}

impl Model for MemHost {
    ghost use Rattle.kv_host.specs.MemState.{MemState, state_code};

    ghost Value = { MemState };

    ghost coded = { state_code };

    ghost use Rattle.kv_host.specs.MemView.{state_of, IsSound};

    ghost view = { state_of };

    ghost invariant = { IsSound };
}

impl MemHost {
    /// A host with no files and nothing printed, which fails at the calls of these numbers. It
    /// takes all its memory here: `room` bytes for whatever is stored and printed, and a table of
    /// 8 names of at most 64 bytes.
    ///
    /// # Errors
    /// `Memory` alone, where memory ran out.
    pub fn new(alloc: Global, failing: Vec<u32>, room: u32) -> Result<MemHost, HostFault>
        ensures made { IfOk result (λ host. host ≡ new_state failing.items room) }
        ensures calm { failing.items ≡ [] → IfOk result (λ host. IsCalm host 8 room) }
        ensures refused { IfErr result (λ e. e ≡ HostFault.Memory) }
    {
        match reserved(alloc, room) {
            Ok((arena, entries, printed)) => Ok(MemHost {
                arena,
                entries,
                printed,
                left: room as usize,
                faults: 0,
                calls: 0,
                failing,
            }),
            Err(AllocError) => Err(HostFault::Memory),
        }
    }

    /// The bytes of a file.
    pub fn file(&self, name: &str) -> Option<&[u8]>
        ensures { option_copied result ≡ file_at name.now self.now.contents }
    {
        stored(&self.entries, &self.arena, name.as_bytes())
    }

    /// What was printed.
    pub fn printed(&self) -> &[u8]
        ensures { result.now ≡ self.now.contents.printed }
    {
        &self.printed
    }

    /// Stores a file as `write_file` does, and is not counted among the calls.
    ///
    /// # Errors
    /// `Fault` alone, exactly where the name is longer than 64 bytes, the room that is left is less
    /// than the bytes, or 8 other names are there; the count of faults then rises.
    pub fn put_file(&mut self, name: &str, bytes: &[u8]) -> Result<(), HostFault>
        ensures taken { IsOk result ↔ CanStore self.old name.now bytes.now }
        ensures stored { OnOk result (self.new ≡ stored self.old name.now bytes.now) }
        ensures refused { IfErr result (λ e. e ≡ HostFault.Fault) }
        ensures faulted { OnErr result (self.new ≡ faulted self.old) }
    {
        if bytes.len() <= self.left
            && name.len() <= NAME_LENGTH
            && store(&mut self.entries, &mut self.arena, name.as_bytes(), bytes)
        {
            self.left -= bytes.len();
            return Ok(());
        }
        Err(self.fault())
    }
}

impl MemHost {
    /// Counts a call, and answers whether it is one that is to fail.
    fn next_call_fails(&mut self) -> bool
        ensures answer { result ≡ fails_next self.old }
        ensures counted { self.new ≡ called self.old }
    {
        self.calls = counted_up(self.calls);
        let number = self.calls;
        self.failing
            .iter()
            .any(|listed| u64::from(*listed) == number)
    }

    /// Counts a fault.
    fn fault(&mut self) -> HostFault
        ensures answer { result ≡ HostFault.Fault }
        ensures counted { self.new ≡ faulted self.old }
    {
        self.faults = counted_up(self.faults);
        HostFault::Fault
    }

    /// Prints bytes where there is room for them.
    fn append(&mut self, bytes: &[u8]) -> Result<(), HostFault>
        ensures taken { IsOk result ↔ (length bytes.now ≤ self.old.left) }
        ensures shown { OnOk result (self.new ≡ shown self.old bytes.now) }
        ensures refused { IfErr result (λ e. e ≡ HostFault.Fault) }
        ensures faulted { OnErr result (self.new ≡ faulted self.old) }
    {
        if bytes.len() > self.left {
            return Err(self.fault());
        }
        let _ = self.printed.extend_from_slice(bytes);
        self.left -= bytes.len();
        Ok(())
    }
}

/// The buffers of a host: for names and files, for the table, and for what is printed.
fn reserved(alloc: Global, room: u32) -> Result<(Vec<u8>, Vec<Entry>, Vec<u8>), AllocError>
    ensures arena { IfOk result (λ b. IsReserved b.0 (room + 512)) }
    ensures entries { IfOk result (λ b. IsReserved b.1 8) }
    ensures printed { IfOk result (λ b. IsReserved b.2 room) }
{
    let room = room as usize;
    let arena = Vec::with_capacity(alloc, room + NAMES * NAME_LENGTH)?;
    let entries = Vec::with_capacity(alloc, NAMES)?;
    let printed = Vec::with_capacity(alloc, room)?;
    Ok((arena, entries, printed))
}

/// Copies the bytes to `out`, which is empty, where they are at most `limit`.
fn copy_limited(bytes: &[u8], limit: u32, out: &mut Vec<u8>) -> Result<(), HostFault>
    requires { out.old.items ≡ [] }
    ensures copied { OnOk result ((out.new.items ≡ bytes.now) × (length bytes.now ≤ limit)) }
    ensures empty { OnErr result (out.new.items ≡ []) }
    ensures refused { IfErr result (λ e. IsLengthRefusal (length bytes.now) limit e) }
{
    if bytes.len() > limit as usize {
        return Err(HostFault::TooLong {
            length: bytes.len() as u64,
        });
    }
    match out.extend_from_slice(bytes) {
        Ok(()) => Ok(()),
        Err(AllocError) => Err(HostFault::Memory),
    }
}

impl Host for MemHost {
    ghost faults = { λ s. s.faults };

    ghost contents = { λ s. Some s.contents };

    ghost is_calm = { IsCalm };

    fn read_file(&mut self, name: &str, limit: u32, out: &mut Vec<u8>) -> Result<(), HostFault>
        ensures state { self.new ≡ (if fails_next self.old then faulted (called self.old) else
            called self.old) }
        ensures calm { (names bytes : ℕ) → IsCalm self.old names bytes
            → (result ≢ Err HostFault.Fault) × IsCalm self.new names bytes }
        ensures failing { (result ≡ Err HostFault.Fault) ↔ (fails_next self.old ≡ true) }
        ensures within { OnOk result (vec_len out.new ≤ limit) }
        ensures read { OnOk result (file_at name.now self.old.contents ≡ Some out.new.items) }
        ensures empty { OnErr result (out.new.items ≡ []) }
        ensures refused { IfErr result
            (ReadRefusal (Some self.old.contents) name.now limit self.old.faults self.new.faults) }
    {
        out.clear();
        if self.next_call_fails() {
            return Err(self.fault());
        }
        match self.file(name) {
            Some(bytes) => copy_limited(bytes, limit, out),
            None => Err(HostFault::Absent),
        }
    }

    fn write_file(&mut self, name: &str, bytes: &[u8]) -> Result<(), HostFault>
        ensures calm { (names room fewer less : ℕ) → IsCalm self.old names room → fewer + 1 ≤ names
            → less + length bytes.now ≤ room →
            length name.now ≤ 64 → IsOk result × IsCalm self.new fewer less }
        ensures taken { IsOk result ↔ ((fails_next self.old ≡ false)
            × CanStore self.old name.now bytes.now) }
        ensures stored { OnOk result (self.new ≡ stored (called self.old) name.now bytes.now) }
        ensures refused { IfErr result (λ e. e ≡ HostFault.Fault) }
        ensures faulted { OnErr result (self.new ≡ faulted (called self.old)) }
    {
        let listed = self.next_call_fails();
        if listed {
            return Err(self.fault());
        }
        self.put_file(name, bytes)
    }

    fn print(&mut self, bytes: &[u8]) -> Result<(), HostFault>
        ensures calm { (names room less : ℕ) → IsCalm self.old names room
            → less + length bytes.now ≤ room → IsOk result × IsCalm self.new names less }
        ensures taken { IsOk result ↔ ((fails_next self.old ≡ false)
            × (length bytes.now ≤ self.old.left)) }
        ensures shown { OnOk result (self.new ≡ shown (called self.old) bytes.now) }
        ensures refused { IfErr result (λ e. e ≡ HostFault.Fault) }
        ensures faulted { OnErr result (self.new ≡ faulted (called self.old)) }
    {
        if self.next_call_fails() {
            return Err(self.fault());
        }
        self.append(bytes)
    }
}
