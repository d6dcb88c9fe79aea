//! Reading a source up to a limit, writing a sink whole, and what the system's refusals mean.
ghost use Rattle.std.specs.Prelude.{◌≡◌, ◌↔◌, ◌≤◌, [], Ok, Err, OnOk, OnErr, IfErr, IfSome, MatchResult, vec_len};
ghost use Rattle.std.specs.Io.KnownBytes.{Appends};
ghost use Rattle.std.specs.IoError.{error_kind};
ghost use Rattle.kv_host.specs.Refusal.{IsOpenRefusal, IsReadRefusal, IsSourceRefusal};

use crate::interface::HostFault;
use std::io::{self, ErrorKind, Read, Write};

/// Why a file could not be opened: it is absent only where the system says that there is none.
pub(crate) fn open_refusal(kind: ErrorKind) -> HostFault
    ensures { IsOpenRefusal kind result }
{
    if kind == ErrorKind::NotFound {
        HostFault::Absent
    } else {
        HostFault::Fault
    }
}

/// Why a source could not be read: for want of memory only where the system says so.
fn read_refusal(kind: ErrorKind) -> HostFault
    ensures { IsReadRefusal kind result }
{
    if kind == ErrorKind::OutOfMemory {
        HostFault::Memory
    } else {
        HostFault::Fault
    }
}

/// What was opened, or why it was not.
pub(crate) fn opened<T>(answer: io::Result<T>) -> Result<T, HostFault>
    ensures { MatchResult answer (λ it. result ≡ Ok it)
        (λ error. IfErr result (IsOpenRefusal (error_kind error))) }
{
    match answer {
        Ok(it) => Ok(it),
        Err(error) => Err(open_refusal(error.kind())),
    }
}

/// What was done; whatever the system refuses is a fault.
pub(crate) fn done<T>(answer: io::Result<T>) -> Result<T, HostFault>
    ensures { MatchResult answer (λ value. result ≡ Ok value) (λ _. result ≡ Err HostFault.Fault) }
{
    match answer {
        Ok(value) => Ok(value),
        Err(_) => Err(HostFault::Fault),
    }
}

/// Reads all that a source has left into `out`, which is empty, where that is at most `limit`
/// bytes. Of more it reads one byte past the limit.
///
/// # Errors
/// `TooLong` where the source has more; `Memory` where memory ran out; `Fault` where a read failed.
/// `out` is then empty.
pub(crate) fn read_up_to<R: Read + Drop>(
    source: R,
    limit: u32,
    out: &mut Vec<u8>,
) -> Result<(), HostFault>
    requires { out.old.items ≡ [] }
    ensures within { OnOk result (vec_len out.new ≤ limit) }
    ensures whole { OnOk result (IfSome (R.remaining source) (λ bytes. out.new.items ≡ bytes)) }
    ensures empty { OnErr result (out.new.items ≡ []) }
    ensures refused { IfErr result (IsSourceRefusal (R.remaining source) limit) }
{
    let read = source.take(u64::from(limit) + 1).read_to_end(out);
    let length = out.len() as u64;
    let refusal = match read {
        Ok(_) if length <= u64::from(limit) => return Ok(()),
        Ok(_) => HostFault::TooLong { length },
        Err(error) => read_refusal(error.kind()),
    };
    out.clear();
    Err(refusal)
}

/// Writes all the bytes behind those that a sink holds.
///
/// # Errors
/// `Fault` alone, where a write failed; a front part of the bytes may then be written.
pub(crate) fn write_whole<W: Write>(sink: &mut W, bytes: &[u8]) -> Result<(), HostFault>
    ensures whole { OnOk result (Appends (W.contents sink.old) (W.contents sink.new) bytes.now) }
    ensures refused { IfErr result (λ e. e ≡ HostFault.Fault) }
{
    done(sink.write_all(bytes))
}

/// Writes all the bytes behind those that a sink holds, in one call. A file takes fewer only where
/// it may grow no further. Then there is no second call, at which the system would end the program.
///
/// # Errors
/// `Fault` alone, where the write failed or took fewer.
pub(crate) fn write_at_once<W: Write>(sink: &mut W, bytes: &[u8]) -> Result<(), HostFault>
    ensures whole { OnOk result (Appends (W.contents sink.old) (W.contents sink.new) bytes.now) }
    ensures refused { IfErr result (λ e. e ≡ HostFault.Fault) }
{
    match sink.write(bytes) {
        Ok(count) if count == bytes.len() => Ok(()),
        Ok(_) | Err(_) => Err(HostFault::Fault),
    }
}
