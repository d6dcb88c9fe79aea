//! A real file replaced whole: a neighbour file is written and takes its name.
ghost use Rattle.std.specs.Prelude.{◌≡◌, ◌+◌, ◌++◌, ◌≤◌, ◌↔◌, length, codes, IsOk, IfOk, OnOk, IfErr};
ghost use Rattle.std.specs.Io.KnownBytes.{Appends};

use crate::interface::HostFault;
use crate::whole::{done, opened, write_at_once};
use arrayvec::ArrayString;
use std::fs::{self, OpenFile, OpenOptions, Permissions};
use std::io::Write;
use std::rt::Files;

/// How many bytes the system takes as a path, with the zero byte behind it.
const PATH_ROOM: usize = 4096;

/// The name of the neighbour that is written in place of a file: the file's, and an ending.
fn neighbour_of(name: &str) -> Result<ArrayString<PATH_ROOM>, HostFault>
    ensures fits { IsOk result ↔ (length name.now + 13 ≤ 4096) }
    ensures name { IfOk result (λ it. it.bytes ≡ name.now ++ codes ".vaskeldi-new") }
    ensures refused { IfErr result (λ e. e ≡ HostFault.Fault) }
{
    let Ok(mut neighbour) = ArrayString::from(name) else {
        return Err(HostFault::Fault);
    };
    match neighbour.try_push_str(".vaskeldi-new") {
        Ok(()) => Ok(neighbour),
        Err(_) => Err(HostFault::Fault),
    }
}

/// The folder that a name stands in.
fn folder_of(name: &str) -> &str {
    match name.rsplit_once('/') {
        Some(("", _)) => "/",
        Some((folder, _)) => folder,
        None => ".",
    }
}

/// The permissions of the file that is to be replaced, where there is one. It must be a plain file
/// that may be written.
fn permissions_of<R: Files>(rt: &R, name: &str) -> Result<Option<Permissions>, HostFault>
    ensures { IfErr result (λ e. e ≡ HostFault.Fault) }
{
    let found = match opened(fs::metadata(rt, name)) {
        Ok(found) => found,
        Err(HostFault::Absent) => return Ok(None),
        Err(_) => return Err(HostFault::Fault),
    };
    if !found.is_file() {
        return Err(HostFault::Fault);
    }
    done(OpenOptions::new().write(true).open(rt, name))?;
    Ok(Some(found.permissions()))
}

/// Writes a new file whole, under these permissions from its first byte on, and syncs it.
fn fill<F: Write + OpenFile>(
    file: &mut F,
    permissions: Option<Permissions>,
    bytes: &[u8],
) -> Result<(), HostFault>
    ensures whole { OnOk result (Appends (F.contents file.old) (F.contents file.new) bytes.now) }
    ensures refused { IfErr result (λ e. e ≡ HostFault.Fault) }
{
    if let Some(permissions) = permissions {
        done(file.set_permissions(permissions))?;
    }
    write_at_once(file, bytes)?;
    done(file.sync_all())
}

/// Writes the neighbour and gives it the name. It is removed where that fails.
fn write_and_rename<R: Files>(
    rt: &R,
    neighbour: &str,
    name: &str,
    permissions: Option<Permissions>,
    bytes: &[u8],
) -> Result<(), HostFault>
    ensures { IfErr result (λ e. e ≡ HostFault.Fault) }
{
    let mut file = done(fs::File::create_new(rt, neighbour))?;
    let answer = match fill(&mut file, permissions, bytes) {
        Ok(()) => done(fs::rename(rt, neighbour, name)),
        Err(refusal) => Err(refusal),
    };
    if answer.is_err() {
        let _ = fs::remove_file(rt, neighbour);
    }
    answer
}

/// Replaces a file by one with these bytes, or makes it. At each moment the name stands for the old
/// file or for the new one.
///
/// # Errors
/// `Fault` alone. The old file then stands, but where only the folder could not be synced.
pub(crate) fn replace<R: Files>(rt: &R, name: &str, bytes: &[u8]) -> Result<(), HostFault>
    ensures { IfErr result (λ e. e ≡ HostFault.Fault) }
{
    let neighbour = neighbour_of(name)?;
    let permissions = permissions_of(rt, name)?;
    let folder = done(fs::open(rt, folder_of(name)))?;
    // One that a crash left behind, which may not be writable.
    let _ = fs::remove_file(rt, neighbour.as_str());
    write_and_rename(rt, neighbour.as_str(), name, permissions, bytes)?;
    done(folder.sync_all())
}
