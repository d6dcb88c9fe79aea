// What a replay reads before it begins.
ghost use Rattle.std.specs.Prelude.{◌≡◌, ◌≢◌, ◌≤◌, ◌<◌, ◌+◌, ◌^◌, ℕ, All, Err, IfErr, IfOk, IfSome};
ghost use Rattle.std.specs.Prelude.{MatchResult, length};
ghost use Rattle.flash_core.specs.Sizes.{IsValid, size_of};
ghost use Rattle.script_core.specs.Grammar.{CutsNoRollback, IsScript};
ghost use Rattle.script_core.specs.declared.line.Line.{Line};
ghost use Rattle.kv_cli.specs.Asked.{asked_in};
ghost use Rattle.kv_cli.specs.Inputs.{HasImage, HasScript, IsReadable, plain_replay};
ghost use Rattle.kv_cli.specs.Outcomes.{AreRead, StopsAtFile, StopsAtImage, StopsAtScript};
ghost use Rattle.kv_cli.specs.Outcomes.{StopsAtSize, StopsAtText, StopsFor, around, stop_of};
ghost use Rattle.kv_cli.specs.Refusals.{limit_of};

use crate::refusal::{File, Refusal};
use crate::stop::Stop;
use command_words::Session as Asked;
use flash_core::Geometry;
use kv_host::{Host, HostFault};
use script_core::{Script, ScriptError, ScriptMode, parse_script};
use std::alloc::Global;

const PLAIN_REPLAY: ScriptMode = ScriptMode {
    threads: false,
    secure: false,
};

/// A script, and an image of the size of its geometry.
#[derive(Drop)]
pub struct Inputs {
    pub script: Script,
    pub image: Vec<u8>,
}

fn stop_of(file: File, fault: HostFault) -> Stop
    ensures { result ≡ stop_of file fault }
{
    let refusal = match fault {
        HostFault::Fault => return Stop::Fault,
        HostFault::Memory => return Stop::Memory,
        HostFault::TooLong { .. } => Refusal::TooLong { file },
        HostFault::Absent => Refusal::Absent { file },
    };
    Stop::Refused { refusal }
}

// The bytes of a file.
fn read<H: Host>(alloc: Global, host: &mut H, file: File, name: &str) -> Result<Vec<u8>, Stop>
    ensures count { H.faults host.old ≤ H.faults host.new }
    ensures stands { H.contents host.new ≡ H.contents host.old }
    ensures within { IfOk result (λ bytes. length bytes.items ≤ limit_of file) }
    ensures read { IfOk result (λ bytes. IfSome (H.contents host.old) (λ c.
        IsReadable (limit_of file) name.now c bytes.items)) }
    ensures stops { IfErr result
        (StopsAtFile file name.now (around H.contents H.faults host.old host.new)) }
    ensures calm { (names room : ℕ) → H.is_calm host.old names room
        → (result ≢ Err Stop.Fault) × H.is_calm host.new names room }
{
    let mut bytes = Vec::new(alloc);
    match host.read_file(name, file.limit(), &mut bytes) {
        Ok(()) => Ok(bytes),
        Err(fault) => Err(stop_of(file, fault)),
    }
}

// The script that a text is; where it is none, the line that is to blame.
fn script_of(alloc: Global, bytes: &[u8]) -> Result<Script, Stop>
    requires { length bytes.now + 1 < 2 ^ 32 }
    ensures { MatchResult result (IsScript plain_replay bytes.now) (StopsAtText bytes.now) }
{
    match parse_script(alloc, bytes, PLAIN_REPLAY) {
        Ok(script) => Ok(script),
        Err(ScriptError::BadLine { line } | ScriptError::TooManyCalls { line }) => {
            Err(Stop::Refused {
                refusal: Refusal::BadLine { line },
            })
        }
        Err(ScriptError::Memory) => Err(Stop::Memory),
    }
}

fn read_script<H: Host>(alloc: Global, host: &mut H, name: &str) -> Result<Script, Stop>
    ensures count { H.faults host.old ≤ H.faults host.new }
    ensures stands { H.contents host.new ≡ H.contents host.old }
    ensures primary { IfOk result (All (λ (line : Line). CutsNoRollback line.act)) }
    ensures read { IfOk result (λ lines. IfSome (H.contents host.old) (λ c.
        HasScript name.now c lines)) }
    ensures stops { IfErr result
        (StopsAtScript name.now (around H.contents H.faults host.old host.new)) }
    ensures calm { (names room : ℕ) → H.is_calm host.old names room
        → (result ≢ Err Stop.Fault) × H.is_calm host.new names room }
{
    let bytes = read(alloc, host, File::Script, name)?;
    script_of(alloc, &bytes)
}

/// The bytes of both areas.
pub fn size_of(geometry: Geometry) -> usize
    requires { IsValid geometry }
    ensures { result ≡ size_of geometry }
{
    2 * geometry.units_per_area as usize * geometry.erase as usize
}

// The image, where it has the size of its geometry.
fn sized(geometry: Geometry, image: Vec<u8>) -> Result<Vec<u8>, Stop>
    requires { IsValid geometry }
    ensures { MatchResult result
        (λ same. (same ≡ image) × (length image.items ≡ size_of geometry))
        (StopsAtSize geometry image.items) }
{
    if image.len() == size_of(geometry) {
        return Ok(image);
    }
    Err(Stop::Refused {
        refusal: Refusal::WrongSize { size: image.len() },
    })
}

fn read_image<H: Host>(alloc: Global, host: &mut H, asked: Asked<'_>) -> Result<Vec<u8>, Stop>
    requires { IsValid asked.geometry }
    ensures count { H.faults host.old ≤ H.faults host.new }
    ensures stands { H.contents host.new ≡ H.contents host.old }
    ensures sized { IfOk result (λ image. length image.items ≡ size_of asked.entry.geometry) }
    ensures read { IfOk result (λ image. IfSome (H.contents host.old) (λ c.
        HasImage (asked_in asked.entry) c image.items)) }
    ensures stops { IfErr result
        (StopsAtImage (asked_in asked.entry) (around H.contents H.faults host.old host.new)) }
    ensures calm { (names room : ℕ) → H.is_calm host.old names room
        → (result ≢ Err Stop.Fault) × H.is_calm host.new names room }
{
    let image = read(alloc, host, File::Primary, asked.names.primary)?;
    sized(asked.geometry, image)
}

/// Reads the script that the words name, and then the image. Nothing is printed and no file is
/// written.
///
/// # Errors
/// `Refused` with the first thing that is wrong with the files: the script absent, longer than
/// 2,097,152 bytes, or with a bad line; the image absent, longer than 16,777,216 bytes, or not of
/// the size of its geometry. `Fault` where the host's count of faults rose; `Memory` where memory
/// ran out.
pub fn read_inputs<H: Host>(alloc: Global, host: &mut H, asked: Asked<'_>) -> Result<Inputs, Stop>
    requires { IsValid asked.geometry }
    ensures count { H.faults host.old ≤ H.faults host.new }
    ensures stands { H.contents host.new ≡ H.contents host.old }
    ensures primary { IfOk result (λ inputs.
        All (λ (line : Line). CutsNoRollback line.act) inputs.script) }
    ensures sized { IfOk result (λ inputs.
        length inputs.image.items ≡ size_of asked.entry.geometry) }
    ensures read { IfOk result (λ inputs. AreRead (asked_in asked.entry) (H.contents host.old)
        inputs.script inputs.image.items) }
    ensures stops { IfErr result
        (StopsFor (asked_in asked.entry) (around H.contents H.faults host.old host.new)) }
    ensures calm { (names room : ℕ) → H.is_calm host.old names room
        → (result ≢ Err Stop.Fault) × H.is_calm host.new names room }
{
    let script = read_script(alloc, host, asked.names.script)?;
    let image = read_image(alloc, host, asked)?;
    Ok(Inputs { script, image })
}
