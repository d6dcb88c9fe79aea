// Sealed records over two pieces of a value.
ghost use Rattle.std.specs.Prelude.{◌≡◌, ◌++◌, ◌+◌, ◌<◌, ◌≤◌, ◌^◌, ℕ, List, [], length, Option};
ghost use Rattle.secure_record.specs.Sealed.{opened, seal, sealed_metadata, sealed_vector, stored};
ghost use Rattle.secure_record.specs.Streams.{HasOpened, HasSealed};
ghost use Rattle.secure_record.specs.Unseal.{unseal};
ghost use Rattle.secure_record.specs.declared.metadata.Metadata.{Metadata};
ghost use Rattle.cipher_check.specs.Opening.{Gives};

use kv_model::{Flags, Key, KvError};
use secure_record::{OpenStream, SealStream};

/// What a record is sealed with, beside its value.
#[derive(Drop)]
pub struct Sealing<'a> {
    pub root: &'a [u8; 16],
    pub key: &'a Key,
    pub flags: Flags,
    pub iv: u64,
    pub prior: Option<[u8; 16]>,
}

/// Seals a value, cut in two: leaves its stored bytes, and gives what stands in front of them and
/// behind them.
pub fn seal_in_two(what: &Sealing, value: &mut [u8], cut: usize) -> ([u8; 40], [u8; 16])
    requires cut { cut ≤ length value.old }
    requires size { length value.old < 2 ^ 32 }
    ensures { result.0 ++ value.new ++ result.1
        ≡ seal what.now.root.now what.now.key.now what.now.flags.bits what.now.iv what.now.prior
        value.old }
{
    let size = value.len() as u32;
    let mut stream = SealStream::new(what.root, what.key, what.flags, what.iv, what.prior, size);
    let head = stream.head();
    let (front, back) = value.split_at_mut(cut);
    stream.seal(front);
    stream.seal(back);
    (head, stream.finish())
}

/// Where the value of an opened record stands, and what its metadata says.
#[derive(Clone, Copy)]
pub struct Opening {
    pub start: usize,
    pub size: usize,
    pub flags: Flags,
    pub prior: Option<[u8; 16]>,
}

// Absorbs the stored bytes of a record, cut in two.
fn absorb_in_two(stream: &mut OpenStream, bytes: &mut [u8], cut: usize)
    requires cut { cut ≤ length bytes.old }
    requires left { length bytes.old ≡ stream.old.body.left }
    ensures left { stream.new.body.left ≡ 0 }
    ensures metadata { stream.new.metadata ≡ stream.old.metadata }
    ensures opened { (root key : List ℕ) → HasOpened stream.old root key []
        → HasOpened stream.new root key bytes.old }
    ensures value { (root key : List ℕ) → HasOpened stream.old root key []
        → let m = stream.old.metadata in bytes.new ≡ opened root key m.flags m.vector bytes.old }
{
    let (front, back) = bytes.split_at_mut(cut);
    stream.absorb(front);
    stream.absorb(back);
}

/// Opens a record in place, with its stored bytes cut in two.
pub fn open_in_two(
    root: &[u8; 16],
    key: &Key,
    sealed: &mut [u8],
    cut: usize,
) -> Result<Opening, KvError>
    requires { length sealed.old < 2 ^ 32 }
    ensures { Gives result sealed.new (unseal root.now key.now sealed.old) }
{
    secure_record::laws::metadata_divides_records();
    let length = sealed.len();
    let head = &sealed[..length.min(40)];
    let mut stream = match OpenStream::new(root, key, head, length as u32) {
        Ok(stream) => stream,
        Err(refusal) => return Err(refusal),
    };
    let opening = Opening {
        start: stream.head_size() as usize,
        size: stream.size() as usize,
        flags: stream.flags(),
        prior: stream.prior(),
    };
    let (_, behind) = sealed.split_at_mut(opening.start);
    let (bytes, last) = behind.split_at_mut(opening.size);
    let mut tag = [0; 16];
    tag.copy_from_slice(last);
    absorb_in_two(&mut stream, bytes, cut.min(opening.size));
    match stream.finish(&tag) {
        Ok(_) => Ok(opening),
        Err(refusal) => Err(refusal),
    }
}
