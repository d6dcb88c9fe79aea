// The opening of a sealed record that one of the two stores holds, a piece at a time.
ghost use Rattle.std.specs.Prelude.{◌≡◌, ◌≤◌, ◌<◌, ◌+◌, ◌^◌, true, IfOk, IfErr, IfSome, OnOk, length};
ghost use Rattle.std.specs.FinMap.{get};
ghost use Rattle.kv_model.specs.Keys.{is_key};
ghost use Rattle.secure_record.specs.Metadata.{metadata_size};
ghost use Rattle.sealed_pair.specs.Absorbing.{source, BeginsRecord, FailsToRead, HasAbsorbed, HasAbsorbedAll, HasHead, HasSkipped, IsAuthentic, IsFresh, OpensTo, ShowsOr};
ghost use Rattle.sealed_pair.specs.Reading.{HasRead, IsUnread, WhereTold};

use crate::reading::{read_front, read_part};
use kv_model::{Flags, Key, Kv, KvError};
use secure_record::OpenStream;

// How many bytes are read at once where they go nowhere.
const PIECE: usize = 64;

/// A record that was opened: what it seals, and its tag.
#[derive(Clone, Copy)]
pub struct Found {
    pub flags: Flags,
    /// How many bytes the value has, and how many of them stand in the buffer.
    pub size: u32,
    pub read: u32,
    pub tag: [u8; 16],
}

// Absorbs the stored bytes of a record from a place on, as many as the buffer has, and leaves the
// bytes of the value there.
fn absorb_part<K: Kv>(
    store: &mut K,
    key: &[u8],
    stream: &mut OpenStream,
    place: u32,
    buf: &mut [u8],
) -> Result<(), KvError>
    requires key { is_key key.now ≡ true }
    requires left { length buf.old ≤ stream.old.body.left }
    ensures read { HasRead (K.state store.old) (K.state store.new) }
    ensures refusal { IfErr result (IsUnread (K.state store.old) (K.state store.new)) }
    ensures absorbed { OnOk result (HasAbsorbed (source K.rules_by (K.state store.old) key.now)
        place stream.old stream.new buf.new) }
    ensures fails { IfErr result (FailsToRead (source K.rules_by (K.state store.old) key.now)
        (place + length buf.old)) }
{
    read_part(store, key, place, buf)?;
    stream.absorb(buf);
    Ok(())
}

// Absorbs so many stored bytes, at most as many as go into one piece.
fn skip_piece<K: Kv>(
    store: &mut K,
    key: &[u8],
    stream: &mut OpenStream,
    place: u32,
    n: u32,
) -> Result<(), KvError>
    requires key { is_key key.now ≡ true }
    requires piece { n ≤ 64 }
    requires left { n ≤ stream.old.body.left }
    ensures read { HasRead (K.state store.old) (K.state store.new) }
    ensures refusal { IfErr result (IsUnread (K.state store.old) (K.state store.new)) }
    ensures skipped { OnOk result (HasSkipped (source K.rules_by (K.state store.old) key.now)
        place stream.old stream.new n) }
    ensures fails { IfErr result (FailsToRead (source K.rules_by (K.state store.old) key.now)
        (place + n)) }
{
    let mut piece = [0; PIECE];
    absorb_part(store, key, stream, place, &mut piece[..n as usize])
}

// Absorbs so many stored bytes of a record from a place on.
fn skip<K: Kv>(
    store: &mut K,
    key: &[u8],
    stream: &mut OpenStream,
    place: u32,
    n: u32,
) -> Result<(), KvError>
    requires key { is_key key.now ≡ true }
    requires left { n ≤ stream.old.body.left }
    requires fits { place + n < 2 ^ 32 }
    ensures read { HasRead (K.state store.old) (K.state store.new) }
    ensures refusal { IfErr result (IsUnread (K.state store.old) (K.state store.new)) }
    ensures skipped { OnOk result (HasSkipped (source K.rules_by (K.state store.old) key.now)
        place stream.old stream.new n) }
    ensures fails { IfErr result (FailsToRead (source K.rules_by (K.state store.old) key.now)
        (place + n)) }
{
    let mut done = 0;
    while done < n {
        let size = (n - done).min(PIECE as u32);
        skip_piece(store, key, stream, place + done, size)?;
        done += size;
    }
    Ok(())
}

// Absorbs all stored bytes of a record, and leaves those of the value from an offset on in the
// buffer.
fn absorb_all<K: Kv>(
    store: &mut K,
    key: &[u8],
    stream: &mut OpenStream,
    offset: u32,
    buf: &mut [u8],
) -> Result<(), KvError>
    requires key { is_key key.now ≡ true }
    requires left { stream.old.body.left ≡ stream.old.metadata.size }
    requires within { offset + length buf.old ≤ stream.old.metadata.size }
    requires most { stream.old.metadata.size ≤ 65536 }
    ensures read { HasRead (K.state store.old) (K.state store.new) }
    ensures refusal { IfErr result (IsUnread (K.state store.old) (K.state store.new)) }
    ensures absorbed { OnOk result (HasAbsorbedAll
        (source K.rules_by (K.state store.old) key.now) stream.old stream.new offset buf.new) }
    ensures fails { IfErr result (FailsToRead (source K.rules_by (K.state store.old) key.now)
        (metadata_size stream.old.metadata.revision + stream.old.metadata.size)) }
{
    let place = stream.head_size();
    let size = stream.size();
    let end = offset + buf.len() as u32;
    skip(store, key, stream, place, offset)?;
    absorb_part(store, key, stream, place + offset, buf)?;
    skip(store, key, stream, place + end, size - end)?;
    Ok(())
}

/// Begins the record of a key. It gives none where the store lacks the key.
pub(crate) fn begin<K: Kv>(
    store: &mut K,
    root: &[u8; 16],
    key: &Key,
) -> Result<Option<OpenStream>, KvError>
    ensures read { HasRead (K.state store.old) (K.state store.new) }
    ensures refusal { IfErr result (IsUnread (K.state store.old) (K.state store.new)) }
    ensures fresh { IfOk result (λ stream. IfSome stream (IsFresh root.now key.now)) }
    ensures begins { WhereTold K.rules_by (K.state store.old) (λ state.
        BeginsRecord root.now key.now (get state.primary key.now) result) }
{
    secure_record::laws::metadata_divides_records();
    let mut head = [0; 40];
    match read_front(store, key.as_slice(), &mut head)? {
        Some(got) => {
            // Only a store that tells nothing gives less than it has.
            if got.read != got.size.min(40) {
                return Err(KvError::AuthFailed);
            }
            let stream = OpenStream::new(root, key, &head[..got.read as usize], got.size)?;
            Ok(Some(stream))
        }
        None => Ok(None),
    }
}

/// Opens a record that was begun, and leaves the bytes of its value from an offset on at the front
/// of the buffer.
pub(crate) fn open_begun<K: Kv>(
    store: &mut K,
    root: &[u8; 16],
    key: &Key,
    mut stream: OpenStream,
    offset: u32,
    buf: &mut [u8],
) -> Result<Found, KvError>
    requires fresh { IsFresh root.now key.now stream }
    ensures read { HasRead (K.state store.old) (K.state store.new) }
    ensures refusal { IfErr result (IsUnread (K.state store.old) (K.state store.new)) }
    ensures authentic { IfOk result (λ found.
        IsAuthentic root.now key.now offset found buf.new) }
    ensures shows { WhereTold K.rules_by (K.state store.old) (λ state.
        HasHead (get state.primary key.now) stream.metadata
        → OpensTo root.now key.now (get state.primary key.now) result offset buf.new) }
{
    secure_record::laws::metadata_divides_records();
    let flags = stream.flags();
    let size = stream.size();
    let place = stream.head_size() + size;
    let start = offset.min(size);
    let read = ((size - start) as usize).min(buf.len());
    absorb_all(store, key.as_slice(), &mut stream, start, &mut buf[..read])?;
    let mut tag = [0; 16];
    read_part(store, key.as_slice(), place, &mut tag)?;
    let tag = stream.finish(&tag)?;
    Ok(Found {
        flags,
        size,
        read: read as u32,
        tag,
    })
}

/// Opens the record of a key, and leaves the bytes of its value from an offset on at the front of
/// the buffer. It gives none where the store lacks the key. After a refusal the buffer may hold
/// bytes that are not authenticated.
pub(crate) fn open_record<K: Kv>(
    store: &mut K,
    root: &[u8; 16],
    key: &Key,
    offset: u32,
    buf: &mut [u8],
) -> Result<Option<Found>, KvError>
    ensures read { HasRead (K.state store.old) (K.state store.new) }
    ensures refusal { IfErr result (IsUnread (K.state store.old) (K.state store.new)) }
    ensures authentic { IfOk result (λ found. IfSome found (λ f.
        IsAuthentic root.now key.now offset f buf.new)) }
    ensures shows { WhereTold K.rules_by (K.state store.old) (λ state.
        ShowsOr root.now key.now (get state.primary key.now) result offset buf.new) }
{
    match begin(store, root, key)? {
        None => Ok(None),
        Some(stream) => {
            let found = open_begun(store, root, key, stream, offset, buf)?;
            Ok(Some(found))
        }
    }
}
