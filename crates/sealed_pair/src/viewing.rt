// What the two stores show of a key together.
ghost use Rattle.std.specs.Prelude.{◌≡◌, true, IfOk, IfErr, length};
ghost use Rattle.std.specs.FinMap.{get};
ghost use Rattle.kv_model.specs.Flags.{is_mirrored};
ghost use Rattle.kv_model.specs.Keys.{is_key};
ghost use Rattle.kv_model.specs.StoreState.{Maps, StoreState};
ghost use Rattle.sealed_pair.specs.Pair.{Joining, pair};
ghost use Rattle.sealed_pair.specs.Reading.{HasRead, IsUnread, WhereTold};
ghost use Rattle.sealed_pair.specs.View.{view_of};
ghost use Rattle.sealed_pair.specs.Viewing.{IsNoForeign, MirrorsOr, ViewsOr, belongs, judged};

use crate::opening::{Found, open_record};
use crate::reading::read_front;
use kv_model::{Flags, Key, Kv, KvError};

/// What the rollback store has for a key.
#[derive(Clone, Copy)]
pub enum Mirror {
    Absent,
    /// A value that is no tag.
    Other,
    Tag([u8; 16]),
}

/// A key with either flag has its tag in the rollback store.
pub(crate) fn is_mirrored(flags: Flags) -> bool
    ensures { result ≡ is_mirrored flags.bits }
{
    flags.bits % 2 == 1 || (flags.bits / 8) % 2 == 1
}

/// Reads what the rollback store has for a key.
pub(crate) fn find_tag<R: Kv>(rollback: &mut R, key: &[u8]) -> Result<Mirror, KvError>
    requires { is_key key.now ≡ true }
    ensures read { HasRead (R.state rollback.old) (R.state rollback.new) }
    ensures refusal { IfErr result (IsUnread (R.state rollback.old) (R.state rollback.new)) }
    ensures mirrors { WhereTold R.rules_by (R.state rollback.old) (λ state.
        MirrorsOr (get state.primary key.now) result) }
{
    let mut tag = [0; 16];
    let found = read_front(rollback, key, &mut tag)?;
    match found {
        None => Ok(Mirror::Absent),
        Some(got) => {
            if got.size != 16 {
                return Ok(Mirror::Other);
            }
            // Only a store that tells nothing gives less than it has.
            if got.read != 16 {
                return Err(KvError::RollbackFailed);
            }
            Ok(Mirror::Tag(tag))
        }
    }
}

// Whether a record and what the rollback store has belong together.
fn belongs(found: &Found, mirror: &Mirror) -> bool
    ensures { result ≡ belongs found.now mirror.now }
{
    match mirror {
        Mirror::Absent => !is_mirrored(found.flags),
        Mirror::Other => false,
        Mirror::Tag(tag) => is_mirrored(found.flags) && *tag == found.tag,
    }
}

// The record, where the key is held.
fn judge(found: Option<Found>, mirror: Mirror) -> Result<Found, KvError>
    ensures { result ≡ judged found mirror }
{
    match found {
        None => match mirror {
            Mirror::Absent => Err(KvError::NotFound),
            Mirror::Other => Err(KvError::RollbackFailed),
            Mirror::Tag(_) => Err(KvError::RollbackFailed),
        },
        Some(found) => {
            if belongs(&found, &mirror) {
                Ok(found)
            } else {
                Err(KvError::RollbackFailed)
            }
        }
    }
}

/// Reads the value of a key from an offset on. The whole record is read once, and its tag and what
/// the rollback store has for the key are compared with it. After a refusal the buffer may hold
/// bytes that are not authenticated.
pub fn view_key<U: Kv, R: Kv>(
    primary: &mut U,
    rollback: &mut R,
    root: &[u8; 16],
    key: &Key,
    offset: u32,
    buf: &mut [u8],
) -> Result<Found, KvError>
    ensures valid { is_key key.now ≡ true }
    ensures primary { HasRead (U.state primary.old) (U.state primary.new) }
    ensures rollback { HasRead (R.state rollback.old) (R.state rollback.new) }
    ensures refusal { (joining : Joining) → IfErr result (IsUnread
        (pair root.now joining (U.state primary.old) (R.state rollback.old))
        (pair root.now joining (U.state primary.new) (R.state rollback.new))) }
    ensures views { WhereTold U.rules_by (U.state primary.old) (λ above.
        WhereTold R.rules_by (R.state rollback.old) (λ below. ViewsOr
        (view_of root.now (record { primary = above.primary; rollback = below.primary }) key.now)
        result offset buf.new)) }
    ensures foreign { IfOk result (λ found. IsNoForeign R.rules_by (R.state rollback.old)
        root.now key.now offset found buf.new) }
{
    let bytes = key.as_slice();
    let found = open_record(primary, root, key, offset, buf)?;
    let mirror = find_tag(rollback, bytes)?;
    match judge(found, mirror) {
        Ok(found) => Ok(found),
        Err(refusal) => Err(refusal),
    }
}
