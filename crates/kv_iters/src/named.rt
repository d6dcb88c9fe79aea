// The places of iterators in a slab.
ghost use Rattle.std.specs.Prelude.{◌≡◌, ◌+◌, ◌<◌, ℕ, Some, None, IfOk, IfErr, OnOk, OnErr};
ghost use Rattle.std.specs.FinMap as map;
ghost use Rattle.slab.specs.Slab.{ContainsKey, HasRoomFor, slab_len};
ghost use Rattle.kv_model.specs.declared.error.KvError.TheVariants.{Memory};
ghost use Rattle.kv_model.specs.declared.limits.TheConstants.{MAX_ITERATORS};
ghost use Rattle.kv_iters.specs.Calls.{start_refusal, use_refusal};
ghost use Rattle.kv_iters.specs.Slots.{CanTake, IsAt, IsTable, TakesOut, iterators_of, name_of};

use crate::Iter;
use kv_model::{KvError, MAX_ITERATORS, is_prefix};
use slab::Slab;

// An iterator with its name.
#[derive(Drop)]
pub(crate) struct Named {
    pub owner: u8,
    pub number: u8,
    pub iter: Iter,
}

// The place of the iterator of this name.
pub(crate) fn place_of(slots: &Slab<Named>, who: u8, n: u8) -> Result<usize, KvError>
    requires { IsTable slots.now }
    ensures found { IfOk result (IsAt slots.now (who, n)) }
    ensures granted { OnOk result (use_refusal (iterators_of slots.now) who n ≡ None) }
    ensures absent { OnErr result (map.get (iterators_of slots.now) (who, n) ≡ None) }
    ensures refused { IfErr result (λ error.
        use_refusal (iterators_of slots.now) who n ≡ Some error) }
{
    for (place, named) in slots.iter() {
        if named.owner == who && named.number == n {
            return Ok(place);
        }
    }
    Err(KvError::NoIterator)
}

// The place of an iterator that starts, `None` for a new one.
pub(crate) fn place_for(
    slots: &Slab<Named>,
    who: u8,
    n: u8,
    prefix: &[u8],
) -> Result<Option<usize>, KvError>
    requires { IsTable slots.now }
    ensures place { IfOk result (CanTake slots.now (who, n)) }
    ensures granted { OnOk result (
        start_refusal (iterators_of slots.now) who n prefix.now ≡ None) }
    ensures refused { IfErr result (λ error.
        start_refusal (iterators_of slots.now) who n prefix.now ≡ Some error) }
{
    if !is_prefix(prefix) {
        return Err(KvError::InvalidKey);
    }
    match place_of(slots, who, n) {
        Ok(place) => Ok(Some(place)),
        Err(_) if slots.len() >= MAX_ITERATORS as usize => Err(KvError::TooManyIterators),
        Err(_) => Ok(None),
    }
}

// Takes the iterator out that is at a place. Another fits then without memory.
pub(crate) fn take_out(slots: &mut Slab<Named>, place: usize) -> Named
    requires there { ContainsKey slots.old place }
    requires table { IsTable slots.old }
    ensures taken { (name : ℕ × ℕ) → IsAt slots.old name place
        → TakesOut slots.old slots.new name result.iter }
    ensures table { IsTable slots.new }
    ensures fewer { slab_len slots.new < MAX_ITERATORS }
    ensures room { HasRoomFor slots.new 1 }
{
    slots.remove(place)
}

// Puts an iterator of a new name in.
pub(crate) fn put_in(slots: &mut Slab<Named>, named: Named)
    requires room { HasRoomFor slots.old 1 }
    requires few { slab_len slots.old < MAX_ITERATORS }
    requires table { IsTable slots.old }
    requires absent { map.get (iterators_of slots.old) (name_of named) ≡ None }
    ensures put { iterators_of slots.new
        ≡ map.insert (iterators_of slots.old) (name_of named) named.iter }
    ensures table { IsTable slots.new }
{
    slots.insert_reserved(named);
}

// Puts an iterator in the place of the one of its name, or in a new one. It refuses for want of
// memory alone.
pub(crate) fn put_at(
    slots: &mut Slab<Named>,
    place: Option<usize>,
    named: Named,
) -> Result<(), KvError>
    requires table { IsTable slots.old }
    requires place { CanTake slots.old (name_of named) place }
    ensures put { OnOk result (iterators_of slots.new
        ≡ map.insert (iterators_of slots.old) (name_of named) named.iter) }
    ensures kept { OnErr result (iterators_of slots.new ≡ iterators_of slots.old) }
    ensures memory { IfErr result (λ error. error ≡ Memory) }
    ensures table { IsTable slots.new }
{
    match place {
        Some(place) => {
            take_out(slots, place);
        }
        None => {
            if slots.reserve(1).is_err() {
                return Err(KvError::Memory);
            }
        }
    }
    put_in(slots, named);
    Ok(())
}
