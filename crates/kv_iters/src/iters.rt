// The table of iterators.
ghost use Rattle.std.specs.Prelude.{◌≡◌, ◌≤◌, Some, None, IfOk, IfErr, OnOk, OnErr, unwrap_or};
ghost use Rattle.std.specs.FinMap as map;
ghost use Rattle.kv_model.specs.declared.error.KvError.TheVariants.{Memory};
ghost use Rattle.kv_model.specs.declared.limits.TheConstants.{MAX_ITERATORS};
ghost use Rattle.kv_iters.specs.Calls.{advanced, ended, start_refusal, started, use_refusal};

use crate::Iter;
use crate::named::{Named, place_for, place_of, put_at, put_in, take_out};
use kv_model::{Key, KvError};
use slab::Slab;
use std::alloc::Global;
use std::marker::Model;

/// The active iterators of a store, at most `MAX_ITERATORS`, by their owners and numbers.
#[derive(Drop)]
pub struct Iters {
    slots: Slab<Named>,
}

impl Model for Iters {
    ghost use Rattle.kv_model.specs.StoreState.{Iterators};
    ghost use Rattle.kv_iters.specs.Codes.{iterators_code};

    ghost Value = { Iterators };

    ghost coded = { iterators_code };

    ghost use Rattle.kv_iters.specs.Slots.{IsTable, iterators_of};

    ghost view = { λ i. iterators_of i.slots };

    ghost invariant = { λ i. IsTable i.slots };
}

impl Iters {
    /// No iterators. It takes no memory.
    pub fn new(alloc: Global) -> Iters
        ensures { result ≡ map.empty }
    {
        Iters {
            slots: Slab::new(alloc),
        }
    }

    /// Begins iterator `n` of `who` over the keys with a prefix, anew where it is active. It
    /// refuses, in this order, with `InvalidKey` where the bytes are no prefix, with
    /// `TooManyIterators` where `MAX_ITERATORS` others are active, and with `Memory`. A refusal
    /// changes nothing.
    pub fn start(&mut self, alloc: Global, who: u8, n: u8, prefix: &[u8]) -> Result<(), KvError>
        ensures granted { OnOk result (start_refusal self.old who n prefix.now ≡ None) }
        ensures started { OnOk result (self.new ≡ started self.old who n prefix.now) }
        // what was asked decides, and else there was no memory
        ensures refused { IfErr result (λ error.
            error ≡ unwrap_or (start_refusal self.old who n prefix.now) Memory) }
        ensures kept { OnErr result (self.new ≡ self.old) }
        ensures few { OnOk result (map.len self.new ≤ MAX_ITERATORS) }
    {
        let place = place_for(&self.slots, who, n, prefix)?;
        let iter = match Iter::new(alloc, prefix) {
            Ok(iter) => iter,
            Err(_) => return Err(KvError::Memory),
        };
        let named = Named {
            owner: who,
            number: n,
            iter,
        };
        put_at(&mut self.slots, place, named)
    }

    /// Lends iterator `n` of `who`. `NoIterator` comes exactly where it is not active.
    pub fn last(&self, who: u8, n: u8) -> Result<&Iter, KvError>
        ensures found { IfOk result (λ iter. map.get self.now (who, n) ≡ Some iter.now) }
        ensures refused { IfErr result (λ error. use_refusal self.now who n ≡ Some error) }
    {
        let place = place_of(&self.slots, who, n)?;
        Ok(&self.slots[place].iter)
    }

    /// Puts iterator `n` of `who` behind a key that it gave. `NoIterator` comes exactly where it is
    /// not active, and changes nothing. It takes no memory.
    pub fn advance(&mut self, who: u8, n: u8, key: &Key) -> Result<(), KvError>
        ensures granted { OnOk result (use_refusal self.old who n ≡ None) }
        ensures advanced { OnOk result (self.new ≡ advanced self.old who n key.now) }
        ensures refused { IfErr result (λ error. use_refusal self.old who n ≡ Some error) }
        ensures kept { OnErr result (self.new ≡ self.old) }
    {
        let place = place_of(&self.slots, who, n)?;
        let named = take_out(&mut self.slots, place);
        let moved = Named {
            owner: who,
            number: n,
            iter: named.iter.behind(key),
        };
        put_in(&mut self.slots, moved);
        Ok(())
    }

    /// Ends iterator `n` of `who`. `NoIterator` comes exactly where it is not active, and changes
    /// nothing. It takes no memory.
    pub fn end(&mut self, who: u8, n: u8) -> Result<(), KvError>
        ensures granted { OnOk result (use_refusal self.old who n ≡ None) }
        ensures ended { OnOk result (self.new ≡ ended self.old who n) }
        ensures refused { IfErr result (λ error. use_refusal self.old who n ≡ Some error) }
        ensures kept { OnErr result (self.new ≡ self.old) }
    {
        let place = place_of(&self.slots, who, n)?;
        take_out(&mut self.slots, place);
        Ok(())
    }
}
