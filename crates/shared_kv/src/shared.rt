// The store that callers share, and its calls that may wait.
ghost use Rattle.std.specs.Prelude.{◌≡◌, ◌≢◌, IfOk, IfErr};
ghost use Rattle.turn_lock.specs.Passes.{IsIdle};
ghost use Rattle.turn_lock.specs.Views.{first_view};
ghost use Rattle.shared_kv.specs.Passes.{known, table_in};
ghost use Rattle.shared_kv.specs.Turns.{Calls, HadTurns, HasParts, Quits, Tries, Ends, without_call};

use crate::desk::Desk;
use crate::fault::{Answer, Fault};
use crate::pass::CallPass;
use journal_core::Journal;
use kv_model::{Call, Kv, NoMemory};
use std::alloc::Global;
use std::sync::Wait;
use std::thread;
use turn_lock::{Taken, Turns};

/// A store that several callers share, and the journal of their calls. Any number of threads may
/// use it by reference; each has a pass of its own.
pub struct SharedKv<K: Kv> {
    pub(crate) turns: Turns<Desk<K>>,
}

impl<K: Kv> SharedKv<K> {
    /// Shares a store, and gives the first pass, which has the number 0 and all 65,536 parts. What
    /// the store is now is the opening of the history. It refuses for want of memory alone, and
    /// gives the store back.
    pub fn new(alloc: Global, store: K) -> Result<(SharedKv<K>, CallPass<K>), (K, NoMemory)>
        ensures pass { IfOk result (λ t. IsIdle (table_in t.0) t.1.pass) }
        ensures view { IfOk result (λ t. known t.1 ≡ first_view (K.state store).known) }
        ensures err { IfErr result (λ e. e.0 ≡ store) }
    {
        let desk = Desk {
            alloc,
            store,
            journal: Journal::new(alloc),
            quitter: None,
        };
        match Turns::new(alloc, desk) {
            Ok((turns, pass)) => Ok((SharedKv { turns }, CallPass { pass })),
            Err((desk, none)) => {
                let Desk {
                    alloc: _,
                    store,
                    journal: _,
                    quitter: _,
                } = desk;
                Err((store, none))
            }
        }
    }

    /// Makes a call in one turn, if nobody has the turn. A fault changes neither the store nor the
    /// journal.
    pub fn try_call(&self, pass: &mut CallPass<K>, call: Call) -> Result<Answer, Fault>
        requires idle { IsIdle (table_in self.now) pass.old.pass }
        requires no_mount { call ≢ Call.Mount }
        ensures idle { IsIdle (table_in self.now) pass.new.pass }
        ensures tries { Tries K.rules_by (known pass.old) (known pass.new) call result }
    {
        let held = match self.turns.try_take(&mut pass.pass) {
            Ok(held) => held,
            Err(Taken { word }) => return Err(Fault::Taken { word }),
        };
        match self.call_in_turn(pass, held, call) {
            Ok(answer) => Ok(answer),
            Err((fault, _)) => Err(fault),
        }
    }

    /// Makes a call. It waits for the turn, and while another caller's incremental set stands in
    /// the way: so it is never answered `Taken` or `Busy`.
    pub fn call<R: Wait>(&self, rt: &R, pass: &mut CallPass<K>, call: Call) -> Result<Answer, Fault>
        requires idle { IsIdle (table_in self.now) pass.old.pass }
        requires no_mount { call ≢ Call.Mount }
        ensures idle { IsIdle (table_in self.now) pass.new.pass }
        ensures calls { Calls K.rules_by (known pass.old) (known pass.new) call result }
    {
        let mut left = call;
        for _ in rt.forever() {
            match self.call_once(rt, pass, left) {
                Ok(answer) => return Ok(answer),
                Err((fault, again)) => {
                    if !fault.is_busy() {
                        return Err(fault);
                    }
                    left = again;
                }
            }
            thread::yield_now();
        }
        unreachable!()
    }

    // Waits for one turn, and makes the call in it.
    fn call_once<R: Wait>(
        &self,
        rt: &R,
        pass: &mut CallPass<K>,
        call: Call,
    ) -> Result<Answer, (Fault, Call)>
        requires idle { IsIdle (table_in self.now) pass.old.pass }
        requires no_mount { call ≢ Call.Mount }
        ensures idle { IsIdle (table_in self.now) pass.new.pass }
        ensures turn { HadTurns K.rules_by (known pass.old) (known pass.new) }
        ensures ends { Ends K.rules_by (known pass.old) (known pass.new) call
            (without_call result) }
        ensures call { IfErr result (λ e. e.1 ≡ call) }
    {
        let held = self.turns.take(rt, &mut pass.pass);
        self.call_in_turn(pass, held, call)
    }

    /// Says that the caller quits: from then on no call of any pass is made. The answer is the
    /// number of the first caller that quit.
    pub fn quit<R: Wait>(&self, rt: &R, pass: &mut CallPass<K>) -> u8
        requires { IsIdle (table_in self.now) pass.old.pass }
        ensures idle { IsIdle (table_in self.now) pass.new.pass }
        ensures quits { Quits K.rules_by (known pass.old) (known pass.new) result }
    {
        let held = self.turns.take(rt, &mut pass.pass);
        self.quit_in_turn(pass, held)
    }

    /// Takes the last turn, and gives the store and its journal. Where the pass has all parts, each
    /// position of the journal is the pass's own.
    pub fn into_parts<R: Wait>(self, rt: &R, pass: CallPass<K>) -> (K, Journal)
        requires { IsIdle (table_in self) pass.pass }
        ensures { HasParts K.rules_by (known pass) (K.state result.0).known result.1.entries }
    {
        let SharedKv { turns } = self;
        let CallPass { pass } = pass;
        let Desk {
            alloc: _,
            store,
            journal,
            quitter: _,
        } = turns.close(rt, pass);
        (store, journal)
    }
}
