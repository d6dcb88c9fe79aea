// What stands behind the turn: a store, the journal of its calls, and the first caller that quit.
ghost use Rattle.std.specs.Prelude.{◌≡◌, ◌≢◌, ◌<◌, ◌≤◌, ◌+◌, ◌++◌, ◌∷◌, [], ℕ, length, Some, false, IfOk, IfErr, IfNone, IfSome, OnErr};
ghost use Rattle.std.specs.Option.{unwrap_or};
ghost use Rattle.journal_core.specs.JournalState.{next_entry};
ghost use Rattle.kv_model.specs.Opening.{Opening};
ghost use Rattle.shared_kv.specs.Histories.{is_busy};
ghost use Rattle.shared_kv.specs.Attempts.{FaultsInTurn, IsNoted};

use crate::fault::{Answer, Fault};
use crate::twice::perform_twice;
use journal_core::Journal;
use kv_model::{Call, Kv, KvError, Reply};
use std::alloc::Global;
use turn_lock::Booked;

/// A store with the journal of its calls.
pub struct Desk<K> {
    pub(crate) alloc: Global,
    pub(crate) store: K,
    pub(crate) journal: Journal,
    pub(crate) quitter: Option<u8>,
}

impl<K: Kv> Booked for Desk<K> {
    ghost use Rattle.shared_kv.specs.Desks.{begins_in, book_in, stands_in};

    ghost book = { book_in K.state };

    ghost stands_for = { stands_in K.rules_by K.state };

    ghost begins = { begins_in K.rules_by K.state };

    fn count(&self) -> u64 {
        self.journal.entries().len() as u64
    }
}

// Whose incremental set stands in the way, by the reply.
fn owner_in(reply: &Reply) -> Option<u8>
    ensures busy { IfSome result (λ owner. reply.now ≡ Reply.Refused (KvError.Busy owner)) }
    ensures other { IfNone result (is_busy reply.now ≡ false) }
{
    match reply {
        Reply::Refused {
            error: KvError::Busy { owner },
        } => Some(*owner),
        _ => None,
    }
}

impl<K: Kv> Desk<K> {
    ghost use Rattle.shared_kv.specs.Desks.{IsAsBefore, book_in, stands_in};

    // Makes one call for a caller in its turn, and notes it with its reply. After a fault the store
    // and the journal are as before, and the call comes back.
    pub(crate) fn attempt(&mut self, who: u8, call: Call) -> Result<Answer, (Fault, Call)>
        requires no_mount { call ≢ Call.Mount }
        requires numbers { length self.old.journal.entries < 4294967295 }
        ensures stands { (opening : Opening) → stands_in K.rules_by K.state self.old opening
            → stands_in K.rules_by K.state self.new opening }
        ensures quitter { self.new.quitter ≡ self.old.quitter }
        ensures noted { IfOk result (λ answer. IsNoted (book_in K.state self.old) who call answer
            self.new.journal.entries) }
        ensures same { OnErr result (IsAsBefore K.state self.old self.new) }
        ensures call { IfErr result (λ e. e.1 ≡ call) }
        ensures fault { IfErr result (λ e.
            FaultsInTurn K.rules_by (book_in K.state self.old) who call e.0) }
    {
        if let Some(by) = self.quitter {
            return Err((Fault::Quit { by }, call));
        }
        if self.journal.reserve().is_err() {
            return Err((Fault::Memory, call));
        }
        match perform_twice(self.alloc, &mut self.store, who, &call) {
            Ok((reply, noted)) => match owner_in(&reply) {
                Some(owner) => Err((self.busy(owner), call)),
                None => Ok(self.note(who, call, reply, noted)),
            },
            Err(_) => Err((Fault::Memory, call)),
        }
    }

    // A set stands in the way, at the end of the journal.
    fn busy(&self, owner: u8) -> Fault
        requires { length self.now.journal.entries < 4294967295 }
        ensures { result ≡ Fault.Busy owner (length self.now.journal.entries) }
    {
        Fault::Busy {
            owner,
            position: self.journal.entries().len() as u32,
        }
    }

    // Notes a call with its reply, of which the journal keeps the other copy.
    fn note(&mut self, who: u8, call: Call, reply: Reply, noted: Reply) -> Answer
        requires room { 1 ≤ self.old.journal.spare }
        requires numbers { length self.old.journal.entries < 4294967295 }
        ensures entries { self.new.journal.entries
            ≡ self.old.journal.entries
            ++ next_entry self.old.journal.entries who call noted ∷ [] }
        ensures store { self.new.store ≡ self.old.store }
        ensures quitter { self.new.quitter ≡ self.old.quitter }
        ensures seq { result.seq ≡ length self.old.journal.entries + 1 }
        ensures reply { result.reply ≡ reply }
    {
        self.journal.append(who, call, noted);
        Answer {
            seq: self.journal.entries().len() as u32,
            reply,
        }
    }

    // Names the caller as the first that quit, unless another was. The answer is the first.
    pub(crate) fn quit(&mut self, who: u8) -> u8
        ensures by { result ≡ unwrap_or self.old.quitter who }
        ensures quitter { self.new.quitter ≡ Some result }
        ensures store { self.new.store ≡ self.old.store }
        ensures journal { self.new.journal.entries ≡ self.old.journal.entries }
    {
        match self.quitter {
            Some(by) => by,
            None => {
                self.quitter = Some(who);
                who
            }
        }
    }
}
