// What is done in a turn. Nothing here waits.
ghost use Rattle.std.specs.Prelude.{◌≡◌, ◌≢◌, ◌<◌, length, IfErr};
ghost use Rattle.turn_lock.specs.Passes.{IsAtTurn, IsIdle, value_of};
ghost use Rattle.shared_kv.specs.Passes.{known, table_in};
ghost use Rattle.shared_kv.specs.Desks.{IsLent};
ghost use Rattle.shared_kv.specs.Turns.{EndsTurn, QuitsTurn, without_call};

use crate::desk::Desk;
use crate::fault::{Answer, Fault};
use crate::pass::CallPass;
use crate::shared::SharedKv;
use kv_model::{Call, Kv};
use turn_lock::Held;

impl<K: Kv> SharedKv<K> {
    // Makes one call in a turn, and ends it. After a fault the call comes back.
    pub(crate) fn call_in_turn(
        &self,
        pass: &mut CallPass<K>,
        held: Held<Desk<K>>,
        call: Call,
    ) -> Result<Answer, (Fault, Call)>
        requires no_mount { call ≢ Call.Mount }
        requires turn { IsAtTurn (table_in self.now) pass.old.pass }
        requires value { IsLent K.rules_by K.state (known pass.old) (value_of held) }
        ensures idle { IsIdle (table_in self.now) pass.new.pass }
        ensures ends { EndsTurn K.rules_by (known pass.old) (known pass.new) call
            (without_call result) }
        ensures call { IfErr result (λ e. e.1 ≡ call) }
    {
        if pass.is_full() {
            self.turns.give(&mut pass.pass, held);
            return Err((Fault::JournalFull, call));
        }
        self.attempt_in_turn(pass, held, call)
    }

    // Makes one call in a turn of a pass that has a part left, and ends the turn.
    fn attempt_in_turn(
        &self,
        pass: &mut CallPass<K>,
        held: Held<Desk<K>>,
        call: Call,
    ) -> Result<Answer, (Fault, Call)>
        requires no_mount { call ≢ Call.Mount }
        requires turn { IsAtTurn (table_in self.now) pass.old.pass }
        requires value { IsLent K.rules_by K.state (known pass.old) (value_of held) }
        requires room { length (known pass.old).own < (known pass.old).parts }
        ensures idle { IsIdle (table_in self.now) pass.new.pass }
        ensures ends { EndsTurn K.rules_by (known pass.old) (known pass.new) call
            (without_call result) }
        ensures call { IfErr result (λ e. e.1 ≡ call) }
    {
        let mut held = held;
        let who = pass.who();
        let outcome = held.state().attempt(who, call);
        self.turns.note(&mut pass.pass, &mut held);
        self.turns.give(&mut pass.pass, held);
        outcome
    }

    // Names the caller in a turn as the first that quit, unless another was, and ends the turn.
    pub(crate) fn quit_in_turn(&self, pass: &mut CallPass<K>, held: Held<Desk<K>>) -> u8
        requires turn { IsAtTurn (table_in self.now) pass.old.pass }
        requires value { IsLent K.rules_by K.state (known pass.old) (value_of held) }
        ensures idle { IsIdle (table_in self.now) pass.new.pass }
        ensures quits { QuitsTurn K.rules_by (known pass.old) (known pass.new) result }
    {
        let mut held = held;
        let who = pass.who();
        let by = held.state().quit(who);
        self.turns.note(&mut pass.pass, &mut held);
        self.turns.give(&mut pass.pass, held);
        by
    }
}
