// A set in one store and then in a second.
ghost use Rattle.std.specs.Prelude.{◌≡◌};
ghost use Rattle.kv_model.specs.Kv.{Answers, answered};
ghost use Rattle.kv_model.specs.Operations.{Set};
ghost use Rattle.kv_memory.specs.Pairs.{AnswersSecond, Leads, first_reply};

use kv_model::{Flags, Kv, KvError};

/// Which of two stores refused a call.
#[derive(Clone, Copy, Debug, PartialEq, Eq)]
pub enum PairRefusal {
    /// The first refused, and the second was not asked.
    First { error: KvError },
    /// The second refused, once the first had done the call.
    Second { error: KvError },
}

/// Sets a value in one store and then, where that is done, in a second. Where both tell their
/// states, the pair that stands after each answer is: both stepped after `Ok`; after `First` the
/// first as its refusal leaves it and the second as it was; after `Second` the first stepped, and
/// the second as its refusal leaves it.
pub fn set_in_both<A: Kv, B: Kv>(
    first: &mut A,
    second: &mut B,
    who: u8,
    key: &[u8],
    value: &[u8],
    flags: Flags,
) -> Result<(), PairRefusal>
    ensures first { Answers A.rules_by (A.state first.old) (A.state first.new)
        (answered who (Set key.now value.now flags.bits) (first_reply result)) }
    ensures second { AnswersSecond (λ reply. Answers B.rules_by (B.state second.old)
        (B.state second.new) (answered who (Set key.now value.now flags.bits) reply))
        (second.new ≡ second.old) result }
    ensures first_state { Leads A.rules_by (A.state first.old).known (A.state first.new).known
        (who, Set key.now value.now flags.bits) (first_reply result) }
    ensures second_state { AnswersSecond (Leads B.rules_by (B.state second.old).known
        (B.state second.new).known (who, Set key.now value.now flags.bits))
        (second.new ≡ second.old) result }
{
    match first.set(who, key, value, flags) {
        Ok(()) => {}
        Err(error) => return Err(PairRefusal::First { error }),
    }
    match second.set(who, key, value, flags) {
        Ok(()) => Ok(()),
        Err(error) => Err(PairRefusal::Second { error }),
    }
}
