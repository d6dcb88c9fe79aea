// A reset of the two stores.
ghost use Rattle.std.specs.Prelude.{ℕ, List};
ghost use Rattle.kv_model.specs.Given.{done_or};
ghost use Rattle.kv_model.specs.Kv.{answered};
ghost use Rattle.kv_model.specs.Operations.{Reset};
ghost use Rattle.sealed_pair.specs.Running.{HasRun, parts};

use kv_model::{Kv, KvError};

/// Takes all keys away, in the primary store first.
pub fn reset_both<U: Kv, R: Kv>(primary: &mut U, rollback: &mut R, who: u8) -> Result<(), KvError>
    ensures { (root : List ℕ) (number : ℕ) → HasRun
        (parts root number U.rules_by (U.state primary.old) R.rules_by (R.state rollback.old))
        (parts root number U.rules_by (U.state primary.new) R.rules_by (R.state rollback.new))
        (answered who Reset (done_or result)) }
{
    match primary.reset(who) {
        Ok(()) => {}
        Err(refusal) => return Err(refusal),
    }
    match rollback.reset(who) {
        Ok(()) => Ok(()),
        Err(refusal) => Err(refusal),
    }
}
