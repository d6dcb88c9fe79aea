// Passes for other threads.
ghost use Rattle.std.specs.Prelude.{◌≡◌, ◌+◌, ◌<◌, ◌≤◌, length};
ghost use Rattle.turn_lock.specs.Passes.{HasBoth, HaveMetAs, IsIdle};
ghost use Rattle.turn_lock.specs.Views.{joined, less_parts, newcomer_beside};
ghost use Rattle.shared_kv.specs.Passes.{known, table_in};

use crate::pass::CallPass;
use crate::shared::SharedKv;
use kv_model::Kv;

impl<K: Kv> SharedKv<K> {
    /// A pass for another thread, under a number, which has seen the same and owns nothing. It gets
    /// `parts` of the old one's parts.
    pub fn split(&self, pass: &mut CallPass<K>, who: u8, parts: u32) -> CallPass<K>
        requires idle { IsIdle (table_in self.now) pass.old.pass }
        requires some { 1 ≤ parts }
        requires kept { parts < (known pass.old).parts }
        requires own { length (known pass.old).own + parts ≤ (known pass.old).parts }
        ensures idle { IsIdle (table_in self.now) pass.new.pass
            × IsIdle (table_in self.now) result.pass }
        ensures old { known pass.new ≡ less_parts parts (known pass.old) }
        ensures new { known result ≡ newcomer_beside (known pass.old) who parts }
    {
        CallPass {
            pass: self.turns.split(&mut pass.pass, who, parts),
        }
    }

    /// Takes another pass into this one, which then has seen what either had, owns what both owned,
    /// and has the parts and the marks of both.
    pub fn join(&self, into: &mut CallPass<K>, other: CallPass<K>)
        requires into { IsIdle (table_in self.now) into.old.pass }
        requires other { IsIdle (table_in self.now) other.pass }
        ensures idle { IsIdle (table_in self.now) into.new.pass }
        ensures view { known into.new ≡ joined (known into.old) (known other) }
        ensures begins { HasBoth (known into.old) (known other) (known into.new) }
    {
        let CallPass { pass } = other;
        self.turns.join(&mut into.pass, pass);
    }

    /// Two passes tell each other what they have seen: both have then seen one list, which begins
    /// with what each had seen. It waits for nobody.
    pub fn meet(&self, one: &mut CallPass<K>, other: &mut CallPass<K>)
        requires one { IsIdle (table_in self.now) one.old.pass }
        requires other { IsIdle (table_in self.now) other.old.pass }
        ensures idle { IsIdle (table_in self.now) one.new.pass
            × IsIdle (table_in self.now) other.new.pass }
        ensures met { HaveMetAs (known one.old) (known other.old) (known one.new)
            (known other.new) }
    {
        self.turns.meet(&mut one.pass, &mut other.pass);
    }
}
