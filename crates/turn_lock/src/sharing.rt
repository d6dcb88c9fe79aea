// Passes for other threads: how one is split off, taken in again, and how two tell each other what
// they have seen.
ghost use Rattle.std.specs.Prelude.{◌≡◌, ◌+◌, ◌<◌, ◌≤◌, [], length};
ghost use Rattle.turn_lock.specs.Views.{joined, less_parts, newcomer_beside};
ghost use Rattle.turn_lock.specs.Steps.{IsProper};
ghost use Rattle.turn_lock.specs.Tables.{table_of};
ghost use Rattle.turn_lock.specs.Passes.{view_of, IsIdle, IsIdleSeat};
ghost use Rattle.turn_lock.specs.Passes.{HasBoth, HasHeard, HaveMet};
ghost use Rattle.turn_lock.specs.declared.view.Phase.TheVariants.{Idle};

use crate::booked::Booked;
use crate::pass::Pass;
use crate::plays::{Look, Share, Sharing, Unite};
use crate::table::{LENGTH, Turns};
use crate::view::View;
use atomic_table::Seat;
use std::marker::Brand;

impl<S: Booked> Turns<S> {
    /// A pass for another thread, under a number, which has seen the same and owns nothing. It gets
    /// `parts` of the old one's parts.
    pub fn split(&self, pass: &mut Pass<S>, who: u8, parts: u32) -> Pass<S>
        requires idle { IsIdle (table_of self.now) pass.old }
        requires some { 1 ≤ parts }
        requires kept { parts < (view_of pass.old).parts }
        requires own { length (view_of pass.old).own + parts ≤ (view_of pass.old).parts }
        ensures idle { IsIdle (table_of self.now) pass.new × IsIdle (table_of self.now) result }
        ensures old { view_of pass.new ≡ less_parts parts (view_of pass.old) }
        ensures new { view_of result ≡ newcomer_beside (view_of pass.old) who parts }
    {
        let seat = self.share::<Brand>(&mut pass.seat, who, parts);
        pass.parts -= parts;
        Pass {
            who,
            seen: pass.seen,
            made: 0,
            parts,
            seat,
        }
    }

    fn share<H: Sharing>(
        &self,
        seat: &mut Seat<Option<S>, View>,
        _who: u8,
        _parts: u32,
    ) -> Seat<Option<S>, View>
        requires table { seat.old.table_id ≡ table_of self.now }
        requires idle { seat.old.me.0.phase ≡ Idle }
        requires parts { length seat.old.me.0.own + H.parts ≤ seat.old.me.0.parts }
        ensures old_table { seat.new.table_id ≡ seat.old.table_id }
        ensures new_table { result.table_id ≡ seat.old.table_id }
        ensures old { seat.new.me ≡ (less_parts H.parts seat.old.me.0, seat.old.me.1) }
        ensures new { result.me ≡ (newcomer_beside seat.old.me.0 H.who H.parts, []) }
    {
        self.table.shared.split_seat::<Share<H>>(seat)
    }

    /// Takes another pass into this one, which then has seen what either had, owns what both owned,
    /// and has the parts and the marks of both.
    pub fn join(&self, into: &mut Pass<S>, other: Pass<S>)
        requires into { IsIdle (table_of self.now) into.old }
        requires other { IsIdle (table_of self.now) other }
        ensures idle { IsIdle (table_of self.now) into.new }
        ensures view { view_of into.new ≡ joined (view_of into.old) (view_of other) }
        ensures begins { HasBoth (view_of into.old) (view_of other) (view_of into.new) }
        ensures proper { IsProper (view_of into.new) }
    {
        let Pass {
            who: _,
            seen,
            made,
            parts,
            seat,
        } = other;
        self.unite(&mut into.seat, seat);
        into.seen = into.seen.max(seen);
        into.made += made;
        into.parts += parts;
    }

    fn unite(&self, seat: &mut Seat<Option<S>, View>, other: Seat<Option<S>, View>)
        requires seat { IsIdleSeat (table_of self.now) seat.old }
        requires other { IsIdleSeat (table_of self.now) other }
        ensures seat { IsIdleSeat (table_of self.now) seat.new }
        ensures view { seat.new.me.0 ≡ joined seat.old.me.0 other.me.0 }
        ensures begins { HasBoth seat.old.me.0 other.me.0 seat.new.me.0 }
        ensures proper { IsProper seat.new.me.0 }
    {
        self.table.shared.join_seat::<Unite>(seat, other);
        self.table.shared.load::<Look>(seat, LENGTH);
    }

    /// Two passes tell each other what they have seen: both have then seen one list, which begins
    /// with what each had seen. It waits for nobody.
    pub fn meet(&self, one: &mut Pass<S>, other: &mut Pass<S>)
        requires one { IsIdle (table_of self.now) one.old }
        requires other { IsIdle (table_of self.now) other.old }
        ensures idle { IsIdle (table_of self.now) one.new × IsIdle (table_of self.now) other.new }
        ensures met { HaveMet one.old other.old one.new other.new }
    {
        self.tell(one, other);
        self.tell(other, one);
    }

    fn tell(&self, from: &mut Pass<S>, to: &mut Pass<S>)
        requires from { IsIdle (table_of self.now) from.old }
        requires to { IsIdle (table_of self.now) to.old }
        ensures idle { IsIdle (table_of self.now) from.new × IsIdle (table_of self.now) to.new }
        ensures from { view_of from.new ≡ view_of from.old }
        ensures to { HasHeard (view_of to.old) (view_of from.old).seen (view_of to.new) }
    {
        let copy = self.share::<Brand>(&mut from.seat, from.who, 0);
        self.unite(&mut to.seat, copy);
        to.seen = to.seen.max(from.seen);
    }
}
