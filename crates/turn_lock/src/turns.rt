// The turn itself: how it is taken and given back, and what is noted in it.
ghost use Rattle.std.specs.Prelude.{◌≡◌, [], ◌∷◌, length, Some, None, IsSome};
ghost use Rattle.std.specs.Prelude.{IfOk, IfErr, OnOk, OnErr};
ghost use Rattle.turn_lock.specs.Views.{first_view, in_phase, noted};
ghost use Rattle.turn_lock.specs.Steps.{IsNext, IsProper};
ghost use Rattle.turn_lock.specs.Tables.{table_of};
ghost use Rattle.turn_lock.specs.Passes.{view_of, IsAtTurn, IsIdle};
ghost use Rattle.turn_lock.specs.Passes.{IsAsNoted, HasClosed, HasMissed, HasTurn, HasTurnLater, MayNote};
ghost use Rattle.turn_lock.specs.declared.view.Phase.TheVariants.{Closing, Idle, Loaded};

use crate::booked::Booked;
use crate::held::{Held, Taken};
use crate::pass::Pass;
use crate::plays::{Close, Give, Load, Note, Noting, Take};
use crate::table::{LENGTH, SLOT, TURN, Turns};
use crate::view::View;
use atomic_table::{Refused, Seat, Table};
use kv_model::NoMemory;
use std::alloc::{AllocFailed, Global};
use std::marker::Brand;
use std::snapshot::Snapshot;
use std::sync::Wait;

const ALL: u32 = 65_536;

impl<S: Booked> Turns<S> {
    /// Puts a value behind a turn, and gives the first pass, which has the number 0 and all 65,536
    /// parts. It refuses for want of memory alone, and gives the value back.
    pub fn new(alloc: Global, state: S) -> Result<(Turns<S>, Pass<S>), (S, NoMemory)>
        requires empty { (S.book state).entries ≡ [] }
        requires none { (S.book state).quitter ≡ None }
        ensures pass { IfOk result (λ t. IsIdle (table_of t.0) t.1) }
        ensures view { IfOk result (λ t. view_of t.1 ≡ first_view (S.book state).opening) }
        ensures err { IfErr result (λ e. e.0 ≡ state) }
    {
        let about = Snapshot::of(&state);
        let mut slots = Vec::new(alloc);
        if let Err(AllocFailed { value }) = slots.push(Some(state)) {
            slots.destroy_empty();
            return Err((only(value), NoMemory));
        }
        match Table::new(alloc, &[0, 0], slots, &about) {
            Ok((table, seat)) => Ok((
                Turns { table },
                Pass {
                    who: 0,
                    seen: 0,
                    made: 0,
                    parts: ALL,
                    seat,
                },
            )),
            Err(Refused { slots }) => Err((last_of(slots), NoMemory)),
        }
    }

    /// Takes the turn by one exchange. `Taken` comes exactly where that exchange found the turn
    /// taken.
    pub fn try_take(&self, pass: &mut Pass<S>) -> Result<Held<S>, Taken>
        requires { IsIdle (table_of self.now) pass.old }
        ensures turn { OnOk result (IsAtTurn (table_of self.now) pass.new) }
        ensures value { IfOk result (λ h.
            HasTurn S.stands_for S.book (view_of pass.old) h.state (view_of pass.new)) }
        ensures idle { OnErr result (IsIdle (table_of self.now) pass.new) }
        ensures found { IfErr result (λ t. HasMissed (view_of pass.old) t.word (view_of pass.new)) }
    {
        let shared = &self.table.shared;
        let word = shared.compare_exchange::<Take>(&mut pass.seat, TURN, 0, 1);
        if word != 0 {
            return Err(Taken { word });
        }
        let state = only(shared.exchange(&mut pass.seat, SLOT, None));
        pass.seen = shared.load::<Load>(&mut pass.seat, LENGTH) as u32;
        Ok(Held { state })
    }

    /// Waits for the turn.
    pub fn take<R: Wait>(&self, rt: &R, pass: &mut Pass<S>) -> Held<S>
        requires { IsIdle (table_of self.now) pass.old }
        ensures turn { IsAtTurn (table_of self.now) pass.new }
        ensures value { HasTurnLater S.stands_for S.book pass.old result.state pass.new }
    {
        for _ in rt.forever() {
            match self.try_take(pass) {
                Ok(held) => return held,
                Err(Taken { word: _ }) => self.table.shared.park(rt, TURN, 1),
            }
        }
        unreachable!()
    }

    /// Notes the value's history as it now is. It has no entry more than when it was last noted, or
    /// one more: that one's position is then the pass's own. Where the value now names the pass's
    /// caller as the first that quit, and named nobody before, the pass has its mark.
    pub fn note(&self, pass: &mut Pass<S>, held: &mut Held<S>)
        requires turn { IsAtTurn (table_of self.now) pass.old }
        requires value { MayNote S.stands_for S.book (view_of pass.old) held.old.state }
        ensures turn { IsAtTurn (table_of self.now) pass.new }
        ensures view { view_of pass.new ≡ noted (S.book held.old.state) (view_of pass.old) }
        ensures value { held.new.state ≡ held.old.state }
        ensures noted { IsAsNoted S.stands_for S.book (view_of pass.new) held.new.state }
        ensures proper { IsProper (view_of pass.new) }
    {
        let count = held.state.count();
        if count > u64::from(pass.seen) {
            pass.made += 1;
        }
        self.note_as::<Brand>(&mut pass.seat, &held.state, count);
        pass.seen = count as u32;
    }

    fn note_as<N: Noting>(&self, seat: &mut Seat<Option<S>, View>, _value: &S, count: u64)
        requires value { N.book ≡ S.book _value.now }
        requires table { seat.old.table_id ≡ table_of self.now }
        requires turn { seat.old.me.0.phase ≡ Loaded }
        requires next { IsNext seat.old.me.0 N.book }
        requires count { count ≡ length N.book.entries }
        ensures seat { seat.new.table_id ≡ seat.old.table_id }
        ensures me { seat.new.me ≡ (noted N.book seat.old.me.0, seat.old.me.1) }
        ensures proper { IsProper seat.new.me.0 }
    {
        self.table.shared.store::<Note<N>>(seat, LENGTH, count);
    }

    /// Gives the turn back, with the value as it was last noted.
    pub fn give(&self, pass: &mut Pass<S>, held: Held<S>)
        requires turn { IsAtTurn (table_of self.now) pass.old }
        requires value { IsAsNoted S.stands_for S.book (view_of pass.old) held.state }
        ensures idle { IsIdle (table_of self.now) pass.new }
        ensures view { view_of pass.new ≡ in_phase Idle (view_of pass.old) }
    {
        let Held { state } = held;
        none(
            self.table
                .shared
                .exchange(&mut pass.seat, SLOT, Some(state)),
        );
        self.table.shared.store::<Give>(&mut pass.seat, TURN, 0);
        self.table.shared.wake_one(TURN);
    }

    /// Takes the last turn, and gives the value back. Where the pass has all parts, each position
    /// of the value's history is the pass's own.
    pub fn close<R: Wait>(self, rt: &R, mut pass: Pass<S>) -> S
        requires { IsIdle (table_of self) pass }
        ensures { HasClosed S.stands_for S.book (view_of pass) result }
    {
        let Held { state } = self.take(rt, &mut pass);
        let Pass {
            who: _,
            seen: _,
            made: _,
            parts: _,
            mut seat,
        } = pass;
        none(self.table.shared.exchange(&mut seat, SLOT, Some(state)));
        self.table.shared.store::<Close>(&mut seat, TURN, 1);
        self.into_value(seat)
    }

    fn into_value(self, seat: Seat<Option<S>, View>) -> S
        requires table { seat.table_id ≡ table_of self }
        requires closing { seat.me.0.phase ≡ Closing }
        ensures { HasClosed S.stands_for S.book seat.me.0 result }
    {
        let Turns { table } = self;
        let mut closed = table.close_with(seat);
        let state = only(closed.take(SLOT));
        closed.free();
        state
    }
}

fn none<S>(value: Option<S>)
    requires { value ≡ None }
{
    match value {
        Some(_) => unreachable!(),
        None => (),
    }
}

fn only<S>(value: Option<S>) -> S
    requires { IsSome value }
    ensures { value ≡ Some result }
{
    match value {
        Some(state) => state,
        None => unreachable!(),
    }
}

fn last_of<S>(mut slots: Vec<Option<S>>) -> S
    requires { (state : S) × (slots.items ≡ Some state ∷ []) }
    ensures { slots.items ≡ Some result ∷ [] }
{
    let Some(value) = slots.pop() else {
        unreachable!()
    };
    slots.destroy_empty();
    only(value)
}
