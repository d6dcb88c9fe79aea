ghost use Rattle.std.specs.Prelude.{◌≡◌, ◌+◌, ◌<◌, ◌≤◌, [], length, IfOk};
ghost use Rattle.turn_lock.specs.Tables.{table_of};
ghost use Rattle.turn_lock.specs.Passes.{view_of, AreIdle, AreReady, IsIdle, IsReady};

use super::*;
use kv_model::{Call, Entry, Reply};
use std::alloc::Global;
use std::process::Abort;
use std::sync::Wait;
use std::test::Fail;
use std::thread::{Threads, join};

// A diary, in which callers write pages in turn.
#[derive(Drop)]
struct Diary {
    pages: Vec<Entry>,
    quitter: Option<u8>,
}

impl Booked for Diary {
    ghost use Rattle.std.specs.Prelude.{◌≡◌, refl};
    ghost use Rattle.turn_lock.specs.Books.{no_opening, unopened};

    ghost book = { λ d. unopened d.pages.items d.quitter };

    ghost stands_for = { λ d opening. opening ≡ no_opening };

    ghost begins = { λ d empty. refl };

    fn count(&self) -> u64 {
        self.pages.len() as u64
    }
}

impl Diary {
    ghost use mathlib.Core.List.{IsPrefix};

    // Writes the next page, if there is memory for it.
    #[tactic(auto, using(crate::proofs::Diaries::same, crate::proofs::Diaries::more))]
    fn write(&mut self, who: u8)
        ensures begins { IsPrefix self.old.pages.items self.new.pages.items }
        ensures one { length self.new.pages.items ≤ length self.old.pages.items + 1 }
        ensures quitter { self.new.quitter ≡ self.old.quitter }
    {
        if self.pages.reserve(1).is_err() {
            return;
        }
        let page = Entry {
            seq: u32::try_from(self.pages.len() + 1).unwrap_or(0),
            who,
            index: 1,
            call: Call::Finish,
            reply: Reply::Done,
        };
        self.pages.push_reserved(page);
    }
}

impl Diary {
    ghost use Rattle.std.specs.Prelude.{◌⊎◌, Some, None};

    // Names the caller that quits, if it is the first.
    fn quit(&mut self, who: u8)
        ensures pages { self.new.pages.items ≡ self.old.pages.items }
        ensures quitter { (self.new.quitter ≡ self.old.quitter)
            ⊎ ((self.old.quitter ≡ None) × (self.new.quitter ≡ Some who)) }
    {
        if self.quitter.is_none() {
            self.quitter = Some(who);
        }
    }
}

// Quits in a turn.
fn quit_in_turn<R: Wait>(rt: &R, turns: &Turns<Diary>, pass: &mut Pass<Diary>)
    requires { IsIdle (table_of turns.now) pass.old }
    ensures { IsIdle (table_of turns.now) pass.new }
{
    let mut held = turns.take(rt, pass);
    let who = pass.who();
    held.state().quit(who);
    turns.note(pass, &mut held);
    turns.give(pass, held);
}

// Writes a page in a turn.
fn write_page<R: Wait>(rt: &R, turns: &Turns<Diary>, pass: &mut Pass<Diary>)
    requires { IsReady (table_of turns.now) 1 pass.old }
    ensures idle { IsIdle (table_of turns.now) pass.new }
    ensures parts { (view_of pass.new).parts ≡ (view_of pass.old).parts }
    ensures own { length (view_of pass.new).own ≤ length (view_of pass.old).own + 1 }
{
    let mut held = turns.take(rt, pass);
    let who = pass.who();
    held.state().write(who);
    turns.note(pass, &mut held);
    turns.give(pass, held);
}

// Writes so many pages, each in a turn of its own.
fn write_pages<R: Wait>(
    rt: &R,
    turns: &Turns<Diary>,
    mut pass: Pass<Diary>,
    pages: u32,
) -> Pass<Diary>
    requires { IsReady (table_of turns.now) pages pass }
    ensures { IsIdle (table_of turns.now) result }
{
    for _round in 0..pages {
        write_page(rt, turns, &mut pass);
    }
    pass
}

// Two callers in threads of their own.
fn two_write<R: Threads + Wait + Sync>(
    rt: &R,
    turns: &Turns<Diary>,
    one: Pass<Diary>,
    other: Pass<Diary>,
) -> (Pass<Diary>, Pass<Diary>)
    requires one { IsReady (table_of turns.now) 250 one }
    requires other { IsReady (table_of turns.now) 250 other }
    ensures one { IsIdle (table_of turns.now) result.0 }
    ensures other { IsIdle (table_of turns.now) result.1 }
{
    join(
        rt,
        || -> Pass<Diary>
            requires { IsReady (table_of turns.now) 250 one }
            ensures { IsIdle (table_of turns.entry.now) result }
        { write_pages(rt, turns, one, 250) },
        || -> Pass<Diary>
            requires { IsReady (table_of turns.now) 250 other }
            ensures { IsIdle (table_of turns.entry.now) result }
        { write_pages(rt, turns, other, 250) },
    )
}

// Four callers, with 250 pages each. Their passes come back as one.
fn four_write<R: Threads + Wait + Sync>(
    rt: &R,
    turns: &Turns<Diary>,
    mut one: Pass<Diary>,
) -> Pass<Diary>
    requires idle { IsIdle (table_of turns.now) one }
    requires parts { (view_of one).parts ≡ 65536 }
    requires own { (view_of one).own ≡ [] }
    ensures { IsIdle (table_of turns.now) result }
{
    let two = turns.split(&mut one, 1, 250);
    let three = turns.split(&mut one, 2, 250);
    let four = turns.split(&mut one, 3, 250);
    let ((mut one, two), (three, four)) = join(
        rt,
        || -> (Pass<Diary>, Pass<Diary>)
            requires { AreReady (table_of turns.now) 250 one two }
            ensures { AreIdle (table_of turns.entry.now) result.0 result.1 }
        { two_write(rt, turns, one, two) },
        || -> (Pass<Diary>, Pass<Diary>)
            requires { AreReady (table_of turns.now) 250 three four }
            ensures { AreIdle (table_of turns.entry.now) result.0 result.1 }
        { two_write(rt, turns, three, four) },
    );
    turns.join(&mut one, two);
    turns.join(&mut one, three);
    turns.join(&mut one, four);
    one
}

fn opened(alloc: Global) -> Result<(Turns<Diary>, Pass<Diary>), Fail>
    ensures idle { IfOk result (λ t. IsIdle (table_of t.0) t.1) }
    ensures parts { IfOk result (λ t. (view_of t.1).parts ≡ 65536) }
    ensures own { IfOk result (λ t. (view_of t.1).own ≡ []) }
{
    let diary = Diary {
        pages: Vec::new(alloc),
        quitter: None,
    };
    match Turns::new(alloc, diary) {
        Ok(turns) => Ok(turns),
        Err((diary, _)) => {
            drop(diary);
            Err("ample memory".into())
        }
    }
}

fn callers(alloc: Global, diary: &Diary) -> Result<Vec<u8>, Fail> {
    let mut callers = Vec::new(alloc);
    for page in diary.pages.iter() {
        callers.push(page.who)?;
    }
    Ok(callers)
}

#[test]
fn passes_split_meet_and_join(rt: HostRuntime) -> Result<(), Fail> {
    let (turns, mut one) = opened(rt.alloc())?;
    assert_eq!(rt;
        (one.who(), one.seen(), one.made(), one.parts()),
        (0, 0, 0, 65_536)
    );
    let mut other = turns.split(&mut one, 7, 100);
    assert_eq!(rt;
        (other.who(), other.made(), other.parts(), one.parts()),
        (7, 0, 100, 65_436)
    );

    write_page(&rt, &turns, &mut one);
    write_page(&rt, &turns, &mut other);
    assert_eq!(rt;
        (one.seen(), one.made(), other.seen(), other.made()),
        (1, 1, 2, 1)
    );

    turns.meet(&mut one, &mut other);
    assert_eq!(rt;
        (one.seen(), one.made(), other.seen(), other.made()),
        (2, 1, 2, 1)
    );
    assert_eq!(rt; (one.parts(), other.parts()), (65_436, 100));

    turns.join(&mut one, other);
    assert_eq!(rt;
        (one.who(), one.seen(), one.made(), one.parts()),
        (0, 2, 2, 65_536)
    );
    let diary = turns.close(&rt, one);
    assert_eq!(rt; callers(rt.alloc(), &diary)?.as_slice(), [0, 7].as_slice());
    Ok(())
}

#[test]
fn a_taken_turn_is_found(rt: HostRuntime) -> Result<(), Fail> {
    let (turns, mut one) = opened(rt.alloc())?;
    let mut other = turns.split(&mut one, 1, 1);
    let held = turns.take(&rt, &mut one);
    let found = match turns.try_take(&mut other) {
        Ok(held) => {
            turns.give(&mut other, held);
            0
        }
        Err(Taken { word }) => word,
    };
    assert_eq!(rt; found, 1);
    turns.give(&mut one, held);
    let took = match turns.try_take(&mut other) {
        Ok(held) => {
            turns.give(&mut other, held);
            true
        }
        Err(_) => false,
    };
    assert!(rt; took);
    write_page(&rt, &turns, &mut other);
    assert_eq!(rt; (other.seen(), other.made()), (1, 1));
    turns.join(&mut other, one);
    let diary = turns.close(&rt, other);
    assert_eq!(rt; callers(rt.alloc(), &diary)?.as_slice(), [1].as_slice());
    Ok(())
}

// Each page has the number of its place, and each caller wrote its 250.
#[test]
fn four_threads_write_one_diary(rt: HostRuntime) -> Result<(), Fail> {
    let (turns, one) = opened(rt.alloc())?;
    let one = four_write(&rt, &turns, one);
    assert_eq!(rt; (one.made(), one.parts()), (1_000, 65_536));
    assert!(rt; one.seen() <= 1_000);
    let diary = turns.close(&rt, one);
    let mut written = [0u32; 4];
    for (place, page) in diary.pages.iter().enumerate() {
        assert_eq!(rt; page.seq as usize, place + 1);
        if let Some(count) = written.get_mut(page.who as usize) {
            *count = count.saturating_add(1);
        }
    }
    assert_eq!(rt; written, [250, 250, 250, 250]);
    Ok(())
}

#[test]
fn the_first_that_quits_is_named(rt: HostRuntime) -> Result<(), Fail> {
    let (turns, mut one) = opened(rt.alloc())?;
    let mut other = turns.split(&mut one, 7, 100);
    quit_in_turn(&rt, &turns, &mut other);
    quit_in_turn(&rt, &turns, &mut one);
    turns.join(&mut one, other);
    assert_eq!(rt; (one.made(), one.parts()), (0, 65_536));
    let diary = turns.close(&rt, one);
    assert_eq!(rt; diary.quitter, Some(7));
    Ok(())
}
