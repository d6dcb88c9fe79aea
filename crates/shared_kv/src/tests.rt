// Callers of a shared store in memory.
ghost use Rattle.std.specs.Prelude.{◌≡◌, ◌≢◌, ◌+◌, ◌<◌, ◌≤◌, IfOk, length};
ghost use Rattle.turn_lock.specs.Passes.{IsIdle};
ghost use Rattle.shared_kv.specs.Passes.{AreIdle, known, table_in};

use super::*;
use kv_memory::MemoryStore;
use kv_model::{Bytes, Call, Entry, Flags, Kv, NoMemory, Reply, perform};
use std::alloc::Global;
use std::process::Abort;
use std::sync::Wait;
use std::test::Fail;
use std::thread::{Threads, join};

type Shared = SharedKv<MemoryStore>;

type Caller = CallPass<MemoryStore>;

fn plain_store(alloc: Global) -> MemoryStore {
    MemoryStore::new(alloc, 32, 8, 4000)
}

// Shares a store.
fn shared(alloc: Global, store: MemoryStore) -> Result<(Shared, Caller), Fail>
    ensures idle { IfOk result (λ t. IsIdle (table_in t.0) t.1.pass) }
    ensures parts { IfOk result (λ t. (known t.1).parts ≡ 65536) }
    ensures own { IfOk result (λ t. length (known t.1).own ≡ 0) }
{
    match SharedKv::new(alloc, store) {
        Ok(shared) => Ok(shared),
        Err((store, _)) => {
            drop(store);
            Err("ample memory".into())
        }
    }
}

fn get(alloc: Global, key: &[u8]) -> Result<Call, NoMemory>
    ensures { IfOk result (λ call. call ≢ Call.Mount) }
{
    Ok(Call::Get {
        key: Bytes::new(alloc, key)?,
    })
}

fn set(alloc: Global, key: &[u8], value: &[u8]) -> Result<Call, NoMemory>
    ensures { IfOk result (λ call. call ≢ Call.Mount) }
{
    Ok(Call::Set {
        key: Bytes::new(alloc, key)?,
        value: Bytes::new(alloc, value)?,
        flags: Flags::NONE,
    })
}

fn start(alloc: Global, key: &[u8], size: u32) -> Result<Call, NoMemory>
    ensures { IfOk result (λ call. call ≢ Call.Mount) }
{
    Ok(Call::Start {
        key: Bytes::new(alloc, key)?,
        size,
        flags: Flags::NONE,
    })
}

// The calls of one round of a caller: a long write, beside reads of other keys, and others.
fn call_of(alloc: Global, who: u8, round: u8, step: u8) -> Result<Call, NoMemory>
    ensures { IfOk result (λ call. call ≢ Call.Mount) }
{
    let own = [b'a', who];
    let other = [b'a', round % 5];
    match step {
        0 => start(alloc, &own, 4),
        1 => get(alloc, &other),
        2 => Ok(Call::Add {
            value: Bytes::new(alloc, &[who, round])?,
        }),
        3 => Ok(Call::Add {
            value: Bytes::new(alloc, &[round, who])?,
        }),
        4 => Ok(Call::Finish),
        5 => set(alloc, &other, &[round]),
        6 => Ok(Call::IterOpen {
            n: 0,
            prefix: Bytes::new(alloc, b"a")?,
        }),
        7 => Ok(Call::Next { n: 0 }),
        8 => Ok(Call::Remove {
            key: Bytes::new(alloc, &other)?,
        }),
        _ => get(alloc, &own),
    }
}

// Makes so many rounds of calls, until one is not made.
fn work<R: Wait>(
    rt: &R,
    alloc: Global,
    shared: &Shared,
    mut pass: Caller,
    rounds: u8,
) -> (Caller, Option<Fault>)
    requires { IsIdle (table_in shared.now) pass.pass }
    ensures { IsIdle (table_in shared.now) result.0.pass }
{
    let who = pass.who();
    for round in 0..rounds {
        for step in 0..10u8 {
            let Ok(call) = call_of(alloc, who, round, step) else {
                return (pass, Some(Fault::Memory));
            };
            if let Err(fault) = shared.call(rt, &mut pass, call) {
                return (pass, Some(fault));
            }
        }
    }
    (pass, None)
}

type Worked = ((Caller, Option<Fault>), (Caller, Option<Fault>));

// Two callers in threads of their own.
fn two_work<R: Threads + Wait + Sync>(
    rt: &R,
    alloc: Global,
    shared: &Shared,
    one: Caller,
    other: Caller,
) -> Worked
    requires { AreIdle (table_in shared.now) one other }
    ensures { AreIdle (table_in shared.now) result.0.0 result.1.0 }
{
    join(
        rt,
        || -> (Caller, Option<Fault>)
            requires { IsIdle (table_in shared.now) one.pass }
            ensures { IsIdle (table_in shared.entry.now) result.0.pass }
        { work(rt, alloc, shared, one, 250) },
        || -> (Caller, Option<Fault>)
            requires { IsIdle (table_in shared.now) other.pass }
            ensures { IsIdle (table_in shared.entry.now) result.0.pass }
        { work(rt, alloc, shared, other, 250) },
    )
}

// Four callers. Their passes come back as one, and whether each made all its calls.
fn four_work<R: Threads + Wait + Sync>(
    rt: &R,
    alloc: Global,
    shared: &Shared,
    mut one: Caller,
) -> (Caller, bool)
    requires idle { IsIdle (table_in shared.now) one.pass }
    requires parts { (known one).parts ≡ 65536 }
    requires own { length (known one).own ≡ 0 }
    ensures { IsIdle (table_in shared.now) result.0.pass }
{
    let two = shared.split(&mut one, 2, 2500);
    let three = shared.split(&mut one, 3, 2500);
    let four = shared.split(&mut one, 4, 2500);
    let (((mut one, a), (two, b)), ((three, c), (four, d))) = join(
        rt,
        || -> Worked
            requires { AreIdle (table_in shared.now) one two }
            ensures { AreIdle (table_in shared.entry.now) result.0.0 result.1.0 }
        { two_work(rt, alloc, shared, one, two) },
        || -> Worked
            requires { AreIdle (table_in shared.now) three four }
            ensures { AreIdle (table_in shared.entry.now) result.0.0 result.1.0 }
        { two_work(rt, alloc, shared, three, four) },
    );
    shared.join(&mut one, two);
    shared.join(&mut one, three);
    shared.join(&mut one, four);
    let all = a.is_none() && b.is_none() && c.is_none() && d.is_none();
    (one, all)
}

// Whether the entries are numbered, over all and for each caller, and the plain program gives the
// same replies to the same calls.
fn replays(rt: &impl Abort, alloc: Global, entries: &[Entry]) -> Result<bool, Fail> {
    let mut store = plain_store(alloc);
    let mut counts = [0u32; 256];
    for (place, entry) in entries.iter().enumerate() {
        let count = &mut counts[entry.who as usize];
        *count = count.saturating_add(1);
        let is_numbered = entry.seq as usize == place + 1 && entry.index == *count;
        let is_mount = matches!(entry.call, Call::Mount);
        assert!(rt; !is_mount);
        let reply = perform(alloc, &mut store, entry.who, &entry.call)?;
        if !is_numbered || reply != entry.reply {
            return Ok(false);
        }
    }
    Ok(true)
}

// Ten thousand calls of four threads are one history of the plain program.
#[test]
fn four_threads_make_one_history(rt: HostRuntime) -> Result<(), Fail> {
    let alloc = rt.alloc();
    let (shared, one) = shared(alloc, plain_store(alloc))?;
    let (one, all) = four_work(&rt, alloc, &shared, one);
    assert!(rt; all);
    assert_eq!(rt; (one.made(), one.parts()), (10_000, 65_536));
    let (store, journal) = shared.into_parts(&rt, one);
    drop(store);
    assert_eq!(rt; journal.entries().len(), 10_000);
    assert!(rt; replays(&rt, alloc, journal.entries())?);
    Ok(())
}

// A start, a set and a get of one key.
fn three_calls(alloc: Global, key: &[u8]) -> Result<(Call, Call, Call), Fail>
    ensures first { IfOk result (λ calls. calls.0 ≢ Call.Mount) }
    ensures second { IfOk result (λ calls. calls.1 ≢ Call.Mount) }
    ensures third { IfOk result (λ calls. calls.2 ≢ Call.Mount) }
{
    let start = start(alloc, key, 4)?;
    let set = set(alloc, key, &[2])?;
    let get = get(alloc, key)?;
    Ok((start, set, get))
}

// A store with one key, whose value is one byte.
fn store_with(alloc: Global, key: &[u8]) -> Result<MemoryStore, Fail> {
    let mut store = plain_store(alloc);
    store.set(1, key, &[1], Flags::NONE)?;
    Ok(store)
}

// The answer is the one byte of that value.
fn is_one_byte(answer: &Result<Answer, Fault>, seq: u32) -> bool {
    match answer {
        Ok(
            Answer {
                seq: at,
                reply: Reply::Value { bytes },
            },
        ) => *at == seq && bytes.as_slice() == [1].as_slice(),
        _ => false,
    }
}

// An open set stands in the way of another caller's write, and of no read.
#[test]
fn an_open_set_stands_in_the_way_of_writes_alone(rt: HostRuntime) -> Result<(), Fail> {
    let alloc = rt.alloc();
    let (start, set, get) = three_calls(alloc, b"k")?;
    let (shared, mut pass) = shared(alloc, store_with(alloc, b"k")?)?;
    let mut one = shared.split(&mut pass, 1, 10);
    let mut two = shared.split(&mut pass, 2, 10);
    let started = shared.try_call(&mut one, start);
    let written = shared.try_call(&mut two, set);
    let got = shared.try_call(&mut two, get);
    let seen = (one.seen(), two.seen(), two.made());
    let (_, journal) = shared.into_parts(&rt, pass);
    assert_eq!(rt; started, done(1));
    assert_eq!(rt; written, busy(1, 1));
    assert!(rt; is_one_byte(&got, 2));
    assert_eq!(rt; seen, (1, 2, 1));
    assert_eq!(rt; journal.entries().len(), 2);
    Ok(())
}

// A pass that saw three entries and one that saw five have both seen five when they met.
#[test]
fn passes_that_met_have_seen_as_much(rt: HostRuntime) -> Result<(), Fail> {
    let alloc = rt.alloc();
    let (shared, mut one) = shared(alloc, plain_store(alloc))?;
    let mut two = shared.split(&mut one, 2, 10);
    abort_so_often(&rt, &shared, &mut one, 3);
    abort_so_often(&rt, &shared, &mut two, 2);
    let before = (one.seen(), two.seen());
    shared.meet(&mut one, &mut two);
    let after = (one.seen(), two.seen());
    let (_, journal) = shared.into_parts(&rt, one);
    assert_eq!(rt; before, (3, 5));
    assert_eq!(rt; after, (5, 5));
    assert_eq!(rt; journal.entries().len(), 5);
    Ok(())
}

fn busy(owner: u8, position: u32) -> Result<Answer, Fault> {
    Err(Fault::Busy { owner, position })
}

fn done(seq: u32) -> Result<Answer, Fault> {
    Ok(Answer {
        seq,
        reply: Reply::Done,
    })
}

// The caller that quit first is named to each later call of any pass.
#[test]
fn after_a_caller_quit_no_call_is_made(rt: HostRuntime) -> Result<(), Fail> {
    let alloc = rt.alloc();
    let set = set(alloc, b"k", &[1])?;
    let (shared, mut one) = shared(alloc, plain_store(alloc))?;
    let mut second = shared.split(&mut one, 2, 10);
    assert_eq!(rt; shared.call(&rt, &mut one, set), done(1));
    assert_eq!(rt; shared.quit(&rt, &mut second), 2);
    assert_eq!(rt; shared.quit(&rt, &mut one), 2);
    let quit = Fault::Quit { by: 2 };
    assert_eq!(rt; shared.call(&rt, &mut one, Call::Abort), Err(quit));
    assert_eq!(rt; shared.try_call(&mut second, Call::Finish), Err(quit));
    shared.join(&mut one, second);
    let (mut store, journal) = shared.into_parts(&rt, one);
    assert_eq!(rt; journal.entries().len(), 1);
    assert_eq!(rt; store.info(b"k")?.size, 1);
    Ok(())
}

// Makes so many calls that are refused, since the caller has no set.
fn abort_so_often<R: Wait>(rt: &R, shared: &Shared, pass: &mut Caller, calls: u32) -> u32
    requires { IsIdle (table_in shared.now) pass.old.pass }
    ensures { IsIdle (table_in shared.now) pass.new.pass }
{
    let mut made = 0u32;
    for _call in 0..calls {
        if shared.call(rt, pass, Call::Abort).is_ok() {
            made = made.saturating_add(1);
        }
    }
    made
}

// All parts make 65,536 entries, and no more.
#[test]
fn a_pass_owns_as_many_positions_as_it_has_parts(rt: HostRuntime) -> Result<(), Fail> {
    let alloc = rt.alloc();
    let (shared, mut one) = shared(alloc, plain_store(alloc))?;
    assert_eq!(rt; abort_so_often(&rt, &shared, &mut one, 65_536), 65_536);
    assert_eq!(rt;
        (one.made(), one.parts(), one.seen()),
        (65_536, 65_536, 65_536)
    );
    assert_eq!(rt;
        shared.try_call(&mut one, Call::Abort),
        Err(Fault::JournalFull)
    );
    assert_eq!(rt;
        shared.call(&rt, &mut one, Call::Finish),
        Err(Fault::JournalFull)
    );
    let (_, journal) = shared.into_parts(&rt, one);
    assert_eq!(rt; journal.entries().len(), 65_536);
    Ok(())
}

type Four = (Caller, Caller, Caller, Caller);

// Four passes of one, each with the number that is given and the three behind it.
fn four_of(shared: &Shared, one: &mut Caller, who: u8) -> Four
    requires idle { IsIdle (table_in shared.now) one.old.pass }
    requires parts { 65000 ≤ (known one.old).parts }
    requires own { length (known one.old).own ≡ 0 }
    requires who { who < 200 }
    ensures idle { IsIdle (table_in shared.now) one.new.pass }
    ensures parts { (known one.new).parts + 400 ≡ (known one.old).parts }
    ensures own { length (known one.new).own ≡ 0 }
    ensures first { AreIdle (table_in shared.now) result.0 result.1 }
    ensures second { AreIdle (table_in shared.now) result.2 result.3 }
{
    (
        shared.split(one, who, 100),
        shared.split(one, who + 1, 100),
        shared.split(one, who + 2, 100),
        shared.split(one, who + 3, 100),
    )
}

// Four passes meet, each with each.
fn four_meet(shared: &Shared, four: &mut Four)
    requires first { AreIdle (table_in shared.now) four.old.0 four.old.1 }
    requires second { AreIdle (table_in shared.now) four.old.2 four.old.3 }
    ensures first { AreIdle (table_in shared.now) four.new.0 four.new.1 }
    ensures second { AreIdle (table_in shared.now) four.new.2 four.new.3 }
{
    shared.meet(&mut four.0, &mut four.1);
    shared.meet(&mut four.2, &mut four.3);
    shared.meet(&mut four.0, &mut four.2);
    shared.meet(&mut four.1, &mut four.3);
    shared.meet(&mut four.0, &mut four.3);
    shared.meet(&mut four.1, &mut four.2);
}

// Each of four passes meets each of four others.
fn fours_meet(shared: &Shared, one: &mut Four, other: &mut Four)
    requires one { AreIdle (table_in shared.now) one.old.0 one.old.1
        × AreIdle (table_in shared.now) one.old.2 one.old.3 }
    requires other { AreIdle (table_in shared.now) other.old.0 other.old.1
        × AreIdle (table_in shared.now) other.old.2 other.old.3 }
    ensures one { AreIdle (table_in shared.now) one.new.0 one.new.1
        × AreIdle (table_in shared.now) one.new.2 one.new.3 }
    ensures other { AreIdle (table_in shared.now) other.new.0 other.new.1
        × AreIdle (table_in shared.now) other.new.2 other.new.3 }
{
    shared.meet(&mut one.0, &mut other.0);
    shared.meet(&mut one.1, &mut other.1);
    shared.meet(&mut one.2, &mut other.2);
    shared.meet(&mut one.3, &mut other.3);
}

// Eight passes make one call, two calls and so on. Once they met they have seen all calls.
#[test]
fn eight_passes_tell_each_other_what_they_have_seen(rt: HostRuntime) -> Result<(), Fail> {
    let alloc = rt.alloc();
    let (shared, mut pass) = shared(alloc, plain_store(alloc))?;
    let mut one = four_of(&shared, &mut pass, 1);
    let mut other = four_of(&shared, &mut pass, 5);
    abort_so_often(&rt, &shared, &mut one.0, 1);
    abort_so_often(&rt, &shared, &mut one.1, 2);
    abort_so_often(&rt, &shared, &mut other.0, 3);
    abort_so_often(&rt, &shared, &mut other.3, 4);
    four_meet(&shared, &mut one);
    four_meet(&shared, &mut other);
    assert_eq!(rt;
        (one.0.seen(), one.1.seen(), one.2.seen(), one.3.seen()),
        (3, 3, 3, 3)
    );
    fours_meet(&shared, &mut one, &mut other);
    assert_eq!(rt;
        (one.0.seen(), one.1.seen(), one.2.seen(), one.3.seen()),
        (10, 10, 10, 10)
    );
    assert_eq!(rt;
        (
            other.0.seen(),
            other.1.seen(),
            other.2.seen(),
            other.3.seen()
        ),
        (10, 10, 10, 10)
    );
    assert_eq!(rt; (pass.seen(), other.3.made(), other.3.who()), (0, 4, 8));
    let (_, journal) = shared.into_parts(&rt, pass);
    assert_eq!(rt; journal.entries().len(), 10);
    Ok(())
}

// Makes calls until one is not made, and then says why.
fn until_refused<R: Wait>(rt: &R, shared: &Shared, mut pass: Caller) -> (Caller, Option<Fault>)
    requires { IsIdle (table_in shared.now) pass.pass }
    ensures { IsIdle (table_in shared.now) result.0.pass }
{
    for _call in 0..60_000 {
        if let Err(fault) = shared.call(rt, &mut pass, Call::Abort) {
            return (pass, Some(fault));
        }
    }
    (pass, None)
}

// Two callers make calls while a third makes some and quits. The two are told so, or have no part
// left.
fn quit_beside<R: Threads + Wait + Sync>(
    rt: &R,
    shared: &Shared,
    one: Caller,
    two: Caller,
    three: Caller,
) -> ((Caller, Option<Fault>), ((Caller, Option<Fault>), Caller))
    requires first { AreIdle (table_in shared.now) one two }
    requires third { IsIdle (table_in shared.now) three.pass }
    ensures first { AreIdle (table_in shared.now) result.0.0 result.1.0.0 }
    ensures third { IsIdle (table_in shared.now) result.1.1.pass }
{
    join(
        rt,
        || -> (Caller, Option<Fault>)
            requires { IsIdle (table_in shared.now) one.pass }
            ensures { IsIdle (table_in shared.entry.now) result.0.pass }
        { until_refused(rt, shared, one) },
        || -> ((Caller, Option<Fault>), Caller)
            requires { AreIdle (table_in shared.now) two three }
            ensures { AreIdle (table_in shared.entry.now) result.0.0 result.1 }
        {
            join(
                rt,
                || -> (Caller, Option<Fault>)
                    requires { IsIdle (table_in shared.now) two.pass }
                    ensures { IsIdle (table_in shared.entry.now) result.0.pass }
                { until_refused(rt, shared, two) },
                || -> Caller
                    requires { IsIdle (table_in shared.now) three.pass }
                    ensures { IsIdle (table_in shared.entry.now) result.pass }
                { quit_after_some(rt, shared, three) },
            )
        },
    )
}

// Makes some calls, and quits.
fn quit_after_some<R: Wait>(rt: &R, shared: &Shared, mut pass: Caller) -> Caller
    requires { IsIdle (table_in shared.now) pass.pass }
    ensures { IsIdle (table_in shared.now) result.pass }
{
    abort_so_often(rt, shared, &mut pass, 20);
    shared.quit(rt, &mut pass);
    pass
}

#[test]
fn callers_are_told_that_another_quit(rt: HostRuntime) -> Result<(), Fail> {
    let alloc = rt.alloc();
    let (shared, mut pass) = shared(alloc, plain_store(alloc))?;
    let one = shared.split(&mut pass, 1, 500);
    let two = shared.split(&mut pass, 2, 500);
    let three = shared.split(&mut pass, 9, 500);
    let ((one, a), ((two, b), three)) = quit_beside(&rt, &shared, one, two, three);
    let quit = Some(Fault::Quit { by: 9 });
    let full = Some(Fault::JournalFull);
    assert!(rt; a == quit || a == full && one.made() == 500);
    assert!(rt; b == quit || b == full && two.made() == 500);
    assert_eq!(rt; three.made(), 20);
    shared.join(&mut pass, one);
    shared.join(&mut pass, two);
    shared.join(&mut pass, three);
    let made = pass.made();
    let (_, journal) = shared.into_parts(&rt, pass);
    assert_eq!(rt; journal.entries().len(), made as usize);
    assert!(rt; replays(&rt, alloc, journal.entries())?);
    Ok(())
}
