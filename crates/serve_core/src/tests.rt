// Scripts that are served. What is printed by clients is the same in every schedule.
ghost use Rattle.std.specs.Prelude.{◌≤◌, All, IfOk};
ghost use Rattle.script_core.specs.declared.line.Line.{Line};

use super::*;
use flash_core::Geometry;
use flash_sim::Chip;
use script_core::{Script, ScriptMode, parse_script};
use session_core::{Ended, Session};
use std::alloc::Global;
use std::process::Abort;
use std::sync::Wait;
use std::sync::atomic::{AtomicU64, Ordering};
use std::test::Fail;
use std::thread;
use std::thread::Threads;

const GEOMETRY: Geometry = Geometry {
    prog: 8,
    erase: 4096,
    units_per_area: 16,
};

const THREADS: ScriptMode = ScriptMode {
    threads: true,
    secure: false,
};

fn script_of(rt: &impl Abort, alloc: Global, text: &[u8]) -> Result<Script, Fail>
    ensures { IfOk result (All (λ (line : Line). 1 ≤ line.who)) }
{
    assert!(rt; text.len() < 0xFFFF_FFFF);
    let script = parse_script(alloc, text, THREADS)?;
    let are_clients = script.lines().iter().all(|line| line.who >= 1);
    assert!(rt; are_clients);
    Ok(script)
}

// A session over an erased chip.
fn session_over(rt: &impl Abort, alloc: Global, geometry: Geometry) -> Result<Session, Fail> {
    assert!(rt; geometry.is_valid());
    let image = vec![in alloc; 0xFFu8; geometry.size() as usize]?;
    Ok(Session::plain(alloc, Chip::new(geometry, image), 32)?)
}

// What the clients of a script print, where all is served.
fn printed<R: Threads + Wait + Abort + Sync, G: Gate>(
    rt: &R,
    alloc: Global,
    text: &[u8],
    gate: &G,
) -> Result<Vec<u8>, Fail> {
    let script = script_of(rt, alloc, text)?;
    let session = session_over(rt, alloc, GEOMETRY)?;
    let (session, outcome) = serve(rt, alloc, session, &script, gate);
    drop(session);
    let is_whole = outcome.ended == Ended::Whole;
    assert!(rt; is_whole);
    Ok(outcome.journal.by_client(alloc)?)
}

// A piece so often behind a text.
fn repeat(text: &mut Vec<u8>, piece: &[u8], times: usize) -> Result<(), Fail> {
    for _ in 0..times {
        text.extend_from_slice(piece)?;
    }
    Ok(())
}

// Client 1 sets a value of 4,000 bytes in pieces and reads it; each other client sets a byte and
// reads it.
fn four_clients(alloc: Global) -> Result<Vec<u8>, Fail> {
    let mut text = Vec::new(alloc);
    text.extend_from_slice(b"1 start big 4000 -\n")?;
    for _ in 0..40 {
        text.extend_from_slice(b"1 add ")?;
        repeat(&mut text, b"11", 100)?;
        text.push(b'\n')?;
    }
    text.extend_from_slice(b"1 finish\n2 set k2 02 -\n2 get k2\n4 set k4 04 -\n1 get big\n")?;
    text.extend_from_slice(b"3 set k3 03 -\n4 get k4\n3 get k3\n")?;
    Ok(text)
}

fn four_replies(alloc: Global) -> Result<Vec<u8>, Fail> {
    let mut text = Vec::new(alloc);
    for i in 1..43_u32 {
        let line = format!(in alloc; "1 {i} ok\n")?;
        text.extend_from_slice(line.as_bytes())?;
    }
    text.extend_from_slice(b"1 43 ok ")?;
    repeat(&mut text, b"1", 8000)?;
    text.extend_from_slice(b"\n2 1 ok\n2 2 ok 02\n3 1 ok\n3 2 ok 03\n4 1 ok\n4 2 ok 04\n")?;
    Ok(text)
}

#[test]
fn four_clients_print_the_same_in_every_schedule(rt: HostRuntime) -> Result<(), Fail> {
    let alloc = rt.alloc();
    let script = four_clients(alloc)?;
    let wanted = four_replies(alloc)?;
    let text = printed(&rt, alloc, &script, &OpenGate)?;
    assert_eq!(rt; text.as_slice(), wanted.as_slice());
    Ok(())
}

// The set of each client stands in the way of the others', which wait for its end.
#[test]
fn sets_wait_for_one_another(rt: HostRuntime) -> Result<(), Fail> {
    let alloc = rt.alloc();
    let script = b"1 start k 2 -\n2 start k 1 -\n3 set k 03 -\n1 add 01\n2 add 02\n1 add 01\n\
        2 finish\n1 finish\n3 reset\n4 get j\n";
    let wanted = b"1 1 ok\n1 2 ok\n1 3 ok\n1 4 ok\n2 1 ok\n2 2 ok\n2 3 ok\n3 1 ok\n3 2 ok\n\
        4 1 error 1 not-found\n";
    let text = printed(&rt, alloc, script, &OpenGate)?;
    assert_eq!(rt; text.as_slice(), wanted.as_slice());
    Ok(())
}

#[test]
fn a_script_with_no_lines_prints_nothing(rt: HostRuntime) -> Result<(), Fail> {
    let text = printed(&rt, rt.alloc(), b"", &OpenGate)?;
    assert!(rt; text.is_empty());
    Ok(())
}

// It holds the first call of client 1 until the first of client 2 is made, for so many turns at
// most.
#[derive(Drop)]
struct Meeting {
    turns: u32,
    is_passed: AtomicU64,
    has_met: AtomicU64,
}

impl Gate for Meeting {
    fn before(&self, who: u8, index: u32) {
        if who != 1 || index != 1 {
            return;
        }
        for _turn in 0..self.turns {
            if self.is_passed.load(Ordering::SeqCst) == 1 {
                self.has_met.store(1, Ordering::SeqCst);
                return;
            }
            thread::yield_now();
        }
    }

    fn after(&self, who: u8, index: u32) {
        if who == 2 && index == 1 {
            self.is_passed.store(1, Ordering::SeqCst);
        }
    }
}

// Two clients are at work at once: else the call of client 1, which comes first, would be held in
// vain.
#[test]
fn two_clients_are_served_at_once(rt: HostRuntime) -> Result<(), Fail> {
    let gate = Meeting {
        turns: 100_000_000,
        is_passed: AtomicU64::new(0),
        has_met: AtomicU64::new(0),
    };
    let text = printed(&rt, rt.alloc(), b"1 get a\n2 get a\n", &gate)?;
    let wanted = b"1 1 error 1 not-found\n2 1 error 1 not-found\n";
    assert_eq!(rt; text.as_slice(), wanted.as_slice());
    assert_eq!(rt; gate.has_met.load(Ordering::SeqCst), 1);
    Ok(())
}
