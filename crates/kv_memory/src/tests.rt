use super::*;
use journal_core::Journal;
use kv_model::{Bytes, Call, Flags, Key, Kv, KvError};
use std::alloc::Global;
use std::process::Abort;
use std::test::Fail;

fn key(rt: &impl Abort, bytes: &[u8]) -> Key {
    Key::new(bytes).expect(rt, "a key")
}

fn copied(rt: &impl Abort, alloc: Global, bytes: &[u8]) -> Bytes {
    Bytes::new(alloc, bytes).expect(rt, "memory")
}

// Each call takes the next refusal, where a call of its kind may be refused so, and is else done.
#[test]
fn silent_store_refuses_in_turn(rt: HostRuntime) -> Result<(), Fail> {
    let refusals = vec![in rt.alloc();
        KvError::Memory,
        KvError::WriteFault,
        KvError::NotFound,
        KvError::ReadFault,
    ]?;
    let mut store = SilentStore::new(refusals);
    let mut out = [7u8; 4];
    assert!(rt; store.get(b"k", 0, &mut out) == Err(KvError::ReadFault));
    assert_eq!(rt; out, [0u8; 4]);
    assert!(rt; store.remove(1, b"k") == Err(KvError::NotFound));
    // a call that writes nothing has no fault of a write
    assert!(rt; store.set_abort(1) == Ok(()));
    assert!(rt; store.set(1, b"k", b"v", Flags::NONE) == Err(KvError::Memory));
    assert!(rt; store.set(1, b"k", b"v", Flags::NONE) == Ok(()));
    Ok(())
}

// Each key has what it was given last, and none that was taken away.
#[test]
fn entries_keep_the_last_value(rt: HostRuntime) -> Result<(), Fail> {
    let mut entries = Entries::new(rt.alloc());
    for name in [b"b", b"a", b"c", b"a"] {
        entries.reserve_one().expect(&rt, "memory");
        entries.set(key(&rt, name), Flags::NONE, copied(&rt, rt.alloc(), name));
    }
    entries.remove(&key(&rt, b"b"));
    assert!(rt; entries.get(&key(&rt, b"b")).is_none());
    let kept = entries.get(&key(&rt, b"a")).expect(&rt, "the key");
    assert_eq!(rt; kept.value.as_slice(), b"a".as_slice());
    Ok(())
}

// The journal has the calls with their replies, and their numbers.
#[test]
fn run_notes_calls_and_replies(rt: HostRuntime) -> Result<(), Fail> {
    let refusals = vec![in rt.alloc(); KvError::NoSet, KvError::NotFound]?;
    let mut store = SilentStore::new(refusals);
    let lines = [
        (
            1u8,
            Call::Remove {
                key: copied(&rt, rt.alloc(), b"k"),
            },
        ),
        (2u8, Call::Finish),
        (1u8, Call::Abort),
    ];
    let mut journal = Journal::new(rt.alloc());
    assert!(rt; run_calls(rt.alloc(), &mut store, &lines, &mut journal) == Ok(()));
    assert_eq!(rt; journal.entries().len(), 3);
    Ok(())
}

// The second store is not asked where the first refuses.
#[test]
fn set_in_both_stops_at_a_refusal(rt: HostRuntime) -> Result<(), Fail> {
    let cases: [(bool, bool); 3] = [(true, false), (false, true), (false, false)];
    for (first_refuses, second_refuses) in cases {
        let mut one = vec![in rt.alloc(); KvError::Stopped]?;
        let mut other = vec![in rt.alloc(); KvError::NotFound]?;
        if !first_refuses {
            one.clear();
        }
        if !second_refuses {
            other.clear();
        }
        let mut first = SilentStore::new(one);
        let mut second = SilentStore::new(other);
        let wanted = if first_refuses {
            Err(PairRefusal::First {
                error: KvError::Stopped,
            })
        } else if second_refuses {
            Err(PairRefusal::Second {
                error: KvError::NotFound,
            })
        } else {
            Ok(())
        };
        assert!(rt; set_in_both(&mut first, &mut second, 1, b"k", b"v", Flags::NONE) == wanted);
    }
    Ok(())
}
