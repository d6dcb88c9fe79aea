// Worked examples of the plain store, over a store in memory.
ghost use Rattle.std.specs.Prelude.{◌≢◌, ◌<◌, All, length};
ghost use Rattle.kv_model.specs.Orders.{Line};

use crate::{MemoryStore, run_calls};
use journal_core::Journal;
use kv_model::{Bytes, Call, Flags, Info, Kv, KvError};
use std::alloc::Global;
use std::process::Abort;
use std::test::Fail;

fn copied(rt: &impl Abort, alloc: Global, bytes: &[u8]) -> Bytes {
    Bytes::new(alloc, bytes).expect(rt, "memory")
}

fn get(rt: &impl Abort, alloc: Global, key: &[u8]) -> Call
    ensures { result ≢ Call.Mount }
{
    Call::Get {
        key: copied(rt, alloc, key),
    }
}

fn info(rt: &impl Abort, alloc: Global, key: &[u8]) -> Call
    ensures { result ≢ Call.Mount }
{
    Call::Info {
        key: copied(rt, alloc, key),
    }
}

fn part(rt: &impl Abort, alloc: Global, key: &[u8], offset: u32, count: u32) -> Call
    ensures { result ≢ Call.Mount }
{
    Call::Part {
        key: copied(rt, alloc, key),
        offset,
        count,
    }
}

fn set(rt: &impl Abort, alloc: Global, key: &[u8], value: &[u8], flags: Flags) -> Call
    ensures { result ≢ Call.Mount }
{
    Call::Set {
        key: copied(rt, alloc, key),
        value: copied(rt, alloc, value),
        flags,
    }
}

fn start(rt: &impl Abort, alloc: Global, key: &[u8], size: u32) -> Call
    ensures { result ≢ Call.Mount }
{
    Call::Start {
        key: copied(rt, alloc, key),
        size,
        flags: Flags::NONE,
    }
}

fn add(rt: &impl Abort, alloc: Global, value: &[u8]) -> Call
    ensures { result ≢ Call.Mount }
{
    Call::Add {
        value: copied(rt, alloc, value),
    }
}

fn remove(rt: &impl Abort, alloc: Global, key: &[u8]) -> Call
    ensures { result ≢ Call.Mount }
{
    Call::Remove {
        key: copied(rt, alloc, key),
    }
}

fn open(rt: &impl Abort, alloc: Global, n: u8, prefix: &[u8]) -> Call
    ensures { result ≢ Call.Mount }
{
    Call::IterOpen {
        n,
        prefix: copied(rt, alloc, prefix),
    }
}

// Whether a run of calls prints this.
fn prints(
    rt: &impl Abort,
    alloc: Global,
    store: &mut MemoryStore,
    lines: &[(u8, Call)],
    wanted: &str,
) -> bool
    requires no_mounts { All (λ (line : Line). line.1 ≢ Call.Mount) lines.now }
    requires numbers { length lines.now < 4294967296 }
{
    let mut journal = Journal::new(alloc);
    assert!(rt; run_calls(alloc, store, lines, &mut journal) == Ok(()));
    let text = journal.text(alloc).expect(rt, "memory");
    text.as_slice() == wanted.as_bytes()
}

// A value is read as it was set, also an empty one, and a write-once key stands.
#[test]
fn values_are_read_as_they_were_set(rt: HostRuntime) -> Result<(), Fail> {
    let alloc = rt.alloc();
    let lines = [
        (1u8, set(&rt, alloc, b"j", b"\x00\xff", Flags::NONE)),
        (1u8, get(&rt, alloc, b"j")),
        (2u8, set(&rt, alloc, b"k", b"", Flags::NONE)),
        (2u8, get(&rt, alloc, b"k")),
        (2u8, info(&rt, alloc, b"k")),
        (2u8, part(&rt, alloc, b"k", 0, 4)),
        (2u8, part(&rt, alloc, b"k", 1, 1)),
        (3u8, set(&rt, alloc, b"l", b"\x01", Flags::WRITE_ONCE)),
        (3u8, set(&rt, alloc, b"l", b"\x02", Flags::NONE)),
        (3u8, remove(&rt, alloc, b"l")),
        (3u8, get(&rt, alloc, b"l")),
        (3u8, set(&rt, alloc, b"m", b"\x01", Flags::CONFIDENTIAL)),
        (3u8, get(&rt, alloc, b"m")),
        (4u8, set(&rt, alloc, b"TDBS", b"", Flags::NONE)),
        (4u8, set(&rt, alloc, b"a/b", b"", Flags::NONE)),
    ];
    let wanted = "1 1 ok\n1 2 ok 00ff\n2 1 ok\n2 2 ok -\n2 3 ok 0 -\n2 4 ok -\n\
        2 5 error 4 invalid-size\n3 1 ok\n3 2 error 5 write-protected\n\
        3 3 error 5 write-protected\n3 4 ok 01\n3 5 error 3 invalid-flags\n\
        3 6 error 1 not-found\n4 1 error 2 invalid-key\n4 2 error 2 invalid-key\n";
    let mut store = MemoryStore::new(alloc, 32, 8, 65_496);
    assert!(rt; prints(&rt, alloc, &mut store, &lines, wanted));
    Ok(())
}

// While a set is active, reads see the old value, and others are refused as it says.
#[test]
fn old_value_stands_until_a_set_is_finished(rt: HostRuntime) -> Result<(), Fail> {
    let alloc = rt.alloc();
    let lines = [
        (1u8, set(&rt, alloc, b"k", b"\x01", Flags::NONE)),
        (1u8, start(&rt, alloc, b"k", 2)),
        (1u8, add(&rt, alloc, b"\xaa")),
        (2u8, get(&rt, alloc, b"k")),
        (1u8, add(&rt, alloc, b"\xbb")),
        (1u8, Call::Finish),
        (2u8, get(&rt, alloc, b"k")),
    ];
    let wanted = "1 1 ok\n1 2 ok\n1 3 ok\n2 1 ok 01\n1 4 ok\n1 5 ok\n2 2 ok aabb\n";
    let mut store = MemoryStore::new(alloc, 32, 8, 65_496);
    assert!(rt; prints(&rt, alloc, &mut store, &lines, wanted));
    Ok(())
}

// A set that is finished with bytes missing ends, and the old value stands.
#[test]
fn refusals_beside_an_active_set(rt: HostRuntime) -> Result<(), Fail> {
    let alloc = rt.alloc();
    let lines = [
        (1u8, set(&rt, alloc, b"k", b"\x01", Flags::NONE)),
        (1u8, start(&rt, alloc, b"k", 2)),
        (2u8, start(&rt, alloc, b"j", 1)),
        (1u8, start(&rt, alloc, b"k", 1)),
        (2u8, add(&rt, alloc, b"\x00")),
        (1u8, add(&rt, alloc, b"\xaa\xbb\xcc")),
        (1u8, add(&rt, alloc, b"\xaa")),
        (1u8, Call::Finish),
        (2u8, get(&rt, alloc, b"k")),
        (2u8, set(&rt, alloc, b"j", b"\x05", Flags::NONE)),
        (2u8, get(&rt, alloc, b"j")),
    ];
    let wanted = "1 1 ok\n1 2 ok\n2 1 error 11 busy 1\n1 3 error 9 set-open\n\
        2 2 error 10 no-set\n1 4 error 4 invalid-size\n1 5 ok\n1 6 error 4 invalid-size\n\
        2 3 ok 01\n2 4 ok\n2 5 ok 05\n";
    let mut store = MemoryStore::new(alloc, 32, 1, 4056);
    assert!(rt; prints(&rt, alloc, &mut store, &lines, wanted));
    Ok(())
}

// An iterator gives the keys of the moment, by their bytes where all hashes are equal.
#[test]
fn iterator_gives_the_keys_of_the_moment(rt: HostRuntime) -> Result<(), Fail> {
    let alloc = rt.alloc();
    let lines = [
        (1u8, set(&rt, alloc, b"b", b"\x00", Flags::NONE)),
        (1u8, set(&rt, alloc, b"d", b"\x00", Flags::NONE)),
        (1u8, set(&rt, alloc, b"f", b"\x00", Flags::NONE)),
        (1u8, open(&rt, alloc, 0, b"")),
        (1u8, Call::Next { n: 0 }),
        (1u8, remove(&rt, alloc, b"d")),
        (1u8, set(&rt, alloc, b"a", b"\x00", Flags::NONE)),
        (1u8, set(&rt, alloc, b"e", b"\x00", Flags::NONE)),
        (1u8, Call::Next { n: 0 }),
        (1u8, Call::Next { n: 0 }),
        (1u8, Call::Next { n: 0 }),
        (1u8, Call::Next { n: 0 }),
        (1u8, Call::IterClose { n: 0 }),
        (1u8, Call::Next { n: 0 }),
    ];
    let wanted = "1 1 ok\n1 2 ok\n1 3 ok\n1 4 ok\n1 5 key b\n1 6 ok\n1 7 ok\n1 8 ok\n\
        1 9 key e\n1 10 key f\n1 11 end\n1 12 end\n1 13 ok\n1 14 error 8 no-iterator\n";
    let mut store = MemoryStore::new(alloc, 0, 8, 65_496);
    assert!(rt; prints(&rt, alloc, &mut store, &lines, wanted));
    Ok(())
}

// The number of hash bits orders the keys.
#[test]
fn hash_bits_order_the_keys(rt: HostRuntime) -> Result<(), Fail> {
    let orders: [(u8, [u8; 3]); 4] = [(4, *b"cba"), (8, *b"bca"), (32, *b"abc"), (0, *b"abc")];
    for (hash_bits, order) in orders {
        let mut store = MemoryStore::new(rt.alloc(), hash_bits.min(32), 8, 65_496);
        assert!(rt; store.set(1, b"a", b"", Flags::NONE) == Ok(()));
        assert!(rt; store.set(1, b"b", b"", Flags::NONE) == Ok(()));
        assert!(rt; store.set(1, b"c", b"", Flags::NONE) == Ok(()));
        assert!(rt; store.iter_open(1, 0, b"") == Ok(()));
        let mut out = [7u8; 128];
        for key in order {
            assert!(rt; store.next(1, 0, &mut out) == Ok(Some(1)));
            assert_eq!(rt; out[0], key);
            assert_eq!(rt; out[1], 0);
        }
        assert!(rt; store.next(1, 0, &mut out) == Ok(None));
    }
    Ok(())
}

// Of sixteen active iterators a further one is refused, and one of them can be opened anew.
#[test]
fn sixteen_iterators(rt: HostRuntime) -> Result<(), Fail> {
    let mut store = MemoryStore::new(rt.alloc(), 32, 8, 65_496);
    for n in 0..16u8 {
        assert!(rt; store.iter_open(1, n, b"") == Ok(()));
    }
    assert!(rt; store.iter_open(2, 0, b"") == Err(KvError::TooManyIterators));
    assert!(rt; store.iter_open(1, 3, b"") == Ok(()));
    assert!(rt; store.iter_close(1, 3) == Ok(()));
    assert!(rt; store.iter_open(2, 0, b"") == Ok(()));
    Ok(())
}

// A set that the room does not hold is refused with both sizes, the old value counted.
#[test]
fn full_stores(rt: HostRuntime) -> Result<(), Fail> {
    let cases: [(u32, u32, u32, u32); 2] = [
        (4056, 4031, 4064, 4088),
        (65_496, 65_471, 65_504, 65_528),
    ];
    for (room, most, needs, need) in cases {
        let mut store = MemoryStore::new(rt.alloc(), 32, 8, room.min(65_496));
        let value = vec![in rt.alloc(); 7u8; most as usize]?;
        let longer = vec![in rt.alloc(); 7u8; most as usize + 1]?;
        let full = KvError::MediaFull { need: needs, room };
        assert!(rt; store.set(1, b"k", &longer, Flags::NONE) == Err(full));
        assert!(rt; store.set(1, b"k", &value, Flags::NONE) == Ok(()));
        assert!(rt; store.set(1, b"k", b"", Flags::NONE) == Err(KvError::MediaFull { need, room }));
        let facts = Info {
            flags: Flags::NONE,
            size: most,
        };
        assert!(rt; store.info(b"k") == Ok(facts));
        assert!(rt; store.remove(1, b"k") == Ok(()));
        assert!(rt; store.info(b"k") == Err(KvError::NotFound));
    }
    Ok(())
}

// A remove that was begun takes the key away once it is finished, and a reset takes all away.
#[test]
fn removes_in_two_calls(rt: HostRuntime) -> Result<(), Fail> {
    let mut store = MemoryStore::new(rt.alloc(), 32, 8, 65_496);
    assert!(rt; store.set(1, b"k", b"v", Flags::NONE) == Ok(()));
    assert!(rt; store.remove_start(1, b"k") == Ok(()));
    assert!(rt; store.set_abort(1) == Ok(()));
    assert!(rt; store.info(b"k").is_ok());
    assert!(rt; store.remove_start(1, b"k") == Ok(()));
    assert!(rt; store.reset(2) == Err(KvError::Busy { owner: 1 }));
    assert!(rt; store.set_finish(1) == Ok(()));
    assert!(rt; store.info(b"k") == Err(KvError::NotFound));
    assert!(rt; store.set(1, b"k", b"v", Flags::NONE) == Ok(()));
    assert!(rt; store.reset(2) == Ok(()));
    assert!(rt; store.info(b"k") == Err(KvError::NotFound));
    Ok(())
}
