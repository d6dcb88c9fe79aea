// The plain store over chips and over devices that keep a log of their writes.
ghost use Rattle.std.specs.Prelude.{◌≤◌};

use super::*;
use flash_core::{Flash, Geometry, RecordFlash};
use flash_sim::Chip;
use kv_model::{Armable, Flags, Info, Kv, KvError, Pattern};
use std::alloc::Global;
use std::process::Abort;
use std::test::Fail;
use tdb_mount::mount_parts;

pub(crate) const fn one_unit(prog: u32, erase: u32) -> Geometry {
    Geometry {
        prog,
        erase,
        units_per_area: 1,
    }
}

fn mounted<F: Flash + Drop>(alloc: Global, flash: F, hash_bits: u8) -> Result<TdbStore<F>, Fail>
    requires { hash_bits ≤ 32 }
{
    match TdbStore::mount(alloc, flash, hash_bits) {
        Ok(store) => Ok(store),
        Err((_, error)) => Err(error)?,
    }
}

// A store over a chip that is erased.
pub(crate) fn fresh(
    rt: &impl Abort,
    alloc: Global,
    geometry: Geometry,
    hash_bits: u8,
) -> Result<TdbStore<Chip>, Fail> {
    assert!(rt; geometry.is_valid() && geometry.size() <= 131_072 && hash_bits <= 32);
    let image = vec![in alloc; 0xff; geometry.size() as usize]?;
    mounted(alloc, Chip::new(geometry, image), hash_bits)
}

// The value of a key, which has one byte.
fn byte_of<F: Flash>(store: &mut TdbStore<F>, key: &[u8]) -> Result<u8, KvError> {
    let mut buf = [0; 1];
    store.get(key, 0, &mut buf)?;
    Ok(buf[0])
}

// The next key of client 1's iterator 0, which has one byte.
fn next_key<F: Flash>(store: &mut TdbStore<F>) -> Result<Option<u8>, KvError> {
    let mut out = [0; 128];
    match store.next(1, 0, &mut out)? {
        Some(_) => Ok(Some(out[0])),
        None => Ok(None),
    }
}

// The active area, its version, where its records end, and whether the tail is clean.
fn log_of(
    rt: &impl Abort,
    alloc: Global,
    store: TdbStore<Chip>,
) -> Result<(u8, u16, u32, bool), Fail> {
    let mut flash = store.into_flash();
    let parts = mount_parts(alloc, &mut flash, 32)?;
    Ok((parts.active, parts.version, parts.end, parts.clean))
}

#[test]
fn a_full_store_can_be_emptied(rt: HostRuntime) -> Result<(), Fail> {
    let mut store = fresh(&rt, rt.alloc(), one_unit(8, 4096), 32)?;
    let value = vec![in rt.alloc(); 0x5a; 4032]?;
    let full = KvError::MediaFull {
        need: 4064,
        room: 4056,
    };
    assert_eq!(rt; store.set(1, b"k", &value, Flags::NONE), Err(full));
    store.set(1, b"k", &value[..4031], Flags::NONE)?;
    let full = KvError::MediaFull {
        need: 4088,
        room: 4056,
    };
    assert_eq!(rt; store.set(1, b"k", b"", Flags::NONE), Err(full));
    let facts = Info {
        flags: Flags::NONE,
        size: 4031,
    };
    assert_eq!(rt; store.info(b"k"), Ok(facts));
    store.remove(1, b"k")?;
    assert_eq!(rt; store.info(b"k"), Err(KvError::NotFound));
    assert_eq!(rt; log_of(&rt, rt.alloc(), store)?, (1, 2, 4136, true));
    Ok(())
}

#[test]
fn many_sets_collect_again_and_again(rt: HostRuntime) -> Result<(), Fail> {
    let mut store = fresh(&rt, rt.alloc(), one_unit(32, 512), 32)?;
    for n in 1..201u8 {
        store.set(1, b"n", &[n], Flags::NONE)?;
    }
    assert_eq!(rt; byte_of(&mut store, b"n"), Ok(200));
    assert_eq!(rt; log_of(&rt, rt.alloc(), store)?, (1, 34, 704, true));
    Ok(())
}

#[test]
fn a_value_is_read_beside_the_set_that_replaces_it(rt: HostRuntime) -> Result<(), Fail> {
    let mut store = fresh(&rt, rt.alloc(), one_unit(1, 4096), 32)?;
    store.set(1, b"k", &[1], Flags::NONE)?;
    store.set_start(1, b"k", 2, Flags::NONE)?;
    store.set_add(1, &[0xaa])?;
    assert_eq!(rt; byte_of(&mut store, b"k"), Ok(1));
    store.set_add(1, &[0xbb])?;
    store.set_finish(1)?;
    let mut buf = [0; 2];
    store.get(b"k", 0, &mut buf)?;
    assert_eq!(rt; buf, [0xaa, 0xbb]);
    Ok(())
}

#[test]
fn a_set_that_was_not_finished_leaves_a_dirty_tail(rt: HostRuntime) -> Result<(), Fail> {
    let mut store = fresh(&rt, rt.alloc(), one_unit(1, 4096), 32)?;
    store.set(1, b"k", &[1], Flags::NONE)?;
    store.set_start(1, b"k", 2, Flags::NONE)?;
    let busy = KvError::Busy { owner: 1 };
    assert_eq!(rt; store.set_start(2, b"j", 1, Flags::NONE), Err(busy));
    assert_eq!(rt;
        store.set_start(1, b"k", 1, Flags::NONE),
        Err(KvError::SetOpen)
    );
    assert_eq!(rt; store.set_add(2, &[0]), Err(KvError::NoSet));
    assert_eq!(rt;
        store.set_add(1, &[0xaa, 0xbb, 0xcc]),
        Err(KvError::InvalidSize)
    );
    store.set_add(1, &[0xaa])?;
    assert_eq!(rt; store.set_finish(1), Err(KvError::InvalidSize));
    assert_eq!(rt; byte_of(&mut store, b"k"), Ok(1));
    store.set(2, b"j", &[5], Flags::NONE)?;
    assert_eq!(rt; byte_of(&mut store, b"j"), Ok(5));
    assert_eq!(rt; log_of(&rt, rt.alloc(), store)?, (1, 2, 4184, true));
    Ok(())
}

#[test]
fn keys_of_one_hash_come_in_the_order_of_their_bytes(rt: HostRuntime) -> Result<(), Fail> {
    let mut store = fresh(&rt, rt.alloc(), one_unit(1, 4096), 0)?;
    for key in [b"b", b"d", b"f"] {
        store.set(1, key, &[0], Flags::NONE)?;
    }
    store.iter_open(1, 0, b"")?;
    assert_eq!(rt; next_key(&mut store), Ok(Some(b'b')));
    store.remove(1, b"d")?;
    for key in [b"a", b"e"] {
        store.set(1, key, &[0], Flags::NONE)?;
    }
    for want in [Some(b'e'), Some(b'f'), None, None] {
        assert_eq!(rt; next_key(&mut store), Ok(want));
    }
    store.iter_close(1, 0)?;
    assert_eq!(rt; next_key(&mut store), Err(KvError::NoIterator));
    Ok(())
}

// Keys `a`, `b` and `c` as an iterator gives them, where a hash has so many bits.
fn order_of(rt: &impl Abort, alloc: Global, hash_bits: u8) -> Result<[u8; 3], Fail> {
    let mut store = fresh(rt, alloc, one_unit(8, 4096), hash_bits)?;
    store.set(1, b"a", &[0], Flags::NONE)?;
    store.set(1, b"b", &[0], Flags::NONE)?;
    store.set(1, b"c", &[0], Flags::NONE)?;
    store.iter_open(1, 0, b"")?;
    let mut order = [0; 3];
    for place in 0..3 {
        order[place] = next_key(&mut store)?.unwrap_or(0);
    }
    Ok(order)
}

#[test]
fn keys_come_in_the_order_of_their_hashes(rt: HostRuntime) -> Result<(), Fail> {
    assert_eq!(rt; order_of(&rt, rt.alloc(), 4)?, *b"cba");
    assert_eq!(rt; order_of(&rt, rt.alloc(), 8)?, *b"bca");
    assert_eq!(rt; order_of(&rt, rt.alloc(), 32)?, *b"abc");
    assert_eq!(rt; order_of(&rt, rt.alloc(), 0)?, *b"abc");
    Ok(())
}

#[test]
fn there_are_sixteen_iterators(rt: HostRuntime) -> Result<(), Fail> {
    let mut store = fresh(&rt, rt.alloc(), one_unit(8, 4096), 32)?;
    for n in 0..16u8 {
        store.iter_open(1, n, b"")?;
    }
    assert_eq!(rt; store.iter_open(2, 0, b""), Err(KvError::TooManyIterators));
    store.iter_open(1, 3, b"")?;
    store.iter_close(1, 3)?;
    store.iter_open(2, 0, b"")?;
    Ok(())
}

// ---- power cuts

// A device of 1,024 bytes whose first area is full of seven records of `n`, the last 07.
fn full_area(rt: &impl Abort, alloc: Global) -> Result<Vec<u8>, Fail> {
    let mut store = fresh(rt, alloc, one_unit(32, 512), 32)?;
    for n in 1..8u8 {
        store.set(1, b"n", &[n], Flags::NONE)?;
    }
    Ok(store.into_flash().into_image())
}

// What an image has for `n` once it is mounted.
fn found_in(rt: &impl Abort, alloc: Global, image: Vec<u8>) -> Result<u8, Fail> {
    let geometry = one_unit(32, 512);
    assert!(rt; geometry.is_valid() && geometry.size() as usize == image.len());
    let mut store = mounted(alloc, Chip::new(geometry, image), 32)?;
    Ok(byte_of(&mut store, b"n")?)
}

// A set that collects erases 512 bytes, and writes a record, a master and a record of 32 and 32.
#[test]
fn a_cut_at_each_moment_leaves_the_old_value_or_the_new(rt: HostRuntime) -> Result<(), Fail> {
    let geometry = one_unit(32, 512);
    assert!(rt; geometry.is_valid() && geometry.size() == 1024);
    for step in 0..24u32 {
        let log = step * 32;
        let image = full_area(&rt, rt.alloc())?;
        assert!(rt; image.len() == 1024);
        let flash = RecordFlash::with_log(rt.alloc(), geometry, image, log)?;
        let mut store = mounted(rt.alloc(), flash, 32)?;
        let answer = store.set(1, b"n", &[8], Flags::NONE);
        let is_whole = log >= 704;
        let want = if is_whole {
            Ok(())
        } else {
            Err(KvError::WriteFault)
        };
        assert_eq!(rt; answer, want, "{log}");
        let then = if is_whole {
            Ok(8)
        } else {
            Err(KvError::Stopped)
        };
        assert_eq!(rt; byte_of(&mut store, b"n"), then, "{log}");
        let found = found_in(&rt, rt.alloc(), store.into_flash().into_image())?;
        assert_eq!(rt; found, if is_whole { 8 } else { 7 }, "{log}");
    }
    Ok(())
}

#[test]
fn a_torn_write_leaves_the_old_value_or_the_new(rt: HostRuntime) -> Result<(), Fail> {
    for n in 1..9 {
        for pattern in [
            Pattern::None,
            Pattern::Half,
            Pattern::Zero,
            Pattern::All,
            Pattern::Mix { seed: 5 },
        ] {
            let image = full_area(&rt, rt.alloc())?;
            let geometry = one_unit(32, 512);
            assert!(rt; geometry.is_valid() && geometry.size() as usize == image.len());
            let mut store = mounted(rt.alloc(), Chip::new(geometry, image), 32)?;
            store.arm(rt.alloc(), n, pattern)?;
            let answer = store.set(1, b"n", &[8], Flags::NONE);
            let is_whole = n == 8;
            let want = if is_whole {
                Ok(())
            } else {
                Err(KvError::WriteFault)
            };
            assert_eq!(rt; answer, want, "{n}");
            let found = found_in(&rt, rt.alloc(), store.into_flash().into_image())?;
            let is_new = is_whole || (n == 7 && pattern == Pattern::All);
            assert_eq!(rt; found, if is_new { 8 } else { 7 }, "{n}");
        }
    }
    Ok(())
}

// A read that failed leaves the store, and after a write that failed it is stopped until it is
// mounted.
#[test]
fn faults_are_answered_where_they_come(rt: HostRuntime) -> Result<(), Fail> {
    let mut store = fresh(&rt, rt.alloc(), one_unit(8, 4096), 32)?;
    store.set(1, b"k", &[1], Flags::NONE)?;
    store.set_faults(vec![in rt.alloc(); 1]?, vec![in rt.alloc(); 1]?);
    assert_eq!(rt; byte_of(&mut store, b"k"), Err(KvError::ReadFault));
    assert_eq!(rt; byte_of(&mut store, b"k"), Ok(1));
    assert_eq!(rt;
        store.set(1, b"k", &[2], Flags::NONE),
        Err(KvError::WriteFault)
    );
    assert_eq!(rt; byte_of(&mut store, b"k"), Err(KvError::Stopped));
    assert_eq!(rt; store.reset(1), Err(KvError::Stopped));
    match store.remount() {
        Ok(mut store) => {
            assert_eq!(rt; byte_of(&mut store, b"k"), Ok(1));
            Ok(())
        }
        Err((_, error)) => Err(error)?,
    }
}
