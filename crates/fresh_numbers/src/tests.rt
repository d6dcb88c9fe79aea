ghost use Rattle.kv_model.specs.PlainStep.{plain_rules};
ghost use Rattle.kv_memory.specs.Memory.{known_of};
ghost use Rattle.sealed_pair.specs.Store.{IsFreshStore};

use kv_memory::MemoryStore;
use kv_model::{Flags, Kv};
use secure_store::SecureStore;
use std::alloc::Global;
use std::test::Fail;

const ROOT: [u8; 16] = [0, 1, 2, 3, 4, 5, 6, 7, 8, 9, 10, 11, 12, 13, 14, 15];

const KEY: &[u8; 1] = b"k";

const ALICE: &[u8; 20] = b"pays to Alice       ";

const BOB: &[u8; 20] = b"pays to Bob         ";

// A plain store that has this value, or nothing where it is empty.
fn filled(alloc: Global, key: &[u8], value: &[u8]) -> MemoryStore
    ensures { IsFreshStore plain_rules (known_of result) }
{
    let mut store = MemoryStore::new(alloc, 32, 32, 4096);
    if value.is_empty() {
        return store;
    }
    match store.set(0, key, value, Flags::NONE) {
        Ok(()) => store,
        Err(_) => MemoryStore::new(alloc, 32, 32, 4096),
    }
}

// What a run leaves of the key: the bytes in both stores, and the next number. It begins with this
// number over what the two stores have, and sets the key, anew where it is removed before.
fn run(
    alloc: Global,
    record: &[u8],
    tag: &[u8],
    number: u64,
    is_removed: bool,
    value: &[u8],
) -> ([u8; 76], [u8; 16], u64) {
    let primary = filled(alloc, KEY, record);
    let rollback = filled(alloc, KEY, tag);
    let mut store = SecureStore::new(primary, rollback, &ROOT, number);
    if is_removed {
        let _ = store.remove(1, KEY);
    }
    let _ = store.set(1, KEY, value, Flags::REPLAY_PROTECTED);
    let next = store.iv();
    let (mut primary, mut rollback) = store.into_parts();
    let mut sealed = [0; 76];
    let mut mirrored = [0; 16];
    let _ = primary.get(KEY, 0, &mut sealed);
    let _ = rollback.get(KEY, 0, &mut mirrored);
    (sealed, mirrored, next)
}

// The tag that a mount leaves beside a record: the record's own in place of the one that it
// replaces, and any other as it is.
fn healed(record: &[u8; 76], tag: &[u8; 16]) -> [u8; 16] {
    let mut prior = [0; 16];
    let mut own = [0; 16];
    prior.copy_from_slice(&record[24..40]);
    own.copy_from_slice(&record[60..76]);
    if prior == *tag { own } else { *tag }
}

// What a read of the key answers over these two stores: the number of the refusal, or 0, and the
// value.
fn read(alloc: Global, record: &[u8], tag: &[u8]) -> (u8, [u8; 20]) {
    let primary = filled(alloc, KEY, record);
    let rollback = filled(alloc, KEY, tag);
    let mut store = SecureStore::new(primary, rollback, &ROOT, 9);
    let mut value = [7; 20];
    let answer = match store.get(KEY, 0, &mut value) {
        Ok(_) => 0,
        Err(refusal) => refusal.number(),
    };
    let (_, _) = store.into_parts();
    (answer, value)
}

// Why numbers must be fresh. Two runs set the key to two values, and the primary map is copied. A
// third run removes the key and sets the first value again. Where it begins at number 1 its record
// is the very one of the first run: the copy holds a record that replaces its tag, which a mount
// completes, and the old value is read. Where its numbers are fresh the copy is noticed.
#[test]
fn an_old_map_is_accepted_where_numbers_go_back(rt: HostRuntime) -> Result<(), Fail> {
    let cases: [(u64, bool, u8, [u8; 20]); 3] = [
        (1, true, 0, *BOB),
        (3, false, 17, [0; 20]),
        (7, false, 17, [0; 20]),
    ];
    for (number, is_same, answer, value) in cases.iter() {
        let alloc = rt.alloc();
        let (first, first_tag, next) = run(alloc, b"", b"", 1, false, ALICE);
        let (copy, copy_tag, last) = run(alloc, &first, &first_tag, next, false, BOB);
        let (now, tag, _) = run(alloc, &copy, &copy_tag, *number, true, ALICE);
        assert_eq!(rt; [next, last], [2, 3]);
        assert_eq!(rt; now == first, *is_same);
        assert_eq!(rt; read(alloc, &now, &healed(&now, &tag)), (0, *ALICE));
        assert_eq!(rt; read(alloc, &copy, &healed(&copy, &tag)), (*answer, *value));
    }
    Ok(())
}
