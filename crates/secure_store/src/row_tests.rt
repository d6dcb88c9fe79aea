// Worked rows of a secure store. Where a row has a power cut, its two stores are made of the maps
// that the cut leaves. The records were computed by Python's package `cryptography`.

use super::tests::{ROOT, filled, holding, number_of};
use crate::SecureStore;
use kv_model::{Flags, Got, Info, Kv, KvError};
use std::alloc::Global;
use std::test::Fail;

const S: &[u8; 1] = b"s";

// The bytes 00, 11 and 22 under `s` with the number 1, encrypted and protected from replay.
const HIDDEN: [u8; 59] = [
    0x28, 0x00, 0x02, 0x00, 0x03, 0x00, 0x00, 0x00, 0x0a, 0x00, 0x00, 0x00, 0x00, 0x00, 0x00, 0x00,
    0x00, 0x00, 0x00, 0x01, 0x00, 0x00, 0x00, 0x00, 0x00, 0x00, 0x00, 0x00, 0x00, 0x00, 0x00, 0x00,
    0x00, 0x00, 0x00, 0x00, 0x00, 0x00, 0x00, 0x00, 0xbf, 0x58, 0x22, 0x60, 0x74, 0xf3, 0xca, 0xef,
    0x73, 0x82, 0x6b, 0xbd, 0x3d, 0x30, 0x4f, 0xe7, 0x23, 0x30, 0x89,
];

// Its tag.
const HIDDEN_TAG: [u8; 16] = [
    0x60, 0x74, 0xf3, 0xca, 0xef, 0x73, 0x82, 0x6b, 0xbd, 0x3d, 0x30, 0x4f, 0xe7, 0x23, 0x30, 0x89,
];

// The byte 7 in revision 1, protected from replay.
const OLDER: [u8; 37] = [
    0x14, 0x00, 0x01, 0x00, 0x01, 0x00, 0x00, 0x00, 0x08, 0x00, 0x00, 0x00, 0x00, 0x00, 0x00, 0x00,
    0x00, 0x00, 0x00, 0x00, 0x07, 0xae, 0x81, 0x48, 0x15, 0x8e, 0x1e, 0xa9, 0x41, 0xd2, 0xc1, 0xa3,
    0x94, 0xba, 0x0f, 0xec, 0x24,
];

// Its tag.
const OLDER_TAG: [u8; 16] = [
    0xae, 0x81, 0x48, 0x15, 0x8e, 0x1e, 0xa9, 0x41, 0xd2, 0xc1, 0xa3, 0x94, 0xba, 0x0f, 0xec, 0x24,
];

// The byte 9 with the number 1, set over that.
const NEWER: [u8; 57] = [
    0x28, 0x00, 0x02, 0x00, 0x01, 0x00, 0x00, 0x00, 0x08, 0x00, 0x00, 0x00, 0x00, 0x00, 0x00, 0x00,
    0x00, 0x00, 0x00, 0x01, 0x01, 0x00, 0x00, 0x00, 0xae, 0x81, 0x48, 0x15, 0x8e, 0x1e, 0xa9, 0x41,
    0xd2, 0xc1, 0xa3, 0x94, 0xba, 0x0f, 0xec, 0x24, 0x09, 0xa7, 0xe1, 0x2d, 0x85, 0x7d, 0x79, 0x11,
    0xcd, 0xfd, 0x28, 0x7e, 0xce, 0xa0, 0xab, 0xa1, 0xa3,
];

// The byte 1 with the number 1, set over nothing.
const ONE: [u8; 57] = [
    0x28, 0x00, 0x02, 0x00, 0x01, 0x00, 0x00, 0x00, 0x08, 0x00, 0x00, 0x00, 0x00, 0x00, 0x00, 0x00,
    0x00, 0x00, 0x00, 0x01, 0x00, 0x00, 0x00, 0x00, 0x00, 0x00, 0x00, 0x00, 0x00, 0x00, 0x00, 0x00,
    0x00, 0x00, 0x00, 0x00, 0x00, 0x00, 0x00, 0x00, 0x01, 0x7d, 0x74, 0xeb, 0x27, 0x29, 0x42, 0x7e,
    0xe6, 0x81, 0x26, 0x57, 0x3b, 0x1e, 0x56, 0x7c, 0xe7,
];

// Its tag.
const ONE_TAG: [u8; 16] = [
    0x7d, 0x74, 0xeb, 0x27, 0x29, 0x42, 0x7e, 0xe6, 0x81, 0x26, 0x57, 0x3b, 0x1e, 0x56, 0x7c, 0xe7,
];

// The byte 2 with the number 1, set over that.
const TWO: [u8; 57] = [
    0x28, 0x00, 0x02, 0x00, 0x01, 0x00, 0x00, 0x00, 0x08, 0x00, 0x00, 0x00, 0x00, 0x00, 0x00, 0x00,
    0x00, 0x00, 0x00, 0x01, 0x01, 0x00, 0x00, 0x00, 0x7d, 0x74, 0xeb, 0x27, 0x29, 0x42, 0x7e, 0xe6,
    0x81, 0x26, 0x57, 0x3b, 0x1e, 0x56, 0x7c, 0xe7, 0x02, 0x75, 0x88, 0x19, 0x41, 0x4b, 0x95, 0xb8,
    0x72, 0xd5, 0xf6, 0xf2, 0xff, 0x26, 0xaa, 0xb0, 0xa1,
];

// Its tag.
const TWO_TAG: [u8; 16] = [
    0x75, 0x88, 0x19, 0x41, 0x4b, 0x95, 0xb8, 0x72, 0xd5, 0xf6, 0xf2, 0xff, 0x26, 0xaa, 0xb0, 0xa1,
];

// The same with the number 2.
const LATER: [u8; 57] = [
    0x28, 0x00, 0x02, 0x00, 0x01, 0x00, 0x00, 0x00, 0x08, 0x00, 0x00, 0x00, 0x00, 0x00, 0x00, 0x00,
    0x00, 0x00, 0x00, 0x02, 0x01, 0x00, 0x00, 0x00, 0x7d, 0x74, 0xeb, 0x27, 0x29, 0x42, 0x7e, 0xe6,
    0x81, 0x26, 0x57, 0x3b, 0x1e, 0x56, 0x7c, 0xe7, 0x02, 0x19, 0x97, 0x20, 0x32, 0x1e, 0x57, 0xb5,
    0x18, 0x1b, 0x2b, 0x4c, 0x40, 0x2c, 0xc2, 0xd0, 0xb9,
];

// Its tag.
const LATER_TAG: [u8; 16] = [
    0x19, 0x97, 0x20, 0x32, 0x1e, 0x57, 0xb5, 0x18, 0x1b, 0x2b, 0x4c, 0x40, 0x2c, 0xc2, 0xd0, 0xb9,
];

// The byte 5 with the number 1, write-once, set over nothing.
const FIVE: [u8; 57] = [
    0x28, 0x00, 0x02, 0x00, 0x01, 0x00, 0x00, 0x00, 0x01, 0x00, 0x00, 0x00, 0x00, 0x00, 0x00, 0x00,
    0x00, 0x00, 0x00, 0x01, 0x00, 0x00, 0x00, 0x00, 0x00, 0x00, 0x00, 0x00, 0x00, 0x00, 0x00, 0x00,
    0x00, 0x00, 0x00, 0x00, 0x00, 0x00, 0x00, 0x00, 0x05, 0x34, 0x02, 0x28, 0xd0, 0x76, 0x14, 0x1d,
    0xf5, 0x3f, 0x7e, 0x4a, 0x74, 0x34, 0x8b, 0x4e, 0x3b,
];

// Nothing, where a store has no entry.
const ABSENT: &[u8] = b"";

// An entry that a plain store wrote, of the byte 0.
const UNSEALED: &[u8] = b"\0";

// What both stores hold of `s` once it was set over a record and a tag, and the answer.
fn set_over(
    alloc: Global,
    record: &[u8],
    tag: &[u8],
    number: u64,
    value: &[u8],
    flags: u32,
) -> (u8, [u8; 57], [u8; 16]) {
    let primary = filled(alloc, S, record);
    let rollback = filled(alloc, S, tag);
    let mut store = SecureStore::new(primary, rollback, &ROOT, number);
    let answer = number_of(store.set(1, S, value, Flags { bits: flags }));
    let (mut primary, mut rollback) = store.into_parts();
    let mut sealed = [0; 57];
    let mut mirrored = [0; 16];
    let _ = primary.get(S, 0, &mut sealed);
    let _ = rollback.get(S, 0, &mut mirrored);
    (answer, sealed, mirrored)
}

// What the stores hold of a key, the next number, the value and the flags of a set, and its record.
const SETS: [(&[u8], &[u8], u64, [u8; 1], u32, [u8; 57]); 5] = [
    (&OLDER, &OLDER_TAG, 1, [9], 8, NEWER),
    (ABSENT, ABSENT, 1, [1], 8, ONE),
    (&ONE, &ONE_TAG, 1, [2], 8, TWO),
    (&ONE, &ONE_TAG, 2, [2], 8, LATER),
    (ABSENT, ABSENT, 1, [5], 1, FIVE),
];

// A set that replaces a tag names it, also that of a record in revision 1.
#[test]
fn a_set_names_the_tag_that_it_replaces(rt: HostRuntime) -> Result<(), Fail> {
    for (record, tag, number, value, flags, wanted) in SETS.iter() {
        let alloc = rt.alloc();
        let (answer, given, mirrored) = set_over(alloc, record, tag, *number, value, *flags);
        assert_eq!(rt; answer, 0);
        assert_eq!(rt; given, *wanted);
        assert_eq!(rt; mirrored.as_slice(), &wanted[41..]);
    }
    Ok(())
}

// What a set of an encrypted value that is protected from replay leaves in both stores, and what
// the store shows of it.
fn hidden(alloc: Global) -> ([u8; 59], [u8; 16], [u8; 3], Result<Info, KvError>) {
    let primary = filled(alloc, S, b"");
    let rollback = filled(alloc, S, b"");
    let mut store = SecureStore::new(primary, rollback, &ROOT, 1);
    let _ = store.set(1, S, b"\x00\x11\x22", Flags { bits: 10 });
    let mut value = [7; 3];
    let _ = store.get(S, 0, &mut value);
    let facts = store.info(S);
    let (mut primary, mut rollback) = store.into_parts();
    let mut sealed = [0; 59];
    let mut mirrored = [0; 16];
    let _ = primary.get(S, 0, &mut sealed);
    let _ = rollback.get(S, 0, &mut mirrored);
    (sealed, mirrored, value, facts)
}

// The first set of a store, of which the whole record is known.
#[test]
fn a_set_is_sealed_and_mirrored(rt: HostRuntime) -> Result<(), Fail> {
    let (sealed, mirrored, value, facts) = hidden(rt.alloc());
    assert_eq!(rt; sealed, HIDDEN);
    assert_eq!(rt; mirrored, HIDDEN_TAG);
    assert_eq!(rt; value, [0x00, 0x11, 0x22]);
    let wanted = Info {
        flags: Flags { bits: 10 },
        size: 3,
    };
    assert_eq!(rt; facts, Ok(wanted));
    Ok(())
}

// The number of the refusal of a read, or 0.
fn number_read(answer: Result<Got, KvError>) -> u8 {
    match answer {
        Ok(_) => 0,
        Err(refusal) => refusal.number(),
    }
}

// The number of the refusal of an info, or 0.
fn number_shown(answer: Result<Info, KvError>) -> u8 {
    match answer {
        Ok(_) => 0,
        Err(refusal) => refusal.number(),
    }
}

// The answers to a get of `s`, to an info, to a set of the byte 3 and to a get, and what it gives.
// The primary store holds the record with the first flags.
fn read_and_set(
    alloc: Global,
    record: &[u8],
    tag: &[u8],
    held: u32,
    flags: u32,
) -> ([u8; 4], [u8; 1]) {
    let primary = holding(alloc, 4096, S, record, Flags { bits: held });
    let rollback = filled(alloc, S, tag);
    let mut store = SecureStore::new(primary, rollback, &ROOT, 3);
    let mut buf = [7];
    let one = number_read(store.get(S, 0, &mut buf));
    let two = number_shown(store.info(S));
    let three = number_of(store.set(1, S, b"\x03", Flags { bits: flags }));
    let four = number_read(store.get(S, 0, &mut buf));
    let (_, _) = store.into_parts();
    ([one, two, three, four], buf)
}

// What the stores hold of `s`, the flags of its record and of the set, the answers and the value.
const PUT_BACK: [(&[u8], &[u8], u32, u32, [u8; 4], [u8; 1]); 8] = [
    (&ONE, &TWO_TAG, 0, 0, [17, 17, 3, 17], [0]),
    (&ONE, &TWO_TAG, 0, 8, [17, 17, 0, 0], [3]),
    (&FIVE, ABSENT, 1, 1, [17, 17, 5, 17], [0]),
    (UNSEALED, ABSENT, 0, 0, [16, 16, 0, 0], [3]),
    (UNSEALED, &TWO_TAG, 0, 0, [16, 16, 3, 16], [0]),
    (&OLDER, &OLDER_TAG, 0, 8, [0, 0, 0, 0], [3]),
    (&OLDER, &OLDER_TAG, 0, 0, [0, 0, 3, 0], [7]),
    (ABSENT, ABSENT, 0, 2, [1, 1, 0, 0], [3]),
];

// An old primary image is noticed, and so are a set that was cut between the stores and a value
// that a plain store wrote. A set repairs the key, where its flags are no fewer than the key has.
#[test]
fn what_was_put_back_is_noticed_until_it_is_set(rt: HostRuntime) -> Result<(), Fail> {
    for (record, tag, held, flags, answers, byte) in PUT_BACK.iter() {
        let alloc = rt.alloc();
        let (given, buf) = read_and_set(alloc, record, tag, *held, *flags);
        assert_eq!(rt; given, *answers);
        assert_eq!(rt; buf, *byte);
    }
    Ok(())
}

// The answers to a get of `s`, to an info, to a remove or a reset, to a get, to a write-once set of
// the byte 6 and to a get, and what it gives.
fn emptied_and_set(alloc: Global, record: &[u8], held: u32, is_reset: bool) -> ([u8; 6], [u8; 1]) {
    let primary = holding(alloc, 4096, S, record, Flags { bits: held });
    let rollback = filled(alloc, S, b"");
    let mut store = SecureStore::new(primary, rollback, &ROOT, 2);
    let mut buf = [7];
    let one = number_read(store.get(S, 0, &mut buf));
    let two = number_shown(store.info(S));
    let done = if is_reset {
        store.reset(1)
    } else {
        store.remove(1, S)
    };
    let four = number_read(store.get(S, 0, &mut buf));
    let five = number_of(store.set(1, S, b"\x06", Flags::WRITE_ONCE));
    let six = number_read(store.get(S, 0, &mut buf));
    let (_, _) = store.into_parts();
    ([one, two, number_of(done), four, five, six], buf)
}

// The record of `s` and its flags, whether the store is reset, the answers and the value.
const EMPTIED: [(&[u8], u32, bool, [u8; 6], [u8; 1]); 4] = [
    (UNSEALED, 0, false, [16, 16, 0, 1, 0, 0], [6]),
    (UNSEALED, 0, true, [16, 16, 0, 1, 0, 0], [6]),
    (&FIVE, 1, false, [17, 17, 5, 17, 5, 17], [0]),
    (&FIVE, 1, true, [17, 17, 0, 1, 0, 0], [6]),
];

// A value that a plain store wrote can be removed. A set of a write-once key that was cut between
// the stores stands in the way until a reset.
#[test]
fn what_stands_in_the_way_is_taken_away(rt: HostRuntime) -> Result<(), Fail> {
    for (record, held, is_reset, answers, byte) in EMPTIED.iter() {
        let alloc = rt.alloc();
        let (given, buf) = emptied_and_set(alloc, record, *held, *is_reset);
        assert_eq!(rt; given, *answers);
        assert_eq!(rt; buf, *byte);
    }
    Ok(())
}

// How many tags a recover over a record and a tag of `s` changes, or 100 and the number of the
// refusal, the answer to a get, and what it gives.
fn mounted(alloc: Global, record: &[u8], tag: &[u8]) -> (u32, u8, [u8; 1]) {
    let primary = filled(alloc, S, record);
    let rollback = filled(alloc, S, tag);
    let mut store = SecureStore::new(primary, rollback, &ROOT, 3);
    let mut buf = [7];
    let changed = match store.recover() {
        Ok(changed) => changed,
        Err(refusal) => 100 + refusal.number() as u32,
    };
    let answer = number_read(store.get(S, 0, &mut buf));
    let (_, _) = store.into_parts();
    (changed, answer, buf)
}

// The record and the tag of `s`, how many tags change, the answer to a get, and the value.
const MOUNTS: [(&[u8], &[u8], u32, u8, [u8; 1]); 4] = [
    (&LATER, &ONE_TAG, 1, 0, [2]),
    (&ONE, &ONE_TAG, 0, 0, [1]),
    (&LATER, &LATER_TAG, 0, 0, [2]),
    (&ONE, &LATER_TAG, 0, 17, [0]),
];

// A set that was cut between the stores is completed, and one that was cut before is not made.
#[test]
fn a_mount_completes_or_forgets_a_cut_set(rt: HostRuntime) -> Result<(), Fail> {
    for (record, tag, changed, answer, byte) in MOUNTS.iter() {
        let alloc = rt.alloc();
        assert_eq!(rt; mounted(alloc, record, tag), (*changed, *answer, *byte));
    }
    Ok(())
}

// The answers to two sets with these flags and the last numbers, and to one with none.
fn last_sets(alloc: Global, flags: u32) -> [u8; 3] {
    let primary = filled(alloc, S, b"");
    let rollback = filled(alloc, S, b"");
    let mut store = SecureStore::new(primary, rollback, &ROOT, u64::MAX - 1);
    let one = number_of(store.set(1, b"a", b"\x01", Flags { bits: flags }));
    let two = number_of(store.set(1, b"b", b"\x01", Flags { bits: flags }));
    let three = number_of(store.set(1, b"b", b"\x01", Flags::NONE));
    let (_, _) = store.into_parts();
    [one, two, three]
}

// The last number is taken by no set, and a set with no flag needs none.
#[test]
fn the_last_number_is_not_taken(rt: HostRuntime) -> Result<(), Fail> {
    for flags in [1, 2, 8, 10].iter() {
        let alloc = rt.alloc();
        assert_eq!(rt; last_sets(alloc, *flags), [0, 18, 0]);
    }
    Ok(())
}

// The answers to a set of a value in stores of 448 bytes, to a set beside it, to a remove and to a
// get, and to an info by each of the two stores.
fn filled_up(alloc: Global, value: &[u8]) -> [u8; 6] {
    let primary = holding(alloc, 448, S, b"", Flags::NONE);
    let rollback = holding(alloc, 448, S, b"", Flags::NONE);
    let mut store = SecureStore::new(primary, rollback, &ROOT, 1);
    let mut buf = [7; 1];
    let one = number_of(store.set(1, S, value, Flags { bits: 8 }));
    let two = number_of(store.set(1, b"j", b"", Flags::NONE));
    let three = number_of(store.remove(1, S));
    let four = number_read(store.get(S, 0, &mut buf));
    let (mut primary, mut rollback) = store.into_parts();
    let five = number_shown(primary.info(S));
    let six = number_shown(rollback.info(S));
    [one, two, three, four, five, six]
}

// A remove needs no room, in neither store.
#[test]
fn a_full_store_removes(rt: HostRuntime) -> Result<(), Fail> {
    let full = [7; 359];
    let over = [7; 360];
    assert_eq!(rt; filled_up(rt.alloc(), &full), [0, 6, 0, 1, 1, 1]);
    assert_eq!(rt; filled_up(rt.alloc(), &over), [6, 0, 1, 1, 1, 1]);
    Ok(())
}
