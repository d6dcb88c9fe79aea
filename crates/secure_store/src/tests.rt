ghost use Rattle.std.specs.Prelude.{◌<◌, ◌^◌, length};
ghost use Rattle.kv_model.specs.PlainStep.{plain_rules};
ghost use Rattle.kv_memory.specs.Memory.{known_of};
ghost use Rattle.sealed_pair.specs.Store.{IsFreshStore};

use crate::SecureStore;
use kv_memory::MemoryStore;
use kv_model::{Flags, Kv, KvError};
use std::alloc::Global;
use std::test::Fail;

// The records of this file were computed by Python's package `cryptography`, with no code of this
// repository; the tests of secure_record say how.

pub(crate) const ROOT: [u8; 16] = [0, 1, 2, 3, 4, 5, 6, 7, 8, 9, 10, 11, 12, 13, 14, 15];

const KEY: &[u8; 8] = b"cert.pem";

pub(crate) const VALUE: &[u8; 20] = b"ABCDEFGHIJKLMNOPQRST";

// The value under that key with all three flags, in revision 2, and its tag.
pub(crate) const SECOND: [u8; 76] = [
    0x28, 0x00, 0x02, 0x00, 0x14, 0x00, 0x00, 0x00, 0x0b, 0x00, 0x00, 0x00, 0x01, 0x02, 0x03, 0x04,
    0x05, 0x06, 0x07, 0x08, 0x01, 0x00, 0x00, 0x00, 0xa0, 0xa1, 0xa2, 0xa3, 0xa4, 0xa5, 0xa6, 0xa7,
    0xa8, 0xa9, 0xaa, 0xab, 0xac, 0xad, 0xae, 0xaf, 0x06, 0x82, 0x6f, 0xdc, 0x11, 0x9c, 0x37, 0x69,
    0xd7, 0x00, 0x3c, 0x07, 0x29, 0x0c, 0x20, 0xb7, 0xd7, 0xdd, 0xf8, 0xc4, 0x75, 0xbf, 0x91, 0xa8,
    0xca, 0xf3, 0x8f, 0x34, 0xa6, 0xba, 0x0c, 0xbe, 0x94, 0x27, 0xa5, 0x46,
];

pub(crate) const SECOND_TAG: [u8; 16] = [
    0x75, 0xbf, 0x91, 0xa8, 0xca, 0xf3, 0x8f, 0x34, 0xa6, 0xba, 0x0c, 0xbe, 0x94, 0x27, 0xa5, 0x46,
];

// The same in revision 1.
pub(crate) const FIRST: [u8; 56] = [
    0x14, 0x00, 0x01, 0x00, 0x14, 0x00, 0x00, 0x00, 0x0b, 0x00, 0x00, 0x00, 0x01, 0x02, 0x03, 0x04,
    0x05, 0x06, 0x07, 0x08, 0x06, 0x82, 0x6f, 0xdc, 0x11, 0x9c, 0x37, 0x69, 0xd7, 0x00, 0x3c, 0x07,
    0x29, 0x0c, 0x20, 0xb7, 0xd7, 0xdd, 0xf8, 0xc4, 0x9f, 0x9a, 0xa7, 0xf4, 0x71, 0xe8, 0xd1, 0xa2,
    0x3b, 0xb4, 0xf7, 0x6a, 0xb6, 0x19, 0x67, 0xf7,
];

pub(crate) const FIRST_TAG: [u8; 16] = [
    0x9f, 0x9a, 0xa7, 0xf4, 0x71, 0xe8, 0xd1, 0xa2, 0x3b, 0xb4, 0xf7, 0x6a, 0xb6, 0x19, 0x67, 0xf7,
];

// The value under that key with no flags.
pub(crate) const PLAIN: [u8; 76] = [
    0x28, 0x00, 0x02, 0x00, 0x14, 0x00, 0x00, 0x00, 0x00, 0x00, 0x00, 0x00, 0x00, 0x00, 0x00, 0x00,
    0x00, 0x00, 0x00, 0x00, 0x00, 0x00, 0x00, 0x00, 0x00, 0x00, 0x00, 0x00, 0x00, 0x00, 0x00, 0x00,
    0x00, 0x00, 0x00, 0x00, 0x00, 0x00, 0x00, 0x00, 0x41, 0x42, 0x43, 0x44, 0x45, 0x46, 0x47, 0x48,
    0x49, 0x4a, 0x4b, 0x4c, 0x4d, 0x4e, 0x4f, 0x50, 0x51, 0x52, 0x53, 0x54, 0x98, 0x50, 0x1a, 0x1f,
    0x5e, 0xfa, 0x31, 0x5c, 0x2c, 0x27, 0xec, 0x8b, 0x82, 0x45, 0x44, 0x47,
];

// A plain store with so much room that has this value, or nothing where it is empty.
pub(crate) fn holding(
    alloc: Global,
    room: u32,
    key: &[u8],
    value: &[u8],
    flags: Flags,
) -> MemoryStore
    requires { room < 2 ^ 30 }
    ensures { IsFreshStore plain_rules (known_of result) }
{
    let mut store = MemoryStore::new(alloc, 32, 32, room);
    if value.is_empty() {
        return store;
    }
    match store.set(0, key, value, flags) {
        Ok(()) => store,
        Err(_) => MemoryStore::new(alloc, 32, 32, room),
    }
}

// The same with more room than any test fills, and no flags.
pub(crate) fn filled(alloc: Global, key: &[u8], value: &[u8]) -> MemoryStore
    ensures { IsFreshStore plain_rules (known_of result) }
{
    holding(alloc, 4096, key, value, Flags::NONE)
}

// The answer to a read of a key over these two stores: the number of the refusal, or 0.
fn read(alloc: Global, key: &[u8], record: &[u8], tag: &[u8], offset: u32, buf: &mut [u8]) -> u8 {
    let primary = filled(alloc, key, record);
    let rollback = filled(alloc, key, tag);
    let mut store = SecureStore::new(primary, rollback, &ROOT, 1);
    let number = match store.get(key, offset, buf) {
        Ok(_) => 0,
        Err(refusal) => refusal.number(),
    };
    let (_, _) = store.into_parts();
    number
}

// A key shows what both stores say of it together.
#[test]
fn keys_show_by_both_stores(rt: HostRuntime) -> Result<(), Fail> {
    let absent: &[u8] = b"";
    let cases: [(&[u8], &[u8], u8); 11] = [
        (&SECOND, &SECOND_TAG, 0),
        (&FIRST, &FIRST_TAG, 0),
        (&PLAIN, absent, 0),
        (&SECOND, absent, 17),
        (&SECOND, &FIRST_TAG, 17),
        (&SECOND, &PLAIN, 17),
        (&PLAIN, &SECOND_TAG, 17),
        (absent, &SECOND_TAG, 17),
        (absent, absent, 1),
        (&FIRST_TAG, absent, 16),
        (&FIRST_TAG, &FIRST_TAG, 16),
    ];
    for (record, tag, answer) in cases.iter() {
        let mut buf = [7; 20];
        let alloc = rt.alloc();
        assert_eq!(rt; read(alloc, KEY, record, tag, 0, &mut buf), *answer);
        let wanted = if *answer == 0 { *VALUE } else { [0; 20] };
        assert_eq!(rt; buf, wanted);
    }
    Ok(())
}

// A record opens under its own key alone.
#[test]
fn another_keys_record_is_refused(rt: HostRuntime) -> Result<(), Fail> {
    let mut buf = [7; 20];
    assert_eq!(rt;
        read(rt.alloc(), b"cert2.pem", &SECOND, &SECOND_TAG, 0, &mut buf),
        16
    );
    assert_eq!(rt; buf, [0; 20]);
    Ok(())
}

// A part of a value, at its limits.
#[test]
fn parts_are_read(rt: HostRuntime) -> Result<(), Fail> {
    let cases: [(u32, u8, [u8; 6]); 4] = [
        (5, 0, *b"FGHIJK"),
        (17, 0, *b"RST\0\0\0"),
        (20, 0, [0; 6]),
        (21, 4, [0; 6]),
    ];
    for (offset, answer, wanted) in cases.iter() {
        let mut buf = [7; 6];
        let alloc = rt.alloc();
        assert_eq!(rt;
            read(alloc, KEY, &SECOND, &SECOND_TAG, *offset, &mut buf),
            *answer
        );
        assert_eq!(rt; buf, *wanted);
    }
    Ok(())
}

// The answers to a remove of a key over these two stores, or to a reset, and then to a read.
fn emptied(alloc: Global, key: &[u8], record: &[u8], tag: &[u8], is_reset: bool) -> [u8; 2] {
    let primary = filled(alloc, KEY, record);
    let rollback = filled(alloc, KEY, tag);
    let mut store = SecureStore::new(primary, rollback, &ROOT, 1);
    let done = if is_reset {
        store.reset(1)
    } else {
        store.remove(1, key)
    };
    let first = match done {
        Ok(()) => 0,
        Err(refusal) => refusal.number(),
    };
    let mut buf = [7; 20];
    let second = match store.get(KEY, 0, &mut buf) {
        Ok(_) => 0,
        Err(refusal) => refusal.number(),
    };
    let (_, _) = store.into_parts();
    [first, second]
}

// A remove takes a key out of both stores, also where one alone has it. It asks for no record.
#[test]
fn a_removed_key_is_in_neither_store(rt: HostRuntime) -> Result<(), Fail> {
    let absent: &[u8] = b"";
    let cases: [(&[u8], &[u8], &[u8], [u8; 2]); 7] = [
        (KEY, &SECOND, &SECOND_TAG, [0, 1]),
        (KEY, &PLAIN, absent, [0, 1]),
        (KEY, absent, &SECOND_TAG, [0, 1]),
        (KEY, &FIRST_TAG, &SECOND_TAG, [0, 1]),
        (KEY, absent, absent, [1, 1]),
        (b"a/b", &SECOND, &SECOND_TAG, [2, 0]),
        (b"cert2.pem", &SECOND, &SECOND_TAG, [1, 0]),
    ];
    for (key, record, tag, wanted) in cases.iter() {
        let alloc = rt.alloc();
        assert_eq!(rt; emptied(alloc, key, record, tag, false), *wanted);
    }
    Ok(())
}

#[test]
fn a_reset_leaves_no_key(rt: HostRuntime) -> Result<(), Fail> {
    let absent: &[u8] = b"";
    let cases: [(&[u8], &[u8]); 3] = [
        (&SECOND, &SECOND_TAG),
        (&PLAIN, absent),
        (absent, &SECOND_TAG),
    ];
    for (record, tag) in cases.iter() {
        let alloc = rt.alloc();
        assert_eq!(rt; emptied(alloc, KEY, record, tag, true), [0, 1]);
    }
    Ok(())
}

// The tag that the record in revision 2 replaces.
const PRIOR: [u8; 16] = [
    0xa0, 0xa1, 0xa2, 0xa3, 0xa4, 0xa5, 0xa6, 0xa7, 0xa8, 0xa9, 0xaa, 0xab, 0xac, 0xad, 0xae, 0xaf,
];

// The number of a refusal, or 0.
pub(crate) fn number_of(answer: Result<(), KvError>) -> u8 {
    match answer {
        Ok(()) => 0,
        Err(refusal) => refusal.number(),
    }
}

// The answers to a remove that client 1 begins, to the same client's remove, to another client's
// reset, to the end of what was begun, and to a read beside it and a read behind it.
fn begun(alloc: Global, record: &[u8], tag: &[u8], is_finished: bool) -> [u8; 6] {
    let primary = filled(alloc, KEY, record);
    let rollback = filled(alloc, KEY, tag);
    let mut store = SecureStore::new(primary, rollback, &ROOT, 1);
    let mut buf = [7; 20];
    let first = number_of(store.remove_start(1, KEY));
    let beside = match store.get(KEY, 0, &mut buf) {
        Ok(_) => 0,
        Err(refusal) => refusal.number(),
    };
    let own = number_of(store.remove(1, KEY));
    let other = number_of(store.reset(2));
    let end = if is_finished {
        number_of(store.set_finish(1))
    } else {
        number_of(store.set_abort(1))
    };
    let behind = match store.get(KEY, 0, &mut buf) {
        Ok(_) => 0,
        Err(refusal) => refusal.number(),
    };
    let (_, _) = store.into_parts();
    [first, own, other, end, beside, behind]
}

// Until a remove that was begun is finished a read shows the old value, and no client changes it.
#[test]
fn a_begun_remove_waits_for_its_finish(rt: HostRuntime) -> Result<(), Fail> {
    let absent: &[u8] = b"";
    let cases: [(&[u8], &[u8], bool, [u8; 6]); 6] = [
        (&SECOND, &SECOND_TAG, true, [0, 9, 11, 0, 0, 1]),
        (&SECOND, &SECOND_TAG, false, [0, 9, 11, 0, 0, 0]),
        (&PLAIN, absent, true, [0, 9, 11, 0, 0, 1]),
        (absent, &SECOND_TAG, true, [0, 9, 11, 0, 17, 1]),
        (absent, &SECOND_TAG, false, [0, 9, 11, 0, 17, 17]),
        (absent, absent, true, [1, 1, 0, 10, 1, 1]),
    ];
    for (record, tag, is_finished, wanted) in cases.iter() {
        let alloc = rt.alloc();
        assert_eq!(rt; begun(alloc, record, tag, *is_finished), *wanted);
    }
    Ok(())
}

// The answers to adding bytes to a remove that client 1 has begun: none, some, and none by another
// client.
fn added(alloc: Global) -> [u8; 3] {
    let primary = filled(alloc, KEY, &PLAIN);
    let rollback = filled(alloc, KEY, b"");
    let mut store = SecureStore::new(primary, rollback, &ROOT, 1);
    let _ = store.remove_start(1, KEY);
    let none = number_of(store.set_add(1, b""));
    let some = number_of(store.set_add(1, b"x"));
    let other = number_of(store.set_add(2, b""));
    let (_, _) = store.into_parts();
    [none, some, other]
}

#[test]
fn a_begun_remove_takes_no_bytes(rt: HostRuntime) -> Result<(), Fail> {
    assert_eq!(rt; added(rt.alloc()), [0, 4, 10]);
    Ok(())
}

// The bytes that both stores hold of a key once it was set, where the rollback store had a tag.
fn sealed(alloc: Global, tag: &[u8], flags: Flags, number: u64) -> ([u8; 76], [u8; 16]) {
    let primary = filled(alloc, KEY, b"");
    let rollback = filled(alloc, KEY, tag);
    let mut store = SecureStore::new(primary, rollback, &ROOT, number);
    let _ = store.set(1, KEY, VALUE, flags);
    let (mut primary, mut rollback) = store.into_parts();
    let mut record = [0; 76];
    let mut mirrored = [0; 16];
    let _ = primary.get(KEY, 0, &mut record);
    let _ = rollback.get(KEY, 0, &mut mirrored);
    (record, mirrored)
}

// A set seals byte by byte as another implementation does.
#[test]
fn a_set_seals_its_record(rt: HostRuntime) -> Result<(), Fail> {
    let (record, tag) = sealed(
        rt.alloc(),
        &PRIOR,
        Flags { bits: 11 },
        0x0102_0304_0506_0708,
    );
    assert_eq!(rt; record, SECOND);
    assert_eq!(rt; tag, SECOND_TAG);
    let (record, tag) = sealed(rt.alloc(), b"", Flags::NONE, 5);
    assert_eq!(rt; record, PLAIN);
    assert_eq!(rt; tag, [0; 16]);
    Ok(())
}

// The answers to two sets of a key and to a read, what the read gives, and the next number.
fn set_twice(alloc: Global, first: u32, second: u32) -> ([u8; 3], [u8; 20], u64) {
    let primary = filled(alloc, KEY, b"");
    let rollback = filled(alloc, KEY, b"");
    let mut store = SecureStore::new(primary, rollback, &ROOT, 1);
    let one = number_of(store.set(1, KEY, VALUE, Flags { bits: first }));
    let two = number_of(store.set(1, KEY, b"01234567890123456789", Flags { bits: second }));
    let mut buf = [7; 20];
    let three = match store.get(KEY, 0, &mut buf) {
        Ok(_) => 0,
        Err(refusal) => refusal.number(),
    };
    let number = store.iv();
    let (_, _) = store.into_parts();
    ([one, two, three], buf, number)
}

// A value is got back as it was set, and a set with any flag takes a number. A key that is mirrored
// stays so, and one that is write-once can't be set again.
#[test]
fn values_are_set_and_replaced(rt: HostRuntime) -> Result<(), Fail> {
    let cases: [(u32, u32, [u8; 3], u64); 14] = [
        (0, 0, [0, 0, 0], 1),
        (2, 2, [0, 0, 0], 3),
        (8, 8, [0, 0, 0], 3),
        (10, 8, [0, 0, 0], 3),
        (0, 8, [0, 0, 0], 2),
        (2, 0, [0, 0, 0], 2),
        (8, 9, [0, 0, 0], 3),
        (8, 0, [0, 3, 0], 2),
        (8, 2, [0, 3, 0], 2),
        (1, 1, [0, 5, 0], 2),
        (1, 0, [0, 5, 0], 2),
        (9, 8, [0, 5, 0], 2),
        (0, 4, [0, 3, 0], 1),
        (0, 16, [0, 3, 0], 1),
    ];
    for (first, second, answers, number) in cases.iter() {
        let alloc = rt.alloc();
        let (given, buf, next) = set_twice(alloc, *first, *second);
        assert_eq!(rt; given, *answers);
        let wanted = if answers[1] == 0 {
            *b"01234567890123456789"
        } else {
            *VALUE
        };
        assert_eq!(rt; buf, wanted);
        assert_eq!(rt; next, *number);
    }
    Ok(())
}

// The answer to a set of a value of so many bytes, and the next number.
fn set_long(alloc: Global, key: &[u8], value: &[u8], flags: u32, number: u64) -> (u8, u64) {
    let primary = filled(alloc, KEY, b"");
    let rollback = filled(alloc, KEY, b"");
    let mut store = SecureStore::new(primary, rollback, &ROOT, number);
    let answer = number_of(store.set(1, key, value, Flags { bits: flags }));
    let next = store.iv();
    let (_, _) = store.into_parts();
    (answer, next)
}

// A set that is refused takes no number.
#[test]
fn refused_sets_take_no_number(rt: HostRuntime) -> Result<(), Fail> {
    let last = u64::MAX;
    let long = [1; 4096];
    assert_eq!(rt; set_long(rt.alloc(), KEY, VALUE, 2, last), (18, last));
    assert_eq!(rt; set_long(rt.alloc(), KEY, VALUE, 0, last), (0, last));
    assert_eq!(rt; set_long(rt.alloc(), KEY, VALUE, 2, last - 1), (0, last));
    assert_eq!(rt; set_long(rt.alloc(), KEY, &long, 2, 7), (6, 7));
    assert_eq!(rt; set_long(rt.alloc(), b"a/b", VALUE, 2, 7), (2, 7));
    Ok(())
}

// A value of several pieces is got back.
#[test]
fn a_long_value_is_set(rt: HostRuntime) -> Result<(), Fail> {
    let alloc = rt.alloc();
    let primary = filled(alloc, KEY, b"");
    let rollback = filled(alloc, KEY, b"");
    let mut store = SecureStore::new(primary, rollback, &ROOT, 1);
    let value = [0x5a; 150];
    let mut buf = [7; 150];
    let one = number_of(store.set(1, KEY, &value, Flags { bits: 10 }));
    let two = match store.get(KEY, 0, &mut buf) {
        Ok(_) => 0,
        Err(refusal) => refusal.number(),
    };
    let (_, _) = store.into_parts();
    assert_eq!(rt; [one, two], [0, 0]);
    assert_eq!(rt; buf, value);
    Ok(())
}

// How many tags a recover over these two stores changes, or 100 and the number of the refusal, and
// the answer to a read after it.
fn recovered(alloc: Global, record: &[u8], tag: &[u8], buf: &mut [u8]) -> [u32; 2] {
    let primary = filled(alloc, KEY, record);
    let rollback = filled(alloc, KEY, tag);
    let mut store = SecureStore::new(primary, rollback, &ROOT, 1);
    let changed = match store.recover() {
        Ok(changed) => changed,
        Err(refusal) => 100 + refusal.number() as u32,
    };
    let answer = match store.get(KEY, 0, buf) {
        Ok(_) => 0,
        Err(refusal) => refusal.number() as u32,
    };
    let (_, _) = store.into_parts();
    [changed, answer]
}

// A record that was set beside the tag that it replaces gets its own tag, and no other record does.
#[test]
fn a_recover_completes_a_cut_set(rt: HostRuntime) -> Result<(), Fail> {
    let absent: &[u8] = b"";
    let cases: [(&[u8], &[u8], [u32; 2]); 6] = [
        (&SECOND, &PRIOR, [1, 0]),
        (&SECOND, &SECOND_TAG, [0, 0]),
        (&SECOND, &FIRST_TAG, [0, 17]),
        (&SECOND, absent, [0, 17]),
        (&FIRST, &PRIOR, [0, 17]),
        (absent, &PRIOR, [0, 17]),
    ];
    for (record, tag, answers) in cases.iter() {
        let mut buf = [7; 20];
        let alloc = rt.alloc();
        assert_eq!(rt; recovered(alloc, record, tag, &mut buf), *answers);
        let wanted = if answers[1] == 0 { *VALUE } else { [0; 20] };
        assert_eq!(rt; buf, wanted);
    }
    Ok(())
}

// The answers to a set that is written in two pieces, with a byte too many behind them, and what
// both stores hold in the end.
fn sealed_in_pieces(alloc: Global, front: &[u8], back: &[u8]) -> ([u8; 5], [u8; 76], [u8; 16]) {
    let primary = filled(alloc, KEY, b"");
    let rollback = filled(alloc, KEY, &PRIOR);
    let mut store = SecureStore::new(primary, rollback, &ROOT, 0x0102_0304_0506_0708);
    let one = number_of(store.set_start(1, KEY, 20, Flags { bits: 11 }));
    let two = number_of(store.set_add(1, front));
    let three = number_of(store.set_add(1, back));
    let four = number_of(store.set_add(1, b"x"));
    let five = number_of(store.set_finish(1));
    let (mut primary, mut rollback) = store.into_parts();
    let mut record = [0; 76];
    let mut mirrored = [0; 16];
    let _ = primary.get(KEY, 0, &mut record);
    let _ = rollback.get(KEY, 0, &mut mirrored);
    ([one, two, three, four, five], record, mirrored)
}

// A set in pieces seals the record that a set at once seals, wherever its value is cut.
#[test]
fn a_set_in_pieces_seals_one_record(rt: HostRuntime) -> Result<(), Fail> {
    let cases: [(&[u8], &[u8]); 3] = [
        (b"", b"ABCDEFGHIJKLMNOPQRST"),
        (b"ABCDE", b"FGHIJKLMNOPQRST"),
        (b"ABCDEFGHIJKLMNOPQRST", b""),
    ];
    for (front, back) in cases.iter() {
        let alloc = rt.alloc();
        let (answers, record, tag) = sealed_in_pieces(alloc, front, back);
        assert_eq!(rt; answers, [0, 0, 0, 4, 0]);
        assert_eq!(rt; record, SECOND);
        assert_eq!(rt; tag, SECOND_TAG);
    }
    Ok(())
}

// The answers to a set of three bytes that client 1 begins, to these bytes, to another client's
// byte, to two finishes and to a read.
fn finished_with(alloc: Global, value: &[u8]) -> [u8; 6] {
    let primary = filled(alloc, KEY, b"");
    let rollback = filled(alloc, KEY, b"");
    let mut store = SecureStore::new(primary, rollback, &ROOT, 1);
    let mut buf = [7; 3];
    let one = number_of(store.set_start(1, KEY, 3, Flags { bits: 8 }));
    let two = number_of(store.set_add(1, value));
    let other = number_of(store.set_add(2, b"x"));
    let three = number_of(store.set_finish(1));
    let four = number_of(store.set_finish(1));
    let five = match store.get(KEY, 0, &mut buf) {
        Ok(_) => 0,
        Err(refusal) => refusal.number(),
    };
    let (_, _) = store.into_parts();
    [one, two, other, three, four, five]
}

// A set with bytes missing is given up by its finish, and one takes no more bytes than it wants.
#[test]
fn a_set_wants_all_its_bytes(rt: HostRuntime) -> Result<(), Fail> {
    let cases: [(&[u8], [u8; 6]); 4] = [
        (b"abc", [0, 0, 10, 0, 10, 0]),
        (b"ab", [0, 0, 10, 4, 10, 1]),
        (b"", [0, 0, 10, 4, 10, 1]),
        (b"abcd", [0, 4, 10, 4, 10, 1]),
    ];
    for (value, answers) in cases.iter() {
        let alloc = rt.alloc();
        assert_eq!(rt; finished_with(alloc, value), *answers);
    }
    Ok(())
}
