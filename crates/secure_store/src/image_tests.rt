// Reads over the primary map of one moment and the rollback map of another, of two histories and of
// one under another root key. What a key has to show is worked out here, from the two maps.
ghost use Rattle.kv_model.specs.PlainStep.{plain_rules};
ghost use Rattle.kv_memory.specs.Memory.{known_of};
ghost use Rattle.sealed_pair.specs.Store.{IsFreshStore};

use crate::SecureStore;
use crate::tests::{ROOT, number_of};
use kv_memory::MemoryStore;
use kv_model::{Flags, Kv, KvError};
use std::alloc::Global;
use std::process::Abort;
use std::test::Fail;

const OTHER_ROOT: [u8; 16] = [9; 16];

// One call of a history. Each value has one byte.
#[derive(Clone, Copy)]
enum Change {
    Set { key: u32, value: u8, bits: u32 },
    Remove { key: u32 },
}

const FIRST_HISTORY: [Change; 10] = [
    Change::Set {
        key: 0,
        value: 1,
        bits: 8,
    },
    Change::Set {
        key: 1,
        value: 2,
        bits: 0,
    },
    Change::Set {
        key: 2,
        value: 3,
        bits: 1,
    },
    Change::Set {
        key: 0,
        value: 4,
        bits: 10,
    },
    Change::Set {
        key: 1,
        value: 5,
        bits: 2,
    },
    Change::Remove { key: 0 },
    Change::Set {
        key: 1,
        value: 6,
        bits: 8,
    },
    Change::Set {
        key: 0,
        value: 7,
        bits: 0,
    },
    Change::Set {
        key: 0,
        value: 8,
        bits: 8,
    },
    Change::Set {
        key: 1,
        value: 9,
        bits: 11,
    },
];

// It begins as the first one does.
const SECOND_HISTORY: [Change; 10] = [
    Change::Set {
        key: 0,
        value: 1,
        bits: 8,
    },
    Change::Set {
        key: 0,
        value: 20,
        bits: 8,
    },
    Change::Set {
        key: 1,
        value: 21,
        bits: 8,
    },
    Change::Remove { key: 1 },
    Change::Set {
        key: 1,
        value: 22,
        bits: 0,
    },
    Change::Set {
        key: 2,
        value: 23,
        bits: 2,
    },
    Change::Set {
        key: 2,
        value: 24,
        bits: 10,
    },
    Change::Set {
        key: 0,
        value: 25,
        bits: 9,
    },
    Change::Remove { key: 1 },
    Change::Remove { key: 2 },
];

fn name(key: u32) -> &'static [u8] {
    match key {
        0 => b"a",
        1 => b"b",
        _ => b"c",
    }
}

// What two stores have of a key: its record and its tag, and what was set last.
#[derive(Clone, Copy)]
struct Entry {
    has_record: bool,
    record: [u8; 57],
    has_tag: bool,
    tag: [u8; 16],
    flags: Flags,
    value: u8,
}

const ABSENT: Entry = Entry {
    has_record: false,
    record: [0; 57],
    has_tag: false,
    tag: [0; 16],
    flags: Flags { bits: 0 },
    value: 0,
};

// What two stores have at one moment of a history, and whether its root key is the one of reads.
#[derive(Clone, Copy)]
struct Image {
    entries: [Entry; 3],
    is_own: bool,
}

// The store with one entry more.
fn with(alloc: Global, store: MemoryStore, key: u32, bytes: &[u8], flags: Flags) -> MemoryStore
    requires { IsFreshStore plain_rules (known_of store) }
    ensures { IsFreshStore plain_rules (known_of result) }
{
    let mut store = store;
    match store.set(0, name(key), bytes, flags) {
        Ok(()) => store,
        Err(_) => MemoryStore::new(alloc, 32, 32, 4096),
    }
}

// The store with a record more, where there is one.
fn with_record(alloc: Global, store: MemoryStore, key: u32, entry: &Entry) -> MemoryStore
    requires { IsFreshStore plain_rules (known_of store) }
    ensures { IsFreshStore plain_rules (known_of result) }
{
    if entry.has_record {
        with(alloc, store, key, &entry.record, stored_flags(entry))
    } else {
        store
    }
}

// The store with a tag more, where there is one.
fn with_tag(alloc: Global, store: MemoryStore, key: u32, entry: &Entry) -> MemoryStore
    requires { IsFreshStore plain_rules (known_of store) }
    ensures { IsFreshStore plain_rules (known_of result) }
{
    if entry.has_tag {
        with(alloc, store, key, &entry.tag, stored_flags(entry))
    } else {
        store
    }
}

// Of the flags a store below has write-once alone.
fn stored_flags(entry: &Entry) -> Flags {
    Flags {
        bits: entry.flags.bits & 1,
    }
}

fn primary_of(alloc: Global, image: &Image) -> MemoryStore
    ensures { IsFreshStore plain_rules (known_of result) }
{
    let store = MemoryStore::new(alloc, 32, 32, 4096);
    let store = with_record(alloc, store, 0, &image.entries[0]);
    let store = with_record(alloc, store, 1, &image.entries[1]);
    with_record(alloc, store, 2, &image.entries[2])
}

fn rollback_of(alloc: Global, image: &Image) -> MemoryStore
    ensures { IsFreshStore plain_rules (known_of result) }
{
    let store = MemoryStore::new(alloc, 32, 32, 4096);
    let store = with_tag(alloc, store, 0, &image.entries[0]);
    let store = with_tag(alloc, store, 1, &image.entries[1]);
    with_tag(alloc, store, 2, &image.entries[2])
}

// What the two stores have of a key, which showed this before the change.
fn entry_of(
    primary: &mut MemoryStore,
    rollback: &mut MemoryStore,
    key: u32,
    before: &Entry,
    change: &Change,
) -> Entry {
    let mut record = [0; 57];
    let mut tag = [0; 16];
    let has_record = primary.get(name(key), 0, &mut record).is_ok();
    let has_tag = rollback.get(name(key), 0, &mut tag).is_ok();
    let (flags, value) = match *change {
        Change::Set {
            key: of,
            value,
            bits,
        } if of == key => (Flags { bits }, value),
        _ => (before.flags, before.value),
    };
    Entry {
        has_record,
        record,
        has_tag,
        tag,
        flags,
        value,
    }
}

fn perform(store: &mut SecureStore<MemoryStore, MemoryStore>, change: &Change) -> u8 {
    match *change {
        Change::Set { key, value, bits } => {
            number_of(store.set(1, name(key), &[value], Flags { bits }))
        }
        Change::Remove { key } => number_of(store.remove(1, name(key))),
    }
}

// The next moment, and the next number.
fn changed(
    rt: &impl Abort,
    alloc: Global,
    root: &[u8; 16],
    number: u64,
    image: &Image,
    change: &Change,
) -> (Image, u64) {
    let (primary, rollback) = (primary_of(alloc, image), rollback_of(alloc, image));
    let mut store = SecureStore::new(primary, rollback, root, number);
    let answer = perform(&mut store, change);
    let number = store.iv();
    let (mut primary, mut rollback) = store.into_parts();
    assert_eq!(rt; answer, 0);
    let [a, b, c] = image.entries;
    let entries = [
        entry_of(&mut primary, &mut rollback, 0, &a, change),
        entry_of(&mut primary, &mut rollback, 1, &b, change),
        entry_of(&mut primary, &mut rollback, 2, &c, change),
    ];
    let image = Image {
        entries,
        is_own: image.is_own,
    };
    (image, number)
}

// Appends the moments of a history.
fn add_moments(
    rt: &impl Abort,
    alloc: Global,
    root: &[u8; 16],
    changes: &[Change],
    images: &mut Vec<Image>,
) -> Result<(), Fail> {
    let mut number = 1;
    let mut image = Image {
        entries: [ABSENT; 3],
        is_own: *root == ROOT,
    };
    images.push(image)?;
    for change in changes {
        (image, number) = changed(rt, alloc, root, number, &image, change);
        images.push(image)?;
    }
    Ok(())
}

// Whether the tag is the one that the record asks for: its last bytes where the third word of its
// head has a flag that is mirrored, and none where it has not.
fn is_matched(above: &Entry, below: &Entry) -> bool {
    let is_mirrored = above.record[8] & 9 != 0;
    if is_mirrored && below.has_tag {
        above.record[41..] == below.tag[..]
    } else {
        is_mirrored == below.has_tag
    }
}

// What a key shows by its record in one image and its tag in another.
fn shown(above: &Entry, is_own: bool, below: &Entry) -> Result<(Flags, u8), KvError> {
    if !above.has_record && !below.has_tag {
        Err(KvError::NotFound)
    } else if !above.has_record {
        Err(KvError::RollbackFailed)
    } else if !is_own {
        Err(KvError::AuthFailed)
    } else if is_matched(above, below) {
        Ok((above.flags, above.value))
    } else {
        Err(KvError::RollbackFailed)
    }
}

// How often each number was answered, with 0 for a value.
#[derive(Drop)]
struct Tally {
    counts: [u32; 20],
}

impl Tally {
    fn note(&mut self, number: u8) {
        if let Some(count) = self.counts.get_mut(number as usize) {
            *count = count.saturating_add(1);
        }
    }
}

// Reads each key over the primary map of one image and the rollback map of another.
fn compare(rt: &impl Abort, alloc: Global, above: &Image, below: &Image, tally: &mut Tally) {
    let (primary, rollback) = (primary_of(alloc, above), rollback_of(alloc, below));
    let mut store = SecureStore::new(primary, rollback, &ROOT, 99);
    for key in 0..3u32 {
        let mut buf = [7];
        let given = match store.get(name(key), 0, &mut buf) {
            Ok(got) => Ok((got.flags, buf[0])),
            Err(refusal) => Err(refusal),
        };
        let place = key as usize;
        let wanted = shown(&above.entries[place], above.is_own, &below.entries[place]);
        assert_eq!(rt; given, wanted);
        tally.note(match given {
            Ok(_) => 0,
            Err(refusal) => refusal.number(),
        });
    }
    let (_, _) = store.into_parts();
}

fn compare_with_all(
    rt: &impl Abort,
    alloc: Global,
    above: &Image,
    images: &[Image],
    tally: &mut Tally,
) {
    for below in images {
        compare(rt, alloc, above, below, tally);
    }
}

#[test]
fn each_pair_of_images_shows_its_view(rt: HostRuntime) -> Result<(), Fail> {
    let alloc = rt.alloc();
    let mut images = Vec::new(alloc);
    add_moments(&rt, alloc, &ROOT, &FIRST_HISTORY, &mut images)?;
    add_moments(&rt, alloc, &ROOT, &SECOND_HISTORY, &mut images)?;
    add_moments(&rt, alloc, &OTHER_ROOT, &FIRST_HISTORY, &mut images)?;
    let mut tally = Tally { counts: [0; 20] };
    for above in images.iter() {
        compare_with_all(&rt, alloc, above, &images, &mut tally);
    }
    let counts = tally.counts;
    assert_eq!(rt;
        (counts[0], counts[1], counts[16], counts[17]),
        (392, 485, 825, 1565)
    );
    Ok(())
}
