// Drawn calls on a secure store over the plain program in memory, and on a small model.
ghost use Rattle.std.specs.Prelude.{◌≤◌, ◌<◌};

use crate::SecureStore;
use crate::drawn_model::{Answer, Request, Rooms, Slot, Table, Text, found, name, prefix};
use crate::tests::{FIRST, FIRST_TAG, PLAIN, ROOT, SECOND, SECOND_TAG, VALUE, holding};
use kv_memory::MemoryStore;
use kv_model::{Flags, Info, Kv, KvError};
use std::alloc::Global;
use std::process::Abort;
use std::test::Fail;

type Store = SecureStore<MemoryStore, MemoryStore>;

// A fixed generator, so that each run draws the same calls.
#[derive(Drop)]
struct Draws {
    state: u32,
}

impl Draws {
    // The next number, below a bound.
    fn below(&mut self, bound: u32) -> u32
        requires { 1 ≤ bound }
        ensures { result < bound }
    {
        self.state = self
            .state
            .wrapping_mul(1_664_525)
            .wrapping_add(1_013_904_223);
        (self.state >> 8) % bound
    }

    // Each sum of the three flags, and some flags that no store has.
    fn flags(&mut self) -> Flags {
        let bits = match self.below(20) {
            0..8 => 8,
            8 => 1,
            9 => 9,
            10 | 11 => 2,
            12 | 13 => 10,
            14 => 3,
            15 => 11,
            16 => 4,
            17 => 16,
            _ => 0,
        };
        Flags { bits }
    }

    // A value of at most so many bytes.
    fn text(&mut self, most: u32) -> Text
        requires { most ≤ 24 }
    {
        let first = self.below(256) as u8;
        Text::rising(first, self.below(most + 1))
    }

    fn request(&mut self) -> Request {
        if self.below(5) < 2 {
            self.reading()
        } else {
            self.writing()
        }
    }

    // A call that changes no map.
    fn reading(&mut self) -> Request {
        match self.below(8) {
            0..3 => Request::Get {
                key: self.below(8),
                offset: self.below(12),
            },
            3 => Request::Info { key: self.below(8) },
            4 | 5 => Request::Open {
                n: self.below(10) as u8,
                prefix: self.below(4),
            },
            6 => Request::Next {
                n: self.below(10) as u8,
            },
            _ => self.closing(),
        }
    }

    // A call on an iterator, which seldom closes it.
    fn closing(&mut self) -> Request {
        let n = self.below(10) as u8;
        if self.below(5) == 0 {
            Request::Close { n }
        } else {
            Request::Next { n }
        }
    }

    // A call that changes the maps or what is begun.
    fn writing(&mut self) -> Request {
        match self.below(18) {
            0 | 1 => Request::Remove { key: self.below(8) },
            2 => Request::RemoveStart { key: self.below(8) },
            3 | 4 => Request::Start {
                key: self.below(8),
                size: self.below(12),
                flags: self.flags(),
            },
            5 => Request::Start {
                key: self.below(8),
                size: 65_535 + self.below(3),
                flags: self.flags(),
            },
            6 => Request::Abort,
            7 | 8 | 9 => Request::Finish,
            10 | 11 | 12 => Request::Add {
                value: self.text(6),
            },
            13 => self.emptying(),
            _ => Request::Set {
                key: self.below(8),
                value: self.text(24),
                flags: self.flags(),
            },
        }
    }

    // A finish, and seldom a reset.
    fn emptying(&mut self) -> Request {
        if self.below(4) == 0 {
            Request::Reset
        } else {
            Request::Finish
        }
    }
}

fn done(outcome: Result<(), KvError>) -> Answer {
    match outcome {
        Ok(()) => Answer::Done,
        Err(error) => Answer::Refused { error },
    }
}

fn read(store: &mut Store, key: u32, offset: u32) -> Answer {
    let mut bytes = [7; 8];
    match store.get(name(key), offset, &mut bytes) {
        Ok(got) => Answer::Read { got, bytes },
        Err(error) => Answer::Refused { error },
    }
}

fn facts(store: &mut Store, key: u32) -> Answer {
    match store.info(name(key)) {
        Ok(info) => Answer::Facts { info },
        Err(error) => Answer::Refused { error },
    }
}

fn next(store: &mut Store, who: u8, n: u8) -> Answer {
    let mut out = [7; 128];
    match store.next(who, n, &mut out) {
        Ok(Some(size)) => found(&out[..(size as usize).min(128)]),
        Ok(None) => Answer::End,
        Err(error) => Answer::Refused { error },
    }
}

// Makes a call on a store.
fn ask(store: &mut Store, who: u8, request: &Request) -> Answer {
    match *request {
        Request::Get { key, offset } => read(store, key, offset),
        Request::Info { key } => facts(store, key),
        Request::Set { key, value, flags } => {
            done(store.set(who, name(key), value.as_slice(), flags))
        }
        Request::Start { key, size, flags } => done(store.set_start(who, name(key), size, flags)),
        Request::RemoveStart { key } => done(store.remove_start(who, name(key))),
        Request::Add { value } => done(store.set_add(who, value.as_slice())),
        Request::Finish => done(store.set_finish(who)),
        Request::Abort => done(store.set_abort(who)),
        Request::Remove { key } => done(store.remove(who, name(key))),
        Request::Reset => done(store.reset(who)),
        Request::Open { n, prefix: number } => done(store.iter_open(who, n, prefix(number))),
        Request::Next { n } => next(store, who, n),
        Request::Close { n } => done(store.iter_close(who, n)),
    }
}

// Which refusals came, by their numbers.
#[derive(Drop)]
struct Tally {
    came: [bool; 20],
}

impl Tally {
    fn note(&mut self, answer: &Answer) {
        let number = match *answer {
            Answer::Refused { error } => error.number(),
            _ => 0,
        };
        if let Some(came) = self.came.get_mut(number as usize) {
            *came = true;
        }
    }
}

// One call of a caller, on the store and on the model.
fn compare_call(
    rt: &impl Abort,
    store: &mut Store,
    table: &mut Table,
    who: u8,
    request: &Request,
    tally: &mut Tally,
) {
    let given = ask(store, who, request);
    let wanted = table.answer(who, request);
    assert_eq!(rt; given, wanted, "{who} {request:?}");
    assert_eq!(rt; store.iv(), table.number);
    tally.note(&given);
}

// The size and the flag of an entry of so many bytes.
fn entry(size: Option<u32>, is_once: bool) -> Result<Info, KvError> {
    let flags = if is_once {
        Flags::WRITE_ONCE
    } else {
        Flags::NONE
    };
    match size {
        Some(size) => Ok(Info { flags, size }),
        None => Err(KvError::NotFound),
    }
}

// What each key shows in the end, from its first byte on and from the eighth.
fn compare_shown(rt: &impl Abort, store: &mut Store, table: &mut Table, tally: &mut Tally) {
    for key in 0..6 {
        let whole = Request::Get { key, offset: 0 };
        compare_call(rt, store, table, 1, &whole, tally);
        let rest = Request::Get { key, offset: 8 };
        compare_call(rt, store, table, 1, &rest, tally);
    }
}

// What the two stores have in the end.
fn compare_parts(
    rt: &impl Abort,
    primary: &mut MemoryStore,
    rollback: &mut MemoryStore,
    table: &Table,
) {
    for key in 0..6 {
        if let Ok(slot) = table.slot(key) {
            assert_eq!(rt; primary.info(name(key)), entry(slot.sealed, slot.is_once));
            assert_eq!(rt; rollback.info(name(key)), entry(slot.tag, slot.is_once));
        }
    }
}

// What a history begins with: the bytes of `cert.pem` in both stores, and the flags and the value
// of the key, or why a read is refused.
#[derive(Drop)]
struct Start<'a> {
    record: &'a [u8],
    tag: &'a [u8],
    shown: Result<Flags, KvError>,
}

fn size_of(bytes: &[u8]) -> Option<u32> {
    if bytes.is_empty() {
        None
    } else {
        Some(bytes.len().min(76) as u32)
    }
}

fn slot_of(start: &Start) -> Slot {
    let (refusal, flags) = match start.shown {
        Ok(flags) => (None, flags),
        Err(refusal) => (Some(refusal), Flags::NONE),
    };
    Slot {
        sealed: size_of(start.record),
        tag: size_of(start.tag),
        is_once: false,
        refusal,
        flags,
        value: Text::new(VALUE),
    }
}

// A read and six hundred drawn calls over these two stores, from this number on.
fn compare(rt: &impl Abort, alloc: Global, start: &Start, number: u64, tally: &mut Tally) {
    let rooms = Rooms {
        primary: 480,
        rollback: 256,
    };
    let primary = holding(alloc, rooms.primary, name(3), start.record, Flags::NONE);
    let rollback = holding(alloc, rooms.rollback, name(3), start.tag, Flags::NONE);
    let mut store = SecureStore::new(primary, rollback, &ROOT, number);
    let mut table = Table::new(slot_of(start), rooms, number);
    let mut draws = Draws {
        state: ((number % 65_536) as u32).wrapping_mul(2_654_435_769),
    };
    let whole = Request::Get { key: 3, offset: 0 };
    compare_call(rt, &mut store, &mut table, 1, &whole, tally);
    for _round in 0..600 {
        let who = draws.below(2) as u8 + 1;
        let request = draws.request();
        compare_call(rt, &mut store, &mut table, who, &request, tally);
    }
    compare_shown(rt, &mut store, &mut table, tally);
    let (mut primary, mut rollback) = store.into_parts();
    compare_parts(rt, &mut primary, &mut rollback, &table);
}

// The bytes of `cert.pem` in both stores, the flags of the key or why a read is refused, and the
// number from which a store goes on.
type Case = (&'static [u8], &'static [u8], Result<Flags, KvError>, u64);

const ABSENT: &[u8] = b"";

const SECRET: Result<Flags, KvError> = Ok(Flags { bits: 11 });

const UNMATCHED: Result<Flags, KvError> = Err(KvError::RollbackFailed);

const CASES: [Case; 12] = [
    (ABSENT, ABSENT, Err(KvError::NotFound), 1),
    (ABSENT, ABSENT, Err(KvError::NotFound), 77),
    (&SECOND, &SECOND_TAG, SECRET, 2),
    (&FIRST, &FIRST_TAG, SECRET, 3),
    (&PLAIN, ABSENT, Ok(Flags { bits: 0 }), u64::MAX - 30),
    (&SECOND, ABSENT, UNMATCHED, 5),
    (&SECOND, &FIRST_TAG, UNMATCHED, u64::MAX - 60),
    (&SECOND, &PLAIN, UNMATCHED, 7),
    (&PLAIN, &SECOND_TAG, UNMATCHED, 8),
    (ABSENT, &SECOND_TAG, UNMATCHED, 9),
    (&FIRST_TAG, ABSENT, Err(KvError::AuthFailed), 10),
    (&FIRST_TAG, &FIRST_TAG, Err(KvError::AuthFailed), 11),
];

#[test]
fn drawn_calls_are_answered_as_by_the_model(rt: HostRuntime) -> Result<(), Fail> {
    let mut tally = Tally { came: [false; 20] };
    for (record, tag, shown, number) in CASES.iter() {
        let start = Start {
            record,
            tag,
            shown: *shown,
        };
        compare(&rt, rt.alloc(), &start, *number, &mut tally);
    }
    for number in [1, 2, 3, 4, 5, 6, 7, 8, 9, 10, 11, 16, 17, 18] {
        assert!(rt; tally.came.get(number) == Some(&true), "refusal {number}");
    }
    Ok(())
}
