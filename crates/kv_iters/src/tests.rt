use super::*;
use kv_model::{Key, KvError};
use std::alloc::Global;
use std::test::Fail;

#[derive(Clone, Copy)]
enum Asked {
    Start,
    Advance,
    End,
}

// A call, and its answer.
#[derive(Drop)]
struct Row {
    asked: Asked,
    who: u8,
    n: u8,
    prefix: &'static [u8],
    answer: Result<(), KvError>,
}

fn start(who: u8, n: u8, prefix: &'static [u8], answer: Result<(), KvError>) -> Row {
    Row {
        asked: Asked::Start,
        who,
        n,
        prefix,
        answer,
    }
}

fn advance(who: u8, n: u8, answer: Result<(), KvError>) -> Row {
    Row {
        asked: Asked::Advance,
        who,
        n,
        prefix: b"",
        answer,
    }
}

fn end(who: u8, n: u8, answer: Result<(), KvError>) -> Row {
    Row {
        asked: Asked::End,
        who,
        n,
        prefix: b"",
        answer,
    }
}

fn made(iters: &mut Iters, alloc: Global, row: &Row) -> Result<(), KvError> {
    match row.asked {
        Asked::Start => iters.start(alloc, row.who, row.n, row.prefix),
        Asked::Advance => iters.advance(row.who, row.n, &Key::new(b"cfg.00")?),
        Asked::End => iters.end(row.who, row.n),
    }
}

// Whether each call is answered as its row says.
fn answers(iters: &mut Iters, alloc: Global, rows: &[Row]) -> bool {
    for row in rows {
        if made(iters, alloc, row) != row.answer {
            return false;
        }
    }
    true
}

// The iterators 0 to 15 of client 1.
fn sixteen(alloc: Global) -> Result<Iters, KvError> {
    let mut iters = Iters::new(alloc);
    for n in 0..16 {
        iters.start(alloc, 1, n, b"")?;
    }
    Ok(iters)
}

// Of sixteen iterators each may begin anew, and a further one has a place once one is closed.
#[test]
fn sixteen_iterators(rt: HostRuntime) -> Result<(), Fail> {
    let mut iters = sixteen(rt.alloc()).expect(&rt, "sixteen iterators");
    let rows = [
        start(2, 0, b"", Err(KvError::TooManyIterators)),
        start(1, 3, b"", Ok(())),
        end(1, 3, Ok(())),
        start(2, 0, b"", Ok(())),
        start(2, 1, b"", Err(KvError::TooManyIterators)),
    ];
    assert!(rt; answers(&mut iters, rt.alloc(), &rows));
    Ok(())
}

// The oldest of sixteen is closed and opened again.
#[test]
fn the_oldest_again(rt: HostRuntime) -> Result<(), Fail> {
    let mut iters = sixteen(rt.alloc()).expect(&rt, "sixteen iterators");
    let rows = [
        advance(1, 0, Ok(())),
        end(1, 0, Ok(())),
        end(1, 0, Err(KvError::NoIterator)),
        start(1, 0, b"cfg.", Ok(())),
        start(1, 16, b"", Err(KvError::TooManyIterators)),
    ];
    assert!(rt; answers(&mut iters, rt.alloc(), &rows));
    let begun = iters.last(1, 0).expect(&rt, "the oldest");
    assert_eq!(rt; begun.prefix(), b"cfg.".as_slice());
    assert!(rt; begun.last_key().is_none());
    Ok(())
}

// Each refusal, and what is asked first where two would apply.
#[test]
fn refusals(rt: HostRuntime) -> Result<(), Fail> {
    let rows = [
        start(1, 0, b"a/b", Err(KvError::InvalidKey)),
        start(1, 0, &[b'x'; 129], Err(KvError::InvalidKey)),
        advance(1, 0, Err(KvError::NoIterator)),
        end(1, 0, Err(KvError::NoIterator)),
        start(1, 0, &[b'x'; 128], Ok(())),
        start(1, 0, b"TDBS", Ok(())),
        start(1, 0, b"a b", Err(KvError::InvalidKey)),
        advance(2, 0, Err(KvError::NoIterator)),
        advance(1, 1, Err(KvError::NoIterator)),
        end(2, 0, Err(KvError::NoIterator)),
        advance(1, 0, Ok(())),
        end(1, 0, Ok(())),
        advance(1, 0, Err(KvError::NoIterator)),
    ];
    let mut iters = Iters::new(rt.alloc());
    assert!(rt; answers(&mut iters, rt.alloc(), &rows));
    let mut full = sixteen(rt.alloc()).expect(&rt, "sixteen iterators");
    let rows = [
        start(2, 0, b"a?", Err(KvError::InvalidKey)),
        start(1, 0, b"a?", Err(KvError::InvalidKey)),
    ];
    assert!(rt; answers(&mut full, rt.alloc(), &rows));
    Ok(())
}

// An iterator keeps its prefix as it goes on, and begins anew without its last key.
#[test]
fn iterators_stand_apart(rt: HostRuntime) -> Result<(), Fail> {
    let mut iters = Iters::new(rt.alloc());
    let rows = [
        start(1, 0, b"cfg.", Ok(())),
        start(1, 1, b"a", Ok(())),
        start(2, 0, b"b", Ok(())),
        advance(1, 0, Ok(())),
    ];
    assert!(rt; answers(&mut iters, rt.alloc(), &rows));
    let key = Key::new(b"cfg.00").expect(&rt, "a key");
    let moved = iters.last(1, 0).expect(&rt, "an iterator");
    assert_eq!(rt; moved.prefix(), b"cfg.".as_slice());
    assert_eq!(rt; moved.last_key(), Some(&key));
    for (who, n, prefix) in [(1, 1, b"a"), (2, 0, b"b")].iter() {
        let other = iters.last(*who, *n).expect(&rt, "an iterator");
        assert_eq!(rt; other.prefix(), prefix.as_slice());
        assert!(rt; other.last_key().is_none());
    }
    let rows = [start(1, 0, b"c", Ok(()))];
    assert!(rt; answers(&mut iters, rt.alloc(), &rows));
    let anew = iters.last(1, 0).expect(&rt, "an iterator");
    assert_eq!(rt; anew.prefix(), b"c".as_slice());
    assert!(rt; anew.last_key().is_none());
    assert!(rt; matches!(iters.last(2, 1), Err(KvError::NoIterator)));
    Ok(())
}
