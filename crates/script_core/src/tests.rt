use super::*;
use kv_model::{Bytes, Call, Flags, NoMemory, Pattern};
use std::alloc::Global;
use std::test::Fail;

const PLAIN: ScriptMode = ScriptMode {
    threads: false,
    secure: false,
};

const SECURE: ScriptMode = ScriptMode {
    threads: false,
    secure: true,
};

const THREADS: ScriptMode = ScriptMode {
    threads: true,
    secure: false,
};

// The number of lines of the script that a text is.
fn count(alloc: Global, text: &[u8], mode: ScriptMode) -> Result<usize, ScriptError> {
    if text.len() >= 0xFFFF_FFFF {
        return Err(ScriptError::Memory);
    }
    Ok(parse_script(alloc, text, mode)?.lines().len())
}

fn bytes(alloc: Global, items: &[u8]) -> Result<Bytes, NoMemory> {
    Bytes::new(alloc, items)
}

fn called(who: u8, call: Call) -> Line {
    let act = Act::Do { call };
    Line { who, act }
}

#[test]
fn a_set_and_a_get(rt: HostRuntime) -> Result<(), Fail> {
    let script = parse_script(rt.alloc(), b"1 set a 00Ff wc\n16 get /?*", PLAIN)?;
    let lines = script.lines();
    let set = Call::Set {
        key: bytes(rt.alloc(), b"a")?,
        value: bytes(rt.alloc(), &[0x00, 0xff])?,
        flags: Flags { bits: 3 },
    };
    let get = Call::Get {
        key: bytes(rt.alloc(), b"/?*")?,
    };
    assert_eq!(rt; lines.len(), 2);
    assert_eq!(rt; lines[0], called(1, set));
    assert_eq!(rt; lines[1], called(16, get));
    Ok(())
}

#[test]
fn each_other_form_of_a_line(rt: HostRuntime) -> Result<(), Fail> {
    let text =
        b"3 part k 0 4294967295\n3 start k 7 cr\n3 add -\n3 open 255 a*b*\n0 cut r:9:mix:0\n";
    let script = parse_script(rt.alloc(), text, SECURE)?;
    let part = Call::Part {
        key: bytes(rt.alloc(), b"k")?,
        offset: 0,
        count: 4_294_967_295,
    };
    let start = Call::Start {
        key: bytes(rt.alloc(), b"k")?,
        size: 7,
        flags: Flags { bits: 10 },
    };
    let add = Call::Add {
        value: Bytes::empty(rt.alloc()),
    };
    let open = Call::IterOpen {
        n: 255,
        prefix: bytes(rt.alloc(), b"a*b")?,
    };
    let pattern = Pattern::Mix { seed: 0 };
    let (side, n) = (Side::Rollback, 9);
    let lines = script.lines();
    assert_eq!(rt; lines.len(), 5);
    assert_eq!(rt; lines[0], called(3, part));
    assert_eq!(rt; lines[1], called(3, start));
    assert_eq!(rt; lines[2], called(3, add));
    assert_eq!(rt; lines[3], called(3, open));
    let act = Act::Cut { side, n, pattern };
    assert_eq!(rt; lines[4], Line { who: 0, act });
    Ok(())
}

const SCRIPTS: [(&[u8], ScriptMode, usize); 14] = [
    (b"", PLAIN, 0),
    (b"\n", PLAIN, 0),
    (b"# a comment", PLAIN, 0),
    (b"#\n\n1 get a\n", PLAIN, 1),
    (b"1 set a 00ff -\n1 get a", PLAIN, 2),
    (b"1 set a - -\n", PLAIN, 1),
    (b"1 set a 0aA0 wcr\n# get\n", PLAIN, 1),
    (
        b"1 info a\n1 remove a\n2 finish\n2 abort\n2 reset",
        PLAIN,
        5,
    ),
    (b"1 open 0 *\n1 next 0\n1 close 0", PLAIN, 3),
    (
        b"0 mount\n0 cut p:1:none\n0 cut p:4294967295:half",
        PLAIN,
        3,
    ),
    (
        b"0 cut r:1:zero\n0 cut r:10:all\n0 cut p:1:mix:4294967295",
        SECURE,
        3,
    ),
    (b"1 start a 1 -", PLAIN, 1),
    (b"1 start a 1 -\n2 get a\n1 abort", THREADS, 3),
    (b"1 start a 1 -\n1 start b 2 -\n1 finish", THREADS, 3),
];

#[test]
fn texts_that_are_scripts(rt: HostRuntime) -> Result<(), Fail> {
    for (text, mode, lines) in SCRIPTS {
        assert_eq!(rt; count(rt.alloc(), text, mode), Ok(lines));
    }
    Ok(())
}

const BAD_LINES: [(&[u8], u32); 24] = [
    (b"1 get a\n1 frob", 2),
    (b"#\n\n1 get a\n\n1 get", 5),
    (b"0 get a", 1),
    (b"17 get a", 1),
    (b"01 get a", 1),
    (b"+1 get a", 1),
    (b" get a", 1),
    (b" 1 get a", 1),
    (b"1  get a", 1),
    (b"1 get  a", 1),
    (b"1 get a ", 1),
    (b"1 get a\r\n", 1),
    (b"1 get a b", 1),
    (b"1 get \x7f", 1),
    (b"1 GET a", 1),
    (b"1", 1),
    (b"1 set a 0 -", 1),
    (b"1 set a 00f -", 1),
    (b"1 set a 0g -", 1),
    (b"1 set a  -", 1),
    (b"1 set a 00", 1),
    (b"1 set a 00 cw", 1),
    (b"1 set a 00 ww", 1),
    (b"1 set a 00 x\n1 get a", 1),
];

#[test]
fn bad_lines_are_named_by_their_number(rt: HostRuntime) -> Result<(), Fail> {
    for (text, line) in BAD_LINES {
        assert_eq!(rt;
            count(rt.alloc(), text, PLAIN),
            Err(ScriptError::BadLine { line })
        );
    }
    Ok(())
}

const BAD_IN_A_MODE: [(&[u8], ScriptMode, u32); 24] = [
    (b"1 part a 0", PLAIN, 1),
    (b"1 part a 00 1", PLAIN, 1),
    (b"1 part a 0 4294967296", PLAIN, 1),
    (b"1 start a - -", PLAIN, 1),
    (b"1 add 0", PLAIN, 1),
    (b"1 add", PLAIN, 1),
    (b"1 finish a", PLAIN, 1),
    (b"1 open 256 *", PLAIN, 1),
    (b"1 open 0 a", PLAIN, 1),
    (b"1 next 256", PLAIN, 1),
    (b"1 mount", PLAIN, 1),
    (b"1 cut p:1:none", PLAIN, 1),
    (b"0 cut p:0:none", SECURE, 1),
    (b"0 cut q:1:none", SECURE, 1),
    (b"0 cut p:1:some", SECURE, 1),
    (b"0 cut p:1:mix", SECURE, 1),
    (b"0 cut p:1:mix:01", SECURE, 1),
    (b"0 cut p:1", SECURE, 1),
    (b"0 mount\n0 cut r:1:none", PLAIN, 2),
    (b"0 mount", THREADS, 1),
    (b"1 get a\n0 cut p:1:none", THREADS, 2),
    (b"1 start a 1 -\n1 add 00", THREADS, 1),
    (b"1 start a 1 -\n2 finish\n1 finish 1", THREADS, 1),
    (b"1 finish\n1 start a 1 -\n1 frob", THREADS, 2),
];

#[test]
fn lines_that_a_number_or_a_mode_makes_bad(rt: HostRuntime) -> Result<(), Fail> {
    for (text, mode, line) in BAD_IN_A_MODE {
        assert_eq!(rt;
            count(rt.alloc(), text, mode),
            Err(ScriptError::BadLine { line })
        );
    }
    // A set that a line behind a bad line ends does not make its start bad.
    let text = b"1 start a 1 -\n1 frob\n1 finish";
    assert_eq!(rt;
        count(rt.alloc(), text, THREADS),
        Err(ScriptError::BadLine { line: 2 })
    );
    Ok(())
}

const CANONICAL_LINES: [(&[u8], &[u8]); 17] = [
    (b"1 get /?", b"1 get /?"),
    (b"16 part k 0 10", b"16 part k 0 10"),
    (b"9 info k", b"9 info k"),
    (b"10 set k 0Aff wcr", b"10 set k 0aff wcr"),
    (b"1 set k - -", b"1 set k - -"),
    (b"1 remove k", b"1 remove k"),
    (b"1 start k 4294967295 cr", b"1 start k 4294967295 cr"),
    (b"1 add BE", b"1 add be"),
    (b"1 finish", b"1 finish"),
    (b"1 abort", b"1 abort"),
    (b"1 open 255 a*", b"1 open 255 a*"),
    (b"1 next 0", b"1 next 0"),
    (b"1 close 7", b"1 close 7"),
    (b"1 reset", b"1 reset"),
    (b"0 mount", b"0 mount"),
    (b"0 cut p:1:half", b"0 cut p:1:half"),
    (b"0 cut r:20:mix:3\n", b"0 cut r:20:mix:3"),
];

#[test]
fn lines_are_printed_in_their_canonical_spelling(rt: HostRuntime) -> Result<(), Fail> {
    for (text, canonical) in CANONICAL_LINES {
        let script = parse_script(rt.alloc(), text, SECURE)?;
        let line = script.lines().first().ok_or("no line")?;
        let printed = print_line(rt.alloc(), line)?;
        assert_eq!(rt; printed.as_slice(), canonical);
    }
    Ok(())
}

#[test]
fn a_key_has_at_most_255_bytes(rt: HostRuntime) -> Result<(), Fail> {
    let mut text = b"1 get ".to_vec(rt.alloc())?;
    for _ in 0..255 {
        text.push(b'k')?;
    }
    assert_eq!(rt; count(rt.alloc(), &text, PLAIN), Ok(1));
    text.push(b'k')?;
    assert_eq!(rt;
        count(rt.alloc(), &text, PLAIN),
        Err(ScriptError::BadLine { line: 1 })
    );
    Ok(())
}

#[test]
fn a_script_has_at_most_8192_lines(rt: HostRuntime) -> Result<(), Fail> {
    let mut text = b"# calls\n".to_vec(rt.alloc())?;
    for _ in 0..8192 {
        text.extend_from_slice(b"1 get a\n")?;
    }
    assert_eq!(rt; count(rt.alloc(), &text, PLAIN), Ok(8192));
    text.extend_from_slice(b"\n1 get a\n1 frob\n")?;
    assert_eq!(rt;
        count(rt.alloc(), &text, PLAIN),
        Err(ScriptError::TooManyCalls { line: 8195 })
    );
    Ok(())
}

#[test]
fn a_word_that_is_a_cut_by_itself(rt: HostRuntime) -> Result<(), Fail> {
    let (side, pattern) = (Side::Rollback, Pattern::Mix { seed: 5 });
    assert_eq!(rt;
        read_cut(b"r:9:mix:5"),
        Some(PowerCut {
            side,
            n: 9,
            pattern
        })
    );
    for word in [
        b"".as_slice(),
        b"cut",
        b"p:0:none",
        b"p:1:none ",
        b"p:01:all",
        b"p:1",
    ] {
        assert_eq!(rt; read_cut(word), None);
    }
    Ok(())
}
