//! Replays that are refused, or that a failing host ends.
use crate::cases::{Case, Left, SIZE, outcome_of};
use std::alloc::Global;
use std::process::Abort;
use std::test::Fail;

const REPLAY: &str = "replay p - s";

/// Nothing comes of a case but a status and a line.
fn refuses<R: Abort>(
    rt: &R,
    alloc: Global,
    case: Case<'_>,
    status: u8,
    printed: &[u8],
) -> Result<(), Fail> {
    let Left { host, report } = outcome_of(alloc, case)?;
    assert_eq!(rt; report.status, status);
    assert_eq!(rt; host.printed(), printed);
    assert!(rt; report.journal.entries().is_empty());
    assert!(rt; report.primary.as_slice().is_empty());
    assert!(rt; report.rollback.as_slice().is_empty());
    assert!(rt; host.file("p") == case.image, "the image stands");
    assert!(rt; host.file("s") == case.script, "the script stands");
    Ok(())
}

/// Words of another form, and of what is not built: `run`, and a replay over two images.
const WRONG_WORDS: [&str; 18] = [
    "",
    "replay",
    "replay p -",
    "replay p - s s",
    "Replay p - s",
    "run p - s",
    "run p p s --secure",
    "replay p r s --secure",
    "replay p r s",
    "replay p -- s",
    "replay -p - s",
    "replay p - s --cut r:1:none",
    "replay p - s --cut p:0:none",
    "replay p - s --geom 8:4096",
    "replay p - s --geom 08:4096:16",
    "replay p - s --hash-bits 33",
    "replay p - s --by-client --by-client",
    "list p",
];

#[test]
fn words_of_another_form_are_refused(rt: HostRuntime) -> Result<(), Fail> {
    for words in WRONG_WORDS {
        let case = Case {
            words,
            script: None,
            image: None,
            failing: &[],
        };
        refuses(&rt, rt.alloc(), case, 1, b"refused: words\n")?;
    }
    Ok(())
}

/// What the files are, the status and the line.
#[derive(Clone, Copy)]
struct Refused<'a> {
    script: Option<&'a [u8]>,
    image: Option<&'a [u8]>,
    status: u8,
    line: &'a [u8],
}

/// Nothing comes of a replay of these files but the line.
fn refuses_files<R: Abort>(rt: &R, alloc: Global, files: Refused<'_>) -> Result<(), Fail> {
    let case = Case {
        words: REPLAY,
        script: files.script,
        image: files.image,
        failing: &[],
    };
    refuses(rt, alloc, case, files.status, files.line)
}

/// Scripts with a bad line, and the number of the first.
const BAD_LINES: [(&[u8], &[u8]); 11] = [
    (b"1 get a\n1 frob", b"refused: line 2\n"),
    (b"1 put a 00 -", b"refused: line 1\n"),
    (b"1 get a ", b"refused: line 1\n"),
    (b"1  get a", b"refused: line 1\n"),
    (b"1 get", b"refused: line 1\n"),
    (b"1 set a 0 -", b"refused: line 1\n"),
    (b"1 get a\n01 get a\n", b"refused: line 2\n"),
    (b"17 get a", b"refused: line 1\n"),
    (b"0 cut r:1:none", b"refused: line 1\n"),
    (b"1 get a\n2 get a\n# b\n\n1 frob", b"refused: line 5\n"),
    (b"1 get a\n2 get a\n1 get\n1 frob", b"refused: line 3\n"),
];

/// One call line more than may be, behind these lines.
fn too_many_calls(alloc: Global, front: &[u8]) -> Result<Vec<u8>, Fail> {
    let mut script = front.to_vec(alloc)?;
    for _ in 0..8193 {
        script.extend_from_slice(b"1 get a\n")?;
    }
    Ok(script)
}

fn refuses_a_script<'a, R: Abort>(
    rt: &R,
    alloc: Global,
    script: &'a [u8],
    line: &'a [u8],
) -> Result<(), Fail> {
    let files = Refused {
        script: Some(script),
        image: None,
        status: 2,
        line,
    };
    refuses_files(rt, alloc, files)
}

#[test]
fn the_first_bad_line_is_named(rt: HostRuntime) -> Result<(), Fail> {
    let alloc = rt.alloc();
    for (script, line) in BAD_LINES {
        refuses_a_script(&rt, alloc, script, line)?;
    }
    let too_many = too_many_calls(alloc, b"")?;
    refuses_a_script(&rt, alloc, &too_many, b"refused: line 8193\n")?;
    let behind_comments = too_many_calls(alloc, b"# calls\n\n")?;
    refuses_a_script(&rt, alloc, &behind_comments, b"refused: line 8195\n")
}

#[test]
fn files_that_cannot_be_used_are_named(rt: HostRuntime) -> Result<(), Fail> {
    let alloc = rt.alloc();
    let long_script = vec![in alloc; b'#'; 2_097_153]?;
    let shorter = vec![in alloc; 0xFFu8; 131_071]?;
    let longer = vec![in alloc; 0u8; 131_073]?;
    let too_long = vec![in alloc; 0xFFu8; 16_777_217]?;
    let script: Option<&[u8]> = Some(b"1 set a 00ff -");
    // the script, the image, the status and the line
    let cases: [(Option<&[u8]>, Option<&[u8]>, u8, &[u8]); 7] = [
        (None, Some(&shorter), 6, b"refused: file s absent\n"),
        (script, None, 6, b"refused: file p absent\n"),
        (
            Some(&long_script),
            None,
            6,
            b"refused: file s over 2097152 bytes\n",
        ),
        (
            script,
            Some(&too_long),
            6,
            b"refused: file p over 16777216 bytes\n",
        ),
        (
            script,
            Some(b""),
            3,
            b"refused: image p has 0 bytes, not 131072\n",
        ),
        (
            script,
            Some(&shorter),
            3,
            b"refused: image p has 131071 bytes, not 131072\n",
        ),
        (
            script,
            Some(&longer),
            3,
            b"refused: image p has 131073 bytes, not 131072\n",
        ),
    ];
    for (script, image, status, line) in cases {
        let files = Refused {
            script,
            image,
            status,
            line,
        };
        refuses_files(&rt, alloc, files)?;
    }
    Ok(())
}

/// A call of the host that fails ends a case with nothing printed. How many calls of the store
/// stand in the journal, and whether the image is written.
fn stops<R: Abort>(rt: &R, alloc: Global, case: Case<'_>) -> Result<(usize, bool), Fail> {
    let Left { host, report } = outcome_of(alloc, case)?;
    assert_eq!(rt; report.status, 4);
    assert!(rt; host.printed().is_empty());
    let primary = report.primary.as_slice();
    let written = !primary.is_empty();
    let expected = if written { Some(primary) } else { case.image };
    assert!(rt;
        host.file("p") == expected,
        "it is that of the report, or stands"
    );
    Ok((report.journal.entries().len(), written))
}

// The words, whether there are a script and an image, the number of the call, and what stands then.
const FAILING_CALLS: [(&str, bool, bool, u32, (usize, bool)); 7] = [
    ("", false, false, 1, (0, false)),
    (REPLAY, true, true, 1, (0, false)),
    (REPLAY, true, true, 2, (0, false)),
    (REPLAY, false, true, 2, (0, false)),
    (REPLAY, true, false, 3, (0, false)),
    (REPLAY, true, true, 3, (2, false)),
    (REPLAY, true, true, 4, (2, true)),
];

#[test]
fn a_call_of_the_host_that_fails_ends_the_work(rt: HostRuntime) -> Result<(), Fail> {
    let alloc = rt.alloc();
    let erased = vec![in alloc; 0xFFu8; SIZE]?;
    let image: Option<&[u8]> = Some(&erased);
    let script: Option<&[u8]> = Some(b"1 set a 00ff -\n1 get a");
    for (words, has_script, has_image, call, left) in FAILING_CALLS {
        let case = Case {
            words,
            script: if has_script { script } else { None },
            image: if has_image { image } else { None },
            failing: &[call],
        };
        assert_eq!(rt; stops(&rt, alloc, case)?, left);
    }
    Ok(())
}
