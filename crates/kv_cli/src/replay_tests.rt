//! Replays that are done: over images of several geometries, new and used, with power cuts.
use crate::cases::{Case, Left, SIZE, outcome_of};
use std::alloc::Global;
use std::process::Abort;
use std::test::Fail;

const REPLAY: &str = "replay p - s";

/// What a replay is asked for and what it prints.
#[derive(Clone, Copy)]
struct Row<'a> {
    words: &'a str,
    /// Of both areas, in bytes.
    size: usize,
    script: &'a [u8],
    printed: &'a [u8],
}

/// Words with a script and an image, where no call of the host fails.
fn case_of<'a>(words: &'a str, script: &'a [u8], image: &'a [u8]) -> Case<'a> {
    Case {
        words,
        script: Some(script),
        image: Some(image),
        failing: &[],
    }
}

/// The image that a row leaves where it had this one.
fn replayed_over<R: Abort>(
    rt: &R,
    alloc: Global,
    row: Row<'_>,
    image: &[u8],
) -> Result<Vec<u8>, Fail> {
    let Left { host, report } = outcome_of(alloc, case_of(row.words, row.script, image))?;
    assert_eq!(rt; report.status, 0);
    assert_eq!(rt; host.printed(), row.printed);
    let written = report.primary.as_slice();
    assert_eq!(rt; written.len(), row.size);
    assert!(rt;
        host.file("p") == Some(written),
        "the image of the report is written"
    );
    Ok(written.to_vec(alloc)?)
}

/// The image that a row leaves over an erased one.
fn replayed<R: Abort>(rt: &R, alloc: Global, row: Row<'_>) -> Result<Vec<u8>, Fail> {
    let erased = vec![in alloc; 0xFFu8; row.size]?;
    replayed_over(rt, alloc, row, &erased)
}

// ---- rows over an erased image of the default geometry

/// The options, the script, and the text.
const ROWS: [(&str, &[u8], &[u8]); 15] = [
    (REPLAY, b"1 set a 00ff -\n1 get a", b"1 1 ok\n1 2 ok 00ff\n"),
    (REPLAY, b"", b""),
    (REPLAY, b"1 get a\n", b"1 1 error 1 not-found\n"),
    (
        REPLAY,
        b"1 set k - -\n1 get k\n1 info k\n1 part k 0 4\n1 part k 1 1",
        b"1 1 ok\n1 2 ok -\n1 3 ok 0 -\n1 4 ok -\n1 5 error 4 invalid-size\n",
    ),
    (
        REPLAY,
        b"1 set k 01 w\n1 set k 02 -\n1 remove k\n1 get k\n1 set j 01 c\n1 get j",
        b"1 1 ok\n1 2 error 5 write-protected\n1 3 error 5 write-protected\n1 4 ok 01\n\
            1 5 error 3 invalid-flags\n1 6 error 1 not-found\n",
    ),
    (REPLAY, b"1 set TDBS 00 -", b"1 1 error 2 invalid-key\n"),
    (REPLAY, b"1 set a/b 00 -", b"1 1 error 2 invalid-key\n"),
    (
        REPLAY,
        b"1 set k 01 -\n1 start k 2 -\n1 add aa\n2 get k\n1 add bb\n1 finish\n2 get k",
        b"1 1 ok\n1 2 ok\n1 3 ok\n2 1 ok 01\n1 4 ok\n1 5 ok\n2 2 ok aabb\n",
    ),
    (
        "replay --hash-bits 0 p - s",
        b"1 set b 00 -\n1 set d 00 -\n1 set f 00 -\n1 open 0 *\n1 next 0\n1 remove d\n\
            1 set a 00 -\n1 set e 00 -\n1 next 0\n1 next 0\n1 next 0\n1 next 0\n1 close 0\n\
            1 next 0",
        b"1 1 ok\n1 2 ok\n1 3 ok\n1 4 ok\n1 5 key b\n1 6 ok\n1 7 ok\n1 8 ok\n1 9 key e\n\
            1 10 key f\n1 11 end\n1 12 end\n1 13 ok\n1 14 error 8 no-iterator\n",
    ),
    (
        "replay p - s --hash-bits=4",
        THREE_KEYS,
        b"1 1 ok\n1 2 ok\n1 3 ok\n1 4 ok\n1 5 key c\n1 6 key b\n1 7 key a\n",
    ),
    (
        "replay p - s --hash-bits=8",
        THREE_KEYS,
        b"1 1 ok\n1 2 ok\n1 3 ok\n1 4 ok\n1 5 key b\n1 6 key c\n1 7 key a\n",
    ),
    (
        "replay p - s --hash-bits 0",
        THREE_KEYS,
        b"1 1 ok\n1 2 ok\n1 3 ok\n1 4 ok\n1 5 key a\n1 6 key b\n1 7 key c\n",
    ),
    (
        REPLAY,
        THREE_KEYS,
        b"1 1 ok\n1 2 ok\n1 3 ok\n1 4 ok\n1 5 key a\n1 6 key b\n1 7 key c\n",
    ),
    (
        "replay p --by-client - s",
        b"2 set b 02 -\n0 mount\n1 set a 01 -\n2 get b",
        b"0 1 ok\n1 1 ok\n2 1 ok\n2 2 ok 02\n",
    ),
    (
        "replay p - --cut=p:2:none s",
        b"1 set a 01 -\n0 mount\n1 get a",
        b"1 1 error 14 write-fault\n0 1 ok\n1 2 error 1 not-found\n",
    ),
];

/// Three keys, in the order of an iterator.
const THREE_KEYS: &[u8] =
    b"1 set a 00 -\n1 set b 00 -\n1 set c 00 -\n1 open 0 *\n1 next 0\n1 next 0\n1 next 0";

fn replays<'a, R: Abort>(
    rt: &R,
    alloc: Global,
    words: &'a str,
    script: &'a [u8],
    printed: &'a [u8],
) -> Result<(), Fail> {
    let row = Row {
        words,
        size: SIZE,
        script,
        printed,
    };
    let _image = replayed(rt, alloc, row)?;
    Ok(())
}

/// A piece so often behind a text.
fn repeat(text: &mut String, piece: &str, times: usize) -> Result<(), Fail> {
    for _ in 0..times {
        text.push_str(piece)?;
    }
    Ok(())
}

/// A line with a long word.
fn line_with(
    alloc: Global,
    front: &str,
    piece: &str,
    times: usize,
    back: &str,
) -> Result<String, Fail> {
    let mut line = String::from_str(alloc, front)?;
    repeat(&mut line, piece, times)?;
    line.push_str(back)?;
    Ok(line)
}

// The front of a line, a piece and how often it stands, the rest, and what is printed.
const LONG_LINES: [(&str, &str, usize, &str, &[u8]); 4] = [
    ("1 set ", "x", 128, " 00 -", b"1 1 ok\n"),
    ("1 set ", "x", 129, " 00 -", b"1 1 error 2 invalid-key\n"),
    ("1 set k ", "5a", 65_471, " -", b"1 1 ok\n"),
    (
        "1 set k ",
        "5a",
        65_472,
        " -",
        b"1 1 error 6 media-full need 65504 room 65496\n",
    ),
];

/// Keys and values of the longest size, and one byte longer.
fn replays_long_words<R: Abort>(rt: &R, alloc: Global) -> Result<(), Fail> {
    for (front, piece, times, back, printed) in LONG_LINES {
        let line = line_with(alloc, front, piece, times, back)?;
        replays(rt, alloc, REPLAY, line.as_bytes(), printed)?;
    }
    Ok(())
}

/// All sixteen iterators, and one more.
fn replays_iterators<R: Abort>(rt: &R, alloc: Global) -> Result<(), Fail> {
    let mut script = String::new(alloc);
    let mut printed = String::new(alloc);
    for number in 0..16u8 {
        script.push_str(format!(in alloc; "1 open {number} *\n")?.as_str())?;
        printed.push_str(format!(in alloc; "1 {} ok\n", number + 1)?.as_str())?;
    }
    script.push_str("2 open 0 *\n1 open 3 *\n1 close 3\n2 open 0 *")?;
    printed.push_str("2 1 error 7 too-many-iterators\n1 17 ok\n1 18 ok\n2 2 ok\n")?;
    replays(rt, alloc, REPLAY, script.as_bytes(), printed.as_bytes())
}

/// A value that fills an area of 4,056 bytes, or would be one byte too long.
fn full_store<R: Abort>(rt: &R, alloc: Global) -> Result<(), Fail> {
    let lines = " -\n1 set k - -\n1 info k\n1 remove k\n1 info k";
    let script = line_with(alloc, "1 set k ", "5a", 4_031, lines)?;
    let row = Row {
        words: "replay p - s --geom 8:4096:1",
        size: 8_192,
        script: script.as_bytes(),
        printed: b"1 1 ok\n1 2 error 6 media-full need 4088 room 4056\n1 3 ok 4031 -\n\
            1 4 ok\n1 5 error 1 not-found\n",
    };
    let image = replayed(rt, alloc, row)?;
    // the remove collected: area 1 is active in version 2 and has no record
    assert!(rt; image.get(4_124..4_126) == Some([2u8, 0].as_slice()));
    assert!(rt; image.iter().skip(4_136).all(|byte| *byte == 0xFF));
    let script = line_with(alloc, "1 set k ", "5a", 4_032, " -")?;
    let row = Row {
        words: "replay p - s --geom 8:4096:1",
        size: 8_192,
        script: script.as_bytes(),
        printed: b"1 1 error 6 media-full need 4064 room 4056\n",
    };
    let _image = replayed(rt, alloc, row)?;
    Ok(())
}

#[test]
fn replies_are_printed_a_line_each(rt: HostRuntime) -> Result<(), Fail> {
    let alloc = rt.alloc();
    for (words, script, printed) in ROWS {
        replays(&rt, alloc, words, script, printed)?;
    }
    replays_long_words(&rt, alloc)?;
    replays_iterators(&rt, alloc)?;
    full_store(&rt, alloc)
}

// ---- power cuts

/// A set that is cut at a device call, and what a get finds behind a mount.
const CUT_SETS: [(&str, &str); 5] = [
    ("p:2:none", "01"),
    ("p:2:half", "01"),
    ("p:2:zero", "01"),
    ("p:2:all", "02"),
    ("p:1:all", "01"),
];

fn cut_in_a_set<R: Abort>(rt: &R, alloc: Global, cut: &str, found: &str) -> Result<(), Fail> {
    let script = format!(in alloc;
        "1 set a 01 -\n0 cut {cut}\n1 set a 02 -\n1 get a\n0 mount\n1 get a"
    )?;
    let printed = format!(in alloc;
        "1 1 ok\n1 2 error 14 write-fault\n\
        1 3 error 12 stopped\n0 1 ok\n1 4 ok {found}\n"
    )?;
    let row = Row {
        words: "replay p - s --geom 32:4096:2",
        size: 16_384,
        script: script.as_bytes(),
        printed: printed.as_bytes(),
    };
    let _image = replayed(rt, alloc, row)?;
    Ok(())
}

/// Seven sets fill an area. The eighth collects and is cut: its reply, and what a get finds.
const CUT_COLLECTIONS: [(&str, &str, &str); 6] = [
    ("p:1:zero", "error 14 write-fault", "07"),
    ("p:5:none", "error 14 write-fault", "07"),
    ("p:5:half", "error 14 write-fault", "07"),
    ("p:5:all", "error 14 write-fault", "07"),
    ("p:7:all", "error 14 write-fault", "08"),
    ("p:8:none", "ok", "08"),
];

const SEVEN_SETS: &str = "1 set n 01 -\n1 set n 02 -\n1 set n 03 -\n1 set n 04 -\n\
    1 set n 05 -\n1 set n 06 -\n1 set n 07 -\n";

const SEVEN_REPLIES: &str = "1 1 ok\n1 2 ok\n1 3 ok\n1 4 ok\n1 5 ok\n1 6 ok\n1 7 ok\n";

fn cut_in_a_collection<R: Abort>(
    rt: &R,
    alloc: Global,
    cut: &str,
    reply: &str,
    found: &str,
) -> Result<(), Fail> {
    let script = format!(in alloc; "{SEVEN_SETS}0 cut {cut}\n1 set n 08 -\n0 mount\n1 get n")?;
    let printed = format!(in alloc; "{SEVEN_REPLIES}1 8 {reply}\n0 1 ok\n1 9 ok {found}\n")?;
    let row = Row {
        words: "replay p - s --geom 32:512:1",
        size: 1_024,
        script: script.as_bytes(),
        printed: printed.as_bytes(),
    };
    let _image = replayed(rt, alloc, row)?;
    Ok(())
}

/// A remove that is cut in the collection which it needs, since one value fills the area.
fn cut_in_a_remove<R: Abort>(rt: &R, alloc: Global, cut: &str, found: &str) -> Result<(), Fail> {
    let back = format!(in alloc; " -\n0 cut {cut}\n1 remove k\n0 mount\n1 info k")?;
    let script = line_with(alloc, "1 set k ", "07", 415, back.as_str())?;
    let printed = format!(in alloc; "1 1 ok\n1 2 error 14 write-fault\n0 1 ok\n1 3 {found}\n")?;
    let row = Row {
        words: "replay p - s --geom 32:512:1",
        size: 1_024,
        script: script.as_bytes(),
        printed: printed.as_bytes(),
    };
    let _image = replayed(rt, alloc, row)?;
    Ok(())
}

#[test]
fn a_call_that_is_cut_is_whole_or_absent(rt: HostRuntime) -> Result<(), Fail> {
    let alloc = rt.alloc();
    for (cut, found) in CUT_SETS {
        cut_in_a_set(&rt, alloc, cut, found)?;
    }
    for (cut, reply, found) in CUT_COLLECTIONS {
        cut_in_a_collection(&rt, alloc, cut, reply, found)?;
    }
    cut_in_a_remove(&rt, alloc, "p:3:none", "ok 415 -")?;
    cut_in_a_remove(&rt, alloc, "p:3:all", "error 1 not-found")
}

// ---- used images

/// Two replays, the second over the image that the first left.
#[derive(Clone, Copy)]
struct Pair<'a> {
    words: &'a str,
    size: usize,
    first: &'a [u8],
    first_printed: &'a [u8],
    second: &'a [u8],
    second_printed: &'a [u8],
}

const PAIRS: [Pair<'static>; 4] = [
    // the eighth set collects, so area 1 is active
    Pair {
        words: "replay p - s --geom 32:512:1",
        size: 1_024,
        first: b"1 set n 01 -\n1 set n 02 -\n1 set n 03 -\n1 set n 04 -\n1 set n 05 -\n\
            1 set n 06 -\n1 set n 07 -\n1 set n 08 -",
        first_printed: b"1 1 ok\n1 2 ok\n1 3 ok\n1 4 ok\n1 5 ok\n1 6 ok\n1 7 ok\n1 8 ok\n",
        second: b"1 get n\n1 set n 09 -\n1 get n",
        second_printed: b"1 1 ok 08\n1 2 ok\n1 3 ok 09\n",
    },
    // a set that was not finished leaves bytes behind the records
    Pair {
        words: "replay p - s --geom 1:4096:1",
        size: 8_192,
        first: b"1 set k 01 -\n1 start k 2 -\n2 start j 1 -\n1 start k 1 -\n2 add 00\n\
            1 add aabbcc\n1 add aa\n1 finish\n2 get k",
        first_printed: b"1 1 ok\n1 2 ok\n2 1 error 11 busy 1\n1 3 error 9 set-open\n\
            2 2 error 10 no-set\n1 4 error 4 invalid-size\n1 5 ok\n\
            1 6 error 4 invalid-size\n2 3 ok 01\n",
        second: b"2 set j 05 -\n2 get j\n1 get k",
        second_printed: b"2 1 ok\n2 2 ok 05\n1 1 ok 01\n",
    },
    // the power goes, and nothing is mounted before the end
    Pair {
        words: "replay p - s --geom 32:4096:2",
        size: 16_384,
        first: b"1 set a 01 -\n0 cut p:2:zero\n1 set a 02 -",
        first_printed: b"1 1 ok\n1 2 error 14 write-fault\n",
        second: b"1 get a\n1 set a 03 -\n1 get a",
        second_printed: b"1 1 ok 01\n1 2 ok\n1 3 ok 03\n",
    },
    // an empty script leaves an image that mounts to the empty map
    Pair {
        words: "replay p - s --geom=8:4096:1",
        size: 8_192,
        first: b"",
        first_printed: b"",
        second: b"1 info a\n1 set a 0a -\n1 info a",
        second_printed: b"1 1 error 1 not-found\n1 2 ok\n1 3 ok 1 -\n",
    },
];

fn replays_twice<R: Abort>(rt: &R, alloc: Global, pair: Pair<'_>) -> Result<(), Fail> {
    let Pair { words, size, .. } = pair;
    let row = Row {
        words,
        size,
        script: pair.first,
        printed: pair.first_printed,
    };
    let image = replayed(rt, alloc, row)?;
    let row = Row {
        words,
        size,
        script: pair.second,
        printed: pair.second_printed,
    };
    let _image = replayed_over(rt, alloc, row, &image)?;
    Ok(())
}

#[test]
fn an_image_is_taken_as_it_was_left(rt: HostRuntime) -> Result<(), Fail> {
    let alloc = rt.alloc();
    for pair in PAIRS {
        replays_twice(&rt, alloc, pair)?;
    }
    // without a valid area it is taken as empty
    let zeros = vec![in alloc; 0u8; SIZE]?;
    let row = Row {
        words: REPLAY,
        size: SIZE,
        script: b"",
        printed: b"",
    };
    let _image = replayed_over(&rt, alloc, row, &zeros)?;
    Ok(())
}

// ---- long replays

/// Two hundred sets of one key, in two small areas.
fn two_hundred_sets<R: Abort>(rt: &R, alloc: Global) -> Result<(), Fail> {
    let mut script = String::new(alloc);
    let mut printed = String::new(alloc);
    for number in 1..201u8 {
        script.push_str(format!(in alloc; "1 set n {number:02x} -\n")?.as_str())?;
        printed.push_str(format!(in alloc; "1 {number} ok\n")?.as_str())?;
    }
    script.push_str("1 get n\n")?;
    printed.push_str("1 201 ok c8\n")?;
    let row = Row {
        words: "replay p - s --geom 32:512:1",
        size: 1_024,
        script: script.as_bytes(),
        printed: printed.as_bytes(),
    };
    let image = replayed(rt, alloc, row)?;
    // versions 33 and 34; area 1 is active and has two records, the last of them behind byte 160
    assert!(rt; image.get(36..38) == Some([33u8, 0].as_slice()));
    assert!(rt; image.get(548..550) == Some([34u8, 0].as_slice()));
    assert!(rt; image.get(672..674) == Some(b"n\xc8".as_slice()));
    assert!(rt; image.get(704..1_024) == Some([0xFFu8; 320].as_slice()));
    Ok(())
}

/// Forty values of a configuration, from 4 bytes on, each five bytes longer than the one before.
fn configuration(alloc: Global, script: &mut String) -> Result<(), Fail> {
    for number in 0..40u8 {
        script.push_str(format!(in alloc; "1 set cfg.{number:02} ")?.as_str())?;
        let byte = format!(in alloc; "{number:02x}")?;
        repeat(script, byte.as_str(), 4 + 5 * usize::from(number))?;
        script.push_str(" -\n")?;
    }
    Ok(())
}

/// A certificate that comes in eighteen pieces of 100 bytes.
fn certificate(alloc: Global, script: &mut String) -> Result<(), Fail> {
    script.push_str("1 start cert.pem 1800 -\n")?;
    let piece = line_with(alloc, "1 add ", "c5", 100, "\n")?;
    repeat(script, piece.as_str(), 18)?;
    script.push_str("1 finish\n")?;
    Ok(())
}

/// A count of 300 boots.
fn boots(alloc: Global, script: &mut String) -> Result<(), Fail> {
    for count in 1..301u16 {
        let [low, high] = count.to_le_bytes();
        let line = format!(in alloc; "1 set boot.count {low:02x}{high:02x}0000 -\n")?;
        script.push_str(line.as_str())?;
    }
    Ok(())
}

/// So many lines `ok`.
fn done(alloc: Global, printed: &mut String, lines: u16) -> Result<(), Fail> {
    for line in 0..lines {
        printed.push_str(format!(in alloc; "1 {} ok\n", line + 1)?.as_str())?;
    }
    Ok(())
}

/// The life of a device that keeps a configuration and a certificate and counts its boots.
fn boot_life<R: Abort>(rt: &R, alloc: Global) -> Result<(), Fail> {
    let mut script = String::new(alloc);
    configuration(alloc, &mut script)?;
    certificate(alloc, &mut script)?;
    boots(alloc, &mut script)?;
    script.push_str("1 get boot.count")?;
    let mut printed = String::new(alloc);
    done(alloc, &mut printed, 360)?;
    printed.push_str("1 361 ok 2c010000\n")?;
    let row = Row {
        words: REPLAY,
        size: SIZE,
        script: script.as_bytes(),
        printed: printed.as_bytes(),
    };
    let image = replayed(rt, alloc, row)?;
    // the records end at byte 19272, with two bytes of padding
    assert!(rt; image.get(19_266..19_272) == Some(b"\x2c\x01\x00\x00\xff\xff".as_slice()));
    assert!(rt; image.iter().skip(19_272).all(|byte| *byte == 0xFF));
    Ok(())
}

/// As many call lines as may be.
fn most_calls<R: Abort>(rt: &R, alloc: Global) -> Result<(), Fail> {
    let mut script = String::new(alloc);
    repeat(&mut script, "1 get a\n", 8192)?;
    let erased = vec![in alloc; 0xFFu8; SIZE]?;
    let case = case_of(REPLAY, script.as_bytes(), &erased);
    let Left { host, report } = outcome_of(alloc, case)?;
    assert_eq!(rt; report.journal.entries().len(), 8192);
    // each line prints 21 bytes and the digits of its index
    assert_eq!(rt; host.printed().len(), 203_693);
    Ok(())
}

#[test]
fn long_scripts_are_replayed(rt: HostRuntime) -> Result<(), Fail> {
    let alloc = rt.alloc();
    two_hundred_sets(&rt, alloc)?;
    boot_life(&rt, alloc)?;
    most_calls(&rt, alloc)
}
