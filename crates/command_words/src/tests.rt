//! Tests of command lines, by the rules and the defaults of the program.
use crate::{Command, Drawing, Names, OneImage, Session, Tool, WrongWords, read_words};
use flash_core::Geometry;
use kv_model::Pattern;
use script_core::{PowerCut, Side};
use std::alloc::Global;
use std::rc::RcStr;
use std::test::Fail;

const GEOMETRY: Geometry = Geometry {
    prog: 8,
    erase: 4096,
    units_per_area: 16,
};

const SMALL: Geometry = Geometry {
    prog: 1,
    erase: 64,
    units_per_area: 2,
};

const CUT: PowerCut = PowerCut {
    side: Side::Primary,
    n: 7,
    pattern: Pattern::Mix { seed: 3 },
};

/// A session with each default.
const PLAIN: Session<'static> = Session {
    names: Names {
        primary: "p",
        rollback: "-",
        script: "s",
    },
    geometry: GEOMETRY,
    rollback_geometry: GEOMETRY,
    root_key: [0, 1, 2, 3, 4, 5, 6, 7, 8, 9, 10, 11, 12, 13, 14, 15],
    first_vector: 1,
    hash_bits: 32,
    cut: None,
    secure: false,
    by_client: false,
};

/// The words of a line with one space between each two.
fn words_in(alloc: Global, line: &str) -> Result<Vec<RcStr>, Fail> {
    let mut words = Vec::new(alloc);
    for word in line.split(' ') {
        words.push(RcStr::from_str(alloc, word)?)?;
    }
    Ok(words)
}

#[test]
fn words_that_are_replays(rt: HostRuntime) -> Result<(), Fail> {
    let lines = [
        ("replay p - s", PLAIN),
        (
            "replay --by-client p - s",
            Session {
                by_client: true,
                ..PLAIN
            },
        ),
        (
            "replay p - --geom 1:64:2 s",
            Session {
                geometry: SMALL,
                ..PLAIN
            },
        ),
        (
            "replay p - s --geom=1:64:2",
            Session {
                geometry: SMALL,
                ..PLAIN
            },
        ),
        (
            "replay --hash-bits 0 p - s",
            Session {
                hash_bits: 0,
                ..PLAIN
            },
        ),
        (
            "replay p --cut p:7:mix:3 - s",
            Session {
                cut: Some(CUT),
                ..PLAIN
            },
        ),
        (
            "replay p - s --iv 18446744073709551615",
            Session {
                first_vector: 18_446_744_073_709_551_615,
                ..PLAIN
            },
        ),
        (
            "replay p - s --root=FFeeddccbbaa99887766554433221100",
            Session {
                root_key: [
                    255, 238, 221, 204, 187, 170, 153, 136, 119, 102, 85, 68, 51, 34, 17, 0,
                ],
                ..PLAIN
            },
        ),
        (
            "replay p - s --rgeom 1:64:2",
            Session {
                rollback_geometry: SMALL,
                ..PLAIN
            },
        ),
        (
            "replay p r s --secure",
            Session {
                names: Names {
                    rollback: "r",
                    ..PLAIN.names
                },
                secure: true,
                ..PLAIN
            },
        ),
    ];
    for (line, session) in lines {
        let words = words_in(rt.alloc(), line)?;
        assert_eq!(rt; read_words(&words), Ok(Command::Replay { session }));
    }
    Ok(())
}

#[test]
fn words_that_are_runs(rt: HostRuntime) -> Result<(), Fail> {
    let words = words_in(rt.alloc(), "run --secure p r s --cut=r:1:none")?;
    let cut = PowerCut {
        side: Side::Rollback,
        n: 1,
        pattern: Pattern::None,
    };
    let session = Session {
        names: Names {
            rollback: "r",
            ..PLAIN.names
        },
        cut: Some(cut),
        secure: true,
        ..PLAIN
    };
    assert_eq!(rt; read_words(&words), Ok(Command::Run { session }));
    Ok(())
}

// A line, its tool, and the image.
const TOOLS: [(&str, Tool, OneImage<'static>); 7] = [
    ("format p", Tool::Format, DEFAULT_IMAGE),
    ("check p", Tool::Check, DEFAULT_IMAGE),
    ("list p", Tool::List, DEFAULT_IMAGE),
    ("dump p", Tool::Dump, DEFAULT_IMAGE),
    ("format --geom 1:64:2 p", Tool::Format, SMALL_IMAGE),
    ("check p --geom=1:64:2", Tool::Check, SMALL_IMAGE),
    (
        "list --hash-bits=4 p --geom 1:64:2",
        Tool::List,
        LISTED_IMAGE,
    ),
];

const DEFAULT_IMAGE: OneImage<'static> = OneImage {
    file: "p",
    geometry: GEOMETRY,
    hash_bits: 32,
};

const SMALL_IMAGE: OneImage<'static> = OneImage {
    file: "p",
    geometry: SMALL,
    hash_bits: 32,
};

const LISTED_IMAGE: OneImage<'static> = OneImage {
    file: "p",
    geometry: SMALL,
    hash_bits: 4,
};

#[test]
fn words_that_use_a_tool(rt: HostRuntime) -> Result<(), Fail> {
    for (line, tool, image) in TOOLS {
        let words = words_in(rt.alloc(), line)?;
        assert_eq!(rt; read_words(&words), Ok(Command::Use { tool, image }));
    }
    Ok(())
}

#[test]
fn words_that_draw_a_script(rt: HostRuntime) -> Result<(), Fail> {
    let words = words_in(rt.alloc(), "gen 4294967295 16 8192")?;
    let drawing = Drawing {
        seed: 4_294_967_295,
        clients: 16,
        calls: 8_192,
    };
    assert_eq!(rt; read_words(&words), Ok(Command::Generate { drawing }));
    Ok(())
}

const NO_COMMANDS: [&str; 63] = [
    "",
    "replay",
    "Replay p - s",
    "play p - s",
    "--by-client replay p - s",
    "replay p -",
    "replay p - s t",
    "replay p - s --",
    "replay -- p - s",
    "replay -p - s",
    "replay p - -s",
    "replay p - s --help",
    "replay p - s --version",
    "replay p - s -h",
    "replay p - s --by-client --by-client",
    "replay p - s --by-client=",
    "replay p - s --by-client=1",
    "replay p - s --geo 8:4096:16",
    "replay p - s --geom",
    "replay --geom=8:4096:16 p - s --geom 8:4096:16",
    "replay p - s --geom=",
    "replay p - s --geom -",
    "replay p - s --geom --by-client",
    "replay p - s --geom -x",
    "replay p - s --geom 08:4096:16",
    "replay p - s --geom +8:4096:16",
    "replay p - s --geom 8:4096",
    "replay p - s --geom 8:4096:16:1",
    "replay p - s --geom 3:4096:16",
    "replay p - s --geom 8:4096:0",
    "replay p - s --rgeom 8:16:16",
    "replay p - s --iv 18446744073709551616",
    "replay p - s --iv 01",
    "replay p - s --iv=-1",
    "replay p - s --root 000102030405060708090a0b0c0d0e0",
    "replay p - s --root 000102030405060708090a0b0c0d0e0f0",
    "replay p - s --root 000102030405060708090a0b0c0d0e0g",
    "replay p - s --hash-bits 33",
    "replay p - s --hash-bits 032",
    "replay p - s --cut p:0:none",
    "replay p - s --cut r:1:none",
    "replay p - s --cut p:1:some",
    "replay p r s",
    "replay p - s --secure",
    "replay p p s --secure",
    "run p - s --cut r:1:none",
    "format",
    "format p q",
    "format p --hash-bits 4",
    "check p --hash-bits=4",
    "list p --by-client",
    "list p --hash-bits 33",
    "dump p --geom 3:4096:16",
    "dump p --geom 8:4096:16 --geom=8:4096:16",
    "dump p --",
    "List p",
    "gen 1 1",
    "gen 1 1 1 1",
    "gen 4294967296 1 1",
    "gen 1 0 1",
    "gen 1 17 1",
    "gen 1 1 8193",
    "gen 01 1 1",
];

#[test]
fn words_that_are_no_command(rt: HostRuntime) -> Result<(), Fail> {
    for line in NO_COMMANDS {
        let words = words_in(rt.alloc(), line)?;
        assert_eq!(rt; read_words(&words), Err(WrongWords));
    }
    assert_eq!(rt; read_words(&[]), Err(WrongWords));
    Ok(())
}
