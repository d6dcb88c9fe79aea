// What is told of images that another program spelled.
ghost use Rattle.std.specs.Prelude.{◌≡◌, length, IfOk};
ghost use Rattle.flash_core.specs.Sizes.{IsValid, size_of};

use super::*;
use flash_core::Geometry;
use std::alloc::Global;
use std::process::Abort;
use std::test::Fail;

// Two areas of 256 bytes.
const SMALL: Geometry = Geometry {
    prog: 8,
    erase: 64,
    units_per_area: 4,
};

const LARGE: Geometry = Geometry {
    prog: 8,
    erase: 4_096,
    units_per_area: 16,
};

const UNIT: Geometry = Geometry {
    prog: 8,
    erase: 4_096,
    units_per_area: 1,
};

const WIDE: Geometry = Geometry {
    prog: 32,
    erase: 512,
    units_per_area: 1,
};

const BYTES: Geometry = Geometry {
    prog: 1,
    erase: 4_096,
    units_per_area: 1,
};

// Of version 1.
const MASTER: [u8; 40] = [
    0x4b, 0x56, 0x52, 0x31, 0x18, 0, 1, 0, 0, 0, 0, 0, 4, 0, 0, 0, 8, 0, 0, 0, 0xaa, 0x37, 0xf7,
    0x1e, 0x54, 0x44, 0x42, 0x53, 1, 0, 1, 0, 0, 0, 0, 0, 0xff, 0xff, 0xff, 0xff,
];

// Key `k` with 4,031 bytes 0xFF, up to its value.
const FULL: [u8; 25] = [
    0x4b, 0x56, 0x52, 0x31, 0x18, 0, 1, 0, 0, 0, 0, 0, 1, 0, 0, 0, 0xbf, 0x0f, 0, 0, 0xbc, 0x12,
    0x4a, 0xee, 0x6b,
];

// Of version 2.
const MASTER_2: [u8; 36] = [
    0x4b, 0x56, 0x52, 0x31, 0x18, 0, 1, 0, 0, 0, 0, 0, 4, 0, 0, 0, 8, 0, 0, 0, 0x49, 0x30, 0x78,
    0x90, 0x54, 0x44, 0x42, 0x53, 2, 0, 1, 0, 0, 0, 0, 0,
];

// Key `n` set to c1 up to c7, by program units of 32 bytes.
const SEVEN_SETS: [u8; 418] = [
    0x4b, 0x56, 0x52, 0x31, 0x18, 0, 1, 0, 0, 0, 0, 0, 1, 0, 0, 0, 1, 0, 0, 0, 0xab, 0x63, 0x56,
    0x0d, 0xff, 0xff, 0xff, 0xff, 0xff, 0xff, 0xff, 0xff, 0x6e, 0xc1, 0xff, 0xff, 0xff, 0xff, 0xff,
    0xff, 0xff, 0xff, 0xff, 0xff, 0xff, 0xff, 0xff, 0xff, 0xff, 0xff, 0xff, 0xff, 0xff, 0xff, 0xff,
    0xff, 0xff, 0xff, 0xff, 0xff, 0xff, 0xff, 0xff, 0xff, 0x4b, 0x56, 0x52, 0x31, 0x18, 0, 1, 0, 0,
    0, 0, 0, 1, 0, 0, 0, 1, 0, 0, 0, 0x11, 0x32, 0x5f, 0x94, 0xff, 0xff, 0xff, 0xff, 0xff, 0xff,
    0xff, 0xff, 0x6e, 0xc2, 0xff, 0xff, 0xff, 0xff, 0xff, 0xff, 0xff, 0xff, 0xff, 0xff, 0xff, 0xff,
    0xff, 0xff, 0xff, 0xff, 0xff, 0xff, 0xff, 0xff, 0xff, 0xff, 0xff, 0xff, 0xff, 0xff, 0xff, 0xff,
    0xff, 0xff, 0x4b, 0x56, 0x52, 0x31, 0x18, 0, 1, 0, 0, 0, 0, 0, 1, 0, 0, 0, 1, 0, 0, 0, 0x87, 2,
    0x58, 0xe3, 0xff, 0xff, 0xff, 0xff, 0xff, 0xff, 0xff, 0xff, 0x6e, 0xc3, 0xff, 0xff, 0xff, 0xff,
    0xff, 0xff, 0xff, 0xff, 0xff, 0xff, 0xff, 0xff, 0xff, 0xff, 0xff, 0xff, 0xff, 0xff, 0xff, 0xff,
    0xff, 0xff, 0xff, 0xff, 0xff, 0xff, 0xff, 0xff, 0xff, 0xff, 0x4b, 0x56, 0x52, 0x31, 0x18, 0, 1,
    0, 0, 0, 0, 0, 1, 0, 0, 0, 1, 0, 0, 0, 0x24, 0x97, 0x3c, 0x7d, 0xff, 0xff, 0xff, 0xff, 0xff,
    0xff, 0xff, 0xff, 0x6e, 0xc4, 0xff, 0xff, 0xff, 0xff, 0xff, 0xff, 0xff, 0xff, 0xff, 0xff, 0xff,
    0xff, 0xff, 0xff, 0xff, 0xff, 0xff, 0xff, 0xff, 0xff, 0xff, 0xff, 0xff, 0xff, 0xff, 0xff, 0xff,
    0xff, 0xff, 0xff, 0x4b, 0x56, 0x52, 0x31, 0x18, 0, 1, 0, 0, 0, 0, 0, 1, 0, 0, 0, 1, 0, 0, 0,
    0xb2, 0xa7, 0x3b, 0x0a, 0xff, 0xff, 0xff, 0xff, 0xff, 0xff, 0xff, 0xff, 0x6e, 0xc5, 0xff, 0xff,
    0xff, 0xff, 0xff, 0xff, 0xff, 0xff, 0xff, 0xff, 0xff, 0xff, 0xff, 0xff, 0xff, 0xff, 0xff, 0xff,
    0xff, 0xff, 0xff, 0xff, 0xff, 0xff, 0xff, 0xff, 0xff, 0xff, 0xff, 0xff, 0x4b, 0x56, 0x52, 0x31,
    0x18, 0, 1, 0, 0, 0, 0, 0, 1, 0, 0, 0, 1, 0, 0, 0, 8, 0xf6, 0x32, 0x93, 0xff, 0xff, 0xff, 0xff,
    0xff, 0xff, 0xff, 0xff, 0x6e, 0xc6, 0xff, 0xff, 0xff, 0xff, 0xff, 0xff, 0xff, 0xff, 0xff, 0xff,
    0xff, 0xff, 0xff, 0xff, 0xff, 0xff, 0xff, 0xff, 0xff, 0xff, 0xff, 0xff, 0xff, 0xff, 0xff, 0xff,
    0xff, 0xff, 0xff, 0xff, 0x4b, 0x56, 0x52, 0x31, 0x18, 0, 1, 0, 0, 0, 0, 0, 1, 0, 0, 0, 1, 0, 0,
    0, 0x9e, 0xc6, 0x35, 0xe4, 0xff, 0xff, 0xff, 0xff, 0xff, 0xff, 0xff, 0xff, 0x6e, 0xc7,
];

// To c7 and then to c8.
const TWO_SETS: [u8; 98] = [
    0x4b, 0x56, 0x52, 0x31, 0x18, 0, 1, 0, 0, 0, 0, 0, 1, 0, 0, 0, 1, 0, 0, 0, 0x9e, 0xc6, 0x35,
    0xe4, 0xff, 0xff, 0xff, 0xff, 0xff, 0xff, 0xff, 0xff, 0x6e, 0xc7, 0xff, 0xff, 0xff, 0xff, 0xff,
    0xff, 0xff, 0xff, 0xff, 0xff, 0xff, 0xff, 0xff, 0xff, 0xff, 0xff, 0xff, 0xff, 0xff, 0xff, 0xff,
    0xff, 0xff, 0xff, 0xff, 0xff, 0xff, 0xff, 0xff, 0xff, 0x4b, 0x56, 0x52, 0x31, 0x18, 0, 1, 0, 0,
    0, 0, 0, 1, 0, 0, 0, 1, 0, 0, 0, 0x0f, 0xdb, 0x8a, 0x74, 0xff, 0xff, 0xff, 0xff, 0xff, 0xff,
    0xff, 0xff, 0x6e, 0xc8,
];

// Of versions 33 and 34, by units of 32 bytes.
const MASTER_33: [u8; 44] = [
    0x4b, 0x56, 0x52, 0x31, 0x18, 0, 1, 0, 0, 0, 0, 0, 4, 0, 0, 0, 8, 0, 0, 0, 0xfc, 0x55, 0x81,
    0xe7, 0xff, 0xff, 0xff, 0xff, 0xff, 0xff, 0xff, 0xff, 0x54, 0x44, 0x42, 0x53, 0x21, 0, 1, 0, 0,
    0, 0, 0,
];

const MASTER_34: [u8; 44] = [
    0x4b, 0x56, 0x52, 0x31, 0x18, 0, 1, 0, 0, 0, 0, 0, 4, 0, 0, 0, 8, 0, 0, 0, 0x1f, 0x52, 0x0e,
    0x69, 0xff, 0xff, 0xff, 0xff, 0xff, 0xff, 0xff, 0xff, 0x54, 0x44, 0x42, 0x53, 0x22, 0, 1, 0, 0,
    0, 0, 0,
];

// Of versions 1 and 2, by units of one byte.
const BYTE_MASTER_1: [u8; 36] = [
    0x4b, 0x56, 0x52, 0x31, 0x18, 0, 1, 0, 0, 0, 0, 0, 4, 0, 0, 0, 8, 0, 0, 0, 0xaa, 0x37, 0xf7,
    0x1e, 0x54, 0x44, 0x42, 0x53, 1, 0, 1, 0, 0, 0, 0, 0,
];

const BYTE_MASTER_2: [u8; 36] = [
    0x4b, 0x56, 0x52, 0x31, 0x18, 0, 1, 0, 0, 0, 0, 0, 4, 0, 0, 0, 8, 0, 0, 0, 0x49, 0x30, 0x78,
    0x90, 0x54, 0x44, 0x42, 0x53, 2, 0, 1, 0, 0, 0, 0, 0,
];

// Key `k` set to 01, and `j` to 05.
const K_SET: [u8; 26] = [
    0x4b, 0x56, 0x52, 0x31, 0x18, 0, 1, 0, 0, 0, 0, 0, 1, 0, 0, 0, 1, 0, 0, 0, 0x5e, 0x55, 0x45,
    0xeb, 0x6b, 1,
];

const J_SET: [u8; 26] = [
    0x4b, 0x56, 0x52, 0x31, 0x18, 0, 1, 0, 0, 0, 0, 0, 1, 0, 0, 0, 1, 0, 0, 0, 6, 0xa0, 0x33, 0xf5,
    0x6a, 5,
];

const MASTER_OF_0: [u8; 36] = [
    0x4b, 0x56, 0x52, 0x31, 0x18, 0, 1, 0, 0, 0, 0, 0, 4, 0, 0, 0, 8, 0, 0, 0, 0x34, 0x37, 0x5d,
    0xd2, 0x54, 0x44, 0x42, 0x53, 0, 0, 1, 0, 0, 0, 0, 0,
];

const MASTER_OF_5: [u8; 36] = [
    0x4b, 0x56, 0x52, 0x31, 0x18, 0, 1, 0, 0, 0, 0, 0, 4, 0, 0, 0, 8, 0, 0, 0, 0x50, 0x39, 0xbd,
    0x9a, 0x54, 0x44, 0x42, 0x53, 5, 0, 1, 0, 0, 0, 0, 0,
];

const MASTER_OF_9: [u8; 36] = [
    0x4b, 0x56, 0x52, 0x31, 0x18, 0, 1, 0, 0, 0, 0, 0, 4, 0, 0, 0, 8, 0, 0, 0, 0x1f, 0x2c, 0x12,
    0xcd, 0x54, 0x44, 0x42, 0x53, 9, 0, 1, 0, 0, 0, 0, 0,
];

const MASTER_OF_65535: [u8; 36] = [
    0x4b, 0x56, 0x52, 0x31, 0x18, 0, 1, 0, 0, 0, 0, 0, 4, 0, 0, 0, 8, 0, 0, 0, 0xe2, 0x7b, 0x20,
    0x66, 0x54, 0x44, 0x42, 0x53, 0xff, 0xff, 1, 0, 0, 0, 0, 0,
];

// Key `s` with 59 bytes 0xFF, up to its value.
const S_59: [u8; 25] = [
    0x4b, 0x56, 0x52, 0x31, 0x18, 0, 1, 0, 0, 0, 0, 0, 1, 0, 0, 0, 0x3b, 0, 0, 0, 0xfa, 4, 0x6a,
    0x3d, 0x73,
];

// `a` is set to 00ff, `b` to nothing, write-once, `c` to 07, and `c` is removed.
const LOG: [u8; 121] = [
    0x4b, 0x56, 0x52, 0x31, 0x18, 0, 1, 0, 0, 0, 0, 0, 1, 0, 0, 0, 2, 0, 0, 0, 0x21, 0x78, 0x5e,
    0x84, 0x61, 0, 0xff, 0xff, 0xff, 0xff, 0xff, 0xff, 0x4b, 0x56, 0x52, 0x31, 0x18, 0, 1, 0, 1, 0,
    0, 0, 1, 0, 0, 0, 0, 0, 0, 0, 0x55, 0x29, 0x49, 0xd2, 0x62, 0xff, 0xff, 0xff, 0xff, 0xff, 0xff,
    0xff, 0x4b, 0x56, 0x52, 0x31, 0x18, 0, 1, 0, 0, 0, 0, 0, 1, 0, 0, 0, 1, 0, 0, 0, 0x63, 0x7a,
    0xff, 0xca, 0x63, 7, 0xff, 0xff, 0xff, 0xff, 0xff, 0xff, 0x4b, 0x56, 0x52, 0x31, 0x18, 0, 1, 0,
    0, 0, 0, 0x80, 1, 0, 0, 0, 0, 0, 0, 0, 0x47, 0xc9, 0xdd, 0x9e, 0x63,
];

// `b` is set to 02, `a` to 01, and `c` to 03.
const THREE: [u8; 90] = [
    0x4b, 0x56, 0x52, 0x31, 0x18, 0, 1, 0, 0, 0, 0, 0, 1, 0, 0, 0, 1, 0, 0, 0, 0xad, 0xbf, 0x8e,
    0xa3, 0x62, 2, 0xff, 0xff, 0xff, 0xff, 0xff, 0xff, 0x4b, 0x56, 0x52, 0x31, 0x18, 0, 1, 0, 0, 0,
    0, 0, 1, 0, 0, 0, 1, 0, 0, 0, 0xd4, 0xbd, 0xaa, 0x11, 0x61, 1, 0xff, 0xff, 0xff, 0xff, 0xff,
    0xff, 0x4b, 0x56, 0x52, 0x31, 0x18, 0, 1, 0, 0, 0, 0, 0, 1, 0, 0, 0, 1, 0, 0, 0, 0x7a, 0xbe,
    0x92, 0xcd, 0x63, 3,
];

// The first bytes of a set of `k` that was not finished.
const UNFINISHED: [u8; 2] = [0x6b, 0xaa];

// Bytes, and their place in an image.
struct Piece {
    place: usize,
    bytes: &'static [u8],
}

// An erased image with these pieces, its check, and the listing of its keys.
struct Case {
    geometry: Geometry,
    pieces: &'static [Piece],
    check: &'static [u8],
    list: &'static [u8],
}

const CASES: [Case; 9] = [
    Case {
        geometry: LARGE,
        pieces: &[Piece {
            place: 0,
            bytes: &MASTER,
        }],
        check: b"area 0 version 1 active records 0 live 0 end 40 tail clean\n\
            area 1 none\n",
        list: b"",
    },
    Case {
        geometry: UNIT,
        pieces: &[
            Piece {
                place: 0,
                bytes: &MASTER,
            },
            Piece {
                place: 40,
                bytes: &FULL,
            },
            Piece {
                place: 4096,
                bytes: &MASTER_2,
            },
        ],
        check: b"area 0 version 1 standby records 1 live 1 end 4096 tail clean\n\
            area 1 version 2 active records 0 live 0 end 40 tail clean\n",
        list: b"",
    },
    Case {
        geometry: WIDE,
        pieces: &[
            Piece {
                place: 0,
                bytes: &MASTER_33,
            },
            Piece {
                place: 64,
                bytes: &SEVEN_SETS,
            },
            Piece {
                place: 512,
                bytes: &MASTER_34,
            },
            Piece {
                place: 576,
                bytes: &TWO_SETS,
            },
        ],
        check: b"area 0 version 33 standby records 7 live 1 end 512 tail clean\n\
            area 1 version 34 active records 2 live 1 end 192 tail clean\n",
        list: b"n 1 -\n",
    },
    Case {
        geometry: BYTES,
        pieces: &[
            Piece {
                place: 0,
                bytes: &BYTE_MASTER_1,
            },
            Piece {
                place: 36,
                bytes: &K_SET,
            },
            Piece {
                place: 86,
                bytes: &UNFINISHED,
            },
            Piece {
                place: 4096,
                bytes: &BYTE_MASTER_2,
            },
            Piece {
                place: 4132,
                bytes: &K_SET,
            },
            Piece {
                place: 4158,
                bytes: &J_SET,
            },
        ],
        check: b"area 0 version 1 standby records 1 live 1 end 62 tail dirty\n\
            area 1 version 2 active records 2 live 2 end 88 tail clean\n",
        list: b"j 1 -\nk 1 -\n",
    },
    Case {
        geometry: SMALL,
        pieces: &[
            Piece {
                place: 0,
                bytes: &MASTER_OF_0,
            },
            Piece {
                place: 256,
                bytes: &MASTER_OF_65535,
            },
            Piece {
                place: 296,
                bytes: &LOG,
            },
        ],
        check: b"area 0 version 0 active records 0 live 0 end 40 tail clean\n\
            area 1 version 65535 standby records 4 live 2 end 168 tail clean\n",
        list: b"",
    },
    Case {
        geometry: SMALL,
        pieces: &[
            Piece {
                place: 0,
                bytes: &MASTER_OF_65535,
            },
            Piece {
                place: 256,
                bytes: &MASTER_OF_0,
            },
            Piece {
                place: 296,
                bytes: &LOG,
            },
        ],
        check: b"area 0 version 65535 standby records 0 live 0 end 40 tail clean\n\
            area 1 version 0 active records 4 live 2 end 168 tail clean\n",
        list: b"a 2 -\nb 0 w\n",
    },
    Case {
        geometry: SMALL,
        pieces: &[
            Piece {
                place: 0,
                bytes: &MASTER_OF_5,
            },
            Piece {
                place: 40,
                bytes: &THREE,
            },
            Piece {
                place: 256,
                bytes: &MASTER_OF_9,
            },
            Piece {
                place: 296,
                bytes: &LOG,
            },
        ],
        check: b"area 0 version 5 active records 3 live 3 end 136 tail clean\n\
            area 1 version 9 standby records 4 live 2 end 168 tail clean\n",
        list: b"a 1 -\nb 1 -\nc 1 -\n",
    },
    Case {
        geometry: SMALL,
        pieces: &[
            Piece {
                place: 0,
                bytes: &MASTER,
            },
            Piece {
                place: 40,
                bytes: &S_59,
            },
        ],
        check: b"area 0 version 1 active records 1 live 1 end 128 tail clean\n\
            area 1 none\n",
        list: b"s 59 -\n",
    },
    Case {
        geometry: SMALL,
        pieces: &[Piece {
            place: 40,
            bytes: &THREE,
        }],
        check: b"area 0 none\n\
            area 1 none\n",
        list: b"",
    },
];

// Puts these pieces at their places.
fn put(rt: &impl Abort, image: &mut [u8], pieces: &[Piece]) {
    for piece in pieces {
        let end = piece.place.saturating_add(piece.bytes.len());
        assert!(rt; piece.place <= end && end <= image.len());
        image[piece.place..end].copy_from_slice(piece.bytes);
    }
}

// An erased image with these pieces.
fn image_of(
    rt: &impl Abort,
    alloc: Global,
    geometry: Geometry,
    pieces: &[Piece],
) -> Result<Vec<u8>, Fail>
    requires { IsValid geometry }
    ensures { IfOk result (λ image. length image.items ≡ size_of geometry) }
{
    let mut image = vec![in alloc; 0xff; geometry.size() as usize]?;
    put(rt, &mut image, pieces);
    Ok(image)
}

#[test]
fn images_are_checked_and_listed(rt: HostRuntime) -> Result<(), Fail> {
    let alloc = rt.alloc();
    for case in CASES.iter() {
        assert!(rt; case.geometry.is_valid());
        let image = image_of(&rt, alloc, case.geometry, case.pieces)?;
        let check = check_image(alloc, case.geometry, &image).expect(&rt, "memory");
        assert!(rt; check.as_slice() == case.check);
        let list = list_image(alloc, case.geometry, &image, 32).expect(&rt, "memory");
        assert!(rt; list.as_slice() == case.list);
    }
    Ok(())
}

// The hashes of `a`, `b` and `c` of four bits are 12, 6 and 0, and of eight 188, 6 and 144.
const ORDERS: [(u8, &[u8]); 4] = [
    (4, b"c 1 -\nb 1 -\na 1 -\n"),
    (8, b"b 1 -\nc 1 -\na 1 -\n"),
    (32, b"a 1 -\nb 1 -\nc 1 -\n"),
    (0, b"a 1 -\nb 1 -\nc 1 -\n"),
];

const THREE_KEYS: [Piece; 2] = [
    Piece {
        place: 0,
        bytes: &MASTER,
    },
    Piece {
        place: 40,
        bytes: &THREE,
    },
];

#[test]
fn keys_are_listed_by_their_hashes(rt: HostRuntime) -> Result<(), Fail> {
    let alloc = rt.alloc();
    assert!(rt; SMALL.is_valid());
    let image = image_of(&rt, alloc, SMALL, &THREE_KEYS)?;
    for (hash_bits, wanted) in ORDERS {
        assert!(rt; hash_bits <= 32);
        let list = list_image(alloc, SMALL, &image, hash_bits).expect(&rt, "memory");
        assert!(rt; list.as_slice() == wanted);
    }
    Ok(())
}

const LOGGED: [Piece; 2] = [
    Piece {
        place: 256,
        bytes: &MASTER_2,
    },
    Piece {
        place: 296,
        bytes: &LOG,
    },
];

#[test]
fn an_image_is_dumped_as_a_script(rt: HostRuntime) -> Result<(), Fail> {
    let alloc = rt.alloc();
    assert!(rt; SMALL.is_valid());
    let image = image_of(&rt, alloc, SMALL, &LOGGED)?;
    let script = dump_image(alloc, SMALL, &image, 32).expect(&rt, "memory");
    assert!(rt; script.as_slice() == b"1 set a 00ff -\n1 set b - w\n".as_slice());
    Ok(())
}

// Nothing is written: no area is made valid.
#[test]
fn an_image_of_zeros_has_no_keys(rt: HostRuntime) -> Result<(), Fail> {
    let alloc = rt.alloc();
    assert!(rt; SMALL.is_valid());
    let image = [0; 512];
    assert!(rt; image.len() == SMALL.size() as usize);
    let check = check_image(alloc, SMALL, &image).expect(&rt, "memory");
    assert!(rt; check.as_slice() == b"area 0 none\narea 1 none\n".as_slice());
    let list = list_image(alloc, SMALL, &image, 32).expect(&rt, "memory");
    assert!(rt; list.is_empty());
    let script = dump_image(alloc, SMALL, &image, 32).expect(&rt, "memory");
    assert!(rt; script.is_empty());
    Ok(())
}
