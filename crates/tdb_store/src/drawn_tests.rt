// Drawn calls on the store over a chip, and on the plain program in memory.
ghost use Rattle.std.specs.Prelude.{◌≢◌, ◌≤◌, ◌<◌};

use super::tests::{fresh, one_unit};
use flash_core::Geometry;
use kv_memory::MemoryStore;
use kv_model::{Bytes, Call, Flags, Kv, KvError, perform};
use std::alloc::Global;
use std::process::Abort;
use std::test::Fail;

// A fixed generator, so that each run draws the same calls.
#[derive(Drop)]
struct Draws {
    state: u32,
}

impl Draws {
    // The next number, below a bound.
    fn below(&mut self, bound: u32) -> u32
        requires { 1 ≤ bound }
        ensures { result < bound }
    {
        self.state = self
            .state
            .wrapping_mul(1_664_525)
            .wrapping_add(1_013_904_223);
        (self.state >> 8) % bound
    }

    fn flags(&mut self) -> Flags {
        match self.below(12) {
            0 => Flags { bits: 1 },
            1 => Flags { bits: 2 },
            _ => Flags::NONE,
        }
    }
}

// Eight keys, of which the last two are none.
fn name(number: u32) -> &'static [u8] {
    match number {
        0 => b"a",
        1 => b"b",
        2 => b"c",
        3 => b"d",
        4 => b"counter",
        5 => b"boot.count",
        6 => b"TDBS",
        _ => b"a/b",
    }
}

fn prefix(number: u32) -> &'static [u8] {
    match number {
        0 => b"",
        1 => b"b",
        _ => b"boot.",
    }
}

fn draw_name(rt: &impl Abort, alloc: Global, draws: &mut Draws) -> Bytes {
    Bytes::new(alloc, name(draws.below(8))).expect(rt, "memory")
}

fn draw_value(rt: &impl Abort, alloc: Global, draws: &mut Draws, most: u32) -> Bytes
    requires { most < 65536 }
{
    let byte = draws.below(256) as u8;
    let size = draws.below(most + 1);
    Bytes::from_vec(vec![in alloc; byte; size as usize].expect(rt, "memory"))
}

// A call that changes no map.
fn draw_reading(rt: &impl Abort, alloc: Global, draws: &mut Draws) -> Call
    ensures { result ≢ Call.Mount }
{
    match draws.below(6) {
        0 => Call::Get {
            key: draw_name(rt, alloc, draws),
        },
        1 => Call::Part {
            key: draw_name(rt, alloc, draws),
            offset: draws.below(8),
            count: draws.below(8),
        },
        2 => Call::Info {
            key: draw_name(rt, alloc, draws),
        },
        3 => Call::IterOpen {
            n: draws.below(8) as u8,
            prefix: Bytes::new(alloc, prefix(draws.below(3))).expect(rt, "memory"),
        },
        4 => Call::Next {
            n: draws.below(8) as u8,
        },
        _ => Call::IterClose {
            n: draws.below(8) as u8,
        },
    }
}

// A call that changes the map or what is active.
fn draw_writing(rt: &impl Abort, alloc: Global, draws: &mut Draws, most: u32) -> Call
    requires { most < 65536 }
    ensures { result ≢ Call.Mount }
{
    match draws.below(16) {
        0 => Call::Remove {
            key: draw_name(rt, alloc, draws),
        },
        1 => Call::Start {
            key: draw_name(rt, alloc, draws),
            size: draws.below(most + 1),
            flags: draws.flags(),
        },
        2 => Call::Abort,
        3 | 4 => Call::Finish,
        5 | 6 | 7 => Call::Add {
            value: draw_value(rt, alloc, draws, 3),
        },
        8 => {
            if draws.below(16) == 0 {
                Call::Reset
            } else {
                Call::Finish
            }
        }
        _ => Call::Set {
            key: draw_name(rt, alloc, draws),
            value: draw_value(rt, alloc, draws, most),
            flags: draws.flags(),
        },
    }
}

// One drawn call of one of three clients, on both stores.
fn compare_call<K: Kv>(
    rt: &impl Abort,
    alloc: Global,
    store: &mut K,
    plain: &mut MemoryStore,
    draws: &mut Draws,
    most: u32,
) -> Result<(), Fail>
    requires { most < 65536 }
{
    let who = draws.below(3) as u8 + 1;
    let call = if draws.below(2) == 0 {
        draw_reading(rt, alloc, draws)
    } else {
        draw_writing(rt, alloc, draws, most)
    };
    let one = perform(alloc, store, who, &call)?;
    let other = perform(alloc, plain, who, &call)?;
    assert_eq!(rt; one, other, "{call:?}");
    Ok(())
}

// What both have for each key.
fn compare_values<K: Kv>(
    rt: &impl Abort,
    alloc: Global,
    store: &mut K,
    plain: &mut MemoryStore,
) -> Result<(), Fail> {
    for number in 0..8 {
        let call = Call::Get {
            key: Bytes::new(alloc, name(number))?,
        };
        let one = perform(alloc, store, 1, &call)?;
        let other = perform(alloc, plain, 1, &call)?;
        assert_eq!(rt; one, other, "{call:?}");
    }
    Ok(())
}

// Some thousand calls of one store, whose image is mounted then.
fn compare(
    rt: &impl Abort,
    alloc: Global,
    geometry: Geometry,
    room: u32,
    most: u32,
    hash_bits: u8,
) -> Result<(), Fail> {
    assert!(rt; geometry.is_valid() && hash_bits <= 32 && room < 65_536 && most < 65_536);
    let mut store = fresh(rt, alloc, geometry, hash_bits)?;
    let mut plain = MemoryStore::new(alloc, hash_bits, geometry.prog, room);
    let mut draws = Draws {
        state: hash_bits as u32,
    };
    for _round in 0..1500 {
        compare_call(rt, alloc, &mut store, &mut plain, &mut draws, most)?;
    }
    match store.remount() {
        Ok(mut store) => compare_values(rt, alloc, &mut store, &mut plain),
        Err((_, error)) => Err(error)?,
    }
}

// Of each geometry: what all records may take, and the longest value that is drawn.
#[test]
fn drawn_calls_are_answered_as_by_the_plain_program(rt: HostRuntime) -> Result<(), Fail> {
    for (prog, erase, room, most) in [
        (1, 36, 0, 4),
        (8, 4096, 4056, 700),
        (32, 512, 448, 100),
        (4096, 65_536, 57_344, 9000),
    ] {
        for hash_bits in [0, 4, 32] {
            compare(
                &rt,
                rt.alloc(),
                one_unit(prog, erase),
                room,
                most,
                hash_bits,
            )?;
        }
    }
    Ok(())
}
