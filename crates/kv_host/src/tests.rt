use crate::{Host, HostFault, MemHost};
use std::alloc::Global;
use std::test::Fail;

/// A name of 64 bytes, and one of 65.
const LONGEST: &str = "0123456789abcdef0123456789abcdef0123456789abcdef0123456789abcdef";

const TOO_LONG: &str = "0123456789abcdef0123456789abcdef0123456789abcdef0123456789abcdef0";

/// A read, and what it must answer: `bytes` where there is no refusal.
#[derive(Drop)]
struct Read<'a> {
    name: &'a str,
    limit: u32,
    refusal: Option<HostFault>,
    bytes: &'a [u8],
}

/// A file that is read whole.
fn whole<'a>(name: &'a str, limit: u32, bytes: &'a [u8]) -> Read<'a> {
    let refusal = None;
    Read {
        name,
        limit,
        refusal,
        bytes,
    }
}

fn refused<'a>(name: &'a str, limit: u32, fault: HostFault) -> Read<'a> {
    let refusal = Some(fault);
    Read {
        name,
        limit,
        refusal,
        bytes: b"",
    }
}

/// Whether the host answers the read so, through the bound alone.
fn answers<H: Host>(host: &mut H, read: &Read<'_>, out: &mut Vec<u8>) -> bool {
    let refusal = host.read_file(read.name, read.limit, out).err();
    refusal == read.refusal && out.as_slice() == read.bytes
}

fn host_with(alloc: Global, failing: &[u32], room: u32) -> Result<MemHost, HostFault> {
    match failing.to_vec(alloc) {
        Ok(failing) => MemHost::new(alloc, failing, room),
        Err(_) => Err(HostFault::Memory),
    }
}

#[test]
fn a_read_answers_the_file_up_to_its_limit(rt: HostRuntime) -> Result<(), Fail> {
    let alloc = rt.alloc();
    let mut host = host_with(alloc, &[], 100)?;
    host.put_file("p", b"abc")?;
    host.put_file("empty", b"")?;
    let mut out = b"old".to_vec(alloc)?;
    let reads = [
        whole("p", 3, b"abc"),
        refused("p", 2, HostFault::TooLong { length: 3 }),
        whole("p", 0xffff_ffff, b"abc"),
        refused("q", 3, HostFault::Absent),
        refused("", 3, HostFault::Absent),
        whole("empty", 0, b""),
    ];
    for read in &reads {
        assert!(rt; answers(&mut host, read, &mut out), "read {:?}", read.name);
    }
    Ok(())
}

#[test]
fn the_listed_calls_fail_and_change_nothing(rt: HostRuntime) -> Result<(), Fail> {
    let alloc = rt.alloc();
    let mut host = host_with(alloc, &[2, 4, 6], 100)?;
    let mut out = Vec::new(alloc);
    assert_eq!(rt; host.write_file("p", b"one"), Ok(()));
    assert_eq!(rt; host.read_file("p", 9, &mut out), Err(HostFault::Fault));
    assert_eq!(rt; host.print(b"text"), Ok(()));
    assert_eq!(rt; host.print(b"more"), Err(HostFault::Fault));
    assert_eq!(rt; host.put_file("q", b"two"), Ok(()), "it is not counted");
    assert_eq!(rt; host.read_file("p", 9, &mut out), Ok(()));
    assert_eq!(rt; out.as_slice(), b"one".as_slice());
    assert_eq!(rt; host.write_file("p", b"three"), Err(HostFault::Fault));
    assert_eq!(rt; host.file("p").unwrap_or(b""), b"one".as_slice());
    assert_eq!(rt; host.file("q").unwrap_or(b""), b"two".as_slice());
    assert_eq!(rt; host.printed(), b"text".as_slice());
    Ok(())
}

#[test]
fn room_and_places_run_out(rt: HostRuntime) -> Result<(), Fail> {
    let alloc = rt.alloc();
    let mut host = host_with(alloc, &[], 10)?;
    assert_eq!(rt; host.write_file(TOO_LONG, b""), Err(HostFault::Fault));
    for name in ["a", "b", "c", "d", "e", "f", "g", LONGEST] {
        assert_eq!(rt; host.write_file(name, b"1"), Ok(()));
    }
    assert_eq!(rt; host.write_file("ninth", b""), Err(HostFault::Fault));
    assert_eq!(rt; host.write_file("a", b"23"), Ok(()), "it has a place");
    assert_eq!(rt;
        host.write_file("a", b"4"),
        Err(HostFault::Fault),
        "no room is left"
    );
    assert_eq!(rt; host.print(b"5"), Err(HostFault::Fault), "no room is left");
    assert_eq!(rt; host.print(b""), Ok(()));
    assert_eq!(rt; host.file("a").unwrap_or(b""), b"23".as_slice());
    assert_eq!(rt; host.file(LONGEST).unwrap_or(b""), b"1".as_slice());
    Ok(())
}
