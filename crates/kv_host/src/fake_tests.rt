//! Tests over a runtime that notes its calls and refuses one of them.
use crate::{Host, HostFault, StdHost};
use std::alloc::Allocator;
use std::cell::Cell;
use std::fmt::Display;
use std::fs::{Metadata, OpenFile, OpenOptions, Permissions};
use std::io::{self, Empty, Error, ErrorKind, Read, Seek, SeekFrom, Write};
use std::rt::Files;

/// What is asked of the runtime.
#[derive(Clone, Copy, PartialEq, Eq)]
enum Step {
    Look = 1,
    OpenToWrite = 2,
    OpenToRead = 3,
    Remove = 4,
    Create = 5,
    Permit = 6,
    Write = 7,
    Sync = 8,
    Rename = 9,
}

/// What the runtime does. Each call is one more decimal digit of `noted`.
#[derive(Clone, Copy)]
struct Plan<'a> {
    noted: &'a Cell<u64>,
    /// The call with which `noted` is this number is refused.
    refused_at: u64,
    kind: ErrorKind,
    /// How many bytes a file takes at most in one write.
    takes: usize,
}

impl Plan<'_> {
    fn note(&self, step: Step) -> io::Result<()> {
        let noted = self.noted.get().wrapping_mul(10).wrapping_add(step as u64);
        self.noted.set(noted);
        if noted == self.refused_at {
            return Err(Error::from(self.kind));
        }
        Ok(())
    }
}

#[derive(Drop)]
struct Fake<'a> {
    plan: Plan<'a>,
}

#[derive(Drop)]
struct FakeFile<'a> {
    plan: Plan<'a>,
}

impl Read for FakeFile<'_> {
    fn read(&mut self, _buf: &mut [u8]) -> io::Result<usize> {
        Err(Error::from(ErrorKind::IsADirectory))
    }
}

impl Write for FakeFile<'_> {
    fn write(&mut self, buf: &[u8]) -> io::Result<usize> {
        self.plan.note(Step::Write)?;
        Ok(buf.len().min(self.plan.takes))
    }

    fn flush(&mut self) -> io::Result<()> {
        Ok(())
    }
}

impl Seek for FakeFile<'_> {
    fn seek(&mut self, _to: SeekFrom) -> io::Result<u64> {
        Ok(0)
    }
}

impl OpenFile for FakeFile<'_> {
    fn metadata(&self) -> io::Result<Metadata> {
        Ok(Metadata::of_file(0))
    }

    fn set_len(&self, _size: u64) -> io::Result<()> {
        Ok(())
    }

    fn sync_all(&self) -> io::Result<()> {
        self.plan.note(Step::Sync)
    }

    fn sync_data(&self) -> io::Result<()> {
        Ok(())
    }

    fn set_permissions(&self, _perm: Permissions) -> io::Result<()> {
        self.plan.note(Step::Permit)
    }
}

impl<'a> Files for Fake<'a> {
    type File = FakeFile<'a>;

    type Dir = Empty;

    fn open_file(&self, how: &OpenOptions, _path: &str) -> io::Result<FakeFile<'a>> {
        self.plan.note(if how.asks_create_new() {
            Step::Create
        } else if how.asks_write() {
            Step::OpenToWrite
        } else {
            Step::OpenToRead
        })?;
        Ok(FakeFile { plan: self.plan })
    }

    fn open_dir(&self, _path: &str) -> io::Result<Empty> {
        Ok(io::empty())
    }

    fn metadata(&self, _path: &str) -> io::Result<Metadata> {
        self.plan.note(Step::Look)?;
        Ok(Metadata::of_file(9))
    }

    fn symlink_metadata(&self, _path: &str) -> io::Result<Metadata> {
        Ok(Metadata::of_file(9))
    }

    fn copy(&self, _from: &str, _to: &str) -> io::Result<u64> {
        Ok(0)
    }

    fn rename(&self, _from: &str, _to: &str) -> io::Result<()> {
        self.plan.note(Step::Rename)
    }

    fn remove_file(&self, _path: &str) -> io::Result<()> {
        self.plan.note(Step::Remove)
    }

    fn create_dir(&self, _path: &str) -> io::Result<()> {
        Ok(())
    }

    fn remove_dir(&self, _path: &str) -> io::Result<()> {
        Ok(())
    }

    fn remove_dir_all<B: Allocator>(&self, _alloc: B, _path: &str) -> io::Result<()> {
        Ok(())
    }
}

impl Print for Fake<'_> {
    fn print<D: Display + Drop>(&self, _value: D) -> io::Result<()> {
        Ok(())
    }

    fn println<D: Display + Drop>(&self, _value: D) -> io::Result<()> {
        Ok(())
    }

    fn write_all(&self, _bytes: &[u8]) -> io::Result<()> {
        self.plan.note(Step::Write)
    }
}

const REFUSED: Result<(), HostFault> = Err(HostFault::Fault);

// The call that is refused, how many bytes a write takes, the answer, and all calls.
const WRITES: [(u64, usize, Result<(), HostFault>, u64); 12] = [
    (0, 5, Ok(()), 1_2_3_4_5_6_7_8_9_8),
    (1, 5, REFUSED, 1),
    (1_2, 5, REFUSED, 1_2),
    (1_2_3, 5, REFUSED, 1_2_3),
    (1_2_3_4, 5, Ok(()), 1_2_3_4_5_6_7_8_9_8),
    (1_2_3_4_5, 5, REFUSED, 1_2_3_4_5),
    (1_2_3_4_5_6, 5, REFUSED, 1_2_3_4_5_6_4),
    (1_2_3_4_5_6_7, 5, REFUSED, 1_2_3_4_5_6_7_4),
    (1_2_3_4_5_6_7_8, 5, REFUSED, 1_2_3_4_5_6_7_8_4),
    (1_2_3_4_5_6_7_8_9, 5, REFUSED, 1_2_3_4_5_6_7_8_9_4),
    (1_2_3_4_5_6_7_8_9_8, 5, REFUSED, 1_2_3_4_5_6_7_8_9_8),
    (0, 4, REFUSED, 1_2_3_4_5_6_7_4),
];

#[test]
fn a_file_is_written_and_synced_before_it_takes_the_name(rt: HostRuntime) {
    for (refused_at, takes, answer, calls) in WRITES {
        let noted = Cell::new(0u64);
        let kind = ErrorKind::StorageFull;
        let plan = Plan {
            noted: &noted,
            refused_at,
            kind,
            takes,
        };
        let fake = Fake { plan };
        let mut host = StdHost::new(&fake);
        assert_eq!(rt;
            host.write_file("image", b"bytes"),
            answer,
            "refused: {refused_at}"
        );
        assert_eq!(rt; noted.get(), calls, "refused: {refused_at}");
    }
}

#[test]
fn a_new_file_is_made_without_the_permissions_of_an_old_one(rt: HostRuntime) {
    let noted = Cell::new(0u64);
    let (refused_at, kind, takes) = (1, ErrorKind::NotFound, 5);
    let plan = Plan {
        noted: &noted,
        refused_at,
        kind,
        takes,
    };
    let fake = Fake { plan };
    let mut host = StdHost::new(&fake);
    assert_eq!(rt; host.write_file("image", b"bytes"), Ok(()));
    assert_eq!(rt; noted.get(), 1_3_4_5_7_8_9_8);
}

const REFUSALS: [(ErrorKind, HostFault); 4] = [
    (ErrorKind::NotFound, HostFault::Absent),
    (ErrorKind::PermissionDenied, HostFault::Fault),
    (ErrorKind::NotADirectory, HostFault::Fault),
    (ErrorKind::OutOfMemory, HostFault::Fault),
];

#[test]
fn only_what_is_not_found_is_absent(rt: HostRuntime) {
    for (kind, refusal) in REFUSALS {
        let noted = Cell::new(0u64);
        let plan = Plan {
            noted: &noted,
            refused_at: 3,
            kind,
            takes: 0,
        };
        let fake = Fake { plan };
        let mut host = StdHost::new(&fake);
        let mut out = Vec::new(rt.alloc());
        assert_eq!(rt; host.read_file("image", 9, &mut out), Err(refusal));
        assert_eq!(rt; noted.get(), 3);
    }
}

#[test]
fn bytes_are_printed_in_one_call(rt: HostRuntime) {
    for (refused_at, answer) in [(0, Ok(())), (7, Err(HostFault::Fault))] {
        let noted = Cell::new(0u64);
        let kind = ErrorKind::BrokenPipe;
        let plan = Plan {
            noted: &noted,
            refused_at,
            kind,
            takes: 0,
        };
        let fake = Fake { plan };
        let mut host = StdHost::new(&fake);
        assert_eq!(rt; host.print(b"text"), answer);
        assert_eq!(rt; noted.get(), 7);
    }
}
